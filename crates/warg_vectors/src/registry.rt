//! Registries, and the contents of their releases.

ghost use Rattle.std.specs.Prelude.{◌≡◌, ◌≢◌, ◌++◌, ◌∷◌, [], ℕ, Some, None, Err, true, length, map, take, find, slice_get, bytes_eq, IsSome, IfOk, IfErr, IfSome, OnOk, OnErr, option_map, option_copied};
ghost use Rattle.std.specs.List.{AllByRecursion, flat_map};
ghost use Rattle.std.specs.List.Sorted.{IsPermutation};
ghost use Rattle.sha2.specs.Sha256.{sha256};
ghost use Rattle.semver.specs.Grammar.{IsValid};
ghost use Rattle.semver.specs.Identifiers.{parts_of};
ghost use Rattle.warg_model.specs.Held.{Held, AcceptsSigned, release_in, content_in as digest_in, signatures_of, with_release, with_yank, opened as held_opened};
ghost use Rattle.warg_model.specs.Growths.{IsGrowthOf};
ghost use Rattle.warg_model.specs.Signatures.{accepted_of};
ghost use Rattle.warg_model.specs.State.{held};
ghost use Rattle.warg_model.specs.declared.error.ModelError.TheVariants.{ReleaseAgain, NotReleased, BadVersion, Memory as WantsMemory};
ghost use Rattle.warg_vectors.specs.Named.{key_of as signing_key, same_name};
ghost use Rattle.warg_vectors.specs.World.{registry_in, place_in, content_in, mentioned as mentioned_in, changed, kept as kept_in, published, yanked, grown, grown_one, AreGrowthsOf, signatures_in};
ghost use Rattle.warg_vectors.specs.State.{named_view, content_view, world, IsSoundNamed, IsSound};

use crate::key::{key_of, signature_of};
use http_header::HeaderValue;
use semver::Version;
use std::alloc::Global;
use warg_hash::{AnyHash, PackageName};
use warg_log::ListedVerifier;
use warg_model::laws::what_is_listed_is_accepted;
use warg_model::{Growth, ModelError, ModelRegistry as OneRegistry, RegistryHashes};
use warg_record::{PublicKey, Signature};
use warg_url::RegistryDomain;
use warg_values::{Memory, Sequence};

/// One of the registries.
#[derive(Debug, Drop)]
pub struct NamedRegistry {
    /// Its name, none of the home registry.
    pub name: Option<RegistryDomain>,
    /// The registry.
    pub registry: OneRegistry,
    /// The hashes of its records below its last checkpoint, where it has one.
    pub hashes: Option<RegistryHashes>,
}

/// A content of a release.
#[derive(Debug, Drop)]
pub struct Content {
    /// Its digest.
    pub digest: AnyHash,
    /// Its bytes.
    pub bytes: Sequence<u8>,
}

/// Registries in memory, and the contents of their releases. They are a link, which never fails.
///
/// Registries are numbered from 0 in the order in which they are first mentioned. The home registry has no name, and a
/// request means it where it names none.
#[derive(Debug, Drop)]
pub struct ModelRegistry {
    /// The registries, in the order of their numbers.
    registries: Vec<NamedRegistry>,
    /// The contents, no two with one digest.
    contents: Vec<Content>,
}

/// Whether a registry's name is this one, or it has none where none is given.
fn has_name(named: &NamedRegistry, name: Option<&[u8]>) -> bool
    ensures { result ≡ same_name named.now.name (option_copied name.entry) }
{
    match (&named.name, name) {
        (Some(own), Some(name)) => own.as_str().as_bytes() == name,
        (None, None) => true,
        (Some(_), None) => false,
        (None, Some(_)) => false,
    }
}

/// The registry with this name.
fn registry_named<'a>(
    registries: &'a [NamedRegistry],
    name: Option<&[u8]>,
) -> Option<&'a NamedRegistry>
    ensures { option_map (λ r. r.now) result
        ≡ find (λ r. same_name r.name (option_copied name.entry)) registries.now }
{
    for named in registries {
        if has_name(named, name) {
            return Some(named);
        }
    }
    None
}

/// The place of the registry with this name.
fn place_of(registries: &[NamedRegistry], name: Option<&[u8]>) -> Option<usize>
    ensures { result ≡ place_in (map named_view registries.now) (option_copied name.entry) }
{
    let mut place = 0;
    for named in registries {
        if has_name(named, name) {
            return Some(place);
        }
        place += 1;
    }
    None
}

/// The bytes of a registry's name.
fn bytes_of<'a>(name: Option<&'a RegistryDomain>) -> Option<&'a [u8]>
    ensures { option_copied result ≡ option_copied name.entry }
{
    match name {
        Some(name) => Some(name.as_str().as_bytes()),
        None => None,
    }
}

/// The name that a header gives.
fn name_in<'a>(header: Option<&'a HeaderValue>) -> Option<&'a [u8]>
    ensures { option_copied result ≡ option_map (λ v. v.now.bytes) header.entry }
{
    match header {
        Some(value) => Some(value.as_bytes()),
        None => None,
    }
}

/// A name of its own, equal to this one.
fn copy_of(alloc: Global, name: Option<&RegistryDomain>) -> Result<Option<RegistryDomain>, Memory>
    ensures { IfOk result (λ copy. copy ≡ option_copied name.entry) }
{
    match name {
        Some(name) => Ok(Some(name.try_clone(alloc)?)),
        None => Ok(None),
    }
}

/// A registry of a number, with a name, which has an operator's log of one record.
fn opened(
    alloc: Global,
    number: u64,
    name: Option<&RegistryDomain>,
) -> Result<NamedRegistry, ModelError>
    ensures view { IfOk result (λ r. named_view r
        ≡ record { name = option_copied name.entry; held = held_opened (signing_key number) }) }
    ensures sound { IfOk result (λ r. IsSoundNamed r) }
    ensures err { IfErr result (λ e. e ≡ WantsMemory) }
{
    let key = key_of(alloc, number)?;
    let signature = signature_of(alloc, number)?;
    Ok(NamedRegistry {
        name: copy_of(alloc, name)?,
        registry: OneRegistry::new(alloc, key, signature)?,
        hashes: None,
    })
}

/// The place of the registry with this name, which is the last one where it is mentioned for the first time. A refusal
/// changes nothing.
fn mention(
    alloc: Global,
    registries: &mut Vec<NamedRegistry>,
    name: Option<&RegistryDomain>,
) -> Result<usize, ModelError>
    ensures mentioned { IfOk result (λ _. map named_view registries.new.items
        ≡ mentioned_in (map named_view registries.old.items) (option_copied name.entry)) }
    ensures place { IfOk result (λ place.
        place_in (map named_view registries.new.items) (option_copied name.entry) ≡ Some place) }
    ensures sound { IfOk result (λ _. AllByRecursion IsSoundNamed registries.old.items
        → AllByRecursion IsSoundNamed registries.new.items) }
    ensures err { IfErr result (λ e. e ≡ WantsMemory) }
    ensures same { IfErr result (λ _. registries.new.items ≡ registries.old.items) }
{
    if let Some(place) = place_of(registries.as_slice(), bytes_of(name)) {
        return Ok(place);
    }
    let place = registries.len();
    let named = opened(alloc, place as u64, name)?;
    registries.push(named)?;
    Ok(place)
}

/// The content of a digest.
fn content_of<'a>(contents: &'a [Content], digest: &AnyHash) -> Option<&'a Content>
    ensures { option_map (λ c. c.now) result ≡ find (λ c. bytes_eq c.digest digest.now) contents.now }
{
    for content in contents {
        if content.digest == *digest {
            return Some(content);
        }
    }
    None
}

/// Keeps a content, unless there is one of its digest, and gives its digest. A refusal changes nothing.
fn keep(alloc: Global, contents: &mut Vec<Content>, content: &[u8]) -> Result<AnyHash, Memory>
    ensures kept { IfOk result (λ _. map content_view contents.new.items
        ≡ kept_in (map content_view contents.old.items) content.now) }
    ensures digest { IfOk result (λ digest. digest ≡ sha256 content.now) }
    ensures sound { IfOk result (λ _. AllByRecursion (λ c. c.digest ≡ sha256 c.bytes) contents.old.items
        → AllByRecursion (λ c. c.digest ≡ sha256 c.bytes) contents.new.items) }
    ensures same { IfErr result (λ _. contents.new.items ≡ contents.old.items) }
{
    let digest = AnyHash::sha256_of(content);
    if content_of(contents.as_slice(), &digest).is_some() {
        return Ok(digest);
    }
    let bytes = Sequence::from_vec(Vec::from_slice(alloc, content)?);
    contents.push(Content { digest, bytes })?;
    Ok(digest)
}

/// Publishes a version of a package in a registry.
fn publish_in(
    alloc: Global,
    named: &mut NamedRegistry,
    name: &PackageName,
    version: &Version,
    digest: &AnyHash,
) -> Result<(), ModelError>
    ensures published { OnOk result (named_view named.new ≡ record (named_view named.old) {
      held = with_release (named_view named.old).held name.now (parts_of version.now) digest.now;
    }) }
    ensures absent { OnOk result
        (release_in (named_view named.old).held name.now (parts_of version.now) ≡ None) }
    ensures valid { OnOk result (IsValid (parts_of version.now)) }
    ensures sound { IsSoundNamed named.old → IsSoundNamed named.new }
    ensures again { (result ≡ Err ReleaseAgain)
        → IsSome (release_in (named_view named.old).held name.now (parts_of version.now)) }
    ensures bad_version { (result ≡ Err BadVersion) → IsValid (parts_of version.now) → ⊥ }
    ensures no_other { result ≢ Err NotReleased }
    ensures same { OnErr result (named_view named.new ≡ named_view named.old) }
{
    named.registry.publish(alloc, name, version, digest)
}

/// Yanks a version of a package in a registry.
fn yank_in(
    alloc: Global,
    named: &mut NamedRegistry,
    name: &PackageName,
    version: &Version,
) -> Result<(), ModelError>
    ensures yanked { OnOk result (named_view named.new ≡ record (named_view named.old) {
      held = with_yank (named_view named.old).held name.now (parts_of version.now);
    }) }
    ensures standing { OnOk result
        (IsSome (digest_in (named_view named.old).held name.now (parts_of version.now))) }
    ensures sound { IsSoundNamed named.old → IsSoundNamed named.new }
    ensures not_released { (result ≡ Err NotReleased)
        → digest_in (named_view named.old).held name.now (parts_of version.now) ≡ None }
    ensures no_other { (result ≢ Err ReleaseAgain) × (result ≢ Err BadVersion) }
    ensures same { OnErr result (named_view named.new ≡ named_view named.old) }
{
    named.registry.yank(alloc, name, version)
}

/// Has a registry take up its growth.
fn take_up_in(named: &mut NamedRegistry, growth: Growth)
    ensures grown { IsGrowthOf (named_view named.old).held growth → named_view named.new
        ≡ grown_one (named_view named.old) }
    ensures sound { IsGrowthOf (named_view named.old).held growth → IsSoundNamed named.old → IsSoundNamed named.new }
{
    let hashes = named.registry.take_up(growth);
    named.hashes = Some(hashes);
}

/// The growth of each registry, in order.
fn growths_of(alloc: Global, registries: &[NamedRegistry]) -> Result<Vec<Growth>, Memory>
    ensures { IfOk result (λ growths. AreGrowthsOf (map named_view registries.now) growths.items) }
{
    let mut growths = Vec::with_capacity(alloc, registries.len())?;
    for named in registries {
        let growth = named.registry.growth(alloc)?;
        growths.push(growth)?;
    }
    Ok(growths)
}

/// Has each registry take up its growth, the last one first.
fn take_up_all(registries: &mut [NamedRegistry], mut growths: Vec<Growth>)
    ensures grown { AreGrowthsOf (map named_view registries.old) growths.items
        → map named_view registries.new
        ≡ map grown_one (map named_view registries.old) }
    ensures sound { AreGrowthsOf (map named_view registries.old) growths.items
        → AllByRecursion IsSoundNamed registries.old → AllByRecursion IsSoundNamed registries.new }
{
    while let Some(growth) = growths.pop() {
        let place = growths.len();
        if place < registries.len() {
            take_up_in(&mut registries[place], growth);
        }
    }
}

/// The signatures of all registries.
fn signatures_of_all(
    alloc: Global,
    registries: &[NamedRegistry],
) -> Result<Vec<(PublicKey, AnyHash, Signature)>, Memory>
    ensures { IfOk result (λ listed. listed.items
        ≡ flat_map (λ r. signatures_of r.held) (map named_view registries.now)) }
{
    let mut listed = Vec::new(alloc);
    for named in registries {
        named.registry.list_signatures(alloc, &mut listed)?;
    }
    Ok(listed)
}

impl ModelRegistry {
    /// No registry, and no content.
    pub fn new(alloc: Global) -> Self
        ensures world { world result ≡ record { registries = []; contents = [] } }
        ensures sound { IsSound result }
    {
        ModelRegistry {
            registries: Vec::new(alloc),
            contents: Vec::new(alloc),
        }
    }

    /// The content of a digest.
    pub(crate) fn content(&self, digest: &AnyHash) -> Option<&[u8]>
        ensures { option_copied result ≡ content_in (world self.now).contents digest.now }
    {
        match content_of(self.contents.as_slice(), digest) {
            Some(content) => Some(content.bytes.as_slice()),
            None => None,
        }
    }

    /// The registry that a header names, or the home registry.
    pub(crate) fn registry_called(&self, header: Option<&HeaderValue>) -> Option<&NamedRegistry>
        ensures held { option_map (λ r. held r.now.registry) result
            ≡ registry_in (world self.now).registries (option_map (λ v. v.now.bytes) header.entry) }
        ensures sound { IfSome result (λ r. IsSound self.now → IsSoundNamed r.now) }
    {
        registry_named(self.registries.as_slice(), name_in(header))
    }

    /// Publishes to a registry. A refusal may leave the registry mentioned and the content kept, behind what was there.
    fn publish(
        &mut self,
        alloc: Global,
        registry: Option<&RegistryDomain>,
        name: &PackageName,
        version: &Version,
        content: &[u8],
    ) -> Result<(), ModelError>
        ensures published { OnOk result (world self.new ≡ published (world self.old) (option_copied registry.entry)
            name.now (parts_of version.now) content.now) }
        ensures absent { OnOk result (IfSome (registry_in (world self.old).registries (option_copied registry.entry))
            (λ h. release_in h name.now (parts_of version.now) ≡ None)) }
        ensures valid { OnOk result (IsValid (parts_of version.now)) }
        ensures sound { IsSound self.old → IsSound self.new }
        ensures again { (result ≡ Err ReleaseAgain) → (h : Held)
            × (registry_in (world self.old).registries (option_copied registry.entry) ≡ Some h)
            × IsSome (release_in h name.now (parts_of version.now)) }
        ensures bad_version { (result ≡ Err BadVersion) → IsValid (parts_of version.now) → ⊥ }
        ensures no_other { result ≢ Err NotReleased }
        ensures registries { OnErr result (take (length (world self.old).registries) (world self.new).registries
            ≡ (world self.old).registries) }
        ensures contents { OnErr result (take (length (world self.old).contents) (world self.new).contents
            ≡ (world self.old).contents) }
    {
        let digest = keep(alloc, &mut self.contents, content)?;
        let place = mention(alloc, &mut self.registries, registry)?;
        publish_in(alloc, &mut self.registries[place], name, version, &digest)
    }

    /// Publishes a version of a package with its content, in the registry of a name or in the home registry. A refusal
    /// changes nothing.
    ///
    /// - `ReleaseAgain`: the package has the version, also where it is yanked.
    /// - `BadVersion`: the version has not the form of SemVer 2.0.
    pub fn publish_contents(
        &mut self,
        alloc: Global,
        registry: Option<&RegistryDomain>,
        name: &PackageName,
        version: &Version,
        content: &[u8],
    ) -> Result<(), ModelError>
        ensures published { OnOk result (world self.new ≡ published (world self.old) (option_copied registry.entry)
            name.now (parts_of version.now) content.now) }
        ensures absent { OnOk result (IfSome (registry_in (world self.old).registries (option_copied registry.entry))
            (λ h. release_in h name.now (parts_of version.now) ≡ None)) }
        ensures valid { OnOk result (IsValid (parts_of version.now)) }
        ensures sound { IsSound self.old → IsSound self.new }
        ensures again { (result ≡ Err ReleaseAgain) → (h : Held)
            × (registry_in (world self.old).registries (option_copied registry.entry) ≡ Some h)
            × IsSome (release_in h name.now (parts_of version.now)) }
        ensures bad_version { (result ≡ Err BadVersion) → IsValid (parts_of version.now) → ⊥ }
        ensures no_other { result ≢ Err NotReleased }
        ensures same { OnErr result (world self.new ≡ world self.old) }
    {
        let registries = self.registries.len();
        let contents = self.contents.len();
        match self.publish(alloc, registry, name, version, content) {
            Ok(()) => Ok(()),
            Err(e) => {
                self.registries.truncate(registries);
                self.contents.truncate(contents);
                Err(e)
            }
        }
    }

    /// Yanks a version of a package, in the registry of a name or in the home registry. A refusal changes nothing.
    ///
    /// `NotReleased` where the package has not released the version, or has yanked it.
    pub fn yank(
        &mut self,
        alloc: Global,
        registry: Option<&RegistryDomain>,
        name: &PackageName,
        version: &Version,
    ) -> Result<(), ModelError>
        ensures yanked { OnOk result (world self.new ≡ yanked (world self.old) (option_copied registry.entry)
            name.now (parts_of version.now)) }
        ensures standing { OnOk result ((h : Held)
            × (registry_in (world self.old).registries (option_copied registry.entry) ≡ Some h)
            × IsSome (digest_in h name.now (parts_of version.now))) }
        ensures sound { IsSound self.old → IsSound self.new }
        ensures not_released { (result ≡ Err NotReleased)
            → IfSome (registry_in (world self.old).registries (option_copied registry.entry))
            (λ h. digest_in h name.now (parts_of version.now) ≡ None) }
        ensures no_other { (result ≢ Err ReleaseAgain) × (result ≢ Err BadVersion) }
        ensures same { OnErr result (world self.new ≡ world self.old) }
    {
        let Some(place) = place_of(self.registries.as_slice(), bytes_of(registry)) else {
            return Err(ModelError::NotReleased);
        };
        yank_in(alloc, &mut self.registries[place], name, version)
    }

    /// Makes the present list of each registry its checkpoint. A refusal changes nothing.
    pub fn grow(&mut self, alloc: Global) -> Result<(), ModelError>
        ensures grown { OnOk result (world self.new ≡ grown (world self.old)) }
        ensures sound { IsSound self.old → IsSound self.new }
        ensures err { IfErr result (λ e. e ≡ WantsMemory) }
        ensures same { OnErr result (self.new ≡ self.old) }
    {
        let growths = growths_of(alloc, self.registries.as_slice())?;
        take_up_all(self.registries.as_mut_slice(), growths);
        Ok(())
    }

    /// A verifier of its own that lists each registry's signature of each text that it signed.
    pub fn verifier(&self, alloc: Global) -> Result<ListedVerifier, Memory>
        ensures listed { IfOk result (λ v. IsPermutation (signatures_in (world self.now)) v) }
        ensures accepts { IfOk result (λ v.
            AllByRecursion (λ r. AcceptsSigned (accepted_of v) r.held) (world self.now).registries) }
    {
        what_is_listed_is_accepted();
        let listed = signatures_of_all(alloc, self.registries.as_slice())?;
        Ok(ListedVerifier::new(listed))
    }
}
