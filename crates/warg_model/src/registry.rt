//! A registry.

ghost use Rattle.std.specs.Prelude.{◌≡◌, ◌≢◌, ◌↔◌, ◌++◌, ◌∷◌, [], ℕ, List, None, slice_get, bytes_eq, IsTrue, IsSome, is_some, option_and_then, option_copied, find, take, IfSome, IfOk, IfErr, OnOk, OnErr, Err, false, codes, map};
ghost use Rattle.std.specs.List.Sorted.{IsPermutation};
ghost use Rattle.semver.specs.Grammar.{IsValid};
ghost use Rattle.semver.specs.Identifiers.{parts_of};
ghost use Rattle.warg_hash.specs.Hash.{operator_log_id};
ghost use Rattle.warg_record.specs.Envelope.{Signed};
ghost use Rattle.warg_record.specs.Record.{Kind, Package, Release, IsEntry};
ghost use Rattle.warg_record.specs.View.{package_entry_view};
ghost use Rattle.warg_log.specs.Follows.{Follows};
ghost use Rattle.warg_log.specs.History.{releases_of, same_version};
ghost use Rattle.warg_log.specs.Rules.{entries_of, signed_text};
ghost use Rattle.warg_info.specs.Kept.{Kept, last_index};
ghost use Rattle.warg_update.specs.Proved.{IsSigned, checkpoint_text as text_of_checkpoint};
ghost use Rattle.warg_page.specs.Logs.{Logs};
ghost use Rattle.warg_exchange.specs.Views.{page_view};
ghost use Rattle.warg_ledger.specs.Honest.{HaveRecords};
ghost use Rattle.warg_ledger.specs.Registry.{IsRegistry, IsCheckpointOf, IsLogId, BringsBehind, IsPageOf, log_below};
ghost use Rattle.indexmap.specs.IndexMap.{IsUnique};
ghost use Rattle.warg_model.specs.Held.{registry_of, opened, package_records, with_record, with_log, with_release, with_yank, with_checkpoint, release_in, content_in, signatures_of, StartsAs, HasNoClash};
ghost use Rattle.warg_model.specs.State.{held, logged_view, IsSound};
ghost use Rattle.warg_model.specs.Hashes.{leaf_of, AreHashesBelow};
ghost use Rattle.warg_model.specs.Growths.{IsGrowthOf};
ghost use Rattle.warg_model.specs.Pages.{published_behind, asked_in, HasRecordAt, AreBehind, AreLists, IsLogFault, IsLogsFault, Names};
ghost use Rattle.warg_model.specs.Records.{records_of};
ghost use Rattle.warg_model.specs.Signatures.{signature_on, accepted_of};
ghost use Rattle.warg_model.specs.declared.error.ModelError.TheVariants.{ReleaseAgain, NotReleased, BadVersion, Memory as WantsMemory};

use crate::checkpoint::checkpoint_text;
use crate::error::{LogsError, ModelError};
use crate::growth::Growth;
use crate::hashes::RegistryHashes;
use crate::key::SigningKey;
use crate::laws::what_is_signed_is_accepted;
use crate::page::{place_named, push_behind};
use crate::record::{follow, next_record, signed_text_of};
use indexmap::IndexMap;
use semver::Version;
use std::alloc::{AllocError, Global};
use warg_exchange::{
    Checkpoint, FetchLogsRequest, FetchLogsResponse, PublishedRecord, SignedCheckpoint,
};
use warg_hash::{AnyHash, LogId, PackageName, RecordId};
use warg_log::laws::{lawful_record_by_record, releases_have_the_form};
use warg_log::{ListedVerifier, LogState};
use warg_proof::LogLeaf;
use warg_record::{
    Envelope, OperatorEntry, OperatorRecord, PackageEntry, PackageRecord, PublicKey, Signature,
    is_valid_version,
};
use warg_values::{Memory, Sequence, Text};

/// A record of a package's log, with the log's id.
#[derive(Debug, Drop)]
pub struct LoggedRecord {
    /// The id of the log.
    pub log_id: LogId,
    /// The record, with its signature.
    pub envelope: Envelope<PackageRecord>,
}

/// One registry: its records in one growing list, each in the log of its operator or of a package.
///
/// The record at a place, counted from 0, is of that second, and is called by that number in decimal.
#[derive(Debug, Drop)]
pub struct ModelRegistry {
    /// The operator's key.
    key: SigningKey,
    /// The one record of the operator's log.
    opening: Envelope<OperatorRecord>,
    /// The records of packages, from place 1 on.
    records: Vec<LoggedRecord>,
    /// The checkpoints that were made, the earliest first.
    checkpoints: Vec<Checkpoint>,
    /// The last checkpoint, with its signature.
    latest: Option<SignedCheckpoint>,
}

/// The text `sha256`, as Init names the hash algorithm.
fn algorithm(alloc: Global) -> Result<Text, Memory>
    ensures { IfOk result (λ text. text ≡ codes "sha256") }
{
    Text::copy_of(alloc, "sha256")
}

/// A version of its own, equal to this one.
fn copy_of(version: &Version) -> Result<Version, AllocError>
    ensures { IfOk result (λ copy. parts_of copy ≡ parts_of version.now) }
{
    version.clone()
}

/// Has the state of the log with this id follow a record, where it is one of that log.
fn follow_in(
    alloc: Global,
    key: &SigningKey,
    id: &LogId,
    state: &mut LogState<PackageEntry>,
    record: &LoggedRecord,
) -> Result<(), Memory>
    ensures { OnOk result ((log : List Signed) → Follows Package state.old log
        → Follows Package state.new (log ++ records_of id.now (logged_view record.now ∷ []))) }
{
    if record.log_id != *id {
        return Ok(());
    }
    follow(alloc, key, state, &record.envelope)
}

/// Whether a package's log has a version that is not yanked.
fn stands(log: &LogState<PackageEntry>, version: &Version) -> bool
    ensures { (records : List Signed) → Follows Package log.now records
        → result ≡ is_some (option_and_then (λ r. r.1)
        (find (λ r. same_version (parts_of version.now) r.0) (releases_of (entries_of records)))) }
{
    match log.release(version) {
        Some(release) => release.content.is_some(),
        None => false,
    }
}

/// The entry that releases a version with this content.
fn release_of(version: Version, content: &AnyHash) -> PackageEntry
    ensures value { package_entry_view result ≡ Release (parts_of version) content.now }
    ensures form { IsValid (parts_of version) → IsEntry Package (package_entry_view result) }
{
    content.bytes();
    PackageEntry::Release {
        version,
        content: *content,
    }
}

impl ModelRegistry {
    /// A registry with an operator's log of one record: an Init of the key, which has one signature for each text.
    pub fn new(alloc: Global, key: PublicKey, signature: Signature) -> Result<Self, ModelError>
        ensures held { IfOk result (λ r. held r ≡ opened (record { key = key; signature = signature })) }
        ensures sound { IfOk result (λ r. IsSound r) }
        ensures err { IfErr result (λ e. e ≡ WantsMemory) }
    {
        lawful_record_by_record();
        let key = SigningKey { key, signature };
        key.have_form();
        let init = OperatorEntry::Init {
            key: key.key.try_clone(alloc)?,
            hash_algorithm: algorithm(alloc)?,
        };
        let mut log = LogState::new(alloc);
        let opening = next_record(alloc, &key, &mut log, 0, init)?;
        Ok(ModelRegistry {
            key,
            opening,
            records: Vec::new(alloc),
            checkpoints: Vec::new(alloc),
            latest: None,
        })
    }

    /// What the log of a package says.
    fn state_of(&self, alloc: Global, name: &PackageName) -> Result<LogState<PackageEntry>, Memory>
        ensures { IfOk result (λ state. Follows Package state (package_records (held self.now) name.now)) }
    {
        let id = LogId::package_log(name);
        let mut state = LogState::new(alloc);
        for record in &self.records {
            follow_in(alloc, &self.key, &id, &mut state, record)?;
        }
        Ok(state)
    }

    /// Adds the next record of a package's log at the end, where the state is the log's. A refusal changes nothing.
    fn add(
        &mut self,
        alloc: Global,
        name: &PackageName,
        log: &mut LogState<PackageEntry>,
        entry: PackageEntry,
    ) -> Result<(), Memory>
        ensures added { OnOk result (Follows Package log.old (package_records (held self.old) name.now)
            → held self.new ≡ with_record (held self.old) name.now (package_entry_view entry)) }
        ensures follows { OnOk result (Follows Package log.old (package_records (held self.old) name.now)
            → Follows Package log.new (package_records (held self.new) name.now)) }
        ensures sound { OnOk result (Follows Package log.old (package_records (held self.old) name.now)
            → IsEntry Package (package_entry_view entry) → IsSound self.old → IsSound self.new) }
        ensures same { OnErr result (held self.new ≡ held self.old) }
    {
        lawful_record_by_record();
        let place = self.records.len() as u64 + 1;
        let envelope = next_record(alloc, &self.key, log, place, entry)?;
        let log_id = LogId::package_log(name);
        self.records.push(LoggedRecord { log_id, envelope })?;
        Ok(())
    }

    /// Has a package's log, of which this is the state, begin with an Init of the key. A refusal changes nothing.
    fn open(
        &mut self,
        alloc: Global,
        name: &PackageName,
        log: &mut LogState<PackageEntry>,
    ) -> Result<(), Memory>
        ensures opened { OnOk result (Follows Package log.old (package_records (held self.old) name.now)
            → held self.new ≡ with_log (held self.old) name.now) }
        ensures follows { OnOk result (Follows Package log.old (package_records (held self.old) name.now)
            → Follows Package log.new (package_records (held self.new) name.now)) }
        ensures sound { OnOk result (Follows Package log.old (package_records (held self.old) name.now)
            → IsSound self.old → IsSound self.new) }
        ensures same { OnErr result (held self.new ≡ held self.old) }
    {
        if log.head().is_some() {
            return Ok(());
        }
        self.key.have_form();
        let init = PackageEntry::Init {
            key: self.key.key.try_clone(alloc)?,
            hash_algorithm: algorithm(alloc)?,
        };
        self.add(alloc, name, log, init)
    }

    /// Adds a release to a package's log, of which this is the state, behind an Init of the key where it has no record
    /// yet. A refusal may leave the Init.
    fn add_release(
        &mut self,
        alloc: Global,
        name: &PackageName,
        log: &mut LogState<PackageEntry>,
        version: Version,
        content: &AnyHash,
    ) -> Result<(), Memory>
        ensures added { OnOk result (Follows Package log.old (package_records (held self.old) name.now)
            → held self.new ≡ with_release (held self.old) name.now (parts_of version) content.now) }
        ensures sound { OnOk result (Follows Package log.old (package_records (held self.old) name.now)
            → IsValid (parts_of version) → IsSound self.old → IsSound self.new) }
        ensures front { OnErr result (Follows Package log.old (package_records (held self.old) name.now)
            → StartsAs (held self.old) (held self.new)) }
    {
        self.open(alloc, name, log)?;
        self.add(alloc, name, log, release_of(version, content))
    }

    /// Publishes a version of a package, with the digest of its content: adds a release of it to the package's log,
    /// behind an Init of the key where the package is new. A refusal changes nothing.
    ///
    /// - `BadVersion`: the version has not the form of SemVer 2.0.
    /// - `ReleaseAgain`: the version was released before, and may be yanked since.
    pub fn publish(
        &mut self,
        alloc: Global,
        name: &PackageName,
        version: &Version,
        content: &AnyHash,
    ) -> Result<(), ModelError>
        ensures published { OnOk result (held self.new
            ≡ with_release (held self.old) name.now (parts_of version.now) content.now) }
        ensures absent { OnOk result (release_in (held self.old) name.now (parts_of version.now) ≡ None) }
        ensures valid { OnOk result (IsValid (parts_of version.now)) }
        ensures sound { IsSound self.old → IsSound self.new }
        ensures again { (result ≡ Err ReleaseAgain)
            → IsSome (release_in (held self.old) name.now (parts_of version.now)) }
        ensures bad_version { (result ≡ Err BadVersion) → ¬ IsValid (parts_of version.now) }
        ensures no_other { result ≢ Err NotReleased }
        ensures same { OnErr result (held self.new ≡ held self.old) }
    {
        if !is_valid_version(alloc, version)? {
            return Err(ModelError::BadVersion);
        }
        let mut log = self.state_of(alloc, name)?;
        if log.release(version).is_some() {
            return Err(ModelError::ReleaseAgain);
        }
        let copy = copy_of(version)?;
        let count = self.records.len();
        match self.add_release(alloc, name, &mut log, copy, content) {
            Ok(()) => Ok(()),
            Err(Memory) => {
                self.records.truncate(count);
                Err(ModelError::Memory)
            }
        }
    }

    /// Yanks a version of a package. A refusal changes nothing.
    ///
    /// `NotReleased` where the package has not released the version, or has yanked it.
    pub fn yank(
        &mut self,
        alloc: Global,
        name: &PackageName,
        version: &Version,
    ) -> Result<(), ModelError>
        ensures yanked { OnOk result (held self.new
            ≡ with_yank (held self.old) name.now (parts_of version.now)) }
        ensures standing { OnOk result (IsSome (content_in (held self.old) name.now (parts_of version.now))) }
        ensures sound { IsSound self.old → IsSound self.new }
        ensures not_released { (result ≡ Err NotReleased)
            → content_in (held self.old) name.now (parts_of version.now) ≡ None }
        ensures no_other { (result ≢ Err ReleaseAgain) × (result ≢ Err BadVersion) }
        ensures same { OnErr result (held self.new ≡ held self.old) }
    {
        releases_have_the_form();
        let mut log = self.state_of(alloc, name)?;
        if !stands(&log, version) {
            return Err(ModelError::NotReleased);
        }
        let yank = PackageEntry::Yank {
            version: copy_of(version)?,
        };
        self.add(alloc, name, &mut log, yank)?;
        Ok(())
    }

    /// Lists the signatures of the records of packages.
    fn list_records(
        &self,
        alloc: Global,
        listed: &mut Vec<(PublicKey, AnyHash, Signature)>,
    ) -> Result<(), Memory>
        ensures { OnOk result (listed.new.items ≡ listed.old.items
            ++ map (λ e. signature_on self.now.key (signed_text Package e.1.contents)) (held self.now).published) }
    {
        for record in &self.records {
            let text = signed_text_of(alloc, &record.envelope)?;
            listed.push(self.key.sign(alloc, text.as_slice())?)?;
        }
        Ok(())
    }

    /// Lists the signatures of the checkpoints that were made.
    fn list_checkpoints(
        &self,
        alloc: Global,
        listed: &mut Vec<(PublicKey, AnyHash, Signature)>,
    ) -> Result<(), Memory>
        ensures { OnOk result (listed.new.items ≡ listed.old.items
            ++ map (λ c. signature_on self.now.key (text_of_checkpoint c)) (held self.now).checkpoints) }
    {
        for checkpoint in &self.checkpoints {
            let text = checkpoint_text(alloc, checkpoint)?;
            listed.push(self.key.sign(alloc, text.as_bytes())?)?;
        }
        Ok(())
    }

    /// Lists the registry's one signature of each text that was signed behind those that are listed: of the records, and of
    /// the checkpoints that were made.
    pub fn list_signatures(
        &self,
        alloc: Global,
        listed: &mut Vec<(PublicKey, AnyHash, Signature)>,
    ) -> Result<(), Memory>
        ensures { OnOk result (listed.new.items ≡ listed.old.items ++ signatures_of (held self.now)) }
    {
        let opening = signed_text_of(alloc, &self.opening)?;
        listed.push(self.key.sign(alloc, opening.as_slice())?)?;
        self.list_records(alloc, listed)?;
        self.list_checkpoints(alloc, listed)?;
        Ok(())
    }

    /// A verifier of its own that lists the registry's one signature of each text that was signed: of each record, and
    /// of each checkpoint that was made. By it the registry is an honest one, unless two texts have one SHA-256.
    pub fn verifier(&self, alloc: Global) -> Result<ListedVerifier, Memory>
        ensures listed { IfOk result (λ v. IsPermutation (signatures_of (held self.now)) v) }
        ensures honest { IfOk result (λ v. IsSound self.now → HasNoClash (registry_of (held self.now))
            → IsRegistry (accepted_of v) (registry_of (held self.now))) }
        ensures signed { IfOk result (λ v. IsSound self.now → IfSome (held self.now).latest (λ c.
            IsSigned (accepted_of v)
            (log_below (registry_of (held self.now)) c.contents.log_length operator_log_id) c)) }
    {
        what_is_signed_is_accepted();
        let mut listed = Vec::new(alloc);
        self.list_signatures(alloc, &mut listed)?;
        Ok(ListedVerifier::new(listed))
    }

    /// The entries of the registry's log below a length, in order.
    fn leaves(&self, alloc: Global, length: usize) -> Result<Vec<LogLeaf>, Memory>
        ensures { IfOk result (λ leaves.
            leaves.items ≡ map leaf_of (take length (registry_of (held self.now)).entries)) }
    {
        let mut leaves = Vec::with_capacity(alloc, self.records.len() + 1)?;
        leaves.push(LogLeaf {
            log_id: LogId::operator_log(),
            record_id: RecordId::of(self.opening.contents.as_slice()),
        })?;
        for record in &self.records {
            leaves.push(LogLeaf {
                log_id: record.log_id,
                record_id: RecordId::of(record.envelope.contents.as_slice()),
            })?;
        }
        leaves.truncate(length);
        Ok(leaves)
    }

    /// The hashes of the registry's log and of its map below a length, all that its proofs are made of.
    ///
    /// They take the time of at most 256 hashes for each record, so whoever gives several proofs keeps them.
    pub fn hashes(&self, alloc: Global, length: usize) -> Result<RegistryHashes, Memory>
        ensures { IfOk result (λ h. AreHashesBelow (registry_of (held self.now)) length h) }
    {
        let leaves = self.leaves(alloc, length)?;
        Ok(RegistryHashes::new(alloc, leaves)?)
    }

    /// The growth by a checkpoint of the present list, signed by the key: of all its records, and of the second that is
    /// their number. The registry has it once it takes it up.
    pub fn growth(&self, alloc: Global) -> Result<Growth, Memory>
        ensures { IfOk result (IsGrowthOf (held self.now)) }
    {
        let length = self.records.len() + 1;
        let hashes = self.hashes(alloc, length)?;
        let Some(log_root) = hashes.log_root() else {
            // The log has a root of all its entries, so only memory can be wanting.
            return Err(Memory);
        };
        let contents = Checkpoint {
            log_length: length as u64,
            log_root,
            map_root: hashes.map_root(),
            timestamp: length as u64,
        };
        let latest = SignedCheckpoint {
            contents,
            key_id: self.key.key.id(),
            signature: self.key.signature.try_clone(alloc)?,
        };
        let mut checkpoints = Vec::from_slice(alloc, self.checkpoints.as_slice())?;
        checkpoints.push(contents)?;
        Ok(Growth {
            checkpoints,
            latest,
            hashes,
        })
    }

    /// Takes up a growth of the registry as it is, and gives the hashes of its records.
    pub fn take_up(&mut self, growth: Growth) -> RegistryHashes
        ensures grown { IsGrowthOf (held self.old) growth → held self.new ≡ with_checkpoint (held self.old) }
        ensures sound { IsGrowthOf (held self.old) growth → IsSound self.old → IsSound self.new }
        ensures hashes { result ≡ growth.hashes }
    {
        let Growth {
            checkpoints,
            latest,
            hashes,
        } = growth;
        self.checkpoints = checkpoints;
        self.latest = Some(latest);
        hashes
    }

    /// Makes the checkpoint of the present list, signed by the key: of all its records, and of the second that is their
    /// number. A refusal changes nothing.
    pub fn grow(&mut self, alloc: Global) -> Result<(), ModelError>
        ensures grown { OnOk result (held self.new ≡ with_checkpoint (held self.old)) }
        ensures sound { IsSound self.old → IsSound self.new }
        ensures err { IfErr result (λ e. e ≡ WantsMemory) }
        ensures same { OnErr result (held self.new ≡ held self.old) }
    {
        let growth = self.growth(alloc)?;
        self.take_up(growth);
        Ok(())
    }

    /// The checkpoint that was made last, where one was.
    pub fn checkpoint(&self) -> Option<&SignedCheckpoint>
        ensures value { option_copied result ≡ (held self.now).latest }
        ensures is { IsSound self.now
            → IfSome result (λ c. IsCheckpointOf (registry_of (held self.now)) c.now.contents) }
    {
        self.latest.as_ref()
    }

    /// The first records of packages, as many as that, or all.
    fn first(&self, count: usize) -> &[LoggedRecord]
        ensures { map logged_view result.now ≡ take count (held self.now).published }
    {
        if count < self.records.len() {
            &self.records[..count]
        } else {
            self.records.as_slice()
        }
    }

    /// What is published of the log with this id: its records below a length that stand behind a place, where one is
    /// given, in order, each with its place and with the text by which requests name it.
    pub fn records_behind(
        &self,
        alloc: Global,
        id: &LogId,
        length: usize,
        after: Option<u64>,
    ) -> Result<Vec<PublishedRecord>, Memory>
        ensures records { IfOk result (λ records. records.items
            ≡ published_behind id.now after 0 (take length (registry_of (held self.now)).entries)) }
        ensures brings { IfOk result (λ records. IsSound self.now → HasNoClash (registry_of (held self.now))
            → (kind : Kind) (before rest : List Kept) → IsLogId kind id.now
            → log_below (registry_of (held self.now)) length id.now ≡ before ++ rest → last_index before ≡ after
            → BringsBehind kind (log_below (registry_of (held self.now)) length id.now) before records.items false) }
    {
        let mut published = Vec::new(alloc);
        if length == 0 {
            return Ok(published);
        }
        let operator = LogId::operator_log();
        push_behind(
            alloc,
            &mut published,
            id,
            after,
            &operator,
            0,
            &self.opening,
        )?;
        let mut place = 1;
        for record in self.first(length - 1) {
            push_behind(
                alloc,
                &mut published,
                id,
                after,
                &record.log_id,
                place,
                &record.envelope,
            )?;
            place += 1;
        }
        Ok(published)
    }

    /// The id of the log of the record at a place, where there is one.
    fn log_at(&self, place: u64) -> Option<LogId>
        ensures { result ≡ slice_get (map (λ e. e.0) (registry_of (held self.now)).entries) place }
    {
        if place == 0 {
            return Some(LogId::operator_log());
        }
        let record = self.records.get(place as usize - 1)?;
        Some(record.log_id)
    }

    /// Whether the record at a place is one of the log with this id, below a length.
    fn has_record_at(&self, id: &LogId, length: usize, place: u64) -> bool
        ensures { IsTrue result ↔ HasRecordAt (registry_of (held self.now)) length id.now place }
    {
        if place >= length as u64 {
            return false;
        }
        match self.log_at(place) {
            Some(log_id) => log_id == *id,
            None => false,
        }
    }

    /// The records of a log behind the one that a token names.
    fn records_named(
        &self,
        alloc: Global,
        id: &LogId,
        length: usize,
        token: &Text,
    ) -> Result<Vec<PublishedRecord>, LogsError>
        ensures records { IfOk result (λ records.
            AreBehind (registry_of (held self.now)) length id.now (Some token.now) records.items) }
        ensures err { IfErr result (IsLogFault (registry_of (held self.now)) length (id.now, Some token.now)) }
    {
        let Some(place) = place_named(alloc, token)? else {
            return Err(LogsError::FetchTokenNotFound(token.try_clone(alloc)?));
        };
        if !self.has_record_at(id, length, place) {
            return Err(LogsError::FetchTokenNotFound(token.try_clone(alloc)?));
        }
        Ok(self.records_behind(alloc, id, length, Some(place))?)
    }

    /// The records of a log behind the one that a token names, or all of them where there is no token.
    fn records_asked(
        &self,
        alloc: Global,
        id: &LogId,
        length: usize,
        token: Option<&Text>,
    ) -> Result<Vec<PublishedRecord>, LogsError>
        ensures records { IfOk result (λ records.
            AreBehind (registry_of (held self.now)) length id.now (option_copied token.entry) records.items) }
        ensures err { IfErr result
            (IsLogFault (registry_of (held self.now)) length (id.now, option_copied token.entry)) }
    {
        if let Some(token) = token {
            return self.records_named(alloc, id, length, token);
        }
        let records = self.records_behind(alloc, id, length, None)?;
        if records.is_empty() {
            return Err(LogsError::LogNotFound(*id));
        }
        Ok(records)
    }

    /// The lists of packages' logs, each behind its token, of those that have a record behind it.
    fn lists_asked(
        &self,
        alloc: Global,
        length: usize,
        asked: &IndexMap<LogId, Option<Text>>,
    ) -> Result<IndexMap<LogId, Sequence<PublishedRecord>>, LogsError>
        ensures lists { IfOk result (λ listed.
            AreLists (registry_of (held self.now)) length asked.now.entries listed.entries) }
        ensures unique { IsUnique bytes_eq asked.now }
        ensures err { IfErr result (IsLogsFault (registry_of (held self.now)) length asked.now.entries) }
    {
        let mut listed = IndexMap::new(alloc);
        for (id, token) in asked {
            let records = self.records_asked(alloc, id, length, token.as_ref())?;
            if !records.is_empty() {
                listed.insert(*id, Sequence::from_vec(records))?;
            }
        }
        Ok(listed)
    }

    /// The one page of all records below a length behind those that a request names: of the operator's log, and of
    /// packages' logs in the order in which they are asked for.
    ///
    /// - `LogNotFound`: a log that is asked for from its start has no record below the length.
    /// - `FetchTokenNotFound`: a token names no record of its log below the length.
    pub fn page(
        &self,
        alloc: Global,
        request: &FetchLogsRequest,
    ) -> Result<FetchLogsResponse, LogsError>
        ensures more { IfOk result (λ page. page.more ≡ false) }
        ensures operator { IfOk result (λ page. AreBehind (registry_of (held self.now)) request.now.log_length
            operator_log_id request.now.operator page.operator) }
        ensures packages { IfOk result (λ page. AreLists (registry_of (held self.now)) request.now.log_length
            request.now.packages.entries page.packages.entries) }
        ensures is { IfOk result (λ page. IsSound self.now → HasNoClash (registry_of (held self.now))
            → (logs : Logs) → Names (registry_of (held self.now)) logs request.now
            → IsPageOf (registry_of (held self.now)) request.now.log_length logs (page_view page)) }
        ensures whole { IfOk result (λ _. (logs : Logs) → Names (registry_of (held self.now)) logs request.now
            → HaveRecords (registry_of (held self.now)) request.now.log_length logs) }
        ensures err { IfErr result
            (IsLogsFault (registry_of (held self.now)) request.now.log_length (asked_in request.now)) }
    {
        let length = request.log_length as usize;
        let operator = LogId::operator_log();
        let records = self.records_asked(alloc, &operator, length, request.operator.as_ref())?;
        let packages = self.lists_asked(alloc, length, &request.packages)?;
        Ok(FetchLogsResponse {
            more: false,
            operator: Sequence::from_vec(records),
            packages,
        })
    }
}
