//! The log of a package, as it is kept.

ghost use Rattle.std.specs.Prelude.{◌≡◌, ◌≤◌, Ok, None, IfOk, IfErr, IfSome, option_map};
ghost use Rattle.warg_info.specs.Info.{IsSoundPackage};
ghost use Rattle.warg_log.specs.Places.{release_views};
ghost use Rattle.warg_store.specs.Entry.{entry_of};
ghost use Rattle.warg_store.specs.Held.{Tells, named_info};
ghost use Rattle.warg_assemble.specs.Known.{Known, registry_of};
ghost use Rattle.warg_assemble.specs.Parts.{releases_in};
ghost use Rattle.warg_learn.specs.Recalled.{IsKeptFault, IsRecalled, IsUnkept, IsUnrecalled, KeptLog, kept_entry};
ghost use Rattle.warg_learn.specs.Seen.{seen, tells};
ghost use Rattle.warg_learn.specs.Stored.{KnowsNames, KnowsRegistries};

use crate::error::LearnError;
use crate::learner::Learner;
use crate::log::releases_of;
use crate::updated::note_registry;
use std::alloc::Global;
use warg_api::Link;
use warg_assemble::ContentReader;
use warg_fetch::{FetchError, registry_for};
use warg_hash::PackageName;
use warg_hint::Decide;
use warg_info::PackageInfo;
use warg_log::{Release, Verifier};
use warg_store::{ContentStorage, NamespaceMapStorage, RegistryStorage};
use warg_url::RegistryDomain;

/// What is kept of a package.
#[derive(Debug, Drop)]
pub struct KeptPackage {
    /// The name of the registry that has it, which the home registry has not.
    pub registry: Option<RegistryDomain>,
    /// Its log, where one is kept.
    pub info: Option<PackageInfo>,
}

/// What is kept of a package, under the registry that has it. Nothing that is held changes.
pub fn load_kept<R: RegistryStorage, N: NamespaceMapStorage>(
    alloc: Global,
    registries: &mut R,
    namespaces: &mut N,
    name: &PackageName,
) -> Result<KeptPackage, FetchError>
    ensures registries_never_fall { R.faults registries.old ≤ R.faults registries.new }
    ensures names_never_fall { N.faults namespaces.old ≤ N.faults namespaces.new }
    ensures kept { IfSome (R.told registries.old) (Tells (R.told registries.new)) }
    ensures names_kept { N.told namespaces.new ≡ N.told namespaces.old }
    ensures under { IfOk result (λ kept. (known : Known) → KnowsRegistries (R.told registries.old) known
        → KnowsNames (N.told namespaces.old) known → kept.registry ≡ registry_of known name.now) }
    ensures found { IfOk result (λ kept. (known : Known) → KnowsRegistries (R.told registries.old) known
        → KnowsNames (N.told namespaces.old) known → IfSome (R.told registries.old) (λ held.
        kept_entry known name.now held ≡ entry_of (option_map named_info kept.info))) }
    ensures sound { IfOk result (λ kept. IfSome kept.info IsSoundPackage) }
    ensures name { IfOk result (λ kept. IfSome kept.info (λ info. info.name ≡ name.now)) }
    ensures fault { IfErr result (λ e. (known : Known) → KnowsRegistries (R.told registries.old) known
        → KnowsNames (N.told namespaces.old) known → IsKeptFault known name.now e
        (record { before = R.faults registries.old; after = R.faults registries.new; told = R.told registries.old })
        (record {
          before = N.faults namespaces.old;
          after = N.faults namespaces.new;
          told = N.told namespaces.old;
        })) }
{
    let registry = registry_for(alloc, registries, namespaces, name.namespace())?;
    let info = registries.load_package(alloc, registry.as_ref(), name)?;
    Ok(KeptPackage { registry, info })
}

impl<
    L: Link,
    R: RegistryStorage,
    C: ContentStorage,
    N: NamespaceMapStorage,
    V: Verifier,
    D: Decide,
    K: ContentReader,
> Learner<L, R, C, N, V, D, K> {
    /// The releases in the log of a package that is kept, where one is. The package counts as updated under its
    /// registry.
    pub fn recall_log(
        &mut self,
        alloc: Global,
        name: &PackageName,
    ) -> Result<Option<Vec<Release>>, LearnError<K::Refusal>>
        ensures recalled { IfOk result (λ found. IfSome found (λ releases. (k : KeptLog)
            × (k.name ≡ name.now) × (releases_in k.log ≡ release_views releases.items)
            × IsRecalled
            (seen (tells V.good L.told L.faults R.told R.faults C.told C.faults N.told N.faults) self.old)
            (seen (tells V.good L.told L.faults R.told R.faults C.told C.faults N.told N.faults) self.new) k)) }
        ensures unkept { result ≡ Ok None → IsUnkept
            (seen (tells V.good L.told L.faults R.told R.faults C.told C.faults N.told N.faults) self.old)
            (seen (tells V.good L.told L.faults R.told R.faults C.told C.faults N.told N.faults) self.new) name.now }
        ensures refused { IfErr result (λ e. IsUnrecalled
            (seen (tells V.good L.told L.faults R.told R.faults C.told C.faults N.told N.faults) self.old)
            (seen (tells V.good L.told L.faults R.told R.faults C.told C.faults N.told N.faults) self.new) name.now e) }
    {
        let key = name.try_clone(alloc)?;
        let kept = load_kept(alloc, &mut self.registries, &mut self.namespaces, name)?;
        let KeptPackage { registry, info } = kept;
        let Some(info) = info else {
            return Ok(None);
        };
        let releases = releases_of(alloc, &info)?;
        note_registry(&mut self.updated, key, registry)?;
        Ok(Some(releases))
    }
}
