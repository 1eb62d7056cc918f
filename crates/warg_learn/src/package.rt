//! The logs of packages, as they are answered.

ghost use Rattle.std.specs.Prelude.{IfOk, IfErr};
ghost use Rattle.warg_info.specs.Info.{IsSoundPackage};
ghost use Rattle.warg_assemble.specs.Known.{Known};
ghost use Rattle.warg_learn.specs.Packages.{IsNotUpdated, IsPackageLog, IsPackageLogFault, IsUpdatedLog};
ghost use Rattle.warg_learn.specs.Seen.{IsKnown, seen, tells};
ghost use Rattle.warg_learn.specs.Stored.{IsOwnStore};

use crate::kept::{KeptPackage, load_kept};
use crate::learner::Learner;
use crate::updated::note_registry;
use std::alloc::Global;
use warg_api::Link;
use warg_assemble::ContentReader;
use warg_fetch::{FetchError, domain_copy};
use warg_hash::PackageName;
use warg_hint::Decide;
use warg_info::PackageInfo;
use warg_log::Verifier;
use warg_store::{ContentStorage, NamespaceMapStorage, RegistryStorage};

impl<
    L: Link,
    R: RegistryStorage,
    C: ContentStorage,
    N: NamespaceMapStorage,
    V: Verifier,
    D: Decide,
    K: ContentReader,
> Learner<L, R, C, N, V, D, K> {
    /// The log of a package by an update, which begins with no log of it. It is kept from then on, and the package counts as
    /// updated under its registry. The pages that were asked for are no longer left.
    pub fn fetch_package(
        &mut self,
        alloc: Global,
        name: &PackageName,
    ) -> Result<PackageInfo, FetchError>
        ensures updated { IfOk result (IsUpdatedLog L.Steps K.Reads
            (seen (tells V.good L.told L.faults R.told R.faults C.told C.faults N.told N.faults) self.old)
            (seen (tells V.good L.told L.faults R.told R.faults C.told C.faults N.told N.faults) self.new)
            name.now) }
        ensures sound { IfOk result IsSoundPackage }
        ensures refused { IfErr result (IsNotUpdated L.Steps D.said K.Refuses
            (seen (tells V.good L.told L.faults R.told R.faults C.told C.faults N.told N.faults) self.old)
            (seen (tells V.good L.told L.faults R.told R.faults C.told C.faults N.told N.faults) self.new) name.now) }
        ensures own { (known : Known)
            → IsKnown (seen (tells V.good L.told L.faults R.told R.faults C.told C.faults N.told N.faults) self.old)
            known
            → IsOwnStore (V.good self.old.verifier) (R.told self.new.registries) }
    {
        let key = name.try_clone(alloc)?;
        let update = self.update_package(alloc, name)?;
        let registry = domain_copy(alloc, &update.info.registry)?;
        note_registry(&mut self.updated, key, registry)?;
        self.pages_left = update.pages_left;
        Ok(update.info)
    }

    /// The log of a package that is kept, or where none is, that of an update.
    pub fn package(&mut self, alloc: Global, name: &PackageName) -> Result<PackageInfo, FetchError>
        ensures found { IfOk result (IsPackageLog L.Steps K.Reads
            (seen (tells V.good L.told L.faults R.told R.faults C.told C.faults N.told N.faults) self.old)
            (seen (tells V.good L.told L.faults R.told R.faults C.told C.faults N.told N.faults) self.new)
            name.now) }
        ensures sound { IfOk result IsSoundPackage }
        ensures refused { IfErr result (IsPackageLogFault L.Steps D.said K.Refuses
            (seen (tells V.good L.told L.faults R.told R.faults C.told C.faults N.told N.faults) self.old)
            (seen (tells V.good L.told L.faults R.told R.faults C.told C.faults N.told N.faults) self.new) name.now) }
        ensures own { (known : Known)
            → IsKnown (seen (tells V.good L.told L.faults R.told R.faults C.told C.faults N.told N.faults) self.old)
            known
            → IsOwnStore (V.good self.old.verifier) (R.told self.new.registries) }
    {
        let kept = load_kept(alloc, &mut self.registries, &mut self.namespaces, name)?;
        let KeptPackage { registry: _, info } = kept;
        match info {
            Some(info) => Ok(info),
            None => self.fetch_package(alloc, name),
        }
    }
}
