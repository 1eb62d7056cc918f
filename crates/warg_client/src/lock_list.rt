//! The imports that the plans of packages have.

ghost use Rattle.std.specs.Prelude.{◌≡◌, ◌≢◌, [], List, fold, IfErr, OnErr, OnOk, map};
ghost use Rattle.warg_plan.specs.View.{entry_view, key_view};
ghost use Rattle.warg_plan.specs.Walk.{Entry};
ghost use Rattle.warg_assemble.specs.Known.{Known};
ghost use Rattle.warg_learn.specs.Seen.{IsKnown, tells};
ghost use Rattle.warg_learn.specs.Stored.{IsOwnStore};
ghost use Rattle.warg_client.specs.Assembled.{beginning};
ghost use Rattle.warg_client.specs.ClientError.TheVariants.{Memory as WantsMemory};
ghost use Rattle.warg_client.specs.LockList.{IsGrown, imports_among, imports_at, listed_in, with_import, with_plan};
ghost use Rattle.warg_client.specs.Packages.{IsPackagePlan, IsPackageSearchRefused};
ghost use Rattle.warg_client.specs.Shown.{assembly_of, registry_of, seen_by, settings_of, verifier_of};

use crate::client::Client;
use indexmap::IndexSet;
use std::alloc::Global;
use warg_api::Link;
use warg_complete::ClientError;
use warg_hint::Decide;
use warg_info::PackageInfo;
use warg_log::Verifier;
use warg_names::Import;
use warg_plan::{PlanEntry, PlanKey};
use warg_store::{ContentStorage, NamespaceMapStorage, RegistryStorage};
use warg_values::Memory;

/// What the imports of plans ask for, each once.
#[derive(Drop)]
pub struct LockListBuilder {
    /// It, in the order in which it was found.
    pub lock_list: IndexSet<Import>,
}

impl LockListBuilder {
    /// A list of no imports.
    pub fn new(alloc: Global) -> Self
        ensures { listed_in result ≡ [] }
    {
        LockListBuilder {
            lock_list: IndexSet::new(alloc),
        }
    }

    /// Adds what the import of a key asks for, where nothing that is listed asks for the same.
    fn add(&mut self, alloc: Global, key: &PlanKey) -> Result<(), Memory>
        ensures added { OnOk result (listed_in self.new
            ≡ fold with_import (listed_in self.old) (imports_at (key_view key.now))) }
        ensures unchanged { OnErr result (listed_in self.new ≡ listed_in self.old) }
    {
        if let PlanKey::Parsed(import) = key {
            self.lock_list.insert(import.try_clone(alloc)?)?;
        }
        Ok(())
    }

    /// Adds what the imports of entries ask for, in order.
    fn add_all(&mut self, alloc: Global, entries: &[PlanEntry]) -> Result<(), Memory>
        ensures added { OnOk result (listed_in self.new
            ≡ fold with_import (listed_in self.old) (imports_among (map entry_view entries.now))) }
        ensures grows { IsGrown (listed_in self.old) (listed_in self.new) }
    {
        for entry in entries {
            self.add(alloc, &entry.key)?;
        }
        Ok(())
    }

    /// Adds what the imports of a package's plan ask for, those of what a package needs before those of the package.
    ///
    /// The plan is that of `Client::lock_component`. A refusal leaves the list as it was; want of memory may have added
    /// some of the imports.
    pub fn build_list<
        L: Link,
        R: RegistryStorage,
        C: ContentStorage,
        N: NamespaceMapStorage,
        V: Verifier,
        D: Decide,
    >(
        &mut self,
        alloc: Global,
        client: &mut Client<L, R, C, N, V, D>,
        info: &PackageInfo,
    ) -> Result<(), ClientError>
        ensures listed { OnOk result ((es : List Entry)
            × IsPackagePlan L.Steps
            (beginning (settings_of client.old)
            (seen_by (tells V.good L.told L.faults R.told R.faults C.told C.faults N.told N.faults) client.old))
            (seen_by (tells V.good L.told L.faults R.told R.faults C.told C.faults N.told N.faults) client.new)
            info.now.name es
            × (listed_in self.new ≡ with_plan (listed_in self.old) es)) }
        ensures grows { IsGrown (listed_in self.old) (listed_in self.new) }
        ensures cause { IfErr result (λ e. IsPackageSearchRefused L.Steps
            (beginning (settings_of client.old)
            (seen_by (tells V.good L.told L.faults R.told R.faults C.told C.faults N.told N.faults) client.old))
            (seen_by (tells V.good L.told L.faults R.told R.faults C.told C.faults N.told N.faults) client.new)
            D.said info.now.name e) }
        ensures same_list { IfErr result (λ e. (e ≢ WantsMemory) → listed_in self.new ≡ listed_in self.old) }
        ensures own { (known : Known)
            → IsKnown (beginning (settings_of client.old)
            (seen_by (tells V.good L.told L.faults R.told R.faults C.told C.faults N.told N.faults) client.old)) known
            → IsOwnStore (V.good (verifier_of client.old)) (R.told (registry_of client.new)) }
        ensures same_settings { settings_of client.new ≡ settings_of client.old }
        ensures same_assembly { assembly_of client.new ≡ assembly_of client.old }
    {
        client.restart(alloc);
        let plan = client.find_package_plan(alloc, &info.name)?;
        // The last entry is the root, which no import has.
        let count = plan.entries.len().saturating_sub(1);
        self.add_all(alloc, &plan.entries[..count])?;
        Ok(())
    }
}
