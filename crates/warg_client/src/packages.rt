//! What is answered of a package: its log, or the component that its plan makes.

ghost use Rattle.std.specs.Prelude.{◌≡◌, [], List, ℕ, false, IfOk, IfErr};
ghost use Rattle.comp_shape.specs.Refusal.{IsRefused};
ghost use Rattle.warg_info.specs.Info.{IsSoundPackage};
ghost use Rattle.warg_names.specs.Import.{dependency};
ghost use Rattle.warg_plan.specs.Keys.{Parsed as ParsedKey};
ghost use Rattle.warg_plan.specs.View.{key_view, plan_view};
ghost use Rattle.warg_plan.specs.Walk.{Entry};
ghost use Rattle.warg_assemble.specs.Known.{Known};
ghost use Rattle.warg_learn.specs.Groups.{AreNotUpdated, AreUpdatedLogs};
ghost use Rattle.warg_learn.specs.Packages.{IsNotUpdated, IsPackageLog, IsPackageLogFault, IsUpdatedLog};
ghost use Rattle.warg_learn.specs.Recalled.{IsRecalledOrLearnt, taught};
ghost use Rattle.warg_learn.specs.Search.{Finds};
ghost use Rattle.warg_learn.specs.Seen.{IsKnown, Telling, tells};
ghost use Rattle.warg_learn.specs.Stored.{IsOwnStore};
ghost use Rattle.warg_compose.specs.Linked.{IsComposeFault, IsLockFault, IsPlanLinked, IsPlanLocked};
ghost use Rattle.warg_compose.specs.Read.{IsComponent};
ghost use Rattle.warg_compose.specs.Wired.{AreWired};
ghost use Rattle.warg_client.specs.Assembled.{beginning};
ghost use Rattle.warg_client.specs.Packages.{IsOfFetch, IsPackageFault, IsPackagePlan, IsPackageSearchRefused, package_wanted};
ghost use Rattle.warg_client.specs.Shown.{assembly_of, registry_of, seen_by, settings_of, verifier_of};

use crate::client::Client;
use compose_config::Config;
use indexmap::IndexMap;
use semver::VersionReq;
use std::alloc::Global;
use warg_api::Link;
use warg_complete::ClientError;
use warg_compose::laws::plans_over_components_are_wired;
use warg_compose::{compose_plan, lock_plan};
use warg_hash::PackageName;
use warg_hint::Decide;
use warg_info::PackageInfo;
use warg_learn::{KeptFirst, search_from};
use warg_log::Verifier;
use warg_names::{Import, ImportKind};
use warg_plan::{Plan, PlanKey};
use warg_store::{ContentStorage, NamespaceMapStorage, RegistryStorage};
use warg_values::{Memory, Text};

/// The key that asks for any release of a package.
fn any_release(alloc: Global, name: &PackageName) -> Result<PlanKey, Memory>
    ensures { IfOk result (λ key. key_view key ≡ ParsedKey (dependency [] name.now)) }
{
    Ok(PlanKey::Parsed(Import {
        name: Text::copy_of(alloc, name.as_str())?,
        req: VersionReq {
            comparators: Vec::new(alloc),
        },
        kind: ImportKind::Unlocked,
        exact: None,
    }))
}

impl<
    L: Link,
    R: RegistryStorage,
    C: ContentStorage,
    N: NamespaceMapStorage,
    V: Verifier,
    D: Decide,
> Client<L, R, C, N, V, D> {
    /// Begins a call: no package was updated in it yet, and as many pages may be asked for as are set.
    pub(crate) fn restart(&mut self, alloc: Global)
        ensures begins { (tell : Telling L R C N V L.Told) → seen_by tell self.new
            ≡ beginning (settings_of self.old) (seen_by tell self.old) }
        ensures settings { settings_of self.new ≡ settings_of self.old }
        ensures assembly { assembly_of self.new ≡ assembly_of self.old }
    {
        self.learner.updated = IndexMap::new(alloc);
        self.learner.pages_left = self.settings.round_limit;
    }

    /// The log of a package by an update, which begins with no log of it. It is kept from then on.
    pub fn fetch_package(
        &mut self,
        alloc: Global,
        name: &PackageName,
    ) -> Result<PackageInfo, ClientError>
        ensures updated { IfOk result (IsUpdatedLog L.Steps IsComponent
            (beginning (settings_of self.old)
            (seen_by (tells V.good L.told L.faults R.told R.faults C.told C.faults N.told N.faults) self.old))
            (seen_by (tells V.good L.told L.faults R.told R.faults C.told C.faults N.told N.faults) self.new)
            name.now) }
        ensures sound { IfOk result IsSoundPackage }
        ensures cause { IfErr result (λ e. IsOfFetch e (IsNotUpdated L.Steps D.said (λ bytes error. IsRefused error bytes)
            (beginning (settings_of self.old)
            (seen_by (tells V.good L.told L.faults R.told R.faults C.told C.faults N.told N.faults) self.old))
            (seen_by (tells V.good L.told L.faults R.told R.faults C.told C.faults N.told N.faults) self.new)
            name.now)) }
        ensures own { (known : Known)
            → IsKnown (beginning (settings_of self.old)
            (seen_by (tells V.good L.told L.faults R.told R.faults C.told C.faults N.told N.faults) self.old)) known
            → IsOwnStore (V.good (verifier_of self.old)) (R.told (registry_of self.new)) }
        ensures same_settings { settings_of self.new ≡ settings_of self.old }
        ensures same_assembly { assembly_of self.new ≡ assembly_of self.old }
    {
        self.restart(alloc);
        Ok(self.learner.fetch_package(alloc, name)?)
    }

    /// The logs of packages by updates, which begin with no log of them, in the order of the names. They are kept from
    /// then on. The pages of records that may be asked for are those of all these updates together.
    ///
    /// The packages of one registry are updated together, under one checkpoint: by the registries as they are known at
    /// first, the group whose registry the names ask for last first. A refusal leaves what was updated before it kept.
    /// The names are to differ: where one stands twice the answer is want of memory.
    pub fn fetch_packages(
        &mut self,
        alloc: Global,
        names: &[PackageName],
    ) -> Result<Vec<PackageInfo>, ClientError>
        ensures updated { IfOk result (λ infos. AreUpdatedLogs L.Steps
            (beginning (settings_of self.old)
            (seen_by (tells V.good L.told L.faults R.told R.faults C.told C.faults N.told N.faults) self.old))
            (seen_by (tells V.good L.told L.faults R.told R.faults C.told C.faults N.told N.faults) self.new)
            names.now infos.items) }
        ensures cause { IfErr result (λ e. IsOfFetch e (AreNotUpdated L.Steps D.said
            (beginning (settings_of self.old)
            (seen_by (tells V.good L.told L.faults R.told R.faults C.told C.faults N.told N.faults) self.old))
            (seen_by (tells V.good L.told L.faults R.told R.faults C.told C.faults N.told N.faults) self.new)
            names.now)) }
        ensures own { (known : Known)
            → IsKnown (beginning (settings_of self.old)
            (seen_by (tells V.good L.told L.faults R.told R.faults C.told C.faults N.told N.faults) self.old)) known
            → IsOwnStore (V.good (verifier_of self.old)) (R.told (registry_of self.new)) }
        ensures same_settings { settings_of self.new ≡ settings_of self.old }
        ensures same_assembly { assembly_of self.new ≡ assembly_of self.old }
    {
        self.restart(alloc);
        Ok(self.learner.fetch_packages(alloc, names)?)
    }

    /// The log of a package that is kept, under the registry that has it, or where none is, that of an update as
    /// `fetch_package` makes it.
    pub fn package(&mut self, alloc: Global, name: &PackageName) -> Result<PackageInfo, ClientError>
        ensures found { IfOk result (IsPackageLog L.Steps IsComponent
            (beginning (settings_of self.old)
            (seen_by (tells V.good L.told L.faults R.told R.faults C.told C.faults N.told N.faults) self.old))
            (seen_by (tells V.good L.told L.faults R.told R.faults C.told C.faults N.told N.faults) self.new)
            name.now) }
        ensures sound { IfOk result IsSoundPackage }
        ensures cause { IfErr result (λ e. IsOfFetch e (IsPackageLogFault L.Steps D.said
            (λ bytes error. IsRefused error bytes)
            (beginning (settings_of self.old)
            (seen_by (tells V.good L.told L.faults R.told R.faults C.told C.faults N.told N.faults) self.old))
            (seen_by (tells V.good L.told L.faults R.told R.faults C.told C.faults N.told N.faults) self.new)
            name.now)) }
        ensures own { (known : Known)
            → IsKnown (beginning (settings_of self.old)
            (seen_by (tells V.good L.told L.faults R.told R.faults C.told C.faults N.told N.faults) self.old)) known
            → IsOwnStore (V.good (verifier_of self.old)) (R.told (registry_of self.new)) }
        ensures same_settings { settings_of self.new ≡ settings_of self.old }
        ensures same_assembly { assembly_of self.new ≡ assembly_of self.old }
    {
        self.restart(alloc);
        Ok(self.learner.package(alloc, name)?)
    }

    /// The plan of a package.
    pub(crate) fn find_package_plan(
        &mut self,
        alloc: Global,
        name: &PackageName,
    ) -> Result<Plan, ClientError>
        ensures finds { IfOk result (λ plan. Finds taught (package_wanted name.now)
            (IsRecalledOrLearnt L.Steps IsComponent)
            (seen_by (tells V.good L.told L.faults R.told R.faults C.told C.faults N.told N.faults) self.old)
            (seen_by (tells V.good L.told L.faults R.told R.faults C.told C.faults N.told N.faults) self.new)
            (plan_view plan)) }
        ensures refused { IfErr result (λ e. IsPackageSearchRefused L.Steps
            (seen_by (tells V.good L.told L.faults R.told R.faults C.told C.faults N.told N.faults) self.old)
            (seen_by (tells V.good L.told L.faults R.told R.faults C.told C.faults N.told N.faults) self.new)
            D.said name.now e) }
        ensures settings { settings_of self.new ≡ settings_of self.old }
        ensures assembly { assembly_of self.new ≡ assembly_of self.old }
    {
        let config = Config::new(alloc);
        let root = any_release(alloc, name)?;
        Ok(search_from(alloc, &KeptFirst, &mut self.learner, &config, &root)?)
    }

    /// The plan of a package, found by a call of its own.
    fn plan_package(&mut self, alloc: Global, name: &PackageName) -> Result<Plan, ClientError>
        ensures planned { IfOk result (λ plan. IsPackagePlan L.Steps
            (beginning (settings_of self.old)
            (seen_by (tells V.good L.told L.faults R.told R.faults C.told C.faults N.told N.faults) self.old))
            (seen_by (tells V.good L.told L.faults R.told R.faults C.told C.faults N.told N.faults) self.new)
            name.now (plan_view plan)) }
        ensures wired { IfOk result (λ plan. AreWired (plan_view plan)) }
        ensures refused { IfErr result (λ e. IsPackageSearchRefused L.Steps
            (beginning (settings_of self.old)
            (seen_by (tells V.good L.told L.faults R.told R.faults C.told C.faults N.told N.faults) self.old))
            (seen_by (tells V.good L.told L.faults R.told R.faults C.told C.faults N.told N.faults) self.new)
            D.said name.now e) }
        ensures own { (known : Known)
            → IsKnown (beginning (settings_of self.old)
            (seen_by (tells V.good L.told L.faults R.told R.faults C.told C.faults N.told N.faults) self.old)) known
            → IsOwnStore (V.good (verifier_of self.old)) (R.told (registry_of self.new)) }
        ensures same_settings { settings_of self.new ≡ settings_of self.old }
        ensures same_assembly { assembly_of self.new ≡ assembly_of self.old }
    {
        plans_over_components_are_wired();
        self.restart(alloc);
        self.find_package_plan(alloc, name)
    }

    /// The lock of a package's plan: the component that the plan makes, but that it imports those of the releases.
    ///
    /// The plan begins at any release of the package, and no text says more. The log of each package is the one that is
    /// kept, and only where none is kept the package is updated; each content is loaded from the store, or downloaded
    /// and kept. What was assembled last stays so.
    pub fn lock_component(
        &mut self,
        alloc: Global,
        info: &PackageInfo,
    ) -> Result<Vec<u8>, ClientError>
        ensures locked { IfOk result (λ lock. (es : List Entry)
            × IsPackagePlan L.Steps
            (beginning (settings_of self.old)
            (seen_by (tells V.good L.told L.faults R.told R.faults C.told C.faults N.told N.faults) self.old))
            (seen_by (tells V.good L.told L.faults R.told R.faults C.told C.faults N.told N.faults) self.new)
            info.now.name es
            × (left : List (List ℕ)) × IsPlanLocked es left lock.items) }
        ensures cause { IfErr result (λ e. IsPackageFault L.Steps
            (beginning (settings_of self.old)
            (seen_by (tells V.good L.told L.faults R.told R.faults C.told C.faults N.told N.faults) self.old))
            (seen_by (tells V.good L.told L.faults R.told R.faults C.told C.faults N.told N.faults) self.new)
            D.said (IsLockFault false) info.now.name e) }
        ensures own { (known : Known)
            → IsKnown (beginning (settings_of self.old)
            (seen_by (tells V.good L.told L.faults R.told R.faults C.told C.faults N.told N.faults) self.old)) known
            → IsOwnStore (V.good (verifier_of self.old)) (R.told (registry_of self.new)) }
        ensures same_settings { settings_of self.new ≡ settings_of self.old }
        ensures same_assembly { assembly_of self.new ≡ assembly_of self.old }
    {
        let plan = self.plan_package(alloc, &info.name)?;
        let lock = lock_plan(alloc, &plan, false)?;
        Ok(lock.bytes)
    }

    /// The component that a package's plan makes: its lock, bundled with the contents of the releases.
    ///
    /// The plan is that of `lock_component`.
    pub fn bundle_component(
        &mut self,
        alloc: Global,
        info: &PackageInfo,
    ) -> Result<Vec<u8>, ClientError>
        ensures bundled { IfOk result (λ bytes. (es : List Entry)
            × IsPackagePlan L.Steps
            (beginning (settings_of self.old)
            (seen_by (tells V.good L.told L.faults R.told R.faults C.told C.faults N.told N.faults) self.old))
            (seen_by (tells V.good L.told L.faults R.told R.faults C.told C.faults N.told N.faults) self.new)
            info.now.name es
            × (left : List (List ℕ)) × (lock : List ℕ) × IsPlanLinked es left lock bytes.items) }
        ensures cause { IfErr result (λ e. IsPackageFault L.Steps
            (beginning (settings_of self.old)
            (seen_by (tells V.good L.told L.faults R.told R.faults C.told C.faults N.told N.faults) self.old))
            (seen_by (tells V.good L.told L.faults R.told R.faults C.told C.faults N.told N.faults) self.new)
            D.said (IsComposeFault false) info.now.name e) }
        ensures own { (known : Known)
            → IsKnown (beginning (settings_of self.old)
            (seen_by (tells V.good L.told L.faults R.told R.faults C.told C.faults N.told N.faults) self.old)) known
            → IsOwnStore (V.good (verifier_of self.old)) (R.told (registry_of self.new)) }
        ensures same_settings { settings_of self.new ≡ settings_of self.old }
        ensures same_assembly { assembly_of self.new ≡ assembly_of self.old }
    {
        let plan = self.plan_package(alloc, &info.name)?;
        let linked = compose_plan(alloc, &plan, false)?;
        Ok(linked.bytes)
    }
}
