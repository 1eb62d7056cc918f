//! Packages that are updated in groups, those of one registry together.

ghost use Rattle.std.specs.Prelude.{◌≡◌, ◌++◌, ℕ, List, Some, IfOk, IfErr, OnOk, map, reverse, bytes_eq};
ghost use Rattle.std.specs.List.{All};
ghost use Rattle.indexmap.specs.IndexMap.{Updates};
ghost use Rattle.warg_info.specs.Info.{IsSoundPackage};
ghost use Rattle.warg_info.specs.Kept.{Kept};
ghost use Rattle.warg_log.specs.Rules.{Accepts};
ghost use Rattle.warg_page.specs.Steps.{AreGood};
ghost use Rattle.warg_page.specs.Views.{package_view};
ghost use Rattle.warg_assemble.specs.Known.{Known};
ghost use Rattle.warg_fetch.specs.Groups.{Group};
ghost use Rattle.warg_learn.specs.Gathered.{AreFound, groups_in};
ghost use Rattle.warg_learn.specs.Groups.{AreAnswers, AreGrouped, AreGroupsLearnt, AreGroupsUnlearnt, AreNotGrouped, AreNotUpdated, AreUpdatedLogs, IsGroupLearnt, IsGroupUnlearnt, joined, proved_logs, without_logs};
ghost use Rattle.warg_learn.specs.Seen.{IsKnown, seen, tells};
ghost use Rattle.warg_learn.specs.Stored.{IsOwnStore};

use crate::learner::Learner;
use indexmap::IndexMap;
use std::alloc::Global;
use warg_api::Link;
use warg_assemble::ContentReader;
use warg_fetch::{FetchError, Fetcher, registry_for};
use warg_hash::PackageName;
use warg_hint::Decide;
use warg_info::PackageInfo;
use warg_log::Verifier;
use warg_session::Settings;
use warg_store::{ContentStorage, NamespaceMapStorage, RegistryStorage};
use warg_url::RegistryDomain;
use warg_values::Memory;

/// The names of packages, by the registries that have them.
type Groups = IndexMap<Option<RegistryDomain>, Vec<PackageName>>;

/// Puts a name into the group of its registry, which is made behind the others where there is none.
fn join_group(
    alloc: Global,
    groups: &mut Groups,
    registry: Option<RegistryDomain>,
    name: PackageName,
) -> Result<(), Memory>
    ensures joined { OnOk result (groups_in groups.new ≡ joined registry name (groups_in groups.old)) }
{
    if let Some(names) = groups.get_mut(&registry) {
        names.push(name)?;
        return Ok(());
    }
    let mut names = Vec::new(alloc);
    names.push(name)?;
    groups.insert(registry, names)?;
    Ok(())
}

/// What is kept of packages before anything is known.
fn new_packages(alloc: Global, names: Vec<PackageName>) -> Result<Vec<PackageInfo>, Memory>
    ensures empty { IfOk result (λ infos. map package_view infos.items ≡ without_logs names.items) }
    ensures sound { IfOk result (λ infos. All IsSoundPackage infos.items) }
    ensures good { IfOk result (λ infos. (accepts : Accepts) → AreGood accepts infos.items) }
{
    let mut infos = Vec::new(alloc);
    for name in names {
        infos.push(PackageInfo::new(alloc, name))?;
    }
    Ok(infos)
}

/// Puts an info into a map, under its name.
fn put_info(
    alloc: Global,
    found: &mut IndexMap<PackageName, PackageInfo>,
    info: PackageInfo,
) -> Result<(), Memory>
    ensures { OnOk result (Updates bytes_eq found.old found.new info.name (Some info)) }
{
    let name = info.name.try_clone(alloc)?;
    found.insert(name, info)?;
    Ok(())
}

/// Puts infos into a map, each under its name.
fn put_infos(
    alloc: Global,
    found: &mut IndexMap<PackageName, PackageInfo>,
    infos: Vec<PackageInfo>,
) -> Result<(), Memory>
    ensures found { (logs : List (List ℕ × List Kept)) → AreFound logs found.old → All IsSoundPackage infos.items
        → OnOk result (AreFound (map package_view infos.items ++ logs) found.new) }
{
    for info in infos {
        put_info(alloc, found, info)?;
    }
    Ok(())
}

/// The infos of these packages, in this order.
fn in_order(
    alloc: Global,
    names: &[PackageName],
    mut found: IndexMap<PackageName, PackageInfo>,
) -> Result<Vec<PackageInfo>, Memory>
    ensures answers { (logs : List (List ℕ × List Kept)) → AreFound logs found
        → IfOk result (λ infos. AreAnswers logs names.now infos.items) }
{
    let mut infos = Vec::new(alloc);
    for name in names {
        match found.swap_remove(name) {
            Some(info) => infos.push(info)?,
            // Each package was updated, and names that are not different are refused by the update.
            None => return Err(Memory),
        }
    }
    Ok(infos)
}

impl<
    L: Link,
    R: RegistryStorage,
    C: ContentStorage,
    N: NamespaceMapStorage,
    V: Verifier,
    D: Decide,
    K: ContentReader,
> Learner<L, R, C, N, V, D, K> {
    /// The names of packages, by the registries that have them: the groups in the order in which the names first ask
    /// for their registries, and the names of each in order.
    fn group_names(&mut self, alloc: Global, names: &[PackageName]) -> Result<Groups, FetchError>
        ensures grouped { IfOk result (λ groups. AreGrouped
            (seen (tells V.good L.told L.faults R.told R.faults C.told C.faults N.told N.faults) self.old)
            (seen (tells V.good L.told L.faults R.told R.faults C.told C.faults N.told N.faults) self.new)
            names.now (groups_in groups)) }
        ensures refused { IfErr result (AreNotGrouped
            (seen (tells V.good L.told L.faults R.told R.faults C.told C.faults N.told N.faults) self.old)
            (seen (tells V.good L.told L.faults R.told R.faults C.told C.faults N.told N.faults) self.new)) }
    {
        let mut groups = IndexMap::new(alloc);
        for name in names {
            let registry = registry_for(
                alloc,
                &mut self.registries,
                &mut self.namespaces,
                name.namespace(),
            )?;
            join_group(alloc, &mut groups, registry, name.try_clone(alloc)?)?;
        }
        Ok(groups)
    }

    /// The logs of a group by an update, which begins with no log of its packages. They are kept from then on, and the
    /// pages that were asked for are no longer left.
    fn update_group(
        &mut self,
        alloc: Global,
        registry: Option<RegistryDomain>,
        names: Vec<PackageName>,
    ) -> Result<Vec<PackageInfo>, FetchError>
        ensures learnt { IfOk result (λ infos. (u : Group) × (u.logs.packages ≡ map package_view infos.items)
            × IsGroupLearnt L.Steps
            (seen (tells V.good L.told L.faults R.told R.faults C.told C.faults N.told N.faults) self.old)
            (registry, names.items) u
            (seen (tells V.good L.told L.faults R.told R.faults C.told C.faults N.told N.faults) self.new)) }
        ensures sound { IfOk result (λ infos. All IsSoundPackage infos.items) }
        ensures refused { IfErr result (λ e. IsGroupUnlearnt L.Steps D.said
            (seen (tells V.good L.told L.faults R.told R.faults C.told C.faults N.told N.faults) self.old)
            (registry, names.items) e
            (seen (tells V.good L.told L.faults R.told R.faults C.told C.faults N.told N.faults) self.new)) }
    {
        let packages = new_packages(alloc, names)?;
        let fetcher = Fetcher {
            client: &self.client,
            verifier: &self.verifier,
            settings: Settings {
                hints: self.hints,
                round_limit: self.pages_left,
            },
        };
        let update = fetcher.fetch_group(
            alloc,
            &mut self.link,
            &mut self.registries,
            &mut self.decide,
            registry,
            packages,
        )?;
        self.pages_left = update.pages_left;
        Ok(update.packages)
    }

    /// The logs of groups, each by an update, the one made last first: under the names of their packages.
    fn update_groups(
        &mut self,
        alloc: Global,
        mut groups: Groups,
    ) -> Result<IndexMap<PackageName, PackageInfo>, FetchError>
        ensures learnt { IfOk result (λ found. (updates : List Group) × AreFound (proved_logs updates) found
            × AreGroupsLearnt L.Steps
            (seen (tells V.good L.told L.faults R.told R.faults C.told C.faults N.told N.faults) self.old)
            (seen (tells V.good L.told L.faults R.told R.faults C.told C.faults N.told N.faults) self.new)
            (reverse (groups_in groups)) updates) }
        ensures refused { IfErr result (AreGroupsUnlearnt L.Steps D.said
            (seen (tells V.good L.told L.faults R.told R.faults C.told C.faults N.told N.faults) self.old)
            (seen (tells V.good L.told L.faults R.told R.faults C.told C.faults N.told N.faults) self.new)
            (reverse (groups_in groups))) }
        ensures own { (known : Known)
            → IsKnown (seen (tells V.good L.told L.faults R.told R.faults C.told C.faults N.told N.faults) self.old)
            known
            → IsOwnStore (V.good self.old.verifier) (R.told self.new.registries) }
    {
        let mut found = IndexMap::new(alloc);
        while let Some((registry, names)) = groups.pop() {
            let infos = self.update_group(alloc, registry, names)?;
            put_infos(alloc, &mut found, infos)?;
        }
        Ok(found)
    }

    /// The logs of packages by updates, which begin with no log of them, in the order of the names. They are kept from
    /// then on. The packages count as updated under no registry, so contents of theirs are not loaded behind this.
    ///
    /// Those of one registry are updated together, under one checkpoint: by the registries as they are known at first,
    /// the group that was made last first. A refusal leaves what was updated before it kept. The names are to differ:
    /// the update of a group in which one stands twice is refused before its registry is asked.
    pub fn fetch_packages(
        &mut self,
        alloc: Global,
        names: &[PackageName],
    ) -> Result<Vec<PackageInfo>, FetchError>
        ensures updated { IfOk result (λ infos. AreUpdatedLogs L.Steps
            (seen (tells V.good L.told L.faults R.told R.faults C.told C.faults N.told N.faults) self.old)
            (seen (tells V.good L.told L.faults R.told R.faults C.told C.faults N.told N.faults) self.new)
            names.now infos.items) }
        ensures refused { IfErr result (AreNotUpdated L.Steps D.said
            (seen (tells V.good L.told L.faults R.told R.faults C.told C.faults N.told N.faults) self.old)
            (seen (tells V.good L.told L.faults R.told R.faults C.told C.faults N.told N.faults) self.new)
            names.now) }
        ensures own { (known : Known)
            → IsKnown (seen (tells V.good L.told L.faults R.told R.faults C.told C.faults N.told N.faults) self.old)
            known
            → IsOwnStore (V.good self.old.verifier) (R.told self.new.registries) }
    {
        let groups = self.group_names(alloc, names)?;
        let found = self.update_groups(alloc, groups)?;
        Ok(in_order(alloc, names, found)?)
    }
}
