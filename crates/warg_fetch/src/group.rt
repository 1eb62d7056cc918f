//! Packages of one registry that are updated together, by what a store holds, and what the update proved kept.

ghost use Rattle.std.specs.Prelude.{◌≡◌, ◌≤◌, List, Err, IfOk, IfErr, IfSome, OnErr, OnOk, map, option_copied};
ghost use Rattle.std.specs.List.{All};
ghost use Rattle.warg_values.specs.Faults.{Rose};
ghost use Rattle.warg_log.specs.Rules.{Accepts};
ghost use Rattle.warg_exchange.specs.declared.exchange.Exchange.{Exchange as Said};
ghost use Rattle.warg_info.specs.Info.{IsSoundPackage};
ghost use Rattle.warg_api.specs.Asking.{asker};
ghost use Rattle.warg_page.specs.Steps.{AreGood, IsGood, IsGoodOperator, id_of};
ghost use Rattle.warg_page.specs.Views.{AreSound, logs_view, package_view};
ghost use Rattle.warg_session.specs.Recording.{link_of, transcript};
ghost use Rattle.warg_session.specs.Updating.{IsBegun, IsUpdateRefusal};
ghost use Rattle.warg_session.specs.declared.error.UpdateRefusal.TheVariants.{LinkFault as IsLinkFault};
ghost use Rattle.warg_store.specs.Entry.{IsStoreFault};
ghost use Rattle.warg_store.specs.Held.{Tells, named_info};
ghost use Rattle.warg_assemble.specs.Known.{Known};
ghost use Rattle.warg_fetch.specs.Fetched.{IsFetchFault, IsStartFault, loads};
ghost use Rattle.warg_fetch.specs.Groups.{IsGoodGroup, IsGroupFault, IsGroupUpdated, IsSoundGroup, KnowsOwn, LeavesGroup, filed_info, group_of, group_start, group_writes, known_after_group, package_writes, writes_in_group};
ghost use Rattle.warg_fetch.specs.Stored.{IsOwnStore, IsReadable};
ghost use Rattle.warg_fetch.specs.Writes.{HoldsFront, with_writes};
ghost use Rattle.warg_fetch.specs.declared.error.FetchError.TheVariants.{Update as IsUpdateFault};

use crate::error::FetchError;
use crate::package::{Fetcher, domain_copy};
use crate::start::start_of;
use std::alloc::Global;
use warg_api::Link;
use warg_exchange::{Checkpoint, SignedCheckpoint};
use warg_hint::Decide;
use warg_info::{OperatorInfo, PackageInfo};
use warg_log::Verifier;
use warg_session::{Recording, Updated, run_update};
use warg_store::{RegistryStorage, StoreError};
use warg_url::RegistryDomain;
use warg_values::Memory;

/// What the update of packages of one registry has proved.
#[derive(Drop)]
pub struct GroupUpdate {
    /// The registry's name, which the home registry has not.
    pub registry: Option<RegistryDomain>,
    /// The log of the registry's operator.
    pub operator: OperatorInfo,
    /// The packages' logs.
    pub packages: Vec<PackageInfo>,
    /// The checkpoint under which they are proved.
    pub checkpoint: SignedCheckpoint,
    /// How many pages may still be asked for.
    pub pages_left: u64,
}

/// What is kept of a package that was updated under this registry and checkpoint.
fn filed(
    alloc: Global,
    registry: &Option<RegistryDomain>,
    checkpoint: Checkpoint,
    mut info: PackageInfo,
) -> Result<PackageInfo, Memory>
    ensures filed { IfOk result (λ filed. named_info filed
        ≡ filed_info registry.now checkpoint (package_view info)) }
    ensures sound { IfOk result (λ filed. IsSoundPackage info → IsSoundPackage filed) }
    ensures good { IfOk result (λ filed. (accepts : Accepts) → IsGood accepts info → IsGood accepts filed) }
{
    info.registry = domain_copy(alloc, registry)?;
    info.checkpoint = Some(checkpoint);
    Ok(info)
}

/// The same of each of these packages.
fn each_filed(
    alloc: Global,
    registry: &Option<RegistryDomain>,
    checkpoint: Checkpoint,
    packages: Vec<PackageInfo>,
) -> Result<Vec<PackageInfo>, Memory>
    ensures filed { IfOk result (λ filed. map named_info filed.items
        ≡ map (λ info. filed_info registry.now checkpoint (package_view info)) packages.items) }
    ensures sound { IfOk result (λ filed. All IsSoundPackage packages.items → All IsSoundPackage filed.items) }
    ensures good { IfOk result (λ filed. (accepts : Accepts)
        → AreGood accepts packages.items → AreGood accepts filed.items) }
{
    let mut all = Vec::new(alloc);
    for info in packages {
        all.push(filed(alloc, registry, checkpoint, info)?)?;
    }
    Ok(all)
}

/// What was proved for packages, under the name of their registry.
fn group_update(
    alloc: Global,
    registry: Option<RegistryDomain>,
    updated: Updated,
) -> Result<GroupUpdate, Memory>
    ensures registry { IfOk result (λ got. got.registry ≡ registry) }
    ensures logs { IfOk result (λ got. logs_view got.operator got.packages.items
        ≡ logs_view updated.proved.operator updated.proved.packages.items) }
    ensures checkpoint { IfOk result (λ got. got.checkpoint ≡ updated.proved.checkpoint) }
    ensures writes { IfOk result (λ got. (xs : List Said) → writes_in_group got ≡ group_writes (group_of got xs)) }
    ensures pages { IfOk result (λ got. got.pages_left ≡ updated.pages_left) }
    ensures sound { IfOk result (λ got. AreSound updated.proved.operator updated.proved.packages.items
        → IsSoundGroup got) }
    ensures good { IfOk result (λ got. (accepts : Accepts) → IsGoodOperator accepts updated.proved.operator
        → AreGood accepts updated.proved.packages.items → IsGoodGroup accepts got) }
{
    let pages_left = updated.pages_left;
    let checkpoint = updated.proved.checkpoint;
    let mut operator = updated.proved.operator;
    let packages = each_filed(
        alloc,
        &registry,
        checkpoint.contents,
        updated.proved.packages,
    )?;
    operator.registry = domain_copy(alloc, &registry)?;
    operator.checkpoint = Some(checkpoint.contents);
    Ok(GroupUpdate {
        registry,
        operator,
        packages,
        checkpoint,
        pages_left,
    })
}

/// Keeps the logs of packages of one registry, in order. A refusal leaves a front of them; the one behind it may be one
/// that can't be read.
fn keep_packages<R: RegistryStorage>(
    alloc: Global,
    registries: &mut R,
    registry: Option<&RegistryDomain>,
    packages: &[PackageInfo],
) -> Result<(), StoreError>
    requires { All IsSoundPackage packages.now }
    ensures never_falls { R.faults registries.old ≤ R.faults registries.new }
    ensures stored { OnOk result (IfSome (R.told registries.old) (λ held. Tells (R.told registries.new)
        (with_writes held (package_writes (option_copied registry.entry) packages.now)))) }
    ensures refused { OnErr result (IfSome (R.told registries.old) (λ held. HoldsFront (R.told registries.new) held
        (package_writes (option_copied registry.entry) packages.now))) }
    ensures fault { IfErr result (λ e. IsStoreFault e (R.faults registries.old) (R.faults registries.new)) }
{
    for info in packages {
        registries.store_package(alloc, registry, info)?;
    }
    Ok(())
}

/// Keeps what the update of a group has proved: the log of the registry's operator, those of the packages, and then the
/// checkpoint. A refusal leaves a front of these; the one behind it may be one that can't be read.
fn keep_group<R: RegistryStorage>(
    alloc: Global,
    registries: &mut R,
    update: &GroupUpdate,
) -> Result<(), StoreError>
    requires { IsSoundGroup update.now }
    ensures never_falls { R.faults registries.old ≤ R.faults registries.new }
    ensures stored { OnOk result (IfSome (R.told registries.old) (λ held.
        Tells (R.told registries.new) (with_writes held (writes_in_group update.now)))) }
    ensures refused { OnErr result (IfSome (R.told registries.old) (λ held.
        HoldsFront (R.told registries.new) held (writes_in_group update.now))) }
    ensures fault { IfErr result (λ e. IsStoreFault e (R.faults registries.old) (R.faults registries.new)) }
{
    let registry = update.registry.as_ref();
    registries.store_operator(alloc, registry, &update.operator)?;
    keep_packages(alloc, registries, registry, update.packages.as_slice())?;
    registries.store_checkpoint(alloc, registry, &update.checkpoint)?;
    Ok(())
}

impl<V: Verifier> Fetcher<'_, V> {
    /// Updates packages of one registry together, behind their logs as they are given, and behind the operator's log
    /// and the checkpoint that are kept of the registry. Nothing is kept of it yet.
    fn update_group<L: Link, R: RegistryStorage, D: Decide>(
        &self,
        alloc: Global,
        link: &mut Recording<L>,
        registries: &mut R,
        decide: &mut D,
        registry: Option<RegistryDomain>,
        packages: Vec<PackageInfo>,
    ) -> Result<GroupUpdate, FetchError>
        ensures link_never_falls { L.faults (link_of link.old) ≤ L.faults (link_of link.new) }
        ensures registries_never_fall { R.faults registries.old ≤ R.faults registries.new }
        ensures link_fault { (result ≡ Err (IsUpdateFault IsLinkFault))
            → Rose (L.faults (link_of link.old)) (L.faults (link_of link.new)) }
        ensures kept { IfSome (R.told registries.old) (Tells (R.told registries.new)) }
        ensures updated { IfOk result (λ got. (known : Known)
            → KnowsOwn (V.good self.now.verifier.now) (R.told registries.old) known
            → AreGood (V.good self.now.verifier.now) packages.items
            → IsGroupUpdated (V.good self.now.verifier.now) (asker self.now.client.now) known registry
            (map package_view packages.items) L.Steps (transcript L.told link.old) (transcript L.told link.new)
            self.now.settings.round_limit got) }
        ensures writes { IfOk result (λ got. (xs : List Said) → writes_in_group got ≡ group_writes (group_of got xs)) }
        ensures sound { IfOk result (λ got. All IsSoundPackage packages.items → IsSoundGroup got) }
        ensures good { IfOk result (λ got. (known : Known)
            → KnowsOwn (V.good self.now.verifier.now) (R.told registries.old) known
            → AreGood (V.good self.now.verifier.now) packages.items
            → IsGoodGroup (V.good self.now.verifier.now) got) }
        ensures unasked { OnOk result ((known : Known)
            → KnowsOwn (V.good self.now.verifier.now) (R.told registries.old) known
            → AreGood (V.good self.now.verifier.now) packages.items
            → decide.new ≡ decide.old) }
        ensures begun { (known : Known)
            → KnowsOwn (V.good self.now.verifier.now) (R.told registries.old) known
            → AreGood (V.good self.now.verifier.now) packages.items
            → IsBegun (asker self.now.client.now registry)
            (group_start known registry (map package_view packages.items)) (transcript L.told link.old)
            (transcript L.told link.new) }
        ensures cause { IfErr result (λ e. (known : Known)
            → KnowsOwn (V.good self.now.verifier.now) (R.told registries.old) known
            → AreGood (V.good self.now.verifier.now) packages.items
            → IsFetchFault e
            (λ e. IsStartFault e registry
            (loads (R.faults registries.old) (R.faults registries.new) (R.told registries.old)))
            (λ refusal. IsUpdateRefusal refusal (map id_of packages.items) (V.good self.now.verifier.now)
            (D.said decide.old decide.new) self.now.settings.round_limit (asker self.now.client.now registry)
            (group_start known registry (map package_view packages.items)) L.Steps (transcript L.told link.old)
            (transcript L.told link.new))) }
    {
        let named = domain_copy(alloc, &registry)?;
        let start = start_of(alloc, registries, registry, packages)?;
        let updated = run_update(
            alloc,
            self.client,
            link,
            self.verifier,
            decide,
            start,
            self.settings,
        )?;
        Ok(group_update(alloc, named, updated)?)
    }

    /// Updates packages of one registry together, under one checkpoint, and keeps what the update has proved.
    ///
    /// It begins with the logs of the packages as they are given, and with the operator's log and the checkpoint that
    /// are kept of the registry. Just what the update teaches is known besides from then on. A refusal leaves the store
    /// as it was, or with a front of what was to be kept; the entry behind it may be one that can't be read. No two
    /// packages may have one name: that is refused before anything is asked.
    pub fn fetch_group<L: Link, R: RegistryStorage, D: Decide>(
        &self,
        alloc: Global,
        link: &mut Recording<L>,
        registries: &mut R,
        decide: &mut D,
        registry: Option<RegistryDomain>,
        packages: Vec<PackageInfo>,
    ) -> Result<GroupUpdate, FetchError>
        requires { All IsSoundPackage packages.items }
        ensures link_never_falls { L.faults (link_of link.old) ≤ L.faults (link_of link.new) }
        ensures registries_never_fall { R.faults registries.old ≤ R.faults registries.new }
        ensures link_fault { (result ≡ Err (IsUpdateFault IsLinkFault))
            → Rose (L.faults (link_of link.old)) (L.faults (link_of link.new)) }
        ensures updated { IfOk result (λ got. (known : Known)
            → KnowsOwn (V.good self.now.verifier.now) (R.told registries.old) known
            → AreGood (V.good self.now.verifier.now) packages.items
            → IsGroupUpdated (V.good self.now.verifier.now) (asker self.now.client.now) known registry
            (map package_view packages.items) L.Steps (transcript L.told link.old) (transcript L.told link.new)
            self.now.settings.round_limit got) }
        ensures knows { IfOk result (λ got. (known : Known)
            → KnowsOwn (V.good self.now.verifier.now) (R.told registries.old) known
            → AreGood (V.good self.now.verifier.now) packages.items
            → (xs : List Said)
            → KnowsOwn (V.good self.now.verifier.now) (R.told registries.new)
            (known_after_group known (group_of got xs))) }
        ensures held { OnErr result ((known : Known)
            → (knows : KnowsOwn (V.good self.now.verifier.now) (R.told registries.old) known)
            → AreGood (V.good self.now.verifier.now) packages.items
            → LeavesGroup (V.good self.now.verifier.now) (asker self.now.client.now) known registry
            (map package_view packages.items) L.Steps (transcript L.told link.old) (transcript L.told link.new)
            (R.told registries.new) knows.registries.held) }
        ensures own { (known : Known)
            → KnowsOwn (V.good self.now.verifier.now) (R.told registries.old) known
            → AreGood (V.good self.now.verifier.now) packages.items
            → IsOwnStore (V.good self.now.verifier.now) (R.told registries.new) }
        ensures readable { OnOk result (IsReadable (R.told registries.old) → IsReadable (R.told registries.new)) }
        ensures sound { IfOk result IsSoundGroup }
        ensures unasked { OnOk result ((known : Known)
            → KnowsOwn (V.good self.now.verifier.now) (R.told registries.old) known
            → AreGood (V.good self.now.verifier.now) packages.items
            → decide.new ≡ decide.old) }
        ensures begun { (known : Known)
            → KnowsOwn (V.good self.now.verifier.now) (R.told registries.old) known
            → AreGood (V.good self.now.verifier.now) packages.items
            → IsBegun (asker self.now.client.now registry)
            (group_start known registry (map package_view packages.items)) (transcript L.told link.old)
            (transcript L.told link.new) }
        ensures cause { IfErr result (λ e. (known : Known)
            → KnowsOwn (V.good self.now.verifier.now) (R.told registries.old) known
            → AreGood (V.good self.now.verifier.now) packages.items
            → IsGroupFault (V.good self.now.verifier.now) (asker self.now.client.now) known registry
            (map package_view packages.items) L.Steps (transcript L.told link.old) (transcript L.told link.new) e
            (D.said decide.old decide.new) self.now.settings.round_limit
            (loads (R.faults registries.old) (R.faults registries.new) (R.told registries.old))) }
    {
        let update = self.update_group(alloc, link, registries, decide, registry, packages)?;
        keep_group(alloc, registries, &update)?;
        Ok(update)
    }
}
