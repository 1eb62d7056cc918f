//! What a client keeps of registries and of what is to be published, in memory.

ghost use Rattle.std.specs.Prelude.{◌≡◌, ◌≤◌, ◌++◌, ◌∷◌, ◌↔◌, [], ℕ, false, Some, None, IfOk, IfErr, IfSome, IsSomeAnd, IsSome, IsErrOf, OnOk, OnErr, option_copied, option_map};
ghost use Rattle.warg_hash.specs.Hash.{package_log_id};
ghost use Rattle.warg_info.specs.Info.{IsSoundOperator, IsSoundPackage};
ghost use Rattle.warg_publish.specs.Shown.{info_view};
ghost use Rattle.warg_store.specs.Entry.{Whole, entry_of, IsLoadFault, IsStoreFault};
ghost use Rattle.warg_store.specs.Faults.{planned, after_call, has_store_failed};
ghost use Rattle.warg_store.specs.Held.{IsSoundPublish, Tells, SameHeld, nothing, LeavesPublish, LeavesReset, LeavesStore, after_reset, entry_named, is_package, named_info, operator_info, package_key, with_checkpoint, with_operator, with_package, with_publish};
ghost use Rattle.warg_store.specs.Listed.{AreAllPackages, AreSoundLists, HaveSome, IsListingFault, entry_under, listed_in};
ghost use Rattle.warg_store.specs.Slots.{entries_in, slot_entry};
ghost use Rattle.warg_store.specs.Memory.{held_in, schedule_in, IsAfterPublish, IsAfterReset, IsAfterStore};

use crate::after::After;
use crate::error::{EntryKind, StoreError};
use crate::listing::list_package;
use crate::one_slot::OneSlot;
use crate::registry::RegistryStorage;
use crate::resets::{reset_packages, reset_registries};
use crate::schedule::StoreSchedule;
use crate::slots::{Slot, SlotMap};
use crate::sound::Sound;
use indexmap::IndexMap;
use std::alloc::Global;
use warg_exchange::SignedCheckpoint;
use warg_hash::{LogId, PackageName};
use warg_info::{OperatorInfo, PackageInfo};
use warg_publish::PublishInfo;
use warg_url::RegistryDomain;
use warg_values::Memory;

/// What a client keeps of registries and of what is to be published, in memory. It tells what it holds.
#[derive(Debug, Drop)]
pub struct MemoryRegistry {
    checkpoints: SlotMap<Option<RegistryDomain>, SignedCheckpoint>,
    operators: SlotMap<Option<RegistryDomain>, OperatorInfo>,
    packages: SlotMap<(Option<RegistryDomain>, LogId), PackageInfo>,
    publish: OneSlot<PublishInfo>,
    schedule: StoreSchedule,
}

/// A registry's name as a key.
fn key_of(
    alloc: Global,
    registry: Option<&RegistryDomain>,
) -> Result<Option<RegistryDomain>, Memory>
    ensures { IfOk result (λ key. key ≡ option_copied registry.entry) }
{
    match registry {
        Some(name) => Ok(Some(name.try_clone(alloc)?)),
        None => Ok(None),
    }
}

/// A registry's name and the id of a package's log as a key.
fn log_key(
    alloc: Global,
    registry: Option<&RegistryDomain>,
    name: &PackageName,
) -> Result<(Option<RegistryDomain>, LogId), Memory>
    ensures { IfOk result (λ key. key ≡ package_key (option_copied registry.entry) name.now) }
{
    Ok((key_of(alloc, registry)?, LogId::package_log(name)))
}

/// A copy of what is to be published, where there is an info.
fn publish_copy(
    alloc: Global,
    info: Option<&PublishInfo>,
) -> Result<Option<Sound<PublishInfo>>, Memory>
    requires { IfSome (option_copied info) IsSoundPublish }
    ensures { IfOk result (λ copy. option_map info_view copy ≡ option_map info_view (option_copied info.entry)) }
{
    match info {
        Some(info) => Ok(Some(Sound::copy_of(alloc, info)?)),
        None => Ok(None),
    }
}

/// A copy of the log of a package, where the one under its key has its name.
fn load_named(
    alloc: Global,
    packages: &SlotMap<(Option<RegistryDomain>, LogId), PackageInfo>,
    key: &(Option<RegistryDomain>, LogId),
    name: &PackageName,
) -> Result<Option<PackageInfo>, StoreError>
    ensures found { IfOk result (λ o. entry_named name.now (entries_in is_package named_info packages.now key.now)
        ≡ entry_of (option_map named_info o)) }
    ensures sound { IfOk result (λ o. IfSome o IsSoundPackage) }
    ensures name { IfOk result (λ o. IfSome o (λ info. info.name ≡ name.now)) }
    ensures fault { (before after : ℕ) → IfErr result (λ e. IsLoadFault e EntryKind.Package before after
        (Some (entry_named name.now (entries_in is_package named_info packages.now key.now)))) }
    ensures no_failure { has_store_failed result ≡ false }
{
    match packages.load(alloc, EntryKind::Package, key)? {
        None => Ok(None),
        Some(info) if info.name == *name => Ok(Some(info)),
        Some(_) => Err(StoreError::Damaged(EntryKind::Package)),
    }
}

/// A copy of the log of a package, where its slot can be read and stands under the log's id.
fn load_under(
    alloc: Global,
    slot: &Slot<PackageInfo>,
    id: &LogId,
) -> Result<PackageInfo, StoreError>
    ensures found { IfOk result (λ info. slot_entry named_info (Some slot.now) ≡ Whole (named_info info)) }
    ensures id { IfOk result (λ info. id.now ≡ package_log_id info.name) }
    ensures sound { IfOk result IsSoundPackage }
    ensures fault { (before after : ℕ) → IfErr result (λ e. IsLoadFault e EntryKind.Package before after
        (Some (entry_under id.now (slot_entry named_info (Some slot.now))))) }
    ensures no_failure { has_store_failed result ≡ false }
{
    let Slot::Whole(value) = slot else {
        return Err(StoreError::Damaged(EntryKind::Package));
    };
    let info = value.copy(alloc)?;
    if LogId::package_log(&info.name) != *id {
        return Err(StoreError::Damaged(EntryKind::Package));
    }
    Ok(info)
}

/// Copies of the logs of all packages, by their registries.
fn load_all(
    alloc: Global,
    packages: &SlotMap<(Option<RegistryDomain>, LogId), PackageInfo>,
) -> Result<IndexMap<Option<RegistryDomain>, Vec<PackageInfo>>, StoreError>
    ensures found { IfOk result (λ all.
        AreAllPackages (entries_in is_package named_info packages.now) (listed_in all)) }
    ensures sound { IfOk result AreSoundLists }
    ensures have_some { IfOk result HaveSome }
    ensures fault { (before after : ℕ) → IfErr result (λ e. IsListingFault e before after
        (Some (entries_in is_package named_info packages.now))) }
    ensures no_failure { has_store_failed result ≡ false }
{
    let mut all = IndexMap::new(alloc);
    for (key, slot) in &packages.slots {
        let info = load_under(alloc, slot, &key.1)?;
        let registry = key_of(alloc, key.0.as_ref())?;
        list_package(alloc, &mut all, registry, info)?;
    }
    Ok(all)
}

impl MemoryRegistry {
    /// No entries, and no call that is to fail.
    pub fn new(alloc: Global) -> Self
        ensures empty { SameHeld (held_in result) nothing }
        ensures schedule { schedule_in result ≡ record { calls = 0; failing = []; faults = 0 } }
    {
        MemoryRegistry {
            checkpoints: SlotMap::new(alloc),
            operators: SlotMap::new(alloc),
            packages: SlotMap::new(alloc),
            publish: OneSlot::new(),
            schedule: StoreSchedule::new(alloc),
        }
    }

    /// Has the call of this number fail, counted from 1 over all calls, and leave this. A refusal changes nothing.
    pub fn fail_at(&mut self, call: u64, after: After) -> Result<(), Memory>
        ensures listed { OnOk result (schedule_in self.new
            ≡ record (schedule_in self.old) { failing = (schedule_in self.old).failing ++ (call, after) ∷ [] }) }
        ensures unchanged { OnErr result (schedule_in self.new ≡ schedule_in self.old) }
        ensures same { SameHeld (held_in self.new) (held_in self.old) }
    {
        self.schedule.fail_at(call, after)
    }

    /// How many calls have failed.
    pub fn faults(&self) -> u64
        ensures { result ≡ (schedule_in self.now).faults }
    {
        self.schedule.faults()
    }

    /// Takes entries away, or leaves what a call that is to fail leaves.
    fn take_away(&mut self, all_registries: bool, failing: Option<After>)
        ensures reset { IsAfterReset failing all_registries (held_in self.old) (held_in self.new) }
        ensures schedule { schedule_in self.new ≡ schedule_in self.old }
    {
        match failing {
            None | Some(After::New) => {
                reset_registries(&mut self.checkpoints, all_registries);
                reset_registries(&mut self.operators, all_registries);
                reset_packages(&mut self.packages, all_registries);
                self.publish.put(None, None);
            }
            Some(After::Old | After::Unreadable) => {}
        }
    }

    /// Keeps a checkpoint, or leaves what a call that is to fail leaves. A refusal changes nothing.
    fn put_checkpoint(
        &mut self,
        alloc: Global,
        registry: Option<&RegistryDomain>,
        checkpoint: &SignedCheckpoint,
        failing: Option<After>,
    ) -> Result<(), Memory>
        ensures put { OnOk result (IsAfterStore failing (held_in self.old)
            (with_checkpoint (held_in self.old) (option_copied registry.entry)) checkpoint.now (held_in self.new)) }
        ensures unchanged { OnErr result (SameHeld (held_in self.new) (held_in self.old)) }
        ensures schedule { schedule_in self.new ≡ schedule_in self.old }
    {
        let key = key_of(alloc, registry)?;
        let checkpoint = Sound::copy_of(alloc, checkpoint)?;
        self.checkpoints.put(key, checkpoint, failing)
    }

    /// Keeps the log of a registry's operator, or leaves what a call that is to fail leaves. A refusal changes nothing.
    fn put_operator(
        &mut self,
        alloc: Global,
        registry: Option<&RegistryDomain>,
        info: &OperatorInfo,
        failing: Option<After>,
    ) -> Result<(), Memory>
        requires { IsSoundOperator info.now }
        ensures put { OnOk result (IsAfterStore failing (held_in self.old)
            (with_operator (held_in self.old) (option_copied registry.entry)) (operator_info info.now)
            (held_in self.new)) }
        ensures unchanged { OnErr result (SameHeld (held_in self.new) (held_in self.old)) }
        ensures schedule { schedule_in self.new ≡ schedule_in self.old }
    {
        let key = key_of(alloc, registry)?;
        let info = Sound::copy_of(alloc, info)?;
        self.operators.put(key, info, failing)
    }

    /// Keeps the log of a package, or leaves what a call that is to fail leaves. A refusal changes nothing.
    fn put_package(
        &mut self,
        alloc: Global,
        registry: Option<&RegistryDomain>,
        info: &PackageInfo,
        failing: Option<After>,
    ) -> Result<(), Memory>
        requires { IsSoundPackage info.now }
        ensures put { OnOk result (IsAfterStore failing (held_in self.old)
            (with_package (held_in self.old) (package_key (option_copied registry.entry) info.now.name))
            (named_info info.now) (held_in self.new)) }
        ensures unchanged { OnErr result (SameHeld (held_in self.new) (held_in self.old)) }
        ensures schedule { schedule_in self.new ≡ schedule_in self.old }
    {
        let key = log_key(alloc, registry, &info.name)?;
        let info = Sound::copy_of(alloc, info)?;
        self.packages.put(key, info, failing)
    }

    /// Keeps what is to be published, or takes it away, or leaves what a call that is to fail leaves. A refusal changes
    /// nothing.
    fn put_publish(
        &mut self,
        alloc: Global,
        info: Option<&PublishInfo>,
        failing: Option<After>,
    ) -> Result<(), Memory>
        requires { IfSome (option_copied info) IsSoundPublish }
        ensures put { OnOk result (IsAfterPublish failing (held_in self.old)
            (option_map info_view (option_copied info.entry)) (held_in self.new)) }
        ensures unchanged { OnErr result (SameHeld (held_in self.new) (held_in self.old)) }
        ensures schedule { schedule_in self.new ≡ schedule_in self.old }
    {
        let info = publish_copy(alloc, info)?;
        self.publish.put(info, failing);
        Ok(())
    }
}

impl RegistryStorage for MemoryRegistry {
    ghost faults = { λ m. (schedule_in m).faults };

    ghost told = { λ m. Some (held_in m) };

    fn reset(&mut self, _alloc: Global, all_registries: bool) -> Result<(), StoreError>
        ensures never_falls { (schedule_in self.old).faults ≤ (schedule_in self.new).faults }
        ensures reset { OnOk result (Tells (Some (held_in self.new)) (after_reset all_registries (held_in self.old))) }
        ensures refused { OnErr result (LeavesReset (Some (held_in self.new)) all_registries (held_in self.old)) }
        ensures fault { IfErr result (λ e. IsStoreFault e (schedule_in self.old).faults (schedule_in self.new).faults) }
        ensures left { IsErrOf result StoreError.Failed → IsSomeAnd (planned (schedule_in self.old)) (λ after.
            IsAfterReset (Some after) all_registries (held_in self.old) (held_in self.new)) }
        ensures failed { IsErrOf result StoreError.Failed ↔ IsSome (planned (schedule_in self.old)) }
        ensures scheduled { schedule_in self.new ≡ after_call (schedule_in self.old) (has_store_failed result) }
    {
        let failing = self.schedule.planned();
        self.take_away(all_registries, failing);
        self.schedule.finish(failing, Ok(()))
    }

    fn load_checkpoint(
        &mut self,
        alloc: Global,
        registry: Option<&RegistryDomain>,
    ) -> Result<Option<SignedCheckpoint>, StoreError>
        ensures never_falls { (schedule_in self.old).faults ≤ (schedule_in self.new).faults }
        ensures kept { Tells (Some (held_in self.new)) (held_in self.old) }
        ensures found { IfOk result (λ o. (held_in self.old).checkpoints (option_copied registry.entry) ≡ entry_of o) }
        ensures fault { IfErr result (λ e. IsLoadFault e EntryKind.Checkpoint (schedule_in self.old).faults
            (schedule_in self.new).faults (Some ((held_in self.old).checkpoints (option_copied registry.entry)))) }
        ensures failed { IsErrOf result StoreError.Failed ↔ IsSome (planned (schedule_in self.old)) }
        ensures scheduled { schedule_in self.new ≡ after_call (schedule_in self.old) (has_store_failed result) }
    {
        if self.schedule.fails_now() {
            return Err(StoreError::Failed);
        }
        let key = key_of(alloc, registry)?;
        self.checkpoints.load(alloc, EntryKind::Checkpoint, &key)
    }

    fn store_checkpoint(
        &mut self,
        alloc: Global,
        registry: Option<&RegistryDomain>,
        checkpoint: &SignedCheckpoint,
    ) -> Result<(), StoreError>
        ensures never_falls { (schedule_in self.old).faults ≤ (schedule_in self.new).faults }
        ensures stored { OnOk result (Tells (Some (held_in self.new))
            (with_checkpoint (held_in self.old) (option_copied registry.entry) (Whole checkpoint.now))) }
        ensures refused { OnErr result (LeavesStore (Some (held_in self.new)) (held_in self.old)
            (with_checkpoint (held_in self.old) (option_copied registry.entry)) checkpoint.now) }
        ensures fault { IfErr result (λ e. IsStoreFault e (schedule_in self.old).faults (schedule_in self.new).faults) }
        ensures left { IsErrOf result StoreError.Failed → IsSomeAnd (planned (schedule_in self.old)) (λ after.
            IsAfterStore (Some after) (held_in self.old)
            (with_checkpoint (held_in self.old) (option_copied registry.entry)) checkpoint.now (held_in self.new)) }
        ensures unchanged { IsErrOf result StoreError.Memory → SameHeld (held_in self.new) (held_in self.old) }
        ensures unplanned { OnOk result (planned (schedule_in self.old) ≡ None) }
        ensures scheduled { schedule_in self.new ≡ after_call (schedule_in self.old) (has_store_failed result) }
    {
        let failing = self.schedule.planned();
        let done = self.put_checkpoint(alloc, registry, checkpoint, failing);
        self.schedule.finish(failing, done)
    }

    fn load_operator(
        &mut self,
        alloc: Global,
        registry: Option<&RegistryDomain>,
    ) -> Result<Option<OperatorInfo>, StoreError>
        ensures never_falls { (schedule_in self.old).faults ≤ (schedule_in self.new).faults }
        ensures kept { Tells (Some (held_in self.new)) (held_in self.old) }
        ensures found { IfOk result (λ o.
            (held_in self.old).operators (option_copied registry.entry) ≡ entry_of (option_map operator_info o)) }
        ensures sound { IfOk result (λ o. IfSome o IsSoundOperator) }
        ensures fault { IfErr result (λ e. IsLoadFault e EntryKind.Operator (schedule_in self.old).faults
            (schedule_in self.new).faults (Some ((held_in self.old).operators (option_copied registry.entry)))) }
        ensures failed { IsErrOf result StoreError.Failed ↔ IsSome (planned (schedule_in self.old)) }
        ensures scheduled { schedule_in self.new ≡ after_call (schedule_in self.old) (has_store_failed result) }
    {
        if self.schedule.fails_now() {
            return Err(StoreError::Failed);
        }
        let key = key_of(alloc, registry)?;
        self.operators.load(alloc, EntryKind::Operator, &key)
    }

    fn store_operator(
        &mut self,
        alloc: Global,
        registry: Option<&RegistryDomain>,
        info: &OperatorInfo,
    ) -> Result<(), StoreError>
        requires { IsSoundOperator info.now }
        ensures never_falls { (schedule_in self.old).faults ≤ (schedule_in self.new).faults }
        ensures stored { OnOk result (Tells (Some (held_in self.new))
            (with_operator (held_in self.old) (option_copied registry.entry) (Whole (operator_info info.now)))) }
        ensures refused { OnErr result (LeavesStore (Some (held_in self.new)) (held_in self.old)
            (with_operator (held_in self.old) (option_copied registry.entry)) (operator_info info.now)) }
        ensures fault { IfErr result (λ e. IsStoreFault e (schedule_in self.old).faults (schedule_in self.new).faults) }
        ensures left { IsErrOf result StoreError.Failed → IsSomeAnd (planned (schedule_in self.old)) (λ after.
            IsAfterStore (Some after) (held_in self.old)
            (with_operator (held_in self.old) (option_copied registry.entry)) (operator_info info.now)
            (held_in self.new)) }
        ensures unchanged { IsErrOf result StoreError.Memory → SameHeld (held_in self.new) (held_in self.old) }
        ensures unplanned { OnOk result (planned (schedule_in self.old) ≡ None) }
        ensures scheduled { schedule_in self.new ≡ after_call (schedule_in self.old) (has_store_failed result) }
    {
        let failing = self.schedule.planned();
        let done = self.put_operator(alloc, registry, info, failing);
        self.schedule.finish(failing, done)
    }

    fn load_all_packages(
        &mut self,
        alloc: Global,
    ) -> Result<IndexMap<Option<RegistryDomain>, Vec<PackageInfo>>, StoreError>
        ensures never_falls { (schedule_in self.old).faults ≤ (schedule_in self.new).faults }
        ensures kept { Tells (Some (held_in self.new)) (held_in self.old) }
        ensures found { IfOk result (λ all. AreAllPackages (held_in self.old).packages (listed_in all)) }
        ensures sound { IfOk result AreSoundLists }
        ensures have_some { IfOk result HaveSome }
        ensures fault { IfErr result (λ e. IsListingFault e (schedule_in self.old).faults
            (schedule_in self.new).faults (Some (held_in self.old).packages)) }
        ensures failed { IsErrOf result StoreError.Failed ↔ IsSome (planned (schedule_in self.old)) }
        ensures scheduled { schedule_in self.new ≡ after_call (schedule_in self.old) (has_store_failed result) }
    {
        if self.schedule.fails_now() {
            return Err(StoreError::Failed);
        }
        load_all(alloc, &self.packages)
    }

    fn load_package(
        &mut self,
        alloc: Global,
        registry: Option<&RegistryDomain>,
        name: &PackageName,
    ) -> Result<Option<PackageInfo>, StoreError>
        ensures never_falls { (schedule_in self.old).faults ≤ (schedule_in self.new).faults }
        ensures kept { Tells (Some (held_in self.new)) (held_in self.old) }
        ensures found { IfOk result (λ o.
            entry_named name.now ((held_in self.old).packages (package_key (option_copied registry.entry) name.now))
            ≡ entry_of (option_map named_info o)) }
        ensures sound { IfOk result (λ o. IfSome o IsSoundPackage) }
        ensures name { IfOk result (λ o. IfSome o (λ info. info.name ≡ name.now)) }
        ensures fault { IfErr result (λ e. IsLoadFault e EntryKind.Package (schedule_in self.old).faults
            (schedule_in self.new).faults (Some (entry_named name.now
            ((held_in self.old).packages (package_key (option_copied registry.entry) name.now))))) }
        ensures failed { IsErrOf result StoreError.Failed ↔ IsSome (planned (schedule_in self.old)) }
        ensures scheduled { schedule_in self.new ≡ after_call (schedule_in self.old) (has_store_failed result) }
    {
        if self.schedule.fails_now() {
            return Err(StoreError::Failed);
        }
        let key = log_key(alloc, registry, name)?;
        load_named(alloc, &self.packages, &key, name)
    }

    fn store_package(
        &mut self,
        alloc: Global,
        registry: Option<&RegistryDomain>,
        info: &PackageInfo,
    ) -> Result<(), StoreError>
        requires { IsSoundPackage info.now }
        ensures never_falls { (schedule_in self.old).faults ≤ (schedule_in self.new).faults }
        ensures stored { OnOk result (Tells (Some (held_in self.new)) (with_package (held_in self.old)
            (package_key (option_copied registry.entry) info.now.name) (Whole (named_info info.now)))) }
        ensures refused { OnErr result (LeavesStore (Some (held_in self.new)) (held_in self.old)
            (with_package (held_in self.old) (package_key (option_copied registry.entry) info.now.name))
            (named_info info.now)) }
        ensures fault { IfErr result (λ e. IsStoreFault e (schedule_in self.old).faults (schedule_in self.new).faults) }
        ensures left { IsErrOf result StoreError.Failed → IsSomeAnd (planned (schedule_in self.old)) (λ after.
            IsAfterStore (Some after) (held_in self.old)
            (with_package (held_in self.old) (package_key (option_copied registry.entry) info.now.name))
            (named_info info.now) (held_in self.new)) }
        ensures unchanged { IsErrOf result StoreError.Memory → SameHeld (held_in self.new) (held_in self.old) }
        ensures unplanned { OnOk result (planned (schedule_in self.old) ≡ None) }
        ensures scheduled { schedule_in self.new ≡ after_call (schedule_in self.old) (has_store_failed result) }
    {
        let failing = self.schedule.planned();
        let done = self.put_package(alloc, registry, info, failing);
        self.schedule.finish(failing, done)
    }

    fn load_publish(&mut self, alloc: Global) -> Result<Option<PublishInfo>, StoreError>
        ensures never_falls { (schedule_in self.old).faults ≤ (schedule_in self.new).faults }
        ensures kept { Tells (Some (held_in self.new)) (held_in self.old) }
        ensures found { IfOk result (λ o. (held_in self.old).publish ≡ entry_of (option_map info_view o)) }
        ensures publishable { IfOk result (λ o. IfSome o IsSoundPublish) }
        ensures fault { IfErr result (λ e. IsLoadFault e EntryKind.Publish (schedule_in self.old).faults
            (schedule_in self.new).faults (Some (held_in self.old).publish)) }
        ensures failed { IsErrOf result StoreError.Failed ↔ IsSome (planned (schedule_in self.old)) }
        ensures scheduled { schedule_in self.new ≡ after_call (schedule_in self.old) (has_store_failed result) }
    {
        if self.schedule.fails_now() {
            return Err(StoreError::Failed);
        }
        self.publish.load(alloc, EntryKind::Publish)
    }

    fn store_publish(&mut self, alloc: Global, info: Option<&PublishInfo>) -> Result<(), StoreError>
        requires { IfSome (option_copied info) IsSoundPublish }
        ensures never_falls { (schedule_in self.old).faults ≤ (schedule_in self.new).faults }
        ensures stored { OnOk result (Tells (Some (held_in self.new))
            (with_publish (held_in self.old) (entry_of (option_map info_view (option_copied info.entry))))) }
        ensures refused { OnErr result (LeavesPublish (Some (held_in self.new)) (held_in self.old)
            (option_map info_view (option_copied info.entry))) }
        ensures fault { IfErr result (λ e. IsStoreFault e (schedule_in self.old).faults (schedule_in self.new).faults) }
        ensures left { IsErrOf result StoreError.Failed → IsSomeAnd (planned (schedule_in self.old)) (λ after.
            IsAfterPublish (Some after) (held_in self.old) (option_map info_view (option_copied info.entry))
            (held_in self.new)) }
        ensures unchanged { IsErrOf result StoreError.Memory → SameHeld (held_in self.new) (held_in self.old) }
        ensures unplanned { OnOk result (planned (schedule_in self.old) ≡ None) }
        ensures scheduled { schedule_in self.new ≡ after_call (schedule_in self.old) (has_store_failed result) }
    {
        let failing = self.schedule.planned();
        let done = self.put_publish(alloc, info, failing);
        self.schedule.finish(failing, done)
    }
}
