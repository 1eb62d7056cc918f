//! The registries of namespaces, in memory.

ghost use Rattle.std.specs.Prelude.{◌≡◌, ◌≢◌, ◌≤◌, ◌++◌, ◌∷◌, ◌↔◌, [], ℕ, false, Some, None, Err, IfOk, IfErr, IfSome, IsSome, IsSomeAnd, IsErrOf, OnOk, OnErr, option_map, bytes_eq};
ghost use Rattle.indexmap.specs.IndexMap.{insert_entry};
ghost use Rattle.warg_store.specs.Entry.{Absent, Whole, Unreadable, entry_of, IsLoadFault, IsStoreFault};
ghost use Rattle.warg_store.specs.Faults.{planned, after_call, has_store_failed};
ghost use Rattle.warg_store.specs.MemoryNames.{names_in, names_schedule};
ghost use Rattle.warg_store.specs.Namespaces.{LeavesNames, LeavesNamesReset, with_name, names_after, names_after_reset};
ghost use Rattle.warg_store.specs.declared.error.StoreError.TheVariants.{Damaged as IsDamaged};

use crate::after::After;
use crate::error::{EntryKind, StoreError};
use crate::namespaces::NamespaceMapStorage;
use crate::schedule::StoreSchedule;
use indexmap::IndexMap;
use std::alloc::Global;
use warg_url::RegistryDomain;
use warg_values::{Memory, Text};

/// What is kept of namespaces.
#[derive(Debug, Drop)]
pub enum NameSlot {
    /// Nothing.
    Absent,
    /// The registries of namespaces.
    Whole(IndexMap<Text, RegistryDomain>),
    /// What can't be read.
    Unreadable,
}

/// The registries of namespaces in memory, which tell what they hold.
#[derive(Debug, Drop)]
pub struct MemoryNamespaces {
    names: NameSlot,
    schedule: StoreSchedule,
}

/// Adds the registry of a namespace to names. A refusal changes nothing.
fn add_name(
    alloc: Global,
    names: &mut IndexMap<Text, RegistryDomain>,
    namespace: &str,
    registry: &RegistryDomain,
) -> Result<(), Memory>
    ensures added { OnOk result (names.new.entries
        ≡ insert_entry bytes_eq names.old.entries namespace.now registry.now) }
    ensures unchanged { OnErr result (names.new.entries ≡ names.old.entries) }
{
    let namespace = Text::copy_of(alloc, namespace)?;
    let registry = registry.try_clone(alloc)?;
    names.insert(namespace, registry)?;
    Ok(())
}

/// Equal names of their own, in the same order.
fn copies_of(
    alloc: Global,
    names: &IndexMap<Text, RegistryDomain>,
) -> Result<IndexMap<Text, RegistryDomain>, Memory>
    ensures { IfOk result (λ copies. copies.entries ≡ names.now.entries) }
{
    let mut copies = IndexMap::new(alloc);
    for (namespace, registry) in names {
        add_name(alloc, &mut copies, namespace.as_str(), registry)?;
    }
    Ok(copies)
}

impl MemoryNamespaces {
    /// No namespaces, and no call that is to fail.
    pub fn new(alloc: Global) -> Self
        ensures empty { names_in result ≡ Absent }
        ensures schedule { names_schedule result ≡ record { calls = 0; failing = []; faults = 0 } }
    {
        MemoryNamespaces {
            names: NameSlot::Absent,
            schedule: StoreSchedule::new(alloc),
        }
    }

    /// Has the call of this number fail, counted from 1 over all calls, and leave this. A refusal changes nothing.
    pub fn fail_at(&mut self, call: u64, after: After) -> Result<(), Memory>
        ensures listed { OnOk result (names_schedule self.new ≡ record (names_schedule self.old)
            { failing = (names_schedule self.old).failing ++ (call, after) ∷ [] }) }
        ensures unchanged { OnErr result (names_schedule self.new ≡ names_schedule self.old) }
        ensures same { names_in self.new ≡ names_in self.old }
    {
        self.schedule.fail_at(call, after)
    }

    /// A copy of the names.
    fn copy_of(&self, alloc: Global) -> Result<Option<IndexMap<Text, RegistryDomain>>, StoreError>
        ensures found { IfOk result (λ o. names_in self.now ≡ entry_of (option_map (λ names. names.entries) o)) }
        ensures fault { (before after : ℕ) → IfErr result (λ e. IsLoadFault e EntryKind.Namespaces before after
            (Some (names_in self.now))) }
        ensures no_failure { has_store_failed result ≡ false }
    {
        match &self.names {
            NameSlot::Absent => Ok(None),
            NameSlot::Whole(names) => Ok(Some(copies_of(alloc, names)?)),
            NameSlot::Unreadable => Err(StoreError::Damaged(EntryKind::Namespaces)),
        }
    }

    /// How many calls have failed.
    pub fn faults(&self) -> u64
        ensures { result ≡ (names_schedule self.now).faults }
    {
        self.schedule.faults()
    }

    /// Holds the registry of a namespace beside the names that can be read. A refusal changes nothing.
    fn insert(
        &mut self,
        alloc: Global,
        namespace: &str,
        registry: &RegistryDomain,
    ) -> Result<(), Memory>
        ensures inserted { OnOk result (names_in self.new
            ≡ Whole (with_name (names_in self.old) namespace.now registry.now)) }
        ensures unchanged { OnErr result (names_in self.new ≡ names_in self.old) }
        ensures schedule { names_schedule self.new ≡ names_schedule self.old }
    {
        if let NameSlot::Whole(names) = &mut self.names {
            add_name(alloc, names, namespace, registry)?;
            return Ok(());
        }
        let mut names = IndexMap::new(alloc);
        add_name(alloc, &mut names, namespace, registry)?;
        self.names = NameSlot::Whole(names);
        Ok(())
    }

    /// Keeps the registry of a namespace, or leaves what a call that is to fail leaves. A refusal changes nothing.
    fn put(
        &mut self,
        alloc: Global,
        namespace: &str,
        registry: &RegistryDomain,
        failing: Option<After>,
    ) -> Result<(), Memory>
        ensures put { OnOk result (names_in self.new ≡ names_after failing (names_in self.old)
            (with_name (names_in self.old) namespace.now registry.now)) }
        ensures unchanged { OnErr result (names_in self.new ≡ names_in self.old) }
        ensures schedule { names_schedule self.new ≡ names_schedule self.old }
    {
        match failing {
            None | Some(After::New) => self.insert(alloc, namespace, registry),
            Some(After::Old) => Ok(()),
            Some(After::Unreadable) => {
                self.names = NameSlot::Unreadable;
                Ok(())
            }
        }
    }

    /// Takes all namespaces away, or leaves what a call that is to fail leaves.
    fn take_away(&mut self, failing: Option<After>)
        ensures reset { names_in self.new ≡ names_after_reset failing (names_in self.old) }
        ensures schedule { names_schedule self.new ≡ names_schedule self.old }
    {
        match failing {
            None | Some(After::New) => self.names = NameSlot::Absent,
            Some(After::Old | After::Unreadable) => {}
        }
    }
}

impl NamespaceMapStorage for MemoryNamespaces {
    ghost faults = { λ m. (names_schedule m).faults };

    ghost told = { λ m. Some (names_in m) };

    fn load_namespace_map(
        &mut self,
        alloc: Global,
    ) -> Result<Option<IndexMap<Text, RegistryDomain>>, StoreError>
        ensures never_falls { (names_schedule self.old).faults ≤ (names_schedule self.new).faults }
        ensures kept { names_in self.new ≡ names_in self.old }
        ensures found { IfOk result (λ o. names_in self.old ≡ entry_of (option_map (λ names. names.entries) o)) }
        ensures fault { IfErr result (λ e. IsLoadFault e EntryKind.Namespaces (names_schedule self.old).faults
            (names_schedule self.new).faults (Some (names_in self.old))) }
        ensures failed { IsErrOf result StoreError.Failed ↔ IsSome (planned (names_schedule self.old)) }
        ensures scheduled { names_schedule self.new ≡ after_call (names_schedule self.old) (has_store_failed result) }
    {
        if self.schedule.fails_now() {
            return Err(StoreError::Failed);
        }
        self.copy_of(alloc)
    }

    fn reset_namespaces(&mut self, _alloc: Global) -> Result<(), StoreError>
        ensures never_falls { (names_schedule self.old).faults ≤ (names_schedule self.new).faults }
        ensures reset { OnOk result (names_in self.new ≡ Absent) }
        ensures refused { OnErr result (LeavesNamesReset (Some (names_in self.new)) (names_in self.old)) }
        ensures fault { IfErr result (λ e. IsStoreFault e (names_schedule self.old).faults
            (names_schedule self.new).faults) }
        ensures left { IsErrOf result StoreError.Failed → IsSomeAnd (planned (names_schedule self.old)) (λ after.
            names_in self.new ≡ names_after_reset (Some after) (names_in self.old)) }
        ensures failed { IsErrOf result StoreError.Failed ↔ IsSome (planned (names_schedule self.old)) }
        ensures scheduled { names_schedule self.new ≡ after_call (names_schedule self.old) (has_store_failed result) }
    {
        let failing = self.schedule.planned();
        self.take_away(failing);
        self.schedule.finish(failing, Ok(()))
    }

    fn store_namespace(
        &mut self,
        alloc: Global,
        namespace: &str,
        registry: &RegistryDomain,
    ) -> Result<(), StoreError>
        ensures never_falls { (names_schedule self.old).faults ≤ (names_schedule self.new).faults }
        ensures stored { OnOk result (names_in self.new
            ≡ Whole (with_name (names_in self.old) namespace.now registry.now)) }
        ensures readable { OnOk result (names_in self.old ≢ Unreadable) }
        ensures refused { OnErr result (LeavesNames (Some (names_in self.new)) (names_in self.old)
            (with_name (names_in self.old) namespace.now registry.now)) }
        ensures damaged { result ≡ Err (IsDamaged EntryKind.Namespaces) → names_in self.new ≡ names_in self.old }
        ensures fault { IfErr result (λ e. IsLoadFault e EntryKind.Namespaces (names_schedule self.old).faults
            (names_schedule self.new).faults (Some (names_in self.old))) }
        ensures left { IsErrOf result StoreError.Failed → IsSomeAnd (planned (names_schedule self.old)) (λ after.
            names_in self.new ≡ names_after (Some after) (names_in self.old)
            (with_name (names_in self.old) namespace.now registry.now)) }
        ensures unchanged { IsErrOf result StoreError.Memory → names_in self.new ≡ names_in self.old }
        ensures unplanned { OnOk result (planned (names_schedule self.old) ≡ None) }
        ensures scheduled { names_schedule self.new ≡ after_call (names_schedule self.old) (has_store_failed result) }
    {
        if matches!(self.names, NameSlot::Unreadable) {
            self.schedule.count(false);
            return Err(StoreError::Damaged(EntryKind::Namespaces));
        }
        let failing = self.schedule.planned();
        let done = self.put(alloc, namespace, registry, failing);
        self.schedule.finish(failing, done)
    }
}
