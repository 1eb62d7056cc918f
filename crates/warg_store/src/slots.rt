//! Slots in memory: for each key a value, or what can't be read.

ghost use Rattle.std.specs.Prelude.{◌≡◌, ℕ, false, Some, IfOk, IfErr, IfSome, OnOk, OnErr, option_copied, option_map};
ghost use Rattle.warg_store.specs.Entry.{Absent, SameEntries, with_entry, entry_of, IsLoadFault};
ghost use Rattle.warg_store.specs.Faults.{has_store_failed};
ghost use Rattle.warg_store.specs.Slots.{slot_entry, entries_in, AreAfterStore};

use crate::after::After;
use crate::error::{EntryKind, StoreError};
use crate::sound::{Sound, Stored};
use indexmap::IndexMap;
use std::alloc::Global;
use std::hash::Hash;
use warg_values::Memory;

/// What is kept under a key.
#[derive(Debug, Drop)]
pub enum Slot<T: Stored> {
    /// A value, which is sound.
    Whole(Sound<T>),
    /// What can't be read.
    Unreadable,
}

/// A copy of the value of a slot, where there is one.
pub fn value_in<T: Stored>(
    alloc: Global,
    kind: EntryKind,
    slot: Option<&Slot<T>>,
) -> Result<Option<T>, StoreError>
    ensures found { IfOk result (λ o. slot_entry T.seen (option_copied slot.entry) ≡ entry_of (option_map T.seen o)) }
    ensures sound { IfOk result (λ o. IfSome o T.IsSound) }
    ensures fault { (before after : ℕ) → IfErr result (λ e. IsLoadFault e kind before after
        (Some (slot_entry T.seen (option_copied slot.entry)))) }
    ensures no_failure { has_store_failed result ≡ false }
{
    match slot {
        None => Ok(None),
        Some(Slot::Whole(value)) => Ok(Some(value.copy(alloc)?)),
        Some(Slot::Unreadable) => Err(StoreError::Damaged(kind)),
    }
}

/// What is kept of one kind of entry, by its key.
#[derive(Debug, Drop)]
pub struct SlotMap<K: Eq + Hash, T: Stored> {
    /// The slots.
    pub slots: IndexMap<K, Slot<T>>,
}

impl<K: Eq + Hash + Drop, T: Stored> SlotMap<K, T> {
    /// No slots.
    pub fn new(alloc: Global) -> Self
        ensures { SameEntries (entries_in K.eq T.seen result) (λ _. Absent) }
    {
        SlotMap {
            slots: IndexMap::new(alloc),
        }
    }

    /// A copy of the value under a key.
    pub fn load(&self, alloc: Global, kind: EntryKind, key: &K) -> Result<Option<T>, StoreError>
        ensures found { IfOk result (λ o. entries_in K.eq T.seen self.now key.now ≡ entry_of (option_map T.seen o)) }
        ensures sound { IfOk result (λ o. IfSome o T.IsSound) }
        ensures fault { (before after : ℕ) → IfErr result (λ e. IsLoadFault e kind before after
            (Some (entries_in K.eq T.seen self.now key.now))) }
        ensures no_failure { has_store_failed result ≡ false }
    {
        value_in(alloc, kind, self.slots.get(key))
    }

    /// Has a slot under a key. A refusal changes nothing.
    fn insert(&mut self, key: K, slot: Slot<T>) -> Result<(), Memory>
        ensures inserted { OnOk result (SameEntries (entries_in K.eq T.seen self.new)
            (with_entry K.eq (entries_in K.eq T.seen self.old) key (slot_entry T.seen (Some slot)))) }
        ensures unchanged { OnErr result (SameEntries (entries_in K.eq T.seen self.new)
            (entries_in K.eq T.seen self.old)) }
    {
        self.slots.insert(key, slot)?;
        Ok(())
    }

    /// Keeps a value under a key, or leaves what a store that is to fail leaves. A refusal changes nothing.
    pub fn put(&mut self, key: K, value: Sound<T>, failing: Option<After>) -> Result<(), Memory>
        ensures put { OnOk result (AreAfterStore K.eq failing (entries_in K.eq T.seen self.old) key (T.seen value)
            (entries_in K.eq T.seen self.new)) }
        ensures unchanged { OnErr result (SameEntries (entries_in K.eq T.seen self.new)
            (entries_in K.eq T.seen self.old)) }
    {
        match failing {
            None | Some(After::New) => self.insert(key, Slot::Whole(value)),
            Some(After::Old) => Ok(()),
            Some(After::Unreadable) => self.insert(key, Slot::Unreadable),
        }
    }
}
