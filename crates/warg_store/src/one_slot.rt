//! A slot in memory that has no key: a value, or what can't be read.

ghost use Rattle.std.specs.Prelude.{◌≡◌, ℕ, false, Some, IfOk, IfErr, IfSome, option_map};
ghost use Rattle.warg_store.specs.Entry.{Absent, entry_of, IsLoadFault};
ghost use Rattle.warg_store.specs.Faults.{has_store_failed};
ghost use Rattle.warg_store.specs.Slots.{entry_in, entry_after};

use crate::after::After;
use crate::error::{EntryKind, StoreError};
use crate::slots::{Slot, value_in};
use crate::sound::{Sound, Stored};
use std::alloc::Global;

/// What is kept of an entry of which there is one.
#[derive(Debug, Drop)]
pub struct OneSlot<T: Stored> {
    slot: Option<Slot<T>>,
}

impl<T: Stored> OneSlot<T> {
    /// Nothing.
    pub fn new() -> Self
        ensures { entry_in T.seen result ≡ Absent }
    {
        OneSlot { slot: None }
    }

    /// A copy of the value.
    pub fn load(&self, alloc: Global, kind: EntryKind) -> Result<Option<T>, StoreError>
        ensures found { IfOk result (λ o. entry_in T.seen self.now ≡ entry_of (option_map T.seen o)) }
        ensures sound { IfOk result (λ o. IfSome o T.IsSound) }
        ensures fault { (before after : ℕ) → IfErr result (λ e. IsLoadFault e kind before after
            (Some (entry_in T.seen self.now))) }
        ensures no_failure { has_store_failed result ≡ false }
    {
        value_in(alloc, kind, self.slot.as_ref())
    }

    /// Keeps a value, or none, or leaves what a store that is to fail leaves.
    pub fn put(&mut self, value: Option<Sound<T>>, failing: Option<After>)
        ensures { entry_in T.seen self.new
            ≡ entry_after failing (entry_in T.seen self.old) (option_map T.seen value) }
    {
        match (failing, value) {
            (None | Some(After::New), None) => self.slot = None,
            (None | Some(After::New), Some(value)) => self.slot = Some(Slot::Whole(value)),
            (Some(After::Unreadable), Some(_)) => self.slot = Some(Slot::Unreadable),
            (Some(After::Unreadable), None) | (Some(After::Old), _) => {}
        }
    }
}
