//! Resets of slots in memory.

ghost use Rattle.warg_store.specs.Entry.{SameEntries, without_entries};
ghost use Rattle.warg_store.specs.Held.{is_registry, is_package, is_reset};
ghost use Rattle.warg_store.specs.Slots.{entries_in};

use crate::slots::SlotMap;
use crate::sound::Stored;
use warg_hash::LogId;
use warg_url::RegistryDomain;

/// Takes away the slots of the home registry, or of all registries.
pub fn reset_registries<T: Stored>(slots: &mut SlotMap<Option<RegistryDomain>, T>, all: bool)
    ensures { SameEntries (entries_in is_registry T.seen slots.new)
        (without_entries (is_reset all) (entries_in is_registry T.seen slots.old)) }
{
    slots.slots.retain(|registry, _| !all && registry.is_some());
}

/// Takes away the slots of the packages of the home registry, or of all packages.
pub fn reset_packages<T: Stored>(slots: &mut SlotMap<(Option<RegistryDomain>, LogId), T>, all: bool)
    ensures { SameEntries (entries_in is_package T.seen slots.new)
        (without_entries (λ p. is_reset all p.0) (entries_in is_package T.seen slots.old)) }
{
    slots.slots.retain(|package, _| !all && package.0.is_some());
}
