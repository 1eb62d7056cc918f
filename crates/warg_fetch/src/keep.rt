//! What a store keeps of an update.

ghost use Rattle.std.specs.Prelude.{◌≤◌, IfErr, IfSome, OnErr, OnOk};
ghost use Rattle.warg_store.specs.Entry.{IsStoreFault};
ghost use Rattle.warg_store.specs.Held.{Tells};
ghost use Rattle.warg_fetch.specs.Fetched.{IsSoundUpdate, writes_in};
ghost use Rattle.warg_fetch.specs.Writes.{HoldsFront, with_writes};

use crate::package::PackageUpdate;
use std::alloc::Global;
use warg_store::{RegistryStorage, StoreError};

/// Keeps what the update of a package has proved: the log of the registry's operator, that of the package, and then the
/// checkpoint, under the registry that the package's log is of. A refusal leaves a front of these; the one behind it
/// may be one that can't be read.
pub fn keep_update<R: RegistryStorage>(
    alloc: Global,
    registries: &mut R,
    update: &PackageUpdate,
) -> Result<(), StoreError>
    requires { IsSoundUpdate update.now }
    ensures never_falls { R.faults registries.old ≤ R.faults registries.new }
    ensures stored { OnOk result (IfSome (R.told registries.old) (λ held.
        Tells (R.told registries.new) (with_writes held (writes_in update.now)))) }
    ensures refused { OnErr result (IfSome (R.told registries.old) (λ held.
        HoldsFront (R.told registries.new) held (writes_in update.now))) }
    ensures fault { IfErr result (λ e. IsStoreFault e (R.faults registries.old) (R.faults registries.new)) }
{
    let registry = update.info.registry.as_ref();
    registries.store_operator(alloc, registry, &update.operator)?;
    registries.store_package(alloc, registry, &update.info)?;
    registries.store_checkpoint(alloc, registry, &update.checkpoint)?;
    Ok(())
}
