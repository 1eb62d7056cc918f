//! What is kept of registries in files, under a lock.

use crate::stores::one_file;
use std::alloc::Global;
use std::rt::HostRuntime;
use std::test::Fail;
use test_check::{holds, is_row};
use warg_base::MemoryFiles;
use warg_locks::{HostLocks, LockError, Locks, MemoryLocks};
use warg_registry_files::FileSystemRegistryStorage;
use warg_store::RegistryStorage;
use warg_values::Text;

/// Locks in memory, of which somebody else holds the one of the folder `/held`.
fn locks(alloc: Global) -> Result<MemoryLocks, Fail> {
    let mut held = Vec::new(alloc);
    held.push(Text::copy_of(alloc, "/held/.lock")?)?;
    Ok(MemoryLocks::new(alloc, held))
}

/// What making a store answers: the path that it locks, or a word.
fn made(alloc: Global, locks: &mut MemoryLocks, base: &str) -> Result<String, Fail> {
    match FileSystemRegistryStorage::try_lock(alloc, MemoryFiles::new(alloc), locks, base) {
        Ok(Some(store)) => Ok(String::from_str(alloc, store.held().path())?),
        Ok(None) => Ok(String::from_str(alloc, "held")?),
        Err(LockError::Failed) => Ok(String::from_str(alloc, "failed")?),
        Err(LockError::Memory) => Ok(String::from_str(alloc, "no memory")?),
    }
}

/// Fails at the first base folder of which another path is locked.
fn are_locked(alloc: Global, rows: &[(&str, &str)]) -> Result<(), Fail> {
    let mut locks = locks(alloc)?;
    locks.fail_at(3)?;
    for (base, want) in rows {
        is_row(base, made(alloc, &mut locks, base)?.as_str(), want)?;
    }
    Ok(())
}

#[test]
fn a_store_locks_the_home_registry(rt: HostRuntime) -> Result<(), Fail> {
    are_locked(
        rt.alloc(),
        &[
            ("/r/home.test", "/r/home.test/.lock"),
            ("/held", "held"),
            ("/r/home.test", "failed"),
            ("", ".lock"),
        ],
    )
}

/// Loads an operator's log that stands in a file, and resets it.
fn load_and_reset<S: RegistryStorage>(alloc: Global, store: &mut S) -> Result<(), Fail> {
    match store.load_operator(alloc, None) {
        Ok(Some(_)) => {}
        _ => return Err(Fail::new("it is not loaded")),
    }
    holds(store.reset(alloc, true).is_ok(), "it is reset")?;
    match store.load_operator(alloc, None) {
        Ok(None) => Ok(()),
        _ => Err(Fail::new("it is still there")),
    }
}

/// Holds a store, to which a second one is refused, and lets it go, whereafter another is made.
fn holds_until_dropped<K: Locks>(alloc: Global, locks: &mut K, base: &str) -> Result<(), Fail> {
    let path = format!(in alloc; "{base}/operator.log")?;
    let files = one_file(alloc, &path, r#"{"records":[]}"#)?;
    let Ok(mut first) = FileSystemRegistryStorage::lock(alloc, files, locks, base) else {
        return Err(Fail::new("it is not locked"));
    };
    match FileSystemRegistryStorage::try_lock(alloc, MemoryFiles::new(alloc), locks, base) {
        Ok(None) => {}
        _ => return Err(Fail::new("a second one is made")),
    }
    load_and_reset(alloc, &mut first)?;
    drop(first);
    match FileSystemRegistryStorage::try_lock(alloc, MemoryFiles::new(alloc), locks, base) {
        Ok(Some(_)) => Ok(()),
        _ => Err(Fail::new("the lock stays")),
    }
}

#[test]
fn a_store_is_locked_until_it_is_dropped(rt: HostRuntime) -> Result<(), Fail> {
    holds_until_dropped(rt.alloc(), &mut HostLocks::new(&rt), "locks/registries")
}
