//! Contents in files, under a lock.

use std::alloc::Global;
use std::rt::HostRuntime;
use std::test::Fail;
use test_check::{holds, is_row, is_text};
use warg_base::MemoryFiles;
use warg_content_files::FileSystemContentStorage;
use warg_locks::{LockError, MemoryLocks};
use warg_store::ContentStorage;
use warg_values::Text;

/// Where the content `abc` is kept below `/c`, by its SHA-256 (FIPS 180-4, example "abc").
const ABC: &str = "/c/sha256/ba7816bf8f01cfea414140de5dae2223b00361a396177a9cb410ff61f20015ad";

/// Locks in memory, of which somebody else holds the one of the folder `/held`.
fn locks(alloc: Global) -> Result<MemoryLocks, Fail> {
    let mut held = Vec::new(alloc);
    held.push(Text::copy_of(alloc, "/held/.lock")?)?;
    Ok(MemoryLocks::new(alloc, held))
}

/// What making a store answers: the path that it locks, or a word.
fn made(alloc: Global, locks: &mut MemoryLocks, base: &str) -> Result<String, Fail> {
    match FileSystemContentStorage::try_lock(alloc, MemoryFiles::new(alloc), locks, base) {
        Ok(Some(store)) => Ok(String::from_str(alloc, store.held().path())?),
        Ok(None) => Ok(String::from_str(alloc, "held")?),
        Err(LockError::Failed) => Ok(String::from_str(alloc, "failed")?),
        Err(LockError::Memory) => Ok(String::from_str(alloc, "no memory")?),
    }
}

/// Fails at the first base folder of which another path is locked.
fn are_locked(alloc: Global, rows: &[(&str, &str)]) -> Result<(), Fail> {
    let mut locks = locks(alloc)?;
    locks.fail_at(3)?;
    for (base, want) in rows {
        is_row(base, made(alloc, &mut locks, base)?.as_str(), want)?;
    }
    Ok(())
}

#[test]
fn a_store_locks_its_base_folder(rt: HostRuntime) -> Result<(), Fail> {
    are_locked(
        rt.alloc(),
        &[
            ("/c", "/c/.lock"),
            ("/held", "held"),
            ("/c", "failed"),
            ("", ".lock"),
        ],
    )
}

/// Keeps a content, and takes it out again.
fn keep<S: ContentStorage>(alloc: Global, store: &mut S) -> Result<(), Fail> {
    let Ok(digest) = store.store_content(alloc, b"abc", None) else {
        return Err(Fail::new("it is not kept"));
    };
    match store.content_location(alloc, &digest) {
        Ok(Some(path)) => is_text(path.as_str(), ABC)?,
        _ => return Err(Fail::new("it is nowhere")),
    }
    match store.load_content(alloc, &digest) {
        Ok(Some(bytes)) => holds(
            bytes.as_slice() == b"abc".as_slice(),
            "the content is loaded",
        ),
        _ => Err(Fail::new("it is not loaded")),
    }
}

#[test]
fn a_content_is_kept_and_loaded_under_a_lock(rt: HostRuntime) -> Result<(), Fail> {
    let files = MemoryFiles::new(rt.alloc());
    let mut locks = locks(rt.alloc())?;
    match FileSystemContentStorage::lock(rt.alloc(), files, &mut locks, "/c") {
        Ok(mut store) => keep(rt.alloc(), &mut store),
        Err(_) => Err(Fail::new("it is not locked")),
    }
}
