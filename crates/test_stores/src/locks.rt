//! Locks, in memory and of the host.

use std::alloc::Global;
use std::io::{Read, Seek, SeekFrom, Write};
use std::rt::HostRuntime;
use std::test::Fail;
use test_check::{holds, is_row, is_text};
use warg_locks::{FileLock, HostLocks, LockError, Locks, MemoryLocks};
use warg_values::Text;

/// What locking without waiting answers, in a word.
fn tried<T>(answer: &Result<Option<T>, LockError>) -> &'static str {
    match answer {
        Ok(Some(_)) => "locked",
        Ok(None) => "held",
        Err(LockError::Failed) => "failed",
        Err(LockError::Memory) => "no memory",
    }
}

/// What locking answers.
fn waited<T>(answer: &Result<T, LockError>) -> &'static str {
    match answer {
        Ok(_) => "locked",
        Err(LockError::Failed) => "failed",
        Err(LockError::Memory) => "no memory",
    }
}

/// Calls of locks in memory, of which somebody else holds `/held`, and the third is to fail: whether the call waits,
/// its path, and its answer.
const CALLS: &[(bool, &str, &str)] = &[
    (false, "/free", "locked"),
    (false, "/held", "held"),
    (false, "/free", "failed"),
    (true, "/free", "locked"),
    (true, "/held", "failed"),
    (false, "/free", "locked"),
];

/// Fails at the first call that answers something else.
fn are_answered<K: Locks>(
    alloc: Global,
    locks: &mut K,
    rows: &[(bool, &str, &str)],
) -> Result<(), Fail> {
    for (waits, path, want) in rows {
        let found = if *waits {
            waited(&locks.lock(alloc, path))
        } else {
            tried(&locks.try_lock(alloc, path))
        };
        is_row(path, found, want)?;
    }
    Ok(())
}

#[test]
fn what_another_holds_is_not_locked_in_memory(rt: HostRuntime) -> Result<(), Fail> {
    let mut held = Vec::new(rt.alloc());
    held.push(Text::copy_of(rt.alloc(), "/held")?)?;
    let mut locks = MemoryLocks::new(rt.alloc(), held);
    locks.fail_at(3)?;
    are_answered(rt.alloc(), &mut locks, CALLS)
}

/// Locks a path of the host twice at once, and then again once the first lock is gone.
fn locks_once<K: Locks>(alloc: Global, locks: &mut K, path: &str) -> Result<(), Fail> {
    let first = locks.try_lock(alloc, path);
    is_text(tried(&first), "locked")?;
    is_text(tried(&locks.try_lock(alloc, path)), "held")?;
    drop(first);
    is_text(waited(&locks.lock(alloc, path)), "locked")
}

#[test]
fn the_host_locks_a_path_for_one_alone(rt: HostRuntime) -> Result<(), Fail> {
    locks_once(rt.alloc(), &mut HostLocks::new(&rt), "locks/one/.lock")
}

/// Writes through a lock, and reads what was written.
fn write_and_read(alloc: Global, mut lock: FileLock) -> Result<(), Fail> {
    lock.write_all(b"held")?;
    lock.flush()?;
    let _place = lock.seek(SeekFrom::Start(0))?;
    let mut text = String::new(alloc);
    let _count = lock.read_to_string(&mut text)?;
    is_text(&text, "held")?;
    is_text(lock.parent(), "locks/two")?;
    is_text(lock.path(), "locks/two/.lock")
}

/// The error in the words of a test.
fn fail(error: LockError) -> Fail {
    Fail::new(format_args!("{error}"))
}

#[test]
fn readers_share_a_lock_that_a_writer_made(rt: HostRuntime) -> Result<(), Fail> {
    let path = "locks/two/.lock";
    holds(
        FileLock::open_ro(&rt, rt.alloc(), path).is_err(),
        "nobody made the file",
    )?;
    write_and_read(
        rt.alloc(),
        FileLock::open_rw(&rt, rt.alloc(), path).map_err(fail)?,
    )?;
    let first = FileLock::open_ro(&rt, rt.alloc(), path).map_err(fail)?;
    let second = FileLock::try_open_ro(&rt, rt.alloc(), path).map_err(fail)?;
    holds(second.is_some(), "two readers lock one file")?;
    let writer = FileLock::try_open_rw(&rt, rt.alloc(), path).map_err(fail)?;
    holds(writer.is_none(), "no writer locks it beside them")?;
    holds(first.file().metadata()?.is_file(), "the lock is on a file")
}
