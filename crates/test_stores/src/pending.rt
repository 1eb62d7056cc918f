//! What is to be published, in stores: kept, taken away, reset, and what a call that fails leaves.

use crate::stores::one_file;
use std::alloc::Global;
use std::rt::HostRuntime;
use std::test::Fail;
use test_check::is_row;
use warg_base::MemoryFiles;
use warg_publish_text::read_publish;
use warg_registry_files::FileSystemRegistryStorage;
use warg_store::{After, EntryKind, MemoryRegistry, RegistryStorage, StoreError};

/// An info by which a package is made.
const FIRST: &str = r#"{"entries":[{"type":"init"}],"name":"a:b"}"#;

/// An info of a package that is there.
const SECOND: &str = r#"{"entries":[{"type":"yank","version":"1.0.0"}],"name":"c:d"}"#;

/// Where a store in files keeps it.
const PLACE: &str = "/r/home.test/pending-publish.json";

/// A call of a store.
#[derive(Clone, Copy)]
enum Call {
    /// The first info is to be kept.
    First,
    /// The second one is.
    Second,
    /// None is.
    Clear,
    /// What is kept of the home registry is to go.
    ResetHome,
    /// What is kept of all registries is.
    ResetAll,
}

/// Calls, and what a load answers then.
const KEPT: &[(&[Call], &str)] = &[
    (&[], "none"),
    (&[Call::First], "first"),
    (&[Call::First, Call::Second], "second"),
    (&[Call::First, Call::Clear], "none"),
    (&[Call::First, Call::ResetHome], "none"),
    (&[Call::First, Call::ResetAll], "none"),
    (&[Call::Clear, Call::Second], "second"),
];

/// What the second call leaves, which fails; calls, and what a load answers then.
const FAILED: &[(After, &[Call], &str)] = &[
    (After::Old, &[Call::First, Call::Second], "first"),
    (After::New, &[Call::First, Call::Second], "second"),
    (After::Unreadable, &[Call::First, Call::Second], "damaged"),
    (After::Old, &[Call::First, Call::Clear], "first"),
    (After::New, &[Call::First, Call::Clear], "none"),
    (After::Unreadable, &[Call::First, Call::Clear], "first"),
    (After::New, &[Call::First, Call::ResetHome], "none"),
    (After::Unreadable, &[Call::First, Call::ResetAll], "first"),
    (After::Unreadable, &[Call::First], "failed"),
];

/// What a load answers, in a word.
fn word<S: RegistryStorage>(alloc: Global, store: &mut S) -> &'static str {
    match store.load_publish(alloc) {
        Ok(Some(info)) if info.initializing() => "first",
        Ok(Some(_)) => "second",
        Ok(None) => "none",
        Err(StoreError::Damaged(EntryKind::Publish)) => "damaged",
        Err(StoreError::Failed) => "failed",
        Err(_) => "refused",
    }
}

/// Has an info kept that is read of a text.
fn keep<S: RegistryStorage>(
    alloc: Global,
    store: &mut S,
    text: &str,
) -> Result<Result<(), StoreError>, Fail> {
    let Some(info) = read_publish(alloc, text.as_bytes())? else {
        return Err(Fail::new("it is not read"));
    };
    Ok(store.store_publish(alloc, Some(&info)))
}

/// Makes a call. It may be refused.
fn make<S: RegistryStorage>(alloc: Global, store: &mut S, call: Call) -> Result<(), Fail> {
    let _answer = match call {
        Call::First => keep(alloc, store, FIRST)?,
        Call::Second => keep(alloc, store, SECOND)?,
        Call::Clear => store.store_publish(alloc, None),
        Call::ResetHome => store.reset(alloc, false),
        Call::ResetAll => store.reset(alloc, true),
    };
    Ok(())
}

/// What a load answers after calls.
fn after<S: RegistryStorage>(
    alloc: Global,
    store: &mut S,
    calls: &[Call],
) -> Result<&'static str, Fail> {
    for call in calls {
        make(alloc, store, *call)?;
    }
    Ok(word(alloc, store))
}

/// A store over files in memory, with this folder of the home registry.
fn over_files(
    alloc: Global,
    files: MemoryFiles,
) -> Result<FileSystemRegistryStorage<MemoryFiles, ()>, Fail> {
    Ok(FileSystemRegistryStorage::new(alloc, files, "/r/home.test")?)
}

/// Each row: calls, and what a load answers then, in memory and in files.
fn are_kept(alloc: Global, rows: &[(&[Call], &str)]) -> Result<(), Fail> {
    for (calls, wanted) in rows {
        let mut memory = MemoryRegistry::new(alloc);
        is_row("memory", after(alloc, &mut memory, calls)?, wanted)?;
        let mut files = over_files(alloc, MemoryFiles::new(alloc))?;
        is_row("files", after(alloc, &mut files, calls)?, wanted)?;
    }
    Ok(())
}

/// Each row: what the second call leaves, which fails; calls, and what a load answers then.
fn are_left(alloc: Global, rows: &[(After, &[Call], &str)]) -> Result<(), Fail> {
    for (left, calls, wanted) in rows {
        let mut store = MemoryRegistry::new(alloc);
        store.fail_at(2, *left)?;
        is_row("memory", after(alloc, &mut store, calls)?, wanted)?;
    }
    Ok(())
}

/// What a load answers where a file has a text.
fn of_file(alloc: Global, path: &str, text: &str) -> Result<&'static str, Fail> {
    let mut store = over_files(alloc, one_file(alloc, path, text)?)?;
    Ok(word(alloc, &mut store))
}

/// Each row: the path of a file, its text, and what a load answers.
fn are_read(alloc: Global, rows: &[(&str, &str, &str)]) -> Result<(), Fail> {
    for (path, text, wanted) in rows {
        is_row(text, of_file(alloc, path, text)?, wanted)?;
    }
    Ok(())
}

#[test]
fn an_info_is_kept_and_goes(rt: HostRuntime) -> Result<(), Fail> {
    are_kept(rt.alloc(), KEPT)
}

#[test]
fn a_call_that_fails_leaves_what_was_planned(rt: HostRuntime) -> Result<(), Fail> {
    are_left(rt.alloc(), FAILED)
}

#[test]
fn infos_of_files(rt: HostRuntime) -> Result<(), Fail> {
    are_read(
        rt.alloc(),
        &[
            (PLACE, FIRST, "first"),
            (PLACE, SECOND, "second"),
            (PLACE, "", "damaged"),
            (PLACE, "{", "damaged"),
            (PLACE, r#"{"entries":[{"type":"init"}]}"#, "damaged"),
            (
                PLACE,
                r#"{"entries":[{"type":"grant","key":"k:BA==","permissions":[]}],"name":"a:b"}"#,
                "damaged",
            ),
            ("/r/other/pending-publish.json", FIRST, "none"),
            ("/r/home.test/checkpoint", FIRST, "none"),
        ],
    )
}

#[test]
fn a_file_that_fails_is_told(rt: HostRuntime) -> Result<(), Fail> {
    let mut files = one_file(rt.alloc(), PLACE, FIRST)?;
    files.fail_at(2)?;
    let mut store = over_files(rt.alloc(), files)?;
    is_row("the file", word(rt.alloc(), &mut store), "failed")?;
    is_row("the file", word(rt.alloc(), &mut store), "first")
}
