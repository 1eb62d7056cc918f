//! Loads of files that are written by hand.

use std::alloc::Global;
use std::rt::HostRuntime;
use std::test::Fail;
use test_check::is_row;
use warg_base::{Files, MemoryFiles};
use warg_namespace_files::FileSystemNamespaceMapStorage;
use warg_registry_files::FileSystemRegistryStorage;
use warg_store::{EntryKind, NamespaceMapStorage, RegistryStorage, StoreError};
use warg_url::RegistryDomain;
use warg_values::Text;

/// Files in memory of which one has a text.
pub fn one_file(alloc: Global, path: &str, text: &str) -> Result<MemoryFiles, Fail> {
    let mut files = MemoryFiles::new(alloc);
    match files.write(alloc, path, text.as_bytes()) {
        Ok(()) => Ok(files),
        Err(_) => Err(Fail::new(format_args!("no file"))),
    }
}

/// What a load answers, in a word.
fn word<T>(answer: &Result<Option<T>, StoreError>) -> &'static str {
    match answer {
        Ok(Some(_)) => "whole",
        Ok(None) => "absent",
        Err(StoreError::Damaged(EntryKind::Namespaces)) => "damaged namespaces",
        Err(StoreError::Damaged(EntryKind::Operator)) => "damaged operator",
        Err(_) => "refused",
    }
}

/// Loads names of a file with a text.
fn load_names(alloc: Global, path: &str, text: &str) -> Result<&'static str, Fail> {
    let files = one_file(alloc, path, text)?;
    let Ok(mut store) = FileSystemNamespaceMapStorage::new(alloc, files, "/c/names") else {
        return Err(Fail::new(format_args!("no store")));
    };
    Ok(word(&store.load_namespace_map(alloc)))
}

/// A store of registries over files in memory of which one has a text.
fn registries(
    alloc: Global,
    path: &str,
    text: &str,
) -> Result<FileSystemRegistryStorage<MemoryFiles, ()>, Fail> {
    let files = one_file(alloc, path, text)?;
    match FileSystemRegistryStorage::new(alloc, files, "/r/home.test") {
        Ok(store) => Ok(store),
        Err(_) => Err(Fail::new(format_args!("no store"))),
    }
}

/// Loads the log of a registry's operator of a store.
fn operator_in<S: RegistryStorage>(
    alloc: Global,
    store: &mut S,
    registry: &str,
) -> Result<&'static str, Fail> {
    if registry == "home" {
        return Ok(word(&store.load_operator(alloc, None)));
    }
    let Ok(name) = Text::copy_of(alloc, registry) else {
        return Err(Fail::new(format_args!("no name")));
    };
    let domain = RegistryDomain::new(name);
    Ok(word(&store.load_operator(alloc, Some(&domain))))
}

/// Loads the log of a registry's operator, where a file has a text.
fn load_operator(
    alloc: Global,
    registry: &str,
    path: &str,
    text: &str,
) -> Result<&'static str, Fail> {
    let mut store = registries(alloc, path, text)?;
    operator_in(alloc, &mut store, registry)
}

/// Loads the log of a registry's operator once what is kept of all registries or of the home registry was reset.
fn load_after_reset(
    alloc: Global,
    all: bool,
    registry: &str,
    path: &str,
) -> Result<&'static str, Fail> {
    let mut store = registries(alloc, path, r#"{"records":[]}"#)?;
    if store.reset(alloc, all).is_err() {
        return Ok("refused");
    }
    operator_in(alloc, &mut store, registry)
}

/// Each row: whether all registries are reset, a registry, the path of its operator's log, and what a load of it answers
/// afterwards.
fn check_resets(alloc: Global, rows: &[(bool, &str, &str, &str)]) -> Result<(), Fail> {
    for (all, registry, path, wanted) in rows {
        is_row(path, load_after_reset(alloc, *all, registry, path)?, wanted)?;
    }
    Ok(())
}

/// Each row: the path of a file, its text, and what a load of the names at `/c/names` answers.
fn check_names(alloc: Global, rows: &[(&str, &str, &str)]) -> Result<(), Fail> {
    for (path, text, wanted) in rows {
        is_row(text, load_names(alloc, path, text)?, wanted)?;
    }
    Ok(())
}

/// Each row: a registry, the path of a file, its text, and what a load of the log of the registry's operator answers.
fn check_operators(alloc: Global, rows: &[(&str, &str, &str, &str)]) -> Result<(), Fail> {
    for (registry, path, text, wanted) in rows {
        is_row(path, load_operator(alloc, registry, path, text)?, wanted)?;
    }
    Ok(())
}

#[test]
fn names_of_files(rt: HostRuntime) -> Result<(), Fail> {
    let alloc = rt.alloc();
    check_names(
        alloc,
        &[
            ("/c/names", r#"{"a":"x"}"#, "whole"),
            ("/c/names", " { \"a\" : \"\\u0078\" }\n", "whole"),
            ("/c/names", "{}", "whole"),
            ("/c/others", "{}", "absent"),
            ("/c/names", "{", "damaged namespaces"),
            ("/c/names", "", "damaged namespaces"),
            ("/c/names", r#"{"a":"x""#, "damaged namespaces"),
            ("/c/names", r#"{"a":1}"#, "damaged namespaces"),
            ("/c/names", r#"["a"]"#, "damaged namespaces"),
            ("/c/names", r#"{"records":[]}"#, "damaged namespaces"),
        ],
    )
}

#[test]
fn operators_of_files(rt: HostRuntime) -> Result<(), Fail> {
    let alloc = rt.alloc();
    check_operators(
        alloc,
        &[
            (
                "home",
                "/r/home.test/operator.log",
                r#"{"records":[]}"#,
                "whole",
            ),
            (
                "home",
                "/r/home.test/operator.log",
                r#"{"records":[],"name":null}"#,
                "whole",
            ),
            (
                "home",
                "/r/home.test/checkpoint",
                r#"{"records":[]}"#,
                "absent",
            ),
            (
                "home",
                "/r/home.test/operator.log",
                r#"{"records":[],"name":"a:b"}"#,
                "damaged operator",
            ),
            (
                "home",
                "/r/home.test/operator.log",
                r#"{"records":[],"headRegistryIndex":0}"#,
                "damaged operator",
            ),
            (
                "home",
                "/r/home.test/operator.log",
                r#"{"records":["#,
                "damaged operator",
            ),
            (
                "home",
                "/r/home.test/operator.log",
                r#"{"records":[{}]}"#,
                "damaged operator",
            ),
            ("", "/r/%/operator.log", r#"{"records":[]}"#, "whole"),
            ("..", "/r/%2E./operator.log", r#"{"records":[]}"#, "whole"),
            ("a/b", "/r/a%2Fb/operator.log", r#"{"records":[]}"#, "whole"),
            ("a/b", "/r/a/b/operator.log", r#"{"records":[]}"#, "absent"),
            (
                "home.test",
                "/r/%%home.test/operator.log",
                r#"{"records":[]}"#,
                "whole",
            ),
            (
                "home.test",
                "/r/home.test/operator.log",
                r#"{"records":[]}"#,
                "absent",
            ),
        ],
    )
}

#[test]
fn resets_of_files(rt: HostRuntime) -> Result<(), Fail> {
    let alloc = rt.alloc();
    check_resets(
        alloc,
        &[
            (false, "home", "/r/home.test/operator.log", "absent"),
            (true, "home", "/r/home.test/operator.log", "absent"),
            (false, "a/b", "/r/a%2Fb/operator.log", "whole"),
            (true, "a/b", "/r/a%2Fb/operator.log", "absent"),
            (true, "", "/r/%/operator.log", "absent"),
            (false, "home.test", "/r/%%home.test/operator.log", "whole"),
            (true, "home.test", "/r/%%home.test/operator.log", "absent"),
        ],
    )
}
