//! Lists of all packages, in memory and in files: what is listed, and what refuses it.

use crate::stores::one_file;
use indexmap::IndexMap;
use std::alloc::Global;
use std::rt::HostRuntime;
use std::test::Fail;
use test_check::{is_row, is_text};
use warg_base::MemoryFiles;
use warg_hash::PackageName;
use warg_info::PackageInfo;
use warg_registry_files::FileSystemRegistryStorage;
use warg_store::{After, EntryKind, MemoryRegistry, RegistryStorage, StoreError};
use warg_url::RegistryDomain;
use warg_values::Text;

/// The log of the package `a:b`, without records.
const TEXT: &str = r#"{"name":"a:b","records":[]}"#;

/// The digits of the SHA-256 of `WARG-PACKAGE-ID-V0:a:b`, by which the log of `a:b` is named.
const A: &str = "3e789e3544c128ac72101b45dd3086b369ffe156bdfda2290de8469abdba57c1";

/// The same of `c:d`.
const C: &str = "c034069769f809d98acf268f01c989bb356de09f02618c141d70ab429dae954d";

/// The digits of `a:b`, in upper case.
const UPPER: &str = "3E789E3544C128AC72101B45DD3086B369FFE156BDFDA2290DE8469ABDBA57C1";

/// A registry with the packages of which logs are kept: the home registry is the empty text.
type Kept<'a> = (&'a str, &'a str);

/// A registry by its name, and the home registry by the empty text.
fn registry_of(alloc: Global, name: &str) -> Result<Option<RegistryDomain>, Fail> {
    if name.is_empty() {
        return Ok(None);
    }
    Ok(Some(RegistryDomain::new(Text::copy_of(alloc, name)?)))
}

/// Keeps the log of a package, without records.
fn keep<S: RegistryStorage>(alloc: Global, store: &mut S, kept: Kept<'_>) -> Result<(), Fail> {
    let registry = registry_of(alloc, kept.0)?;
    let info = PackageInfo::new(alloc, PackageName::new(alloc, kept.1)?);
    // It may be refused.
    let _answer = store.store_package(alloc, registry.as_ref(), &info);
    Ok(())
}

/// Writes the names of the packages of a registry behind its name.
fn write_names(
    out: &mut String,
    registry: Option<&RegistryDomain>,
    infos: &[PackageInfo],
) -> Result<(), Fail> {
    out.push_str(match registry {
        Some(name) => name.as_str(),
        None => "home",
    })?;
    for info in infos {
        out.push_str(" ")?;
        out.push_str(info.name.as_str())?;
    }
    out.push_str(";")?;
    Ok(())
}

/// The registries of a list, each with the names of its packages.
fn names(
    alloc: Global,
    all: &IndexMap<Option<RegistryDomain>, Vec<PackageInfo>>,
) -> Result<String, Fail> {
    let mut out = String::new(alloc);
    for (registry, infos) in all {
        write_names(&mut out, registry.as_ref(), infos)?;
    }
    Ok(out)
}

/// What a load of all packages answers: their names, or a word.
fn listed<S: RegistryStorage>(alloc: Global, store: &mut S) -> Result<String, Fail> {
    match store.load_all_packages(alloc) {
        Ok(all) => names(alloc, &all),
        Err(StoreError::Damaged(EntryKind::Package)) => Ok(String::from_str(alloc, "damaged")?),
        Err(StoreError::Failed) => Ok(String::from_str(alloc, "failed")?),
        Err(_) => Ok(String::from_str(alloc, "refused")?),
    }
}

/// What is listed after logs of packages are kept.
fn listed_after<S: RegistryStorage>(
    alloc: Global,
    store: &mut S,
    kept: &[Kept<'_>],
) -> Result<String, Fail> {
    for package in kept {
        keep(alloc, store, *package)?;
    }
    listed(alloc, store)
}

/// A store over files in memory, with this folder of the home registry.
fn over_files(
    alloc: Global,
    files: MemoryFiles,
) -> Result<FileSystemRegistryStorage<MemoryFiles, ()>, Fail> {
    Ok(FileSystemRegistryStorage::new(alloc, files, "/r/home.test")?)
}

/// Each row: the name of a registry's folder, the name of a log's file in it, its text, and what is listed.
fn are_listed(alloc: Global, rows: &[(&str, &str, &str, &str)]) -> Result<(), Fail> {
    for (folder, log, text, wanted) in rows {
        let path = format!(in alloc; "/r/{folder}/package-logs/sha256/{log}")?;
        let mut store = over_files(alloc, one_file(alloc, &path, text)?)?;
        is_row(&path, listed(alloc, &mut store)?.as_str(), wanted)?;
    }
    Ok(())
}

/// Logs of packages that are kept in turn.
const KEPT: &[Kept<'static>] = &[("x.test", "a:b"), ("", "c:d"), ("", "a:b"), ("", "c:d")];

#[test]
fn all_packages_are_listed(rt: HostRuntime) -> Result<(), Fail> {
    let alloc = rt.alloc();
    let mut memory = MemoryRegistry::new(alloc);
    is_text(listed(alloc, &mut memory)?.as_str(), "")?;
    is_text(
        listed_after(alloc, &mut memory, KEPT)?.as_str(),
        "x.test a:b;home c:d a:b;",
    )?;
    let mut files = over_files(alloc, MemoryFiles::new(alloc))?;
    is_text(listed(alloc, &mut files)?.as_str(), "")?;
    // Files are listed by their paths, and so by the digits of the ids.
    is_text(
        listed_after(alloc, &mut files, KEPT)?.as_str(),
        "home a:b c:d;x.test a:b;",
    )
}

#[test]
fn a_call_that_fails_lists_nothing(rt: HostRuntime) -> Result<(), Fail> {
    let alloc = rt.alloc();
    let mut memory = MemoryRegistry::new(alloc);
    memory.fail_at(5, After::Old)?;
    is_text(listed_after(alloc, &mut memory, KEPT)?.as_str(), "failed")?;
    is_text(
        listed(alloc, &mut memory)?.as_str(),
        "x.test a:b;home c:d a:b;",
    )?;
    let mut damaged = MemoryRegistry::new(alloc);
    damaged.fail_at(3, After::Unreadable)?;
    is_text(listed_after(alloc, &mut damaged, KEPT)?.as_str(), "damaged")
}

#[test]
fn a_file_that_fails_lists_nothing(rt: HostRuntime) -> Result<(), Fail> {
    let alloc = rt.alloc();
    let path = format!(in alloc; "/r/home.test/package-logs/sha256/{A}")?;
    let mut files = one_file(alloc, &path, TEXT)?;
    // The file is written, all are listed, and it is read.
    files.fail_at(3)?;
    let mut store = over_files(alloc, files)?;
    is_text(listed(alloc, &mut store)?.as_str(), "failed")?;
    is_text(listed(alloc, &mut store)?.as_str(), "home a:b;")
}

#[test]
fn packages_of_files(rt: HostRuntime) -> Result<(), Fail> {
    are_listed(
        rt.alloc(),
        &[
            ("home.test", A, TEXT, "home a:b;"),
            ("a%2Fb", A, TEXT, "a/b a:b;"),
            ("%C3%A9", A, TEXT, "é a:b;"),
            ("%", A, TEXT, " a:b;"),
            ("%%home.test", A, TEXT, "home.test a:b;"),
            ("a%2fb", A, TEXT, ""),
            ("%61", A, TEXT, ""),
            ("%FF", A, TEXT, ""),
            ("%%x", A, TEXT, ""),
            ("x/y", A, TEXT, ""),
            ("home.test", UPPER, TEXT, ""),
            ("home.test", "notes", "{", ""),
            ("home.test", C, TEXT, "damaged"),
            ("home.test", "00", TEXT, "damaged"),
            ("home.test", A, "{", "damaged"),
            ("a%2Fb", A, r#"{"records":[]}"#, "damaged"),
        ],
    )
}

#[test]
fn other_files_are_passed_over(rt: HostRuntime) -> Result<(), Fail> {
    let alloc = rt.alloc();
    let mut store = over_files(alloc, one_file(alloc, "/r/home.test/checkpoint", "{")?)?;
    is_text(listed(alloc, &mut store)?.as_str(), "")
}
