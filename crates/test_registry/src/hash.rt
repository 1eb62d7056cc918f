//! Hashes computed by Python's `hashlib`, and names of packages.

use std::alloc::Global;
use std::test::Fail;
use test_check::holds;
use warg_hash::{AnyHash, KeyId, LogId, NameError, PackageName, RecordId};

const OF_ABC: &str = "sha256:ba7816bf8f01cfea414140de5dae2223b00361a396177a9cb410ff61f20015ad";

/// The id of the key `k:AA==`.
const KEY: &str = "sha256:4efe654bc30051152bd60218d04e883ec1e6b92f39f8623b4caa049a90f71205";

/// The id of the log of the package `a-b:c1`.
const PACKAGE_LOG: &str = "sha256:58d3cb1692272b2bc6f70668fe069080c09c22fcfec11e70ca0c91f84a98e0c3";

const OPERATOR_LOG: &str =
    "sha256:0db9178aabc877b42f03a038bf453ee53f08e3c8c55fab916043428078596bfb";

/// Fails where a hash has another text, in any way in which it is written, or is not read again from it.
fn has_text(alloc: Global, hash: &AnyHash, text: &str) -> Result<(), Fail> {
    let is_written = hash.text(alloc)?.as_str() == text;
    let is_shown = format!(in alloc; "{hash}")?.as_str() == text;
    let read = AnyHash::from_text(alloc, text)?;
    let again = AnyHash::from_digest(*hash.bytes());
    holds(
        is_written && is_shown && read == *hash && again == *hash,
        text,
    )
}

/// Fails at the first hash that has another text.
fn have_texts(alloc: Global, rows: &[(AnyHash, &str)]) -> Result<(), Fail> {
    for (hash, text) in rows {
        has_text(alloc, hash, text)?;
    }
    Ok(())
}

/// Fails where an id of any kind is not read from its text.
fn are_read(alloc: Global, log: &LogId, record: &RecordId, key: &KeyId) -> Result<(), Fail> {
    let logs = LogId::from_text(alloc, log.text(alloc)?.as_str())? == *log;
    let records = RecordId::from_text(alloc, record.text(alloc)?.as_str())? == *record;
    let keys = KeyId::from_text(alloc, key.text(alloc)?.as_str())? == *key;
    holds(logs && records && keys, "ids are read from their texts")
}

/// The id of the log of the package `a-b:c1`.
fn package_log(alloc: Global) -> Result<LogId, Fail> {
    Ok(LogId::package_log(&PackageName::new(alloc, "a-b:c1")?))
}

#[test]
fn hashes_and_ids_are_those_of_another_program(rt: HostRuntime) -> Result<(), Fail> {
    let log = package_log(rt.alloc())?;
    let (record, key) = (RecordId::of(b"abc"), KeyId::of("k:AA=="));
    have_texts(
        rt.alloc(),
        &[
            (AnyHash::sha256_of(b"abc"), OF_ABC),
            (*record.hash(), OF_ABC),
            (*key.hash(), KEY),
            (*log.hash(), PACKAGE_LOG),
            (*LogId::operator_log().hash(), OPERATOR_LOG),
        ],
    )?;
    are_read(rt.alloc(), &log, &record, &key)
}

/// Texts that are no hashes.
const NO_HASHES: &[&str] = &[
    "",
    "sha256:",
    "sha256:BA7816bf8f01cfea414140de5dae2223b00361a396177a9cb410ff61f20015ad",
    "sha256:ga7816bf8f01cfea414140de5dae2223b00361a396177a9cb410ff61f20015ad",
    "sha512:ba7816bf8f01cfea414140de5dae2223b00361a396177a9cb410ff61f20015ad",
    "sha256:ba7816bf8f01cfea414140de5dae2223b00361a396177a9cb410ff61f20015a",
    "sha256:ba7816bf8f01cfea414140de5dae2223b00361a396177a9cb410ff61f20015ad0",
];

/// Whether a text is refused as the text of a hash.
fn is_no_hash(alloc: Global, text: &str) -> bool {
    matches!(AnyHash::from_text(alloc, text), Err(NameError::Form))
}

/// Fails at the first text that is not refused as the text of a hash.
fn are_no_hashes(alloc: Global, texts: &[&str]) -> Result<(), Fail> {
    for text in texts {
        holds(is_no_hash(alloc, text), text)?;
    }
    Ok(())
}

#[test]
fn other_texts_are_no_hashes(rt: HostRuntime) -> Result<(), Fail> {
    are_no_hashes(rt.alloc(), NO_HASHES)
}

/// Fails where a text is no name of a package in this namespace, or a copy of it has not this name there.
fn has_labels(alloc: Global, text: &str, namespace: &str, name: &str) -> Result<(), Fail> {
    let whole = PackageName::new(alloc, text)?;
    let copy = whole.try_clone(alloc)?;
    holds(whole.namespace() == namespace && copy.name() == name, text)
}

/// Texts that are no names of packages.
const NO_NAMES: &[&str] = &[
    "", "a", "a:", ":a", "a:b:c", "A:b", "a--b:c", "1a:b", "a:b-", "a:b\n",
];

/// Whether a text is refused as the name of a package.
fn is_no_name(alloc: Global, text: &str) -> bool {
    matches!(PackageName::new(alloc, text), Err(NameError::Form))
}

/// Fails at the first text that is not refused as the name of a package.
fn are_no_names(alloc: Global, texts: &[&str]) -> Result<(), Fail> {
    for text in texts {
        holds(is_no_name(alloc, text), text)?;
    }
    Ok(())
}

#[test]
fn names_are_two_labels(rt: HostRuntime) -> Result<(), Fail> {
    has_labels(rt.alloc(), "a-b:c1", "a-b", "c1")?;
    are_no_names(rt.alloc(), NO_NAMES)
}
