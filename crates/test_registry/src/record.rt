//! Records as bytes that were made outside the program, keys and signatures.

use std::alloc::Global;
use std::test::Fail;
use test_check::{holds, is_text};
use warg_hash::{NameError, RecordId};
use warg_record::{
    Envelope, EnvelopeError, LogEntry, OperatorEntry, PackageEntry, PackageRecord, PublicKey,
    Record, Signature,
};

const ID: &str = "sha256:e3b0c44298fc1c149afbf4c8996fb92427ae41e4649b934ca495991b7852b855";

/// One second after the start of 1970, and Init with the key `k:AA==`.
const FIRST: &[u8] = b"\x1a\x02\x08\x01\x22\x12\x0a\x10\x0a\x06k:AA==\x12\x06sha256";

const RELEASE_AND_YANK: &[u8] =
    b"\x0aGsha256:e3b0c44298fc1c149afbf4c8996fb92427ae41e4649b934ca495991b7852b855\x1a\x02\x08\x01\x22R\x22P\x0a\x051.0.0\x12Gsha256:e3b0c44298fc1c149afbf4c8996fb92427ae41e4649b934ca495991b7852b855\x22\x09\x2a\x07\x0a\x051.0.0";

const KEYS_AND_NAMESPACES: &[u8] =
    b"\x0aGsha256:e3b0c44298fc1c149afbf4c8996fb92427ae41e4649b934ca495991b7852b855\x1a\x04\x08\x01\x10\x05\x22\x12\x12\x10\x0a\x06k:AA==\x12\x06commit\x22S\x1aQ\x0aGsha256:e3b0c44298fc1c149afbf4c8996fb92427ae41e4649b934ca495991b7852b855\x12\x06commit\x22\x05\x22\x03\x0a\x01a\x22\x08\x2a\x06\x0a\x01b\x12\x01r";

/// A record with each field, and an entry of each kind.
const WHOLE: &[u8] = b"\
    \x0aGsha256:e3b0c44298fc1c149afbf4c8996fb92427ae41e4649b934ca495991b7852b855\x10\x03\x1a\x05\x08\xac\x02\x10\
    \x05\x22\x12\x0a\x10\x0a\x06k:AA==\x12\x06sha256\x22\x19\x12\x17\x0a\x06k:BA==\x12\x07release\x12\x04yank\
    \x22Q\x1aO\x0aGsha256:4efe654bc30051152bd60218d04e883ec1e6b92f39f8623b4caa049a90f71205\x12\x04yank\x22R\x22P\
    \x0a\x051.0.0\x12Gsha256:92521fc3cbd964bdc9f584a991b89fddaa5754ed1cc96d6d42445338669c1305\x22\x09*\x07\x0a\
    \x051.0.0";

/// Fails where a record's message is not what is written of the record that is read from it.
fn is_rewritten<E: LogEntry>(alloc: Global, contents: &[u8]) -> Result<(), Fail> {
    let env: Envelope<Record<E>> = Envelope::read(alloc, contents, ID, "k:BA==")?;
    let is_same = Envelope::write(alloc, &env.rec)?.as_slice() == contents;
    holds(is_same, "a record is written as it was read")
}

#[test]
fn records_are_read_and_written_again(rt: HostRuntime) -> Result<(), Fail> {
    is_rewritten::<PackageEntry>(rt.alloc(), FIRST)?;
    is_rewritten::<PackageEntry>(rt.alloc(), RELEASE_AND_YANK)?;
    is_rewritten::<OperatorEntry>(rt.alloc(), KEYS_AND_NAMESPACES)
}

/// What an entry is, the text of its key, and how many permissions it has.
fn shown(entry: &PackageEntry) -> (&'static str, &str, usize) {
    match entry {
        PackageEntry::Init { key, .. } => ("init", key.as_str(), 0),
        PackageEntry::GrantFlat { key, permissions } => ("grant", key.as_str(), permissions.len()),
        PackageEntry::RevokeFlat { permissions, .. } => ("revoke", "", permissions.len()),
        PackageEntry::Release { .. } => ("release", "", 0),
        PackageEntry::Yank { .. } => ("yank", "", 0),
    }
}

/// The record of the whole message.
fn whole(alloc: Global) -> Result<PackageRecord, Fail> {
    let env: Envelope<PackageRecord> = Envelope::read(alloc, WHOLE, ID, "k:BA==")?;
    Ok(env.rec)
}

/// What the entries of the whole message are.
const ENTRIES: &[(&str, &str, usize)] = &[
    ("init", "k:AA==", 0),
    ("grant", "k:BA==", 2),
    ("revoke", "", 1),
    ("release", "", 0),
    ("yank", "", 0),
];

/// Whether a record has the record before it, the version and the time of the whole message.
fn has_front(rec: &PackageRecord) -> bool {
    rec.prev == Some(RecordId::of(b""))
        && (rec.version, rec.time.seconds, rec.time.nanos) == (3, 300, 5)
}

/// Whether a record has these entries.
fn has_entries(rec: &PackageRecord, entries: &[(&str, &str, usize)]) -> bool {
    for (entry, wanted) in rec.entries.as_slice().iter().zip(entries.iter()) {
        if shown(entry) != *wanted {
            return false;
        }
    }
    rec.entries.len() == entries.len()
}

/// Fails where the record of the whole message has other fields.
fn has_fields(alloc: Global) -> Result<(), Fail> {
    let rec = whole(alloc)?;
    holds(
        has_front(&rec) && has_entries(&rec, ENTRIES),
        "a record has each field of its bytes",
    )
}

#[test]
fn a_whole_record_has_each_field_of_its_bytes(rt: HostRuntime) -> Result<(), Fail> {
    is_rewritten::<PackageEntry>(rt.alloc(), WHOLE)?;
    has_fields(rt.alloc())
}

/// Whether a record has this time, in seconds and nanoseconds.
fn has_time(rec: &PackageRecord, time: (u64, u32)) -> bool {
    (rec.time.seconds, rec.time.nanos) == time
}

/// Fails where a message's record has another time, or a copy of its signature another text.
fn has_time_and_signature(
    alloc: Global,
    contents: &[u8],
    time: (u64, u32),
    signature: &str,
) -> Result<(), Fail> {
    let env: Envelope<PackageRecord> = Envelope::read(alloc, contents, ID, "k:BA==")?;
    let is_signed = env.signature.try_clone(alloc)?.as_str() == signature;
    holds(is_signed && has_time(&env.rec, time), signature)
}

#[test]
fn a_record_has_the_time_and_the_signature_of_its_bytes(rt: HostRuntime) -> Result<(), Fail> {
    has_time_and_signature(rt.alloc(), FIRST, (1, 0), "k:BA==")
}

/// Whether a message, the text of a key's id and that of a signature are refused for their form.
fn is_refused<E: LogEntry>(alloc: Global, contents: &[u8], key_id: &str, signature: &str) -> bool {
    let read: Result<Envelope<Record<E>>, EnvelopeError> = Envelope::read(
        alloc, contents, key_id, signature,
    );
    matches!(read, Err(EnvelopeError::Form))
}

/// What is wrong with a package's record, and its message.
const DAMAGED: &[(&str, &[u8])] = &[
    ("no bytes", b""),
    (
        "a version of 0 that is written out",
        b"\x10\x00\x1a\x02\x08\x01\x22\x12\x0a\x10\x0a\x06k:AA==\x12\x06sha256",
    ),
    (
        "a number in more bytes than it needs",
        b"\x1a\x03\x08\x81\x00\x22\x12\x0a\x10\x0a\x06k:AA==\x12\x06sha256",
    ),
    (
        "a number of 2 ^ 64",
        b"\x1a\x0b\x08\x80\x80\x80\x80\x80\x80\x80\x80\x80\x02\x22\x12\x0a\x10\x0a\x06k:AA==\x12\x06sha256",
    ),
    (
        "nanoseconds of a whole second",
        b"\x1a\x08\x08\x01\x10\x80\x94\xeb\xdc\x03\x22\x12\x0a\x10\x0a\x06k:AA==\x12\x06sha256",
    ),
    ("no time", b"\x22\x12\x0a\x10\x0a\x06k:AA==\x12\x06sha256"),
    ("no entry", b"\x1a\x02\x08\x01"),
    (
        "a field that is cut",
        b"\x1a\x02\x08\x01\x22\x12\x0a\x10\x0a\x06k:AA==\x12\x06sha25",
    ),
    (
        "a field that is unknown",
        b"\x1a\x02\x08\x01\x22\x12\x0a\x10\x0a\x06k:AA==\x12\x06sha256\x2a\x00",
    ),
    (
        "an entry that is unknown",
        b"\x1a\x02\x08\x01\x22\x02\x32\x00",
    ),
    (
        "a text that is no UTF-8",
        b"\x1a\x02\x08\x01\x22\x12\x0a\x10\x0a\x06k:AA==\x12\x06sha25\xff",
    ),
    (
        "a text that is empty",
        b"\x1a\x02\x08\x01\x22\x0c\x0a\x0a\x0a\x06k:AA==\x12\x00",
    ),
    (
        "a key with bits behind its bytes",
        b"\x1a\x02\x08\x01\x22\x12\x0a\x10\x0a\x06k:AB==\x12\x06sha256",
    ),
    (
        "a version of two numbers",
        b"\x1a\x02\x08\x01\x22\x07\x2a\x05\x0a\x031.0",
    ),
    (
        "a permission of operators",
        b"\x1a\x02\x08\x01\x22\x12\x12\x10\x0a\x06k:AA==\x12\x06commit",
    ),
    (
        "a key with no permission",
        b"\x1a\x02\x08\x01\x22\x0a\x12\x08\x0a\x06k:AA==",
    ),
    (
        "an entry of operators",
        b"\x1a\x02\x08\x01\x22\x05\x22\x03\x0a\x01a",
    ),
    (
        "an id that is no hash",
        b"\x0a\x01a\x1a\x02\x08\x01\x22\x12\x0a\x10\x0a\x06k:AA==\x12\x06sha256",
    ),
];

/// Fails at the first message that is not refused as a package's for its form.
fn are_refused(alloc: Global, rows: &[(&str, &[u8])]) -> Result<(), Fail> {
    for (damage, contents) in rows {
        let is = is_refused::<PackageEntry>(alloc, contents, ID, "k:BA==");
        holds(is, damage)?;
    }
    Ok(())
}

/// Whether a package's record in an operator's log, and other texts of keys' ids and signatures, are refused for their
/// form.
fn are_others_refused(alloc: Global) -> bool {
    is_refused::<OperatorEntry>(alloc, RELEASE_AND_YANK, ID, "k:BA==")
        && is_refused::<PackageEntry>(alloc, FIRST, "sha256:", "k:BA==")
        && is_refused::<PackageEntry>(alloc, FIRST, ID, "k:BA=")
}

#[test]
fn damaged_records_are_refused_for_their_form(rt: HostRuntime) -> Result<(), Fail> {
    are_refused(rt.alloc(), DAMAGED)?;
    holds(
        are_others_refused(rt.alloc()),
        "entries, ids and signatures are refused",
    )
}

/// Texts, and whether they are keys and signatures.
const KEYS: &[(&str, bool)] = &[
    ("k:AA==", true),
    ("ecdsa-p256:AAA=", true),
    ("-:AAAA", true),
    ("k:", true),
    ("", false),
    ("k", false),
    (":AA==", false),
    ("K:AA==", false),
    ("k:A", false),
    ("k:AA", false),
    ("k:AA=", false),
    ("k:AB==", false),
    ("k:-A==", false),
    ("k:AA==\n", false),
];

/// Whether a text is the text of a key and of a signature; nothing where it is only one of them, or memory is short.
fn is_key(alloc: Global, text: &str) -> Option<bool> {
    match (PublicKey::new(alloc, text), Signature::new(alloc, text)) {
        (Ok(key), Ok(signature)) => Some(key.as_str() == text && signature.as_str() == text),
        (Err(NameError::Form), Err(NameError::Form)) => Some(false),
        _ => None,
    }
}

/// Fails at the first text that is a key and a signature where it is to be none, or none where it is to be both.
fn are_keys(alloc: Global, rows: &[(&str, bool)]) -> Result<(), Fail> {
    for (text, is) in rows {
        holds(is_key(alloc, text) == Some(*is), text)?;
    }
    Ok(())
}

#[test]
fn keys_and_signatures_are_a_kind_and_canonical_base64(rt: HostRuntime) -> Result<(), Fail> {
    are_keys(rt.alloc(), KEYS)
}

/// A copy of the envelope of a message.
fn copied<E: LogEntry>(alloc: Global, contents: &[u8]) -> Result<Envelope<Record<E>>, Fail> {
    let env: Envelope<Record<E>> = Envelope::read(alloc, contents, ID, "k:BA==")?;
    Ok(env.try_clone(alloc)?)
}

/// Fails where the copy of an envelope has another signature, or its record is written otherwise than in this message.
fn is_copied<E: LogEntry>(alloc: Global, contents: &[u8]) -> Result<(), Fail> {
    let copy = copied::<E>(alloc, contents)?;
    let is_same = Envelope::write(alloc, &copy.rec)?.as_slice() == contents;
    holds(
        is_same && copy.signature.as_str() == "k:BA==",
        "a copy is the same",
    )
}

#[test]
fn envelopes_are_copied_whole(rt: HostRuntime) -> Result<(), Fail> {
    is_copied::<PackageEntry>(rt.alloc(), FIRST)?;
    is_copied::<PackageEntry>(rt.alloc(), RELEASE_AND_YANK)?;
    is_copied::<OperatorEntry>(rt.alloc(), KEYS_AND_NAMESPACES)
}

/// Fails where a copy of the key of a text has another one.
fn is_copied_key(alloc: Global, text: &str) -> Result<(), Fail> {
    let copy = PublicKey::new(alloc, text)?.try_clone(alloc)?;
    is_text(copy.as_str(), text)
}

#[test]
fn a_copy_of_a_key_has_its_text(rt: HostRuntime) -> Result<(), Fail> {
    is_copied_key(rt.alloc(), "k:AA==")
}
