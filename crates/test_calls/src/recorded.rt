//! Files of recorded replies and of checked signatures.

use std::alloc::Global;
use std::test::Fail;
use test_check::holds;
use warg_exchange::Reply;
use warg_log::{ListedVerifier, Verifier};
use warg_record::{PublicKey, Signature};
use warg_recorded::{FormError, read_checked, read_replies};

/// Files that hold replies, with how many.
const REPLIES: &[(&str, usize)] = &[
    (" [ ] ", 0),
    (r#"[{"status":0,"headers":[],"body":""}]"#, 1),
    (
        r#"[{"body":"YWJj","headers":[["Content-Type","a/b"],["x",""]],"status":65535,"other":1},{"status":404,"headers":[],"body":""}]"#,
        2,
    ),
];

/// Files of another form.
const OTHERS: &[&str] = &[
    "",
    "{}",
    "[",
    "[1]",
    r#"[{"status":65536,"headers":[],"body":""}]"#,
    r#"[{"status":200,"headers":[["a b","c"]],"body":""}]"#,
    r#"[{"status":200,"headers":[["a","\n"]],"body":""}]"#,
    r#"[{"status":200,"headers":[["a","b","c"]],"body":""}]"#,
    r#"[{"status":200,"headers":[],"body":"YW"}]"#,
    r#"[{"status":200,"headers":[]}]"#,
];

/// How many replies a file holds, unless it has another form.
fn count(alloc: Global, file: &str) -> Result<Option<usize>, Fail> {
    match read_replies(alloc, file.as_bytes()) {
        Ok(replies) => Ok(Some(replies.len())),
        Err(FormError::Form) => Ok(None),
        Err(FormError::Memory) => Err(Fail::from("out of memory")),
    }
}

/// Fails at the first file that holds another number of replies.
fn are_counted(alloc: Global, rows: &[(&str, usize)]) -> Result<(), Fail> {
    for (file, expected) in rows {
        holds(count(alloc, file)? == Some(*expected), file)?;
    }
    Ok(())
}

#[test]
fn files_of_replies_are_read(rt: HostRuntime) -> Result<(), Fail> {
    are_counted(rt.alloc(), REPLIES)
}

/// Fails at the first file that is read.
fn are_refused(alloc: Global, files: &[&str]) -> Result<(), Fail> {
    for file in files {
        holds(count(alloc, file)?.is_none(), file)?;
    }
    Ok(())
}

#[test]
fn files_of_another_form_are_refused(rt: HostRuntime) -> Result<(), Fail> {
    are_refused(rt.alloc(), OTHERS)
}

/// Whether a reply has the status, the header and the body of the file.
fn is_kept(reply: &Reply) -> bool {
    let has_header = match reply.headers.as_slice().first() {
        Some((name, value)) => {
            name.as_str() == "content-type" && value.as_bytes() == b"a/b".as_slice()
        }
        None => false,
    };
    has_header && reply.status == 200 && reply.body.as_slice() == b"abc".as_slice()
}

#[test]
fn headers_are_kept_in_lower_case_and_bodies_decoded(rt: HostRuntime) -> Result<(), Fail> {
    let file = r#"[{"body":"YWJj","headers":[["Content-Type","a/b"]],"status":200}]"#;
    let replies = read_replies(rt.alloc(), file.as_bytes())?;
    holds(replies.as_slice().first().is_some_and(is_kept), file)
}

/// What a file with one signature, of a text of this digest, is read as.
fn listed(alloc: Global, digest: &str) -> Result<Result<ListedVerifier, FormError>, Fail> {
    let file = format!(in alloc; r#"[{{"key":"k:AA==","text":"{digest}","signature":"s:AA=="}}]"#)?;
    Ok(read_checked(alloc, file.as_bytes()))
}

/// Whether the signature of `abc` is accepted.
fn is_good(alloc: Global, verifier: &ListedVerifier) -> Result<bool, Fail> {
    let key = PublicKey::new(alloc, "k:AA==")?;
    let signature = Signature::new(alloc, "s:AA==")?;
    Ok(verifier.accepts(&key, b"abc", &signature))
}

/// Whether a signature of `abc` that a file lists is accepted; nothing where the file has another form.
fn accepts(alloc: Global, digest: &str) -> Result<Option<bool>, Fail> {
    match listed(alloc, digest)? {
        Ok(verifier) => Ok(Some(is_good(alloc, &verifier)?)),
        Err(FormError::Form) => Ok(None),
        Err(FormError::Memory) => Err(Fail::from("out of memory")),
    }
}

/// Digests, and whether a signature of `abc` that a file lists by them is accepted; nothing where the file has another
/// form.
const DIGESTS: &[(&str, Option<bool>)] = &[
    (
        "ba7816bf8f01cfea414140de5dae2223b00361a396177a9cb410ff61f20015ad",
        Some(true),
    ),
    (
        "BA7816BF8F01CFEA414140DE5DAE2223B00361A396177A9CB410FF61F20015AD",
        Some(true),
    ),
    (
        "0000000000000000000000000000000000000000000000000000000000000000",
        Some(false),
    ),
    ("ab", None),
];

/// Fails at the first digest by which a signature is accepted otherwise.
fn are_accepted(alloc: Global, rows: &[(&str, Option<bool>)]) -> Result<(), Fail> {
    for (digest, is) in rows {
        holds(accepts(alloc, digest)? == *is, digest)?;
    }
    Ok(())
}

#[test]
fn a_listed_signature_is_accepted_by_the_digest_of_its_text(rt: HostRuntime) -> Result<(), Fail> {
    are_accepted(rt.alloc(), DIGESTS)
}
