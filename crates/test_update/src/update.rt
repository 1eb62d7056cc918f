//! What becomes of an update over recorded replies.

use crate::world::{
    CHECKED, CHECKPOINT, CONTINUES, CUT, DAMAGED, EMPTY, FIRST_MAP, FIRST_ROOT, FORKED, FROM_OTHER,
    FRONT, HALF, INCLUSION, KEY_ID, LACKING, MAP, MISSING, MISSING_OPERATOR, NO_OPERATOR,
    NO_PACKAGE, NO_PROOF, OTHER_HASH, OTHER_KEY, OTHER_LOG, OTHER_ROOT, PAGE, REST, ROOT, SHORTER,
    SWAPPED, TWICE, UNLAWFUL, UNSIGNED,
};
use std::alloc::Global;
use std::fmt::Display;
use std::test::Fail;
use test_check::replies_file;
use warg_api::Client;
use warg_exchange::{Checkpoint, Reply, Request, SignedCheckpoint};
use warg_hash::{AnyHash, KeyId, PackageName};
use warg_hint::{AlwaysDecide, HintSettings};
use warg_info::{OperatorInfo, PackageInfo};
use warg_log::ListedVerifier;
use warg_record::Signature;
use warg_recorded::{read_checked, read_replies};
use warg_update::{AskError, Settings, UpdateError, UpdateStep};

/// Bodies of replies, in the order in which they come, and what becomes of an update that begins with nothing: how many
/// records are proved of the operator's log and of the package's, or the beginning of the error's text. They stand in
/// three tables, of pages, of checkpoints and of proofs, since a row costs more to prove the longer its table is.
const PAGES: &[(&[&str], &str)] = &[
    (&[CHECKPOINT, PAGE, INCLUSION], "proved 1 2"),
    (&[CHECKPOINT, FRONT, REST, INCLUSION], "proved 1 2"),
    (&[INCLUSION], "the reply"),
    (
        &[CHECKPOINT, DAMAGED],
        "the log of a:b: a published record has not the form of a signed record",
    ),
    (&[CHECKPOINT, UNLAWFUL], "the log of a:b: "),
    (&[CHECKPOINT, OTHER_LOG], "the registry sends the log"),
    (
        &[CHECKPOINT, NO_OPERATOR],
        "the registry sends no record of its operator's log",
    ),
    (
        &[CHECKPOINT, NO_PACKAGE],
        "the registry sends no record of a:b",
    ),
    (&[CHECKPOINT, EMPTY], "the registry sends no record of a:b"),
    (
        &[CHECKPOINT, FRONT, FRONT, FRONT],
        "the registry sends more pages than the limit allows",
    ),
];

/// The same of checkpoints that are refused.
const CHECKPOINTS: &[(&[&str], &str)] = &[
    (&[OTHER_KEY, PAGE], "the checkpoint is signed with the key"),
    (
        &[UNSIGNED, PAGE],
        "the checkpoint's signature is not its key's",
    ),
    (&[OTHER_ROOT, PAGE, INCLUSION], "a proof gives the root"),
];

/// The same of proofs that are refused.
const PROOFS: &[(&[&str], &str)] = &[
    (
        &[CHECKPOINT, PAGE, HALF],
        "the bundle does not hold the proofs",
    ),
    (
        &[CHECKPOINT, PAGE, NO_PROOF],
        "the bundle does not hold the proofs",
    ),
    (
        &[CHECKPOINT, PAGE, SWAPPED],
        "the proof is about another leaf",
    ),
    (
        &[CHECKPOINT, PAGE, SHORTER],
        "the proof is about another length",
    ),
    (&[CHECKPOINT, PAGE, LACKING], "the bundle lacks a hash"),
    (&[CHECKPOINT, PAGE, OTHER_HASH], "a proof gives the root"),
    (&[CHECKPOINT, PAGE, CUT], "the bytes are no proof bundle"),
];

/// The length and the roots of a stored checkpoint, the bodies that come, and what becomes of the update.
const STORED: &[(u64, &str, &str, &[&str], &str)] = &[
    (3, ROOT, MAP, &[CHECKPOINT, PAGE, INCLUSION], "proved 1 2"),
    (
        1,
        FIRST_ROOT,
        FIRST_MAP,
        &[CHECKPOINT, PAGE, INCLUSION, CONTINUES],
        "proved 1 2",
    ),
    (
        1,
        FIRST_ROOT,
        FIRST_MAP,
        &[CHECKPOINT, PAGE, INCLUSION, FORKED],
        "a proof gives the root",
    ),
    (
        1,
        FIRST_ROOT,
        FIRST_MAP,
        &[CHECKPOINT, PAGE, INCLUSION, FROM_OTHER],
        "the proof is about another length",
    ),
    (
        1,
        FIRST_ROOT,
        FIRST_MAP,
        &[CHECKPOINT, PAGE, INCLUSION, TWICE],
        "the bundle does not hold the proofs",
    ),
    (
        3,
        ROOT,
        FIRST_MAP,
        &[CHECKPOINT, PAGE, INCLUSION],
        "the registry's log of 3 records is another",
    ),
    (
        4,
        ROOT,
        MAP,
        &[CHECKPOINT, PAGE, INCLUSION],
        "the registry's log has 3 records, and had 4",
    ),
    (
        3,
        FIRST_ROOT,
        MAP,
        &[CHECKPOINT, PAGE, INCLUSION],
        "the registry's log of 3 records is another",
    ),
];

/// Hints are followed by themselves.
const HEEDED: HintSettings = HintSettings {
    ignore_federation_hints: false,
    disable_auto_accept_federation_hints: false,
    disable_interactive: false,
};

/// No hint is followed.
const IGNORED: HintSettings = HintSettings {
    ignore_federation_hints: true,
    disable_auto_accept_federation_hints: false,
    disable_interactive: false,
};

/// A hint is followed where a decision says so.
const ASKED: HintSettings = HintSettings {
    ignore_federation_hints: false,
    disable_auto_accept_federation_hints: true,
    disable_interactive: false,
};

/// A hint is reported.
const REPORTED: HintSettings = HintSettings {
    ignore_federation_hints: true,
    disable_auto_accept_federation_hints: false,
    disable_interactive: true,
};

/// What is set, what a decision says, the hint in a reply that says that a log is not found, its body, and how the error's
/// text begins.
const MISSED: &[(HintSettings, bool, &str, &str, &str)] = &[
    (HEEDED, true, "", MISSING, "the registry has no package a:b"),
    (
        HEEDED,
        false,
        "a=b.test",
        MISSING,
        "the registry tells of another registry for a:b",
    ),
    (
        HEEDED,
        true,
        "b=b.test",
        MISSING,
        "the registry has no package a:b",
    ),
    (
        HEEDED,
        true,
        "a=",
        MISSING,
        "the registry has no package a:b",
    ),
    (
        IGNORED,
        true,
        "a=b.test",
        MISSING,
        "the registry has no package a:b",
    ),
    (
        ASKED,
        true,
        "a=b.test",
        MISSING,
        "the registry tells of another registry for a:b",
    ),
    (
        ASKED,
        false,
        "a=b.test",
        MISSING,
        "the registry has no package a:b",
    ),
    (
        REPORTED,
        false,
        "b=b.test",
        MISSING,
        "the registry tells of another registry for a:b",
    ),
    (
        HEEDED,
        true,
        "a=b.test",
        MISSING_OPERATOR,
        "the registry has no log",
    ),
];

/// The package `a:b`, of which nothing is kept.
fn package(alloc: Global) -> Result<PackageInfo, Fail> {
    let name = PackageName::new(alloc, "a:b")?;
    Ok(PackageInfo::new(alloc, name))
}

/// The package `a:b` alone.
fn packages(alloc: Global) -> Result<Vec<PackageInfo>, Fail> {
    let mut packages = Vec::new(alloc);
    packages.push(package(alloc)?)?;
    Ok(packages)
}

/// The update of the package `a:b` and of its registry's operator, of which nothing is kept.
fn step(
    alloc: Global,
    stored: Option<SignedCheckpoint>,
    hints: HintSettings,
) -> Result<UpdateStep, Fail> {
    let packages = packages(alloc)?;
    let operator = OperatorInfo::new(alloc, None);
    let settings = Settings {
        hints,
        round_limit: 3,
    };
    Ok(UpdateStep::new(alloc, None, operator, packages, stored, settings)?)
}

/// The request that is asked next.
fn ask(alloc: Global, step: &UpdateStep, client: &Client) -> Result<Option<Request>, AskError> {
    step.next_request(alloc, client)
}

/// The reply is taken.
fn take(
    alloc: Global,
    step: &mut UpdateStep,
    verifier: &ListedVerifier,
    decide: &mut AlwaysDecide,
    reply: &Reply,
) -> Result<(), UpdateError> {
    step.feed(alloc, verifier, decide, reply)
}

/// How many records are proved.
fn proved(alloc: Global, step: &UpdateStep) -> Result<String, Fail> {
    match step.proved() {
        Some(logs) => {
            let operator = logs.operator.log.records().len();
            let package = match logs.packages.first() {
                Some(info) => info.log.records().len(),
                None => 0,
            };
            Ok(format!(in alloc; "proved {operator} {package}")?)
        }
        None => Ok(String::from_str(alloc, "nothing is asked, and nothing proved")?),
    }
}

/// Whether something is asked, or the text of the error.
fn ask_text(
    alloc: Global,
    answer: &Result<Option<Request>, AskError>,
) -> Result<Result<bool, String>, Fail> {
    match answer {
        Ok(request) => Ok(Ok(request.is_some())),
        Err(error) => Ok(Err(format!(in alloc; "{error}")?)),
    }
}

/// Whether something is asked next, or the text of the error. It holds the answer alone, which is dropped here, since
/// each way out of a function that holds an error is proved for each kind of error.
fn asked(alloc: Global, step: &UpdateStep, client: &Client) -> Result<Result<bool, String>, Fail> {
    ask_text(alloc, &ask(alloc, step, client))
}

/// The text of an error. It takes an error of any type, since one of a known type is dropped by a proof for each kind
/// of it.
fn error_text<E: Display + Drop>(alloc: Global, error: E) -> Result<String, Fail> {
    Ok(format!(in alloc; "{error}")?)
}

/// The text of the error, where there is one.
fn told(alloc: Global, answer: Result<(), UpdateError>) -> Result<Option<String>, Fail> {
    match answer {
        Ok(()) => Ok(None),
        Err(error) => Ok(Some(error_text(alloc, error)?)),
    }
}

/// The reply is taken; the text of the error, where there is one.
fn taken(
    alloc: Global,
    step: &mut UpdateStep,
    verifier: &ListedVerifier,
    decide: &mut AlwaysDecide,
    reply: &Reply,
) -> Result<Option<String>, Fail> {
    told(alloc, take(alloc, step, verifier, decide, reply))
}

/// What becomes of an update over these replies.
fn run(
    alloc: Global,
    step: &mut UpdateStep,
    client: &Client,
    verifier: &ListedVerifier,
    decide: &mut AlwaysDecide,
    replies: &[Reply],
) -> Result<String, Fail> {
    for reply in replies {
        match asked(alloc, step, client)? {
            Ok(true) => {}
            Ok(false) => return proved(alloc, step),
            Err(text) => return Ok(text),
        }
        if let Some(text) = taken(alloc, step, verifier, decide, reply)? {
            return Ok(text);
        }
    }
    match asked(alloc, step, client)? {
        Ok(_) => proved(alloc, step),
        Err(text) => Ok(text),
    }
}

/// The same with a client, and a decision that says this.
fn run_with(
    alloc: Global,
    step: &mut UpdateStep,
    verifier: &ListedVerifier,
    answer: bool,
    replies: &[Reply],
) -> Result<String, Fail> {
    let client = Client::new(alloc, "https://home.test", None)?;
    let mut decide = AlwaysDecide { answer };
    run(alloc, step, &client, verifier, &mut decide, replies)
}

/// The same over the replies of a file.
fn run_over(
    alloc: Global,
    step: &mut UpdateStep,
    answer: bool,
    file: &str,
) -> Result<String, Fail> {
    let verifier = read_checked(alloc, CHECKED.as_bytes())?;
    let replies = read_replies(alloc, file.as_bytes())?;
    run_with(alloc, step, &verifier, answer, &replies)
}

/// What becomes of an update over the replies of a file, behind a stored checkpoint where there is one.
fn outcome(
    alloc: Global,
    stored: Option<SignedCheckpoint>,
    hints: HintSettings,
    answer: bool,
    file: &str,
) -> Result<String, Fail> {
    let mut step = step(alloc, stored, hints)?;
    run_over(alloc, &mut step, answer, file)
}

/// A file of the checkpoint's reply and of one that says, with this hint and body, that a log is not found.
fn missing_file(alloc: Global, hint: &str, body: &str) -> Result<String, Fail> {
    let mut text = String::from_str(
        alloc,
        r#"[{"status":200,"headers":[["content-type","application/json"]],"body":""#,
    )?;
    text.push_str(CHECKPOINT)?;
    text.push_str(r#""},{"status":404,"headers":[["content-type","application/json"]"#)?;
    if !hint.is_empty() {
        text.push_str(r#",["warg-registry-hint",""#)?;
        text.push_str(hint)?;
        text.push_str(r#""]"#)?;
    }
    text.push_str(r#"],"body":""#)?;
    text.push_str(body)?;
    text.push_str("\"}]")?;
    Ok(text)
}

/// A checkpoint that was stored.
fn checkpoint(
    alloc: Global,
    log_length: u64,
    log_root: &str,
    map_root: &str,
) -> Result<SignedCheckpoint, Fail> {
    Ok(SignedCheckpoint {
        contents: Checkpoint {
            log_length,
            log_root: AnyHash::from_text(alloc, log_root)?,
            map_root: AnyHash::from_text(alloc, map_root)?,
            timestamp: 6,
        },
        key_id: KeyId::from(AnyHash::from_text(alloc, KEY_ID)?),
        signature: Signature::new(alloc, "s:AA==")?,
    })
}

/// Fails where something else becomes of an update.
fn is_outcome(found: &str, expected: &str) -> Result<(), Fail> {
    if !found.starts_with(expected) {
        return Err(Fail::new(format_args!("{found} where {expected} was to come")));
    }
    Ok(())
}

/// Fails at the first bodies of which something else becomes, where nothing is stored.
fn are_fresh(alloc: Global, rows: &[(&[&str], &str)]) -> Result<(), Fail> {
    for (bodies, expected) in rows {
        let file = replies_file(alloc, bodies)?;
        let found = outcome(alloc, None, HEEDED, true, &file)?;
        is_outcome(&found, expected)?;
    }
    Ok(())
}

/// Fails at the first pages of which something else becomes.
fn are_pages(alloc: Global) -> Result<(), Fail> {
    are_fresh(alloc, PAGES)
}

/// Fails at the first checkpoint of which something else becomes.
fn are_checkpoints(alloc: Global) -> Result<(), Fail> {
    are_fresh(alloc, CHECKPOINTS)
}

/// Fails at the first proofs of which something else becomes.
fn are_proofs(alloc: Global) -> Result<(), Fail> {
    are_fresh(alloc, PROOFS)
}

#[test]
fn an_update_proves_logs_or_tells_the_first_fault(rt: HostRuntime) -> Result<(), Fail> {
    are_pages(rt.alloc())?;
    are_checkpoints(rt.alloc())?;
    are_proofs(rt.alloc())
}

/// Fails at the first bodies of which something else becomes behind the stored checkpoint.
fn are_behind(alloc: Global, rows: &[(u64, &str, &str, &[&str], &str)]) -> Result<(), Fail> {
    for (length, log_root, map_root, bodies, expected) in rows {
        let file = replies_file(alloc, bodies)?;
        let stored = checkpoint(alloc, *length, log_root, map_root)?;
        let found = outcome(alloc, Some(stored), HEEDED, true, &file)?;
        is_outcome(&found, expected)?;
    }
    Ok(())
}

#[test]
fn an_update_continues_the_stored_checkpoint_or_is_refused(rt: HostRuntime) -> Result<(), Fail> {
    are_behind(rt.alloc(), STORED)
}

/// Fails at the first reply with a hint of which something else becomes.
fn are_missed(alloc: Global, rows: &[(HintSettings, bool, &str, &str, &str)]) -> Result<(), Fail> {
    for (hints, answer, hint, body, expected) in rows {
        let file = missing_file(alloc, hint, body)?;
        let found = outcome(alloc, None, *hints, *answer, &file)?;
        is_outcome(&found, expected)?;
    }
    Ok(())
}

#[test]
fn a_package_that_is_not_found_does_not_exist_or_may_be_elsewhere(
    rt: HostRuntime,
) -> Result<(), Fail> {
    are_missed(rt.alloc(), MISSED)
}
