//! What the calls answer that only read a reply: each over a reply that gives a value, and one that tells an error.

use crate::replies::{HASH, client, json, link, told, words};
use base64::engine::general_purpose::STANDARD;
use indexmap::IndexMap;
use std::alloc::{AllocError, Global};
use std::test::Fail;
use test_check::is_text;
use warg_api::{Client, ClientError, RecordedLink};
use warg_exchange::{
    Checkpoint, ConsistencyRequest, ContentSource, ContentSourcesResponse, FetchLogsRequest,
    FetchLogsResponse, LedgerSourcesResponse, PackageRecord, PackageRecordState,
    PublishRecordRequest, PublishedRecord, SignedCheckpoint, VerificationState,
};
use warg_hash::{AnyHash, KeyId, LogId, PackageName, RecordId};
use warg_record::{Envelope, Signature};

/// A call, the status of its reply, the reply's body, and what the call answers.
type Row = (&'static str, u16, &'static str, &'static str);

const ROWS: &[Row] = &[
    (
        "logs",
        200,
        r#"{"more":true,"operator":[],"packages":{"sha256:ba7816bf8f01cfea414140de5dae2223b00361a396177a9cb410ff61f20015ad":[{"contentBytes":"YWJj","fetchToken":"t","keyId":"k","registryIndex":7,"signature":"s"}]}}"#,
        "more true, of the operator 0, of the package 1 from 7",
    ),
    (
        "logs",
        404,
        r#"{"type":"fetchTokenNotFound","token":"t"}"#,
        "the registry does not know the fetch token `t`: reset the stored state of this registry",
    ),
    (
        "names",
        200,
        r#"{"packages":{"sha256:ba7816bf8f01cfea414140de5dae2223b00361a396177a9cb410ff61f20015ad":"a:b"}}"#,
        "a:b",
    ),
    (
        "names",
        200,
        r#"{"packages":{"sha256:ba7816bf8f01cfea414140de5dae2223b00361a396177a9cb410ff61f20015ad":null}}"#,
        "no name",
    ),
    (
        "ledger",
        200,
        r#"{"hashAlgorithm":"sha256","sources":[{"contentType":"a/b","firstRegistryIndex":0,"lastRegistryIndex":6,"url":"u"}]}"#,
        "sha256, 0 to 6 at u as a/b",
    ),
    (
        "ledger",
        500,
        r#"{"type":"message","message":"later"}"#,
        "the registry answers: later",
    ),
    (
        "sources",
        200,
        r#"{"contentSources":{"sha256:ba7816bf8f01cfea414140de5dae2223b00361a396177a9cb410ff61f20015ad":[{"type":"httpGet","url":"https://a.test/c"}]}}"#,
        "https://a.test/c",
    ),
    (
        "sources",
        404,
        r#"{"type":"contentDigestNotFound","digest":"sha256:ba7816bf8f01cfea414140de5dae2223b00361a396177a9cb410ff61f20015ad"}"#,
        "the registry has no content `sha256:ba7816bf8f01cfea414140de5dae2223b00361a396177a9cb410ff61f20015ad`",
    ),
    (
        "publish",
        200,
        r#"{"recordId":"sha256:ba7816bf8f01cfea414140de5dae2223b00361a396177a9cb410ff61f20015ad","state":"processing"}"#,
        "in processing",
    ),
    (
        "publish",
        409,
        r#"{"type":"conflictPendingPublish","id":"sha256:ba7816bf8f01cfea414140de5dae2223b00361a396177a9cb410ff61f20015ad"}"#,
        "the record `sha256:ba7816bf8f01cfea414140de5dae2223b00361a396177a9cb410ff61f20015ad` is still in publishing: wait for it, and try again",
    ),
    (
        "record",
        200,
        r#"{"reason":"no","recordId":"sha256:ba7816bf8f01cfea414140de5dae2223b00361a396177a9cb410ff61f20015ad","state":"rejected"}"#,
        "refused: no",
    ),
    (
        "record",
        404,
        r#"{"type":"recordNotFound","id":"sha256:ba7816bf8f01cfea414140de5dae2223b00361a396177a9cb410ff61f20015ad"}"#,
        "the registry has no record `sha256:ba7816bf8f01cfea414140de5dae2223b00361a396177a9cb410ff61f20015ad`",
    ),
    (
        "verify",
        200,
        r#"{"checkpoint":"verified","signature":"invalid"}"#,
        "the checkpoint is known, its signature not known",
    ),
    (
        "verify",
        403,
        r#"{"type":"unauthorized","message":"no"}"#,
        "the registry does not allow this: no",
    ),
    (
        "consistency",
        200,
        r#"{"proof":"AAAAAAMAAAAAAAAAAAAZ6tNwqTaeV05RvEhJvrF95pQe8KObacWKCKEC9rmVKwAAAAAAAAAAAVKD/oVRnyxzkl2YgH0b659bBTRCvQGNSSbZlkyGjHjZAAAAAAAAAAACiJWSdk7x8B/Za7UVHvcd5gJOBCpshD3Ol6q9jX5PgoEAAAABAAAAAAAAAAEAAAAAAAAAAwAAAAA="}"#,
        "shown",
    ),
    (
        "consistency",
        200,
        r#"{"proof":"AA=="}"#,
        "the bytes are no proof bundle: ask the registry for the proof again",
    ),
    (
        "consistency",
        404,
        r#"{"type":"leafNotFound","index":3}"#,
        "the registry's log has no entry 3",
    ),
];

/// The contents of the first record of a package's log: Init with the key `k:AA==`, one second after the start of 1970.
const RECORD: &[u8] = b"\x1a\x02\x08\x01\x22\x12\x0a\x10\x0a\x06k:AA==\x12\x06sha256";

/// The roots of logs of one and of three records, of which the first begins the other, by Python's `hashlib`.
const FIRST_ROOT: &str = "sha256:19ead370a9369e574e51bc4849beb17de6941ef0a39b69c58a08a102f6b9952b";

const ROOT: &str = "sha256:cc38ce08027bd03e9779f3181782452bb5468e76a5a4e169d4db1459b0abf646";

/// Asks for logs. It stands alone, since a call brings its whole contract with it.
fn ask_logs(
    alloc: Global,
    client: &Client,
    link: &mut RecordedLink,
) -> Result<FetchLogsResponse, ClientError> {
    let request = FetchLogsRequest {
        log_length: 8,
        operator: None,
        packages: IndexMap::new(alloc),
    };
    client.fetch_logs(alloc, link, None, &request)
}

/// A page in words.
fn page_text(alloc: Global, page: &FetchLogsResponse) -> Result<String, AllocError> {
    let (count, first) = match page.packages.values().next() {
        Some(records) => (records.len(), first_index(records.as_slice())),
        None => (0, 0),
    };
    format!(in alloc;
        "more {}, of the operator {}, of the package {count} from {first}",
        page.more,
        page.operator.len()
    )
}

/// What a page says of the operator's log and of a package's.
fn logs(alloc: Global, client: &Client, link: &mut RecordedLink) -> Result<String, ClientError> {
    let page = ask_logs(alloc, client, link)?;
    words(page_text(alloc, &page))
}

/// The index of the first record.
fn first_index(records: &[PublishedRecord]) -> u64 {
    match records.first() {
        Some(record) => record.registry_index,
        None => 0,
    }
}

/// The name of the package of a log.
fn names(
    alloc: Global,
    client: &Client,
    link: &mut RecordedLink,
    hash: AnyHash,
) -> Result<String, ClientError> {
    let told = client.fetch_package_names(alloc, link, None, &[LogId::from(hash)])?;
    match told.packages.values().next() {
        Some(Some(name)) => words(String::from_str(alloc, name.as_str())),
        _ => words(String::from_str(alloc, "no name")),
    }
}

/// The first part of a log in words.
fn ledger_text(alloc: Global, told: &LedgerSourcesResponse) -> Result<String, AllocError> {
    let algorithm = told.hash_algorithm.as_str();
    match told.sources.as_slice().first() {
        Some(part) => format!(in alloc;
            "{algorithm}, {} to {} at {} as {}",
            part.first_registry_index,
            part.last_registry_index,
            part.url.as_str(),
            part.content_type.as_str()
        ),
        None => String::from_str(alloc, algorithm),
    }
}

/// Where the first part of a log is.
fn ledger(alloc: Global, client: &Client, link: &mut RecordedLink) -> Result<String, ClientError> {
    let told = client.ledger_sources(alloc, link, None)?;
    words(ledger_text(alloc, &told))
}

/// The URL of the first source of a content in words.
fn source_text(alloc: Global, told: &ContentSourcesResponse) -> Result<String, AllocError> {
    let listed = match told.content_sources.values().next() {
        Some(listed) => listed.as_slice(),
        None => &[],
    };
    match listed.first() {
        Some(ContentSource::HttpGet { url }) => String::from_str(alloc, url.as_str()),
        None => String::from_str(alloc, "no source"),
    }
}

/// The URL of the first source of a content.
fn sources(
    alloc: Global,
    client: &Client,
    link: &mut RecordedLink,
    hash: AnyHash,
) -> Result<String, ClientError> {
    let told = client.content_sources(alloc, link, None, &hash)?;
    words(source_text(alloc, &told))
}

/// How far the publishing of a record is.
fn state(alloc: Global, record: &PackageRecord) -> Result<String, ClientError> {
    match (record.state, &record.reason) {
        (PackageRecordState::Processing, _) => words(String::from_str(alloc, "in processing")),
        (PackageRecordState::Rejected, Some(reason)) => {
            words(format!(in alloc; "refused: {}", reason.as_str()))
        }
        _ => words(String::from_str(alloc, "another state")),
    }
}

/// How far the publishing of a record is that is sent.
fn publish(
    alloc: Global,
    client: &Client,
    link: &mut RecordedLink,
    hash: AnyHash,
    request: &PublishRecordRequest,
) -> Result<String, ClientError> {
    let record = client.publish_package_record(alloc, link, None, &LogId::from(hash), request)?;
    state(alloc, &record)
}

/// How far the publishing of a record is that was sent.
fn record(
    alloc: Global,
    client: &Client,
    link: &mut RecordedLink,
    hash: AnyHash,
) -> Result<String, ClientError> {
    let (log_id, record_id) = (LogId::from(hash), RecordId::from(hash));
    let record = client.get_package_record(alloc, link, None, &log_id, &record_id)?;
    state(alloc, &record)
}

/// What a monitor knows of a part of a checkpoint.
fn known(part: VerificationState) -> &'static str {
    match part {
        VerificationState::Unverified => "not checked",
        VerificationState::Verified => "known",
        VerificationState::Invalid => "not known",
    }
}

/// What a monitor knows of a checkpoint.
fn verify(
    alloc: Global,
    client: &Client,
    link: &mut RecordedLink,
    checkpoint: &SignedCheckpoint,
) -> Result<String, ClientError> {
    let told = client.verify_checkpoint(alloc, link, None, checkpoint)?;
    words(format!(in alloc;
        "the checkpoint is {}, its signature {}",
        known(told.checkpoint),
        known(told.signature)
    ))
}

/// Whether a log of three records continues that of its first.
fn consistency(
    alloc: Global,
    client: &Client,
    link: &mut RecordedLink,
    from: &AnyHash,
    to: &AnyHash,
) -> Result<String, ClientError> {
    let lengths = ConsistencyRequest { from: 1, to: 3 };
    client.prove_log_consistency(alloc, link, None, &lengths, from, to)?;
    words(String::from_str(alloc, "shown"))
}

/// How far the publishing of the first record of a log is that is sent.
fn publish_first(
    alloc: Global,
    client: &Client,
    link: &mut RecordedLink,
    hash: AnyHash,
) -> Result<String, Fail> {
    let request = PublishRecordRequest {
        package_name: PackageName::new(alloc, "a:b")?,
        envelope: Envelope::read(alloc, RECORD, HASH, "s:AA==")?,
    };
    told(alloc, publish(alloc, client, link, hash, &request))
}

/// What a monitor knows of a checkpoint of one record.
fn verify_first(
    alloc: Global,
    client: &Client,
    link: &mut RecordedLink,
    hash: AnyHash,
) -> Result<String, Fail> {
    let checkpoint = SignedCheckpoint {
        contents: Checkpoint {
            log_length: 1,
            log_root: hash,
            map_root: hash,
            timestamp: 0,
        },
        key_id: KeyId::from(hash),
        signature: Signature::new(alloc, "s:AA==")?,
    };
    told(alloc, verify(alloc, client, link, &checkpoint))
}

/// What a call answers.
fn answer(
    alloc: Global,
    call: &str,
    client: &Client,
    link: &mut RecordedLink,
) -> Result<String, Fail> {
    let hash = AnyHash::from_text(alloc, HASH)?;
    match call {
        "logs" => told(alloc, logs(alloc, client, link)),
        "names" => told(alloc, names(alloc, client, link, hash)),
        "ledger" => told(alloc, ledger(alloc, client, link)),
        "sources" => told(alloc, sources(alloc, client, link, hash)),
        "publish" => publish_first(alloc, client, link, hash),
        "record" => told(alloc, record(alloc, client, link, hash)),
        "verify" => verify_first(alloc, client, link, hash),
        _ => {
            let from = AnyHash::from_text(alloc, FIRST_ROOT)?;
            let to = AnyHash::from_text(alloc, ROOT)?;
            told(alloc, consistency(alloc, client, link, &from, &to))
        }
    }
}

/// A text of one reply with this body.
fn reply_of(alloc: Global, status: u16, body: &str) -> Result<String, Fail> {
    let body = STANDARD.encode(alloc, body.as_bytes())?;
    json(alloc, status, "application/json", &body)
}

/// A link over one reply with this body.
fn link_over(alloc: Global, status: u16, body: &str) -> Result<RecordedLink, Fail> {
    let replies = reply_of(alloc, status, body)?;
    link(alloc, &replies)
}

/// What a call answers over one reply.
fn answered(alloc: Global, call: &str, status: u16, body: &str) -> Result<String, Fail> {
    let client = client(alloc)?;
    let mut link = link_over(alloc, status, body)?;
    answer(alloc, call, &client, &mut link)
}

/// Fails at the first call that answers something else.
fn are_answered(alloc: Global, rows: &[Row]) -> Result<(), Fail> {
    for (call, status, body, expected) in rows {
        is_text(&answered(alloc, call, *status, body)?, expected)?;
    }
    Ok(())
}

#[test]
fn each_call_answers_what_its_reply_says(rt: HostRuntime) -> Result<(), Fail> {
    are_answered(rt.alloc(), ROWS)
}
