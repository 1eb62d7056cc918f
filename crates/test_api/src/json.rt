//! What JSON means, and why other JSON means nothing.

use serde_json::Value;
use std::alloc::Global;
use std::test::Fail;
use warg_exchange::{
    CheckpointVerificationResponse, ConsistencyResponse, ContentSource, ContentSourcesResponse,
    FetchLogsResponse, FetchPackageNamesResponse, InclusionResponse, LedgerSourcesResponse,
    PackageRecord, PackageRecordState, PublishedRecord, ServiceError, SignedCheckpoint,
    UploadEndpoint, VerificationState,
};
use warg_hash::{AnyHash, LogId};
use warg_json::{BodyError, FromBody};

/// The SHA-256 of `abc`, as its hash text.
const HASH: &str = "sha256:ba7816bf8f01cfea414140de5dae2223b00361a396177a9cb410ff61f20015ad";

const CHECKPOINT: &str = r#" { "signature": "ecdsa-p256:AA==", "other": [],
    "keyId": "sha256:ba7816bf8f01cfea414140de5dae2223b00361a396177a9cb410ff61f20015ad",
    "contents": {"timestamp": 9, "logLength": 7,
    "mapRoot": "sha256:0db9178aabc877b42f03a038bf453ee53f08e3c8c55fab916043428078596bfb",
    "logRoot": "sha256:ba7816bf8f01cfea414140de5dae2223b00361a396177a9cb410ff61f20015ad"}}"#;

const PAGE: &str = r#"{"more":true,"operator":[],"packages":{
    "sha256:ba7816bf8f01cfea414140de5dae2223b00361a396177a9cb410ff61f20015ad":[
    {"contentBytes":"aGk=","keyId":"k","signature":"s","registryIndex":3,"fetchToken":"t"}]}}"#;

const RECORD: &str =
    r#"{"recordId":"sha256:ba7816bf8f01cfea414140de5dae2223b00361a396177a9cb410ff61f20015ad",
    "state":"sourcing","reason":null,"missingContent":{
    "sha256:ba7816bf8f01cfea414140de5dae2223b00361a396177a9cb410ff61f20015ad":
    {"upload":[{"type":"http","method":"PUT","url":"up","headers":{"content-type":"a/b"}}]}}}"#;

/// What a text of JSON is read as, where the hash stands for `HASH`.
fn read<T: FromBody>(alloc: Global, text: &str) -> Result<Result<T, BodyError>, Fail> {
    let text = text.replace(alloc, "HASH", HASH)?;
    let value = Value::from_str(alloc, &text)?;
    Ok(T::from_body(alloc, &value))
}

/// What a text of JSON means.
fn meant<T: FromBody>(alloc: Global, text: &str) -> Result<T, Fail> {
    Ok(read(alloc, text)??)
}

/// A copy of the checkpoint of a text.
fn checkpoint_of(alloc: Global, text: &str) -> Result<SignedCheckpoint, Fail> {
    let checkpoint: SignedCheckpoint = meant(alloc, text)?;
    Ok(checkpoint.try_clone(alloc)?)
}

#[test]
fn a_checkpoint_is_read_in_any_order(rt: HostRuntime) -> Result<(), Fail> {
    let hash = AnyHash::from_text(rt.alloc(), HASH)?;
    let copy = checkpoint_of(rt.alloc(), CHECKPOINT)?;
    assert!(rt; copy.contents.log_length == 7 && copy.contents.timestamp == 9);
    assert!(rt; copy.contents.log_root == hash && copy.contents.map_root != hash);
    assert!(rt; *copy.key_id.hash() == hash && copy.signature.as_str() == "ecdsa-p256:AA==");
    Ok(())
}

/// Whether a record has what stands in the page.
fn is_in_page(record: &PublishedRecord) -> bool {
    record.content_bytes.as_slice() == b"hi".as_slice()
        && record.registry_index == 3
        && record.key_id.as_str() == "k"
        && record.signature.as_str() == "s"
        && record.fetch_token.as_str() == "t"
}

/// Whether a page's log begins with the record that stands in the page.
fn has_record(page: &FetchLogsResponse, id: &LogId) -> bool {
    match page.packages.get(id) {
        Some(records) => records.as_slice().first().is_some_and(is_in_page),
        None => false,
    }
}

#[test]
fn a_page_is_read(rt: HostRuntime) -> Result<(), Fail> {
    let id = LogId::from_text(rt.alloc(), HASH)?;
    let page: FetchLogsResponse = meant(rt.alloc(), PAGE)?;
    assert!(rt; page.more && page.operator.is_empty() && page.packages.len() == 1);
    assert!(rt; has_record(&page, &id));
    Ok(())
}

/// Whether an endpoint is the one that stands in the record.
fn is_in_record(endpoint: &UploadEndpoint) -> bool {
    let UploadEndpoint::Http {
        method,
        url,
        headers,
    } = endpoint;
    method.as_str() == "PUT" && url.as_str() == "up" && headers.len() == 1
}

/// Whether the first endpoint for a content that a record misses is the one that stands in the record.
fn has_endpoint(record: &PackageRecord, hash: &AnyHash) -> bool {
    match record.missing_content.get(hash) {
        Some(missing) => missing.upload.as_slice().first().is_some_and(is_in_record),
        None => false,
    }
}

#[test]
fn a_record_in_publishing_is_read(rt: HostRuntime) -> Result<(), Fail> {
    let hash = AnyHash::from_text(rt.alloc(), HASH)?;
    let record: PackageRecord = meant(rt.alloc(), RECORD)?;
    assert!(rt; record.state == PackageRecordState::Sourcing && record.reason.is_none());
    assert!(rt; has_endpoint(&record, &hash));
    Ok(())
}

#[test]
fn what_is_verified_is_read(rt: HostRuntime) -> Result<(), Fail> {
    let verified: CheckpointVerificationResponse = meant(
        rt.alloc(),
        r#"{"checkpoint":"verified","signature":"unverified","retryAfter":5}"#,
    )?;
    assert!(rt; verified.checkpoint == VerificationState::Verified);
    assert!(rt;
        verified.signature == VerificationState::Unverified && verified.retry_after == Some(5)
    );
    Ok(())
}

#[test]
fn proofs_are_read(rt: HostRuntime) -> Result<(), Fail> {
    let bundles: InclusionResponse = meant(rt.alloc(), r#"{"map":"aGk=","log":""}"#)?;
    assert!(rt; bundles.map.len() == 2 && bundles.log.is_empty());
    let bundle: ConsistencyResponse = meant(rt.alloc(), r#"{"proof":"aGk="}"#)?;
    assert!(rt; bundle.proof.len() == 2);
    Ok(())
}

#[test]
fn sources_of_a_ledger_are_read(rt: HostRuntime) -> Result<(), Fail> {
    let ledger: LedgerSourcesResponse = meant(
        rt.alloc(),
        r#"{"hashAlgorithm":"sha256","sources":[{"firstRegistryIndex":0,"lastRegistryIndex":9,"url":"u","contentType":"t"}]}"#,
    )?;
    assert!(rt; ledger.hash_algorithm.as_str() == "sha256" && ledger.sources.len() == 1);
    Ok(())
}

/// How many packages a reply names.
fn named(alloc: Global, text: &str) -> Result<usize, Fail> {
    let names: FetchPackageNamesResponse = meant(alloc, text)?;
    Ok(names.packages.len())
}

/// Whether a source has this URL.
fn is_at_url(source: &ContentSource) -> bool {
    let ContentSource::HttpGet { url } = source;
    url.as_str() == "u"
}

/// Whether a reply has sources of a content, each at the URL.
fn has_sources(reply: &ContentSourcesResponse, hash: &AnyHash) -> bool {
    match reply.content_sources.get(hash) {
        Some(sources) => sources.as_slice().iter().all(is_at_url),
        None => false,
    }
}

#[test]
fn names_and_sources_are_read(rt: HostRuntime) -> Result<(), Fail> {
    assert!(rt; named(rt.alloc(), r#"{"packages":{"HASH":"a:b"}}"#)? == 1);
    assert!(rt; named(rt.alloc(), r#"{"packages":{"HASH":null}}"#)? == 1);
    let hash = AnyHash::from_text(rt.alloc(), HASH)?;
    let sources: ContentSourcesResponse = meant(
        rt.alloc(),
        r#"{"contentSources":{"HASH":[{"type":"httpGet","url":"u"}]}}"#,
    )?;
    assert!(rt; has_sources(&sources, &hash));
    Ok(())
}

/// Texts that are no checkpoint.
const NO_CHECKPOINTS: &[&str] = &[
    "{}",
    "[]",
    r#"{"contents":{"logLength":7.0},"keyId":"HASH","signature":"k:AA=="}"#,
    r#"{"contents":{"logLength":-1},"keyId":"HASH","signature":"k:AA=="}"#,
    r#"{"contents":{"logLength":7,"logRoot":"HASH","mapRoot":"HASH","timestamp":9},"keyId":"HASH","signature":"no key"}"#,
    r#"{"contents":{"logLength":7,"logRoot":"HASH","mapRoot":3,"timestamp":9},"keyId":"HASH","signature":"k:AA=="}"#,
];

/// Fails at the first text that means something as such a type, or is refused for another reason than that a member is
/// missing or of another form.
fn are_unexpected<T: FromBody>(alloc: Global, texts: &[&str]) -> Result<(), Fail> {
    for text in texts {
        if !matches!(read::<T>(alloc, text)?, Err(BodyError::Unexpected)) {
            return Err(Fail::new(format_args!("{text} is expected")));
        }
    }
    Ok(())
}

#[test]
fn other_json_means_nothing(rt: HostRuntime) -> Result<(), Fail> {
    let alloc = rt.alloc();
    are_unexpected::<SignedCheckpoint>(alloc, NO_CHECKPOINTS)?;
    are_unexpected::<InclusionResponse>(alloc, &[r#"{"log":"a","map":""}"#])?;
    are_unexpected::<PackageRecord>(alloc, &[r#"{"recordId":"HASH","state":"rejected"}"#])?;
    are_unexpected::<FetchPackageNamesResponse>(alloc, &[r#"{"packages":{"HASH":"A:b"}}"#])?;
    are_unexpected::<ContentSourcesResponse>(
        alloc,
        &[r#"{"contentSources":{"HASH":[{"type":"ftp","url":"u"}]}}"#],
    )?;
    are_unexpected::<ServiceError>(alloc, &[r#"{"type":"other"}"#])
}

/// Whether a text of JSON has this text in place of a hash's.
fn is_no_hash<T: FromBody>(alloc: Global, text: &str, told: &str) -> Result<bool, Fail> {
    match read::<T>(alloc, text)? {
        Err(BodyError::NoHash(found)) => Ok(found.as_str() == told),
        _ => Ok(false),
    }
}

#[test]
fn texts_that_name_no_hash_are_told(rt: HostRuntime) -> Result<(), Fail> {
    assert!(rt;
        is_no_hash::<SignedCheckpoint>(
            rt.alloc(),
            r#"{"contents":{"logLength":7,"logRoot":"sha256:0"}}"#,
            "sha256:0"
        )?
    );
    assert!(rt;
        is_no_hash::<FetchLogsResponse>(
            rt.alloc(),
            r#"{"more":false,"operator":[],"packages":{"sha1:0":3}}"#,
            "sha1:0"
        )?
    );
    Ok(())
}

/// Errors of a registry, each with a part of its text.
const ERRORS: &[(&str, &str)] = &[
    (r#"{"type":"checkpointNotFound","length":7}"#, "7"),
    (r#"{"type":"logNotFound","id":"HASH"}"#, HASH),
    (r#"{"type":"fetchTokenNotFound","token":"tok"}"#, "tok"),
    (r#"{"type":"recordNotFound","id":"HASH"}"#, HASH),
    (r#"{"type":"recordNotSourcing"}"#, "contents"),
    (
        r#"{"type":"namespaceNotDefined","namespace":"spaced"}"#,
        "spaced",
    ),
    (
        r#"{"type":"namespaceImported","namespace":"spaced"}"#,
        "spaced",
    ),
    (r#"{"type":"unauthorized","message":"said"}"#, "said"),
    (r#"{"type":"conflictPendingPublish","id":"HASH"}"#, HASH),
    (r#"{"type":"rejection","message":"said"}"#, "said"),
    (r#"{"type":"contentDigestNotFound","digest":"HASH"}"#, HASH),
    (r#"{"type":"leafNotFound","index":8}"#, "8"),
    (r#"{"type":"message","message":"said"}"#, "said"),
];

/// Whether the text of the error that a text of JSON names has this part.
fn is_told(alloc: Global, text: &str, part: &str) -> Result<bool, Fail> {
    let error: ServiceError = meant(alloc, text)?;
    let shown = format!(in alloc; "{error}")?;
    Ok(shown.as_str().contains(part))
}

/// Fails at the first error whose text lacks its part.
fn are_told(alloc: Global, rows: &[(&str, &str)]) -> Result<(), Fail> {
    for (text, part) in rows {
        if !is_told(alloc, text, part)? {
            return Err(Fail::new(format_args!("{text} is told without {part}")));
        }
    }
    Ok(())
}

#[test]
fn each_error_of_a_registry_is_read(rt: HostRuntime) -> Result<(), Fail> {
    are_told(rt.alloc(), ERRORS)
}
