//! The bytes of each reply.

use indexmap::IndexMap;
use std::alloc::Global;
use std::test::Fail;
use warg_exchange::{
    Checkpoint, ConsistencyResponse, FetchLogsResponse, InclusionResponse, PublishedRecord, Reply,
    SignedCheckpoint,
};
use warg_hash::{AnyHash, KeyId, LogId};
use warg_record::Signature;
use warg_reply::{
    checkpoint_reply, consistency_reply, content_reply, inclusion_reply, page_reply, sources_reply,
};
use warg_values::{Sequence, Text};

/// The SHA-256 of `abc`.
const ABC: &str = "sha256:ba7816bf8f01cfea414140de5dae2223b00361a396177a9cb410ff61f20015ad";

/// The SHA-256 of `hello world`.
const HELLO: &str = "sha256:b94d27b9934d3e08a52e52d7da7dabfac484efe37a5380ee9088f7ace2efcde9";

const CHECKPOINT: &str =
    r#"{"contents":{"logLength":18446744073709551615,"logRoot":"ABC","mapRoot":"HELLO","timestamp":9},"keyId":"ABC","signature":"ecdsa-p256:AA=="}"#;

const PAGE: &str =
    r#"{"more":true,"operator":[{"contentBytes":"aGk=","fetchToken":"t\"","keyId":"k","registryIndex":3,"signature":"s"}],"packages":{"HELLO":[],"ABC":[]}}"#;

/// Whether a reply is a success with this JSON as its body, where `ABC` and `HELLO` stand for the hashes.
fn has_body(alloc: Global, reply: &Reply, expected: &str) -> Result<bool, Fail> {
    let expected = expected.replace(alloc, "ABC", ABC)?;
    let expected = expected.replace(alloc, "HELLO", HELLO)?;
    Ok(reply.status == 200 && reply.body.as_slice() == expected.as_bytes())
}

/// A list of bytes.
fn bytes(alloc: Global, bytes: &[u8]) -> Result<Sequence<u8>, Fail> {
    Ok(Sequence::from_vec(Vec::from_slice(alloc, bytes)?))
}

/// A record of which each member differs.
fn record(alloc: Global) -> Result<PublishedRecord, Fail> {
    Ok(PublishedRecord {
        content_bytes: bytes(alloc, b"hi")?,
        key_id: Text::copy_of(alloc, "k")?,
        signature: Text::copy_of(alloc, "s")?,
        registry_index: 3,
        fetch_token: Text::copy_of(alloc, "t\"")?,
    })
}

#[test]
fn a_checkpoint_is_written(rt: HostRuntime) -> Result<(), Fail> {
    let alloc = rt.alloc();
    let abc = AnyHash::from_text(alloc, ABC)?;
    let contents = Checkpoint {
        log_length: u64::MAX,
        log_root: abc,
        map_root: AnyHash::from_text(alloc, HELLO)?,
        timestamp: 9,
    };
    let checkpoint = SignedCheckpoint {
        contents,
        key_id: KeyId::from(abc),
        signature: Signature::new(alloc, "ecdsa-p256:AA==")?,
    };
    assert!(rt; has_body(alloc, &checkpoint_reply(alloc, &checkpoint)?, CHECKPOINT)?);
    Ok(())
}

#[test]
fn a_page_is_written_in_the_order_of_its_ids(rt: HostRuntime) -> Result<(), Fail> {
    let alloc = rt.alloc();
    let mut packages = IndexMap::new(alloc);
    packages.insert(LogId::from_text(alloc, ABC)?, Sequence::new(alloc))?;
    packages.insert(LogId::from_text(alloc, HELLO)?, Sequence::new(alloc))?;
    let mut operator = Sequence::new(alloc);
    operator.push(record(alloc)?)?;
    let page = FetchLogsResponse {
        more: true,
        operator,
        packages,
    };
    assert!(rt; has_body(alloc, &page_reply(alloc, &page)?, PAGE)?);
    Ok(())
}

#[test]
fn proofs_are_written(rt: HostRuntime) -> Result<(), Fail> {
    let alloc = rt.alloc();
    let bundles = InclusionResponse {
        log: bytes(alloc, b"hi")?,
        map: bytes(alloc, b"foob")?,
    };
    let reply = inclusion_reply(alloc, &bundles)?;
    assert!(rt; has_body(alloc, &reply, r#"{"log":"aGk=","map":"Zm9vYg=="}"#)?);
    let shown = ConsistencyResponse {
        proof: bytes(alloc, b"hi")?,
    };
    let reply = consistency_reply(alloc, &shown)?;
    assert!(rt; has_body(alloc, &reply, r#"{"proof":"aGk="}"#)?);
    Ok(())
}

#[test]
fn contents_and_their_sources_are_written(rt: HostRuntime) -> Result<(), Fail> {
    let alloc = rt.alloc();
    let digest = AnyHash::from_text(alloc, ABC)?;
    let url = Text::copy_of(alloc, "https://a.b/c")?;
    let reply = sources_reply(alloc, &digest, &url)?;
    let expected = r#"{"contentSources":{"ABC":[{"type":"httpGet","url":"https://a.b/c"}]}}"#;
    assert!(rt; has_body(alloc, &reply, expected)?);
    assert!(rt; has_body(alloc, &content_reply(alloc, b"hi".as_slice())?, "hi")?);
    Ok(())
}
