//! Proofs that a registry's log and map hold a record.

use crate::replies::{client, json, link, told, words};
use std::alloc::Global;
use std::test::Fail;
use test_check::{holds, is_text};
use warg_api::{Client, ClientError, RecordedLink};
use warg_exchange::{Checkpoint, InclusionRequest};
use warg_hash::{AnyHash, LogId, RecordId};
use warg_proof::LogLeaf;
use warg_values::Sequence;

/// The roots of a log and a map that hold one record of the operator's log, whose contents are `abc`.
const LOG_ROOT: &str = "sha256:621877f9cba0e264eede5f15cfccfbca05df06a568c7c25ee970a13adde31d80";

const MAP_ROOT: &str = "sha256:42a647beff44aeb4440278e0cc4ceefc34dbe4a04057ce5cbebb660bbdc2e83b";

/// Bundles, with what is answered: one proof each; none over the log; and none over the map.
const BUNDLES: &[(&str, &str)] = &[
    (
        "eyJsb2ciOiJBQUFBQUFBQUFBQUFBQUFBQVFBQUFBQUFBQUFCQUFBQUFBQUFBQUE9IiwibWFwIjoiQUFBQUFBRUFBQUFBQUFBQUFBQUFBQUFBQUFBQUFBQUFBQUFBQUFBQUFBQUFBQUFBQUE9PSJ9",
        "shown",
    ),
    (
        "eyJsb2ciOiJBQUFBQUFBQUFBQUFBQUFBQUE9PSIsIm1hcCI6IkFBQUFBQUVBQUFBQUFBQUFBQUFBQUFBQUFBQUFBQUFBQUFBQUFBQUFBQUFBQUFBQUFBPT0ifQ==",
        "the bundle does not hold the proofs that were asked for",
    ),
    (
        "eyJsb2ciOiJBQUFBQUFBQUFBQUFBQUFBQVFBQUFBQUFBQUFCQUFBQUFBQUFBQUE9IiwibWFwIjoiQUFBQUFBQT0ifQ==",
        "the bundle does not hold the proofs that were asked for",
    ),
];

/// The record is proved.
fn prove(
    alloc: Global,
    client: &Client,
    link: &mut RecordedLink,
    request: &InclusionRequest,
    checkpoint: &Checkpoint,
    leafs: &[LogLeaf],
) -> Result<String, ClientError> {
    client.prove_inclusion(alloc, link, None, request, checkpoint, leafs)?;
    words(String::from_str(alloc, "shown"))
}

/// The request for the proof of the log's one record.
fn request(alloc: Global) -> Result<InclusionRequest, Fail> {
    let mut leafs = Sequence::new(alloc);
    leafs.push(0)?;
    Ok(InclusionRequest {
        log_length: 1,
        leafs,
    })
}

/// A checkpoint of one record with this root of the log.
fn checkpoint(alloc: Global, log_root: &str) -> Result<Checkpoint, Fail> {
    Ok(Checkpoint {
        log_length: 1,
        log_root: AnyHash::from_text(alloc, log_root)?,
        map_root: AnyHash::from_text(alloc, MAP_ROOT)?,
        timestamp: 0,
    })
}

/// What it answers under a log root and a map root.
fn judged(
    alloc: Global,
    client: &Client,
    link: &mut RecordedLink,
    log_root: &str,
) -> Result<String, Fail> {
    let checkpoint = checkpoint(alloc, log_root)?;
    let leaf = LogLeaf {
        log_id: LogId::operator_log(),
        record_id: RecordId::of(b"abc"),
    };
    let request = request(alloc)?;
    told(
        alloc,
        prove(alloc, client, link, &request, &checkpoint, &[leaf]),
    )
}

/// A link over one reply of these bundles.
fn link_over(alloc: Global, bundles: &str) -> Result<RecordedLink, Fail> {
    let replies = json(alloc, 200, "application/json", bundles)?;
    link(alloc, &replies)
}

/// What it answers over bundles.
fn proved(alloc: Global, bundles: &str, log_root: &str) -> Result<String, Fail> {
    let client = client(alloc)?;
    let mut link = link_over(alloc, bundles)?;
    judged(alloc, &client, &mut link, log_root)
}

/// Fails at the first bundles over which something else is answered.
fn are_judged(alloc: Global, rows: &[(&str, &str)]) -> Result<(), Fail> {
    for (bundles, expected) in rows {
        is_text(&proved(alloc, bundles, LOG_ROOT)?, expected)?;
    }
    Ok(())
}

#[test]
fn a_record_is_shown_by_one_proof_each_and_no_fewer(rt: HostRuntime) -> Result<(), Fail> {
    are_judged(rt.alloc(), BUNDLES)
}

/// Fails where the first bundles answer something else under another root of the log.
fn is_told(alloc: Global, bundles: &str) -> Result<(), Fail> {
    let found = proved(alloc, bundles, MAP_ROOT)?;
    let is_front = found.starts_with("a proof gives the root sha256:6218");
    holds(
        is_front && found.contains("in place of sha256:42a6"),
        found.as_str(),
    )
}

#[test]
fn a_proof_under_another_root_is_told(rt: HostRuntime) -> Result<(), Fail> {
    let (bundles, _) = BUNDLES.first().ok_or("bundles")?;
    is_told(rt.alloc(), bundles)
}
