//! Replies of a registry to the requests of an update and of a download.

ghost use Rattle.std.specs.Prelude.{◌≡◌, ◌≤◌, ◌∷◌, [], IfOk, Ok, true, false, bytes_eq};
ghost use Rattle.indexmap.specs.IndexMap.{IsUnique};
ghost use Rattle.serde_json.specs.Data.{depth};
ghost use Rattle.serde_json.specs.Read.{max_depth};
ghost use Rattle.serde_json.specs.View.{view};
ghost use Rattle.warg_exchange.specs.Replies.{says, body_of, is_success, refusal_in, checkpoint_in, page_in, bundles_in, proof_in, sources_in};
ghost use Rattle.warg_exchange.specs.declared.content.ContentSource.TheVariants.{HttpGet as IsHttpGet};
ghost use Rattle.warg_reply.specs.Order.{ascending, NameThemselves};

use crate::bodies::{bundles_value, checkpoint_value, proof_value, sources_value};
use crate::errors::error_value;
use crate::logs::page_value;
use http_header::{HeaderName, HeaderValue};
use serde_json::Value;
use std::alloc::Global;
use warg_exchange::{
    ConsistencyResponse, FetchLogsResponse, InclusionResponse, Reply, ServiceError,
    SignedCheckpoint,
};
use warg_hash::AnyHash;
use warg_values::{Memory, Sequence, Text};

/// The status of a reply that gives what was asked (RFC 9110, section 15.3.1).
const FOUND: u16 = 200;

/// A reply with a JSON value as its body.
fn json_reply(alloc: Global, status: u16, body: &Value) -> Result<Reply, Memory>
    ensures status { IfOk result (λ reply. reply.status ≡ status) }
    ensures body { IfOk result (λ reply. depth (view body.now) ≤ max_depth
        → body_of reply ≡ Ok (view body.now)) }
{
    let text = body.to_string(alloc)?;
    let mut headers = Vec::new(alloc);
    let kind = HeaderValue::from_static("application/json");
    headers.push((HeaderName::from_static("content-type"), kind))?;
    Ok(Reply {
        status,
        headers: Sequence::from_vec(headers),
        body: Sequence::from_vec(text.into_bytes()),
    })
}

/// The reply that gives a registry's latest checkpoint.
pub fn checkpoint_reply(alloc: Global, checkpoint: &SignedCheckpoint) -> Result<Reply, Memory>
    ensures { IfOk result (λ reply. says checkpoint_in reply ≡ Ok checkpoint.now) }
{
    let body = checkpoint_value(alloc, checkpoint)?;
    json_reply(alloc, FOUND, &body)
}

/// The reply that gives a page of logs, the packages' in the order of their ids' texts.
pub fn page_reply(alloc: Global, page: &FetchLogsResponse) -> Result<Reply, Memory>
    ensures says { IfOk result (λ reply. says page_in reply ≡ Ok (record {
      more = page.now.more;
      operator = page.now.operator;
      packages = ascending page.now.packages.entries;
    })) }
    // So none of the lists stands in the place of another.
    ensures ids { IfOk result (λ _. NameThemselves page.now.packages.entries) }
    ensures unique { IfOk result (λ _. IsUnique bytes_eq page.now.packages) }
{
    let body = page_value(alloc, page)?;
    json_reply(alloc, FOUND, &body)
}

/// The reply that gives proofs that entries are in a registry's log and map.
pub fn inclusion_reply(alloc: Global, bundles: &InclusionResponse) -> Result<Reply, Memory>
    ensures { IfOk result (λ reply. says bundles_in reply ≡ Ok bundles.now) }
{
    let body = bundles_value(alloc, bundles)?;
    json_reply(alloc, FOUND, &body)
}

/// The reply that gives a proof that a registry's log continues an older one.
pub fn consistency_reply(alloc: Global, shown: &ConsistencyResponse) -> Result<Reply, Memory>
    ensures { IfOk result (λ reply. says proof_in reply ≡ Ok shown.now) }
{
    let body = proof_value(alloc, shown)?;
    json_reply(alloc, FOUND, &body)
}

/// The reply that gives the one URL at which a content is.
pub fn sources_reply(alloc: Global, digest: &AnyHash, url: &Text) -> Result<Reply, Memory>
    ensures { IfOk result (λ reply.
        says sources_in reply ≡ Ok ((digest.now, IsHttpGet url.now ∷ []) ∷ [])) }
{
    let body = sources_value(alloc, digest, url)?;
    json_reply(alloc, FOUND, &body)
}

/// The reply that gives a content.
pub fn content_reply(alloc: Global, content: &[u8]) -> Result<Reply, Memory>
    ensures success { IfOk result (λ reply. is_success reply.status ≡ true) }
    ensures content { IfOk result (λ reply. reply.body ≡ content.now) }
{
    Ok(Reply {
        status: FOUND,
        headers: Sequence::new(alloc),
        body: Sequence::from_vec(Vec::from_slice(alloc, content)?),
    })
}

/// The status under which an error is answered (RFC 9110, section 15.5).
fn status_of(error: &ServiceError) -> u16
    ensures { is_success result ≡ false }
{
    match error {
        ServiceError::CheckpointNotFound { .. }
        | ServiceError::LogNotFound { .. }
        | ServiceError::FetchTokenNotFound { .. }
        | ServiceError::RecordNotFound { .. }
        | ServiceError::NamespaceNotDefined { .. }
        | ServiceError::ContentDigestNotFound { .. }
        | ServiceError::LeafNotFound { .. } => 404,
        ServiceError::Unauthorized { .. } => 401,
        ServiceError::NamespaceImported { .. }
        | ServiceError::RecordNotSourcing
        | ServiceError::ConflictPendingPublish { .. } => 409,
        ServiceError::Rejection { .. } => 422,
        ServiceError::Message { .. } => 500,
    }
}

/// The reply that gives an error in place of what was asked.
pub fn refusal_reply(alloc: Global, error: &ServiceError) -> Result<Reply, Memory>
    ensures failure { IfOk result (λ reply. is_success reply.status ≡ false) }
    ensures refuses { IfOk result (λ reply. refusal_in reply ≡ Ok error.now) }
{
    let body = error_value(alloc, error)?;
    json_reply(alloc, status_of(error), &body)
}
