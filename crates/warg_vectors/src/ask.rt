//! What a request asks.

ghost use Rattle.std.specs.Prelude.{◌≡◌, ◌++◌, codes, find, bytes_eq, IfOk, option_map, option_copied};
ghost use Rattle.serde_json.specs.View.{view};
ghost use Rattle.warg_hash.specs.Hash.{digest_of};
ghost use Rattle.warg_json.specs.Answers.{BodyGives};
ghost use Rattle.warg_names.specs.Cut.{behind as behind_of};
ghost use Rattle.warg_vectors.specs.Asked.{registry_header, content_asked, sources_asked, digest_asked, path_asked, logs_in, inclusion_in, consistency_in, value_asked as value_asked_at, body_asked as body_asked_at, meant_asked, asked_by};
ghost use Rattle.warg_vectors.specs.AskViews.{registry_ask_view, ask_view};

use http_header::HeaderValue;
use indexmap::IndexMap;
use serde_json::Value;
use std::alloc::Global;
use warg_exchange::{ConsistencyRequest, FetchLogsRequest, InclusionRequest, Method, Request};
use warg_hash::{AnyHash, LogId, NameError};
use warg_json::{BodyError, optional, required, value_in_bytes};
use warg_names::behind;
use warg_values::{Memory, Sequence, Text};

/// Where the registries are.
pub const HOME: &str = "https://home.test/";

/// The path of a content behind `HOME`, before the digits of its digest.
pub const CONTENT_PATH: &str = "content/sha256/";

/// What is asked of one registry.
#[derive(Debug, Drop)]
pub enum RegistryAsk {
    /// Its latest checkpoint.
    Checkpoint,
    /// A page of its logs.
    Logs(FetchLogsRequest),
    /// Proofs that records are in its log and its map.
    Inclusion(InclusionRequest),
    /// A proof that its log continues an older one.
    Consistency(ConsistencyRequest),
}

/// What a request asks.
#[derive(Debug, Drop)]
pub enum Ask {
    /// Something of the registry that the request names.
    Registry(RegistryAsk),
    /// Where the content of this digest is.
    Sources(AnyHash),
    /// The content of this digest.
    Content(AnyHash),
    /// Anything else.
    Other,
}

/// The first header of a name, which is in lower case (RFC 9110, section 5.1).
fn first_header<'a>(name: &str, request: &'a Request) -> Option<&'a HeaderValue>
    ensures { option_map (λ v. v.now) result
        ≡ option_map (λ h. h.1) (find (λ h. bytes_eq h.0 name.now) request.now.headers) }
{
    for (known, value) in request.headers.as_slice() {
        if known.as_str() == name {
            return Some(value);
        }
    }
    None
}

/// The header by which a request names a registry.
pub fn registry_named(request: &Request) -> Option<&HeaderValue>
    ensures { option_map (λ v. v.now) result ≡ registry_header request.now }
{
    first_header("warg-registry", request)
}

/// The digest that a text names.
fn digest_of_text(alloc: Global, text: &str) -> Result<Option<AnyHash>, Memory>
    ensures { IfOk result (λ digest. digest ≡ digest_of text.now) }
{
    match AnyHash::from_text(alloc, text) {
        Ok(digest) => Ok(Some(digest)),
        Err(NameError::Form) => Ok(None),
        Err(NameError::Memory) => Err(Memory),
    }
}

/// The digest with these digits.
fn digest_of_digits(alloc: Global, digits: &str) -> Result<Option<AnyHash>, Memory>
    ensures { IfOk result (λ digest. digest ≡ digest_of (codes "sha256:" ++ digits.now)) }
{
    let mut text = String::from_str(alloc, "sha256:")?;
    text.push_str(digits)?;
    digest_of_text(alloc, &text)
}

/// What is asked where a content's digest stands.
fn asked_content(digest: Option<AnyHash>) -> Ask
    ensures { ask_view result ≡ content_asked digest }
{
    match digest {
        Some(digest) => Ask::Content(digest),
        None => Ask::Other,
    }
}

/// What is asked where the digest of a content stands whose sources are asked for.
fn asked_sources(digest: Option<AnyHash>) -> Ask
    ensures { ask_view result ≡ sources_asked digest }
{
    match digest {
        Some(digest) => Ask::Sources(digest),
        None => Ask::Other,
    }
}

/// What is asked by a path that names a content, or where one is.
fn digest_at(alloc: Global, path: &str) -> Result<Ask, Memory>
    ensures { IfOk result (λ asked. ask_view asked
        ≡ digest_asked (behind_of (codes "content/sha256/") path.now) (behind_of (codes "v1/content/") path.now)) }
{
    if let Some(digits) = behind(CONTENT_PATH, path) {
        let digest = digest_of_digits(alloc, digits)?;
        return Ok(asked_content(digest));
    }
    if let Some(text) = behind("v1/content/", path) {
        let digest = digest_of_text(alloc, text)?;
        return Ok(asked_sources(digest));
    }
    Ok(Ask::Other)
}

/// What is asked by a path without a body.
fn get_asked(alloc: Global, path: &str) -> Result<Ask, Memory>
    ensures { IfOk result (λ asked. ask_view asked ≡ path_asked path.now) }
{
    if path == "v1/fetch/checkpoint" {
        return Ok(Ask::Registry(RegistryAsk::Checkpoint));
    }
    digest_at(alloc, path)
}

/// The request for logs that a JSON value is.
#[tactic(auto, unfolding(crate::specs::Asked::logs_in))]
fn logs_asked(alloc: Global, value: &Value) -> Result<RegistryAsk, BodyError>
    ensures { BodyGives registry_ask_view result (logs_in (view value.now)) }
{
    let log_length: u64 = required(alloc, "logLength", value)?;
    let operator: Option<Text> = optional(alloc, "operator", value)?;
    let packages: IndexMap<LogId, Option<Text>> = required(alloc, "packages", value)?;
    Ok(RegistryAsk::Logs(FetchLogsRequest {
        log_length,
        operator,
        packages,
    }))
}

/// The request for proofs of inclusion that a JSON value is.
#[tactic(auto, unfolding(crate::specs::Asked::inclusion_in))]
fn inclusion_asked(alloc: Global, value: &Value) -> Result<RegistryAsk, BodyError>
    ensures { BodyGives registry_ask_view result (inclusion_in (view value.now)) }
{
    let leafs: Sequence<u64> = required(alloc, "leafs", value)?;
    let log_length: u64 = required(alloc, "logLength", value)?;
    Ok(RegistryAsk::Inclusion(InclusionRequest { log_length, leafs }))
}

/// The request for a proof of consistency that a JSON value is.
#[tactic(auto, unfolding(crate::specs::Asked::consistency_in))]
fn consistency_asked(alloc: Global, value: &Value) -> Result<RegistryAsk, BodyError>
    ensures { BodyGives registry_ask_view result (consistency_in (view value.now)) }
{
    let from: u64 = required(alloc, "from", value)?;
    let to: u64 = required(alloc, "to", value)?;
    Ok(RegistryAsk::Consistency(ConsistencyRequest { from, to }))
}

/// What is asked by a path with a JSON value, where it is of the form of such a request.
fn value_asked(alloc: Global, path: &str, value: &Value) -> Result<RegistryAsk, BodyError>
    ensures { BodyGives registry_ask_view result (value_asked_at path.now (view value.now)) }
{
    if path == "v1/fetch/logs" {
        return logs_asked(alloc, value);
    }
    if path == "v1/proof/inclusion" {
        return inclusion_asked(alloc, value);
    }
    if path == "v1/proof/consistency" {
        return consistency_asked(alloc, value);
    }
    Err(BodyError::Unexpected)
}

/// What is asked by a path with a body, where it is of the form of such a request.
fn body_asked(alloc: Global, path: &str, body: &[u8]) -> Result<RegistryAsk, BodyError>
    ensures { BodyGives registry_ask_view result (body_asked_at path.now body.now) }
{
    let value = value_in_bytes(alloc, body)?;
    value_asked(alloc, path, &value)
}

/// What is asked by a path with a body.
fn post_asked(alloc: Global, path: &str, body: &[u8]) -> Result<Ask, Memory>
    ensures { IfOk result (λ asked. ask_view asked ≡ meant_asked (body_asked_at path.now body.now)) }
{
    match body_asked(alloc, path, body) {
        Ok(asked) => Ok(Ask::Registry(asked)),
        Err(BodyError::Unexpected) => Ok(Ask::Other),
        Err(BodyError::NoHash(_)) => Ok(Ask::Other),
        Err(BodyError::Memory) => Err(Memory),
    }
}

/// What a request asks.
pub fn asked_of(alloc: Global, request: &Request) -> Result<Ask, Memory>
    ensures { IfOk result (λ asked. ask_view asked ≡ asked_by request.now) }
{
    let Some(path) = behind(HOME, request.url.as_str()) else {
        return Ok(Ask::Other);
    };
    match request.method {
        Method::Get => get_asked(alloc, path),
        Method::Post => post_asked(alloc, path, request.body.as_slice()),
        Method::Put => Ok(Ask::Other),
    }
}
