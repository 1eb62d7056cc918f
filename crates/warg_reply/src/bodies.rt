//! The JSON in the bodies of replies without records.

ghost use Rattle.std.specs.Prelude.{◌≡◌, ◌≤◌, ◌∷◌, [], IfOk, Ok, Some, true};
ghost use Rattle.serde_json.specs.Data.{depth};
ghost use Rattle.serde_json.specs.View.{view};
ghost use Rattle.warg_hash.specs.Hash.{digest_of, hash_text};
ghost use Rattle.warg_record.specs.Key.{is_key_text};
ghost use Rattle.warg_exchange.specs.Requests.{contents_data, checkpoint_data};
ghost use Rattle.warg_exchange.specs.Replies.{contents_in, checkpoint_in, bundles_in, proof_in, sources_in};
ghost use Rattle.warg_exchange.specs.declared.content.ContentSource.TheVariants.{HttpGet as IsHttpGet};
ghost use Rattle.warg_reply.specs.Bodies.{bundles_data, proof_data, source_data, sources_data};

use base64::engine::general_purpose::STANDARD;
use serde_json::{Map, Value, json};
use std::alloc::Global;
use warg_exchange::{Checkpoint, ConsistencyResponse, InclusionResponse, SignedCheckpoint};
use warg_hash::AnyHash;
use warg_record::Signature;
use warg_record::laws::key_texts_are_tested;
use warg_values::{Memory, Text};

/// A hash's text names the hash.
pub fn names_itself(hash: &AnyHash)
    ensures { digest_of (hash_text hash.now) ≡ Some hash.now }
{
    let _bytes = hash.bytes();
}

/// A signature has the form that is asked of it.
fn has_form(signature: &Signature)
    ensures { is_key_text signature.now ≡ true }
{
    key_texts_are_tested();
    let _text = signature.as_str();
}

/// The JSON of a checkpoint, by its members.
fn contents_object(alloc: Global, contents: &Checkpoint) -> Result<Value, Memory>
    ensures { IfOk result (λ v. view v ≡ contents_data contents.now) }
{
    let log_root = contents.log_root.text(alloc)?;
    let map_root = contents.map_root.text(alloc)?;
    Ok(json!(in alloc; {
            "logLength": contents.log_length,
            "logRoot": log_root.as_str(),
            "mapRoot": map_root.as_str(),
            "timestamp": contents.timestamp,
        })?)
}

/// The JSON of a signed checkpoint, by its members.
fn checkpoint_object(alloc: Global, checkpoint: &SignedCheckpoint) -> Result<Value, Memory>
    ensures { IfOk result (λ v. view v ≡ checkpoint_data checkpoint.now) }
{
    let contents = contents_object(alloc, &checkpoint.contents)?;
    let key_id = checkpoint.key_id.text(alloc)?;
    Ok(
        json!(in alloc; {"contents": contents, "keyId": key_id.as_str(), "signature": checkpoint.signature.as_str()})?,
    )
}

/// The JSON of a signed checkpoint.
pub fn checkpoint_value(alloc: Global, checkpoint: &SignedCheckpoint) -> Result<Value, Memory>
    ensures says { IfOk result (λ v. checkpoint_in (view v) ≡ Ok checkpoint.now) }
    ensures nests { IfOk result (λ v. depth (view v) ≡ 2) }
{
    names_itself(&checkpoint.contents.log_root);
    names_itself(&checkpoint.contents.map_root);
    names_itself(checkpoint.key_id.hash());
    has_form(&checkpoint.signature);
    checkpoint_object(alloc, checkpoint)
}

/// The JSON of two bundles in base64.
fn bundles_object(alloc: Global, log: &str, map: &str) -> Result<Value, Memory>
    ensures { IfOk result (λ v. view v ≡ bundles_data log.now map.now) }
{
    Ok(json!(in alloc; {"log": log, "map": map})?)
}

/// The JSON of the bundles of proofs over the log and over the map.
pub fn bundles_value(alloc: Global, bundles: &InclusionResponse) -> Result<Value, Memory>
    ensures says { IfOk result (λ v. bundles_in (view v) ≡ Ok bundles.now) }
    ensures nests { IfOk result (λ v. depth (view v) ≡ 1) }
{
    let log = STANDARD.encode(alloc, bundles.log.as_slice())?;
    let map = STANDARD.encode(alloc, bundles.map.as_slice())?;
    bundles_object(alloc, log.as_str(), map.as_str())
}

/// The JSON of one bundle in base64.
fn proof_object(alloc: Global, proof: &str) -> Result<Value, Memory>
    ensures { IfOk result (λ v. view v ≡ proof_data proof.now) }
{
    Ok(json!(in alloc; {"proof": proof})?)
}

/// The JSON of the bundle that holds a proof of consistency.
pub fn proof_value(alloc: Global, shown: &ConsistencyResponse) -> Result<Value, Memory>
    ensures says { IfOk result (λ v. proof_in (view v) ≡ Ok shown.now) }
    ensures nests { IfOk result (λ v. depth (view v) ≡ 1) }
{
    let proof = STANDARD.encode(alloc, shown.proof.as_slice())?;
    proof_object(alloc, proof.as_str())
}

/// The JSON of a content's URL.
fn source_object(alloc: Global, url: &Text) -> Result<Value, Memory>
    ensures { IfOk result (λ v. view v ≡ source_data url.now) }
{
    Ok(json!(in alloc; {"type": "httpGet", "url": url.as_str()})?)
}

/// The JSON of sources, by their content's digest.
fn sources_object(alloc: Global, digest: &AnyHash, url: &Text) -> Result<Value, Memory>
    ensures { IfOk result (λ v. view v ≡ sources_data digest.now url.now) }
{
    let name = digest.text(alloc)?;
    let source = source_object(alloc, url)?;
    let mut listed = Vec::new(alloc);
    listed.push(source)?;
    let mut sources = Map::new(alloc);
    serde_json::put(&mut sources, alloc, name.as_str(), Value::Array(listed))?;
    let sources = Value::Object(sources);
    Ok(json!(in alloc; {"contentSources": sources})?)
}

/// The JSON of the one URL at which a content is.
pub fn sources_value(alloc: Global, digest: &AnyHash, url: &Text) -> Result<Value, Memory>
    ensures says { IfOk result (λ v.
        sources_in (view v) ≡ Ok ((digest.now, IsHttpGet url.now ∷ []) ∷ [])) }
    ensures nests { IfOk result (λ v. depth (view v) ≡ 4) }
{
    names_itself(digest);
    sources_object(alloc, digest, url)
}
