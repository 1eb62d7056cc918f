//! The JSON in the bodies of requests.

ghost use Rattle.std.specs.Prelude.{◌≡◌, IfOk, map};
ghost use Rattle.warg_record.specs.View.{envelope_view, package_entry_view};
ghost use Rattle.serde_json.specs.View.{view};
ghost use Rattle.warg_exchange.specs.Requests.{tokens_data, logs_data, ids_data, contents_data, checkpoint_data, inclusion_data, consistency_data, envelope_data, publish_data};

use base64::engine::general_purpose::STANDARD;
use indexmap::IndexMap;
use serde_json::{Map, Number, Value, json};
use std::alloc::Global;
use warg_exchange::{
    Checkpoint, ConsistencyRequest, FetchLogsRequest, InclusionRequest, PublishRecordRequest,
    SignedCheckpoint,
};
use warg_hash::LogId;
use warg_record::{Envelope, PackageEntry, Record};
use warg_values::{Memory, Text};

/// The JSON of tokens, by the texts of logs' ids.
fn tokens_value(alloc: Global, packages: &IndexMap<LogId, Option<Text>>) -> Result<Value, Memory>
    ensures { IfOk result (λ v. view v ≡ tokens_data packages.now.entries) }
{
    let mut map = Map::new(alloc);
    for (id, token) in packages {
        let name = id.text(alloc)?;
        let value = match token {
            Some(token) => Value::try_from_str(alloc, token.as_str())?,
            None => Value::Null,
        };
        serde_json::put(&mut map, alloc, name.as_str(), value)?;
    }
    Ok(Value::Object(map))
}

/// The JSON of a request for logs.
pub fn logs_value(alloc: Global, request: &FetchLogsRequest) -> Result<Value, Memory>
    ensures { IfOk result (λ v. view v
        ≡ logs_data request.now.log_length request.now.operator request.now.packages.entries) }
{
    let tokens = tokens_value(alloc, &request.packages)?;
    match &request.operator {
        Some(token) => Ok(
            json!(in alloc; {"logLength": request.log_length, "operator": token.as_str(), "packages": tokens})?,
        ),
        None => Ok(json!(in alloc; {"logLength": request.log_length, "packages": tokens})?),
    }
}

/// The JSON of a request for the names of packages.
pub fn names_value(alloc: Global, ids: &[LogId]) -> Result<Value, Memory>
    ensures { IfOk result (λ v. view v ≡ ids_data ids.now) }
{
    let mut texts = Vec::new(alloc);
    for id in ids {
        let text = id.text(alloc)?;
        texts.push(Value::try_from_str(alloc, text.as_str())?)?;
    }
    let texts = Value::Array(texts);
    Ok(json!(in alloc; {"packages": texts})?)
}

/// The JSON of a checkpoint.
fn contents_value(alloc: Global, contents: &Checkpoint) -> Result<Value, Memory>
    ensures { IfOk result (λ v. view v ≡ contents_data contents.now) }
{
    let log_root = contents.log_root.text(alloc)?;
    let map_root = contents.map_root.text(alloc)?;
    Ok(json!(in alloc; {
            "logLength": contents.log_length,
            "logRoot": log_root.as_str(),
            "mapRoot": map_root.as_str(),
            "timestamp": contents.timestamp,
        })?)
}

/// The JSON of a signed checkpoint.
pub fn checkpoint_value(alloc: Global, checkpoint: &SignedCheckpoint) -> Result<Value, Memory>
    ensures { IfOk result (λ v. view v ≡ checkpoint_data checkpoint.now) }
{
    let contents = contents_value(alloc, &checkpoint.contents)?;
    let key_id = checkpoint.key_id.text(alloc)?;
    Ok(
        json!(in alloc; {"contents": contents, "keyId": key_id.as_str(), "signature": checkpoint.signature.as_str()})?,
    )
}

/// The JSON of a request for proofs of inclusion.
pub fn inclusion_value(alloc: Global, request: &InclusionRequest) -> Result<Value, Memory>
    ensures { IfOk result (λ v. view v ≡ inclusion_data request.now.log_length request.now.leafs) }
{
    let mut leafs = Vec::new(alloc);
    for leaf in request.leafs.as_slice() {
        leafs.push(Value::Number(Number::from(*leaf)))?;
    }
    let leafs = Value::Array(leafs);
    Ok(json!(in alloc; {"leafs": leafs, "logLength": request.log_length})?)
}

/// The JSON of a request for a proof of consistency.
pub fn consistency_value(alloc: Global, request: &ConsistencyRequest) -> Result<Value, Memory>
    ensures { IfOk result (λ v. view v ≡ consistency_data request.now.from request.now.to) }
{
    Ok(json!(in alloc; {"from": request.from, "to": request.to})?)
}

/// The JSON of a signed record.
fn envelope_value(alloc: Global, envelope: &Envelope<Record<PackageEntry>>) -> Result<Value, Memory>
    ensures { IfOk result (λ v. view v ≡ envelope_data (envelope_view package_entry_view envelope.now)) }
{
    let contents = STANDARD.encode(alloc, envelope.contents.as_slice())?;
    let key_id = envelope.key_id.text(alloc)?;
    Ok(
        json!(in alloc; {"contentBytes": contents.as_str(), "keyId": key_id.as_str(), "signature": envelope.signature.as_str()})?,
    )
}

/// The JSON of a record that is to be published, without sources for its contents.
pub fn publish_value(alloc: Global, request: &PublishRecordRequest) -> Result<Value, Memory>
    ensures { IfOk result (λ v. view v
        ≡ publish_data request.now.package_name (envelope_view package_entry_view request.now.envelope)) }
{
    let record = envelope_value(alloc, &request.envelope)?;
    let sources = Value::Object(Map::new(alloc));
    Ok(
        json!(in alloc; {"contentSources": sources, "packageName": request.package_name.as_str(), "record": record})?,
    )
}
