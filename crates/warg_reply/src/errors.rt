//! The JSON of errors.

ghost use Rattle.std.specs.Prelude.{◌≡◌, IfOk, Ok, Some};
ghost use Rattle.serde_json.specs.Data.{depth, string};
ghost use Rattle.serde_json.specs.View.{view};
ghost use Rattle.warg_hash.specs.Hash.{digest_of, hash_text};
ghost use Rattle.warg_exchange.specs.Replies.{service_error_in};
ghost use Rattle.warg_exchange.specs.Requests.{whole_number};
ghost use Rattle.warg_reply.specs.Bodies.{kind_data, told_data};

use crate::bodies::names_itself;
use serde_json::{Map, Number, Value, json};
use std::alloc::Global;
use warg_exchange::ServiceError;
use warg_hash::AnyHash;
use warg_values::{Memory, Text};

/// The JSON of an error that tells one thing beside its kind.
fn told_object(alloc: Global, name: &str, told: Value, kind: &str) -> Result<Value, Memory>
    ensures { IfOk result (λ v. view v ≡ told_data name.now (view told) kind.now) }
{
    let mut map = Map::new(alloc);
    serde_json::put(&mut map, alloc, name, told)?;
    let kind = Value::try_from_str(alloc, kind)?;
    serde_json::put(&mut map, alloc, "type", kind)?;
    Ok(Value::Object(map))
}

/// The JSON of a hash's text.
fn hash_value(alloc: Global, hash: &AnyHash) -> Result<Value, Memory>
    ensures text { IfOk result (λ v. view v ≡ string (hash_text hash.now)) }
    ensures names { IfOk result (λ _. digest_of (hash_text hash.now) ≡ Some hash.now) }
{
    names_itself(hash);
    let text = hash.text(alloc)?;
    Ok(Value::try_from_str(alloc, text.as_str())?)
}

/// The JSON of an error that tells a hash.
fn hash_object(alloc: Global, name: &str, hash: &AnyHash, kind: &str) -> Result<Value, Memory>
    ensures object { IfOk result (λ v. view v ≡ told_data name.now (string (hash_text hash.now)) kind.now) }
    ensures names { IfOk result (λ _. digest_of (hash_text hash.now) ≡ Some hash.now) }
{
    let told = hash_value(alloc, hash)?;
    told_object(alloc, name, told, kind)
}

/// The JSON of an error that tells a text.
fn text_object(alloc: Global, name: &str, text: &Text, kind: &str) -> Result<Value, Memory>
    ensures { IfOk result (λ v. view v ≡ told_data name.now (string text.now) kind.now) }
{
    let told = Value::try_from_str(alloc, text.as_str())?;
    told_object(alloc, name, told, kind)
}

/// The JSON of an error that tells a number.
fn number_object(alloc: Global, name: &str, number: u64, kind: &str) -> Result<Value, Memory>
    ensures { IfOk result (λ v. view v ≡ told_data name.now (whole_number number) kind.now) }
{
    told_object(alloc, name, Value::Number(Number::from(number)), kind)
}

/// The JSON of an error.
pub fn error_value(alloc: Global, error: &ServiceError) -> Result<Value, Memory>
    ensures says { IfOk result (λ v. service_error_in (view v) ≡ Ok error.now) }
    ensures nests { IfOk result (λ v. depth (view v) ≡ 1) }
{
    match error {
        ServiceError::CheckpointNotFound { length } => {
            number_object(alloc, "length", *length, "checkpointNotFound")
        }
        ServiceError::LogNotFound { id } => hash_object(alloc, "id", id.hash(), "logNotFound"),
        ServiceError::FetchTokenNotFound { token } => {
            text_object(alloc, "token", token, "fetchTokenNotFound")
        }
        ServiceError::RecordNotFound { id } => {
            hash_object(alloc, "id", id.hash(), "recordNotFound")
        }
        ServiceError::RecordNotSourcing => kind_object(alloc, "recordNotSourcing"),
        ServiceError::NamespaceNotDefined { namespace } => {
            text_object(alloc, "namespace", namespace, "namespaceNotDefined")
        }
        ServiceError::NamespaceImported { namespace } => {
            text_object(alloc, "namespace", namespace, "namespaceImported")
        }
        ServiceError::Unauthorized { message } => {
            text_object(alloc, "message", message, "unauthorized")
        }
        ServiceError::ConflictPendingPublish { id } => {
            hash_object(alloc, "id", id.hash(), "conflictPendingPublish")
        }
        ServiceError::Rejection { message } => text_object(alloc, "message", message, "rejection"),
        ServiceError::ContentDigestNotFound { digest } => {
            hash_object(alloc, "digest", digest, "contentDigestNotFound")
        }
        ServiceError::LeafNotFound { index } => {
            number_object(alloc, "index", *index, "leafNotFound")
        }
        ServiceError::Message { message } => text_object(alloc, "message", message, "message"),
    }
}

/// The JSON of an error that tells its kind alone.
fn kind_object(alloc: Global, kind: &str) -> Result<Value, Memory>
    ensures { IfOk result (λ v. view v ≡ kind_data kind.now) }
{
    Ok(json!(in alloc; {"type": kind})?)
}
