//! What replies say.

ghost use Rattle.std.specs.Prelude.{◌≡◌, option_map};
ghost use Rattle.serde_json.specs.View.{view};
ghost use Rattle.warg_exchange.specs.Body.{required};
ghost use Rattle.warg_exchange.specs.Replies.{body_of as body_in, first_header as first_header_of, is_json as is_json_of, json_of, is_success as is_success_of, says, refusal_in, value_in};
ghost use Rattle.warg_json.specs.Answers.{BodyGives, ReplyGives};

use crate::error::BodyError;
use crate::from_body::FromBody;
use http_header::HeaderValue;
use serde_json::Value;
use std::alloc::Global;
use thiserror::Error;
use warg_exchange::{Reply, ServiceError};

/// Why a reply gives no value.
#[derive(Debug, Drop, Error)]
pub enum ReplyError {
    /// Its body has no meaning.
    #[error("{0}")]
    NoMeaning(BodyError),
    /// The registry answers an error.
    #[error("{0}")]
    Refused(ServiceError),
}

/// The first header of a name, which is in lower case (RFC 9110, section 5.1).
pub fn first_header<'a>(name: &str, reply: &'a Reply) -> Option<&'a HeaderValue>
    ensures { option_map (λ v. v.now) result ≡ first_header_of name.now reply.now }
{
    for (known, value) in reply.headers.as_slice() {
        if known.as_str() == name {
            return Some(value);
        }
    }
    None
}

/// Whether a content type is that of JSON.
fn is_json(kind: Option<&HeaderValue>) -> bool
    ensures { result ≡ is_json_of (option_map (λ v. v.now.bytes) kind.entry) }
{
    match kind {
        Some(kind) => kind.as_bytes() == b"application/json".as_slice(),
        None => false,
    }
}

/// The JSON value (RFC 8259) that bytes are. Bytes that are none are `Unexpected`.
pub fn value_in_bytes(alloc: Global, bytes: &[u8]) -> Result<Value, BodyError>
    ensures { BodyGives view result (required (json_of bytes.now)) }
{
    match Value::from_slice(alloc, bytes) {
        Ok(value) => Ok(value),
        Err(e) => {
            if e.is_memory() {
                Err(BodyError::Memory)
            } else {
                Err(BodyError::Unexpected)
            }
        }
    }
}

/// The value of a body, which has to be JSON and to be called so.
fn body_of(alloc: Global, reply: &Reply) -> Result<Value, BodyError>
    ensures { BodyGives view result (body_in reply.now) }
{
    if is_json(first_header("content-type", reply)) {
        value_in_bytes(alloc, reply.body.as_slice())
    } else {
        Err(BodyError::Unexpected)
    }
}

/// Whether a status is a success (RFC 9110, section 15.3).
pub fn is_success(status: u16) -> bool
    ensures { result ≡ is_success_of status }
{
    (200..=299).contains(&status)
}

/// The error that the body of a reply names, whatever its status is.
pub fn refusal_of(alloc: Global, reply: &Reply) -> Result<ServiceError, BodyError>
    ensures { BodyGives (λ e. e) result (refusal_in reply.now) }
{
    let value = body_of(alloc, reply)?;
    ServiceError::from_body(alloc, &value)
}

/// The value of a reply's body.
fn value_of<T: FromBody>(alloc: Global, reply: &Reply) -> Result<T, BodyError>
    ensures { BodyGives T.plain result (value_in T.meaning reply.now) }
{
    let value = body_of(alloc, reply)?;
    T::from_body(alloc, &value)
}

/// What a reply says: by its status, the value of its body or the error that its body names.
///
/// Status, content type, JSON and members are looked at in this order, and the first fault is told.
pub fn read_reply<T: FromBody>(alloc: Global, reply: &Reply) -> Result<T, ReplyError>
    ensures { ReplyGives T.plain result (says T.meaning reply.now) }
{
    if is_success(reply.status) {
        match value_of(alloc, reply) {
            Ok(value) => Ok(value),
            Err(e) => Err(ReplyError::NoMeaning(e)),
        }
    } else {
        match refusal_of(alloc, reply) {
            Ok(e) => Err(ReplyError::Refused(e)),
            Err(e) => Err(ReplyError::NoMeaning(e)),
        }
    }
}
