//! Requests that send contents to the places that a registry names.

ghost use Rattle.std.specs.Prelude.{◌≡◌, ◌↔◌, ℕ, List, All, IfOk, IfErr, IfSome, IfNone, Some, Err, map};
ghost use Rattle.http_header.specs.FieldValue.{plain_value};
ghost use Rattle.warg_exchange.specs.declared.exchange.Method.{Method as Kind};
ghost use Rattle.warg_exchange.specs.Requests.{upload_request as upload_request_of};
ghost use Rattle.warg_request.specs.Uploading.{upload_method as upload_method_of, IsUploadName, IsUploadHeader, IsFirstBad, IsUploadFault};
ghost use Rattle.warg_request.specs.declared.upload.UploadError.TheVariants.{Method as IsMethod, Memory as WantsMemory};

use http_header::{HeaderName, HeaderValue, HeaderValueError};
use indexmap::IndexMap;
use std::alloc::{AllocError, AllocFailed, Global};
use thiserror::Error;
use warg_exchange::{Method, Request};
use warg_values::{Memory, Sequence, Text};

/// Why a content can't be sent as a registry asks.
#[derive(Debug, Drop, Error)]
pub enum UploadError {
    /// The method is neither `POST` nor `PUT`.
    #[error("a content can't be sent by `{0}`: ask the registry's operator to name `POST` or `PUT`")]
    Method(Text),
    /// The first header that has another name than `authorization` and `content-type`, or no value of a header.
    #[error("the header `{0}` with the value `{1}` can't be sent with a content: ask the registry's operator")]
    Header(Text, Text),
    /// No memory was left.
    #[error("out of memory: free some, or give the program more, and try again")]
    Memory,
}

impl From<Memory> for UploadError {
    ghost from_gives = { λ _ e. e ≡ WantsMemory };

    fn from(_memory: Memory) -> UploadError {
        UploadError::Memory
    }
}

impl From<AllocError> for UploadError {
    ghost from_gives = { λ _ e. e ≡ WantsMemory };

    fn from(_error: AllocError) -> UploadError {
        UploadError::Memory
    }
}

impl<T: Drop> From<AllocFailed<T>> for UploadError {
    ghost from_gives = { λ _ e. e ≡ WantsMemory };

    fn from(_error: AllocFailed<T>) -> UploadError {
        UploadError::Memory
    }
}

/// The method that a text names, where it is one by which a content is sent.
fn upload_method(text: &str) -> Option<Method>
    ensures { result ≡ upload_method_of text.now }
{
    if text == "POST" {
        Some(Method::Post)
    } else if text == "PUT" {
        Some(Method::Put)
    } else {
        None
    }
}

/// The name of a header that may be sent with a content.
fn upload_name(name: &str) -> Option<HeaderName>
    ensures name { IfSome result (λ known. (known ≡ name.now) × IsUploadName name.now) }
    ensures none { IfNone result (IsUploadName name.now → ⊥) }
{
    if name == "authorization" {
        Some(HeaderName::from_static("authorization"))
    } else if name == "content-type" {
        Some(HeaderName::from_static("content-type"))
    } else {
        None
    }
}

/// A header that may be sent with a content.
fn upload_header(
    alloc: Global,
    name: &Text,
    value: &Text,
) -> Result<Option<(HeaderName, HeaderValue)>, Memory>
    ensures header { IfOk result (λ h. IfSome h
        (λ h. (h ≡ (name.now, plain_value value.now)) × IsUploadHeader (name.now, value.now))) }
    ensures none { IfOk result (λ h. IfNone h (IsUploadHeader (name.now, value.now) → ⊥)) }
{
    let Some(known) = upload_name(name.as_str()) else {
        return Ok(None);
    };
    match HeaderValue::from_str(alloc, value.as_str()) {
        Ok(value) => Ok(Some((known, value))),
        Err(HeaderValueError::Invalid) => Ok(None),
        Err(HeaderValueError::OutOfMemory) => Err(Memory),
    }
}

/// The headers that are to be sent with a content, in order.
fn upload_headers(
    alloc: Global,
    headers: &IndexMap<Text, Text>,
) -> Result<Sequence<(HeaderName, HeaderValue)>, UploadError>
    ensures headers { IfOk result (λ sent.
        (sent ≡ map (λ h. (h.0, plain_value h.1)) headers.now.entries) × All IsUploadHeader headers.now.entries) }
    ensures err { IfErr result (λ e. (method : List ℕ) → IsUploadFault e method headers.now.entries) }
{
    let mut sent = Sequence::new(alloc);
    for (name, value) in headers {
        match upload_header(alloc, name, value)? {
            Some(header) => sent.push(header)?,
            None => return Err(UploadError::Header(
                name.try_clone(alloc)?,
                value.try_clone(alloc)?,
            )),
        }
    }
    Ok(sent)
}

/// The request by which a content is sent to a URL, by a method and with headers that a registry names.
///
/// A method other than `POST` and `PUT` is `Method`. The first header that is neither `authorization` nor `content-type`,
/// or that has no value of a header (RFC 9110, section 5.5), is `Header`.
pub fn upload_request(
    alloc: Global,
    method: &str,
    url: Text,
    headers: &IndexMap<Text, Text>,
    content: &[u8],
) -> Result<Request, UploadError>
    ensures ok { IfOk result (λ request. (kind : Kind) × (upload_method_of method.now ≡ Some kind)
        × All IsUploadHeader headers.now.entries
        × (request ≡ upload_request_of kind url headers.now.entries content.now)) }
    ensures err { IfErr result (λ e. IsUploadFault e method.now headers.now.entries) }
{
    let Some(kind) = upload_method(method) else {
        return Err(UploadError::Method(Text::copy_of(alloc, method)?));
    };
    Ok(Request {
        method: kind,
        url,
        headers: upload_headers(alloc, headers)?,
        body: Sequence::from_vec(Vec::from_slice(alloc, content)?),
    })
}
