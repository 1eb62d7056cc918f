//! Requests and replies of HTTP (RFC 9110), as plain values.

ghost use Rattle.std.specs.Prelude.{◌≡◌, IfOk};

use http_header::{HeaderName, HeaderValue};
use std::alloc::Global;
use warg_values::{Memory, Sequence, Text};

/// What a request asks to be done.
#[derive(Clone, Copy, Debug, PartialEq, Eq)]
pub enum Method {
    /// Give what the URL names.
    Get,
    /// Take the body, and answer.
    Post,
    /// Store the body at the URL.
    Put,
}

/// A request to a registry, or for a content.
#[derive(Debug, Drop)]
pub struct Request {
    /// What is asked.
    pub method: Method,
    /// The whole URL.
    pub url: Text,
    /// The headers, in the order in which they are sent.
    pub headers: Sequence<(HeaderName, HeaderValue)>,
    /// The body's bytes, none where no body is sent.
    pub body: Sequence<u8>,
}

/// A reply.
#[derive(Debug, Drop)]
pub struct Reply {
    /// The status code, of which 200 to 299 are successes.
    pub status: u16,
    /// The headers, in order.
    pub headers: Sequence<(HeaderName, HeaderValue)>,
    /// The body's bytes.
    pub body: Sequence<u8>,
}

/// A request with its reply.
#[derive(Debug, Drop)]
pub struct Exchange {
    /// What was asked.
    pub request: Request,
    /// What was answered.
    pub reply: Reply,
}

/// Equal headers of their own.
fn headers_clone(
    alloc: Global,
    headers: &[(HeaderName, HeaderValue)],
) -> Result<Sequence<(HeaderName, HeaderValue)>, Memory>
    ensures { IfOk result (λ copy. copy ≡ headers.now) }
{
    let mut copies = Vec::with_capacity(alloc, headers.len())?;
    for (name, value) in headers {
        copies.push((name.clone()?, value.clone()?))?;
    }
    Ok(Sequence::from_vec(copies))
}

/// Equal bytes of their own.
fn bytes_clone(alloc: Global, bytes: &[u8]) -> Result<Sequence<u8>, Memory>
    ensures { IfOk result (λ copy. copy ≡ bytes.now) }
{
    Ok(Sequence::from_vec(Vec::from_slice(alloc, bytes)?))
}

impl Request {
    /// An equal request of its own.
    pub fn try_clone(&self, alloc: Global) -> Result<Self, Memory>
        ensures { IfOk result (λ copy. copy ≡ self.now) }
    {
        Ok(Request {
            method: self.method,
            url: self.url.try_clone(alloc)?,
            headers: headers_clone(alloc, self.headers.as_slice())?,
            body: bytes_clone(alloc, self.body.as_slice())?,
        })
    }
}

impl Reply {
    /// An equal reply of its own.
    pub fn try_clone(&self, alloc: Global) -> Result<Self, Memory>
        ensures { IfOk result (λ copy. copy ≡ self.now) }
    {
        Ok(Reply {
            status: self.status,
            headers: headers_clone(alloc, self.headers.as_slice())?,
            body: bytes_clone(alloc, self.body.as_slice())?,
        })
    }
}
