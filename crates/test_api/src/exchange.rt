//! Requests and replies are copied whole.

use http_header::{HeaderName, HeaderValue};
use std::alloc::Global;
use std::test::Fail;
use warg_exchange::{Method, Reply, Request};
use warg_values::{Sequence, Text};

/// A header of each kind of bytes.
fn headers(alloc: Global) -> Result<Sequence<(HeaderName, HeaderValue)>, Fail> {
    let value = HeaderValue::from_str(alloc, "other.test")?;
    let mut headers = Sequence::new(alloc);
    headers.push((HeaderName::from_static("warg-registry"), value))?;
    Ok(headers)
}

/// Some bytes of a body.
fn body(alloc: Global) -> Result<Sequence<u8>, Fail> {
    Ok(Sequence::from_vec(Vec::from_slice(alloc, b"{}")?))
}

/// A request that has each part.
fn request(alloc: Global) -> Result<Request, Fail> {
    Ok(Request {
        method: Method::Post,
        url: Text::copy_of(alloc, "https://home.test/v1/fetch/logs")?,
        headers: headers(alloc)?,
        body: body(alloc)?,
    })
}

#[test]
fn copies_of_requests_are_equal(rt: HostRuntime) -> Result<(), Fail> {
    let request = request(rt.alloc())?;
    let asked = request.try_clone(rt.alloc())?;
    assert!(rt; asked.method == request.method && asked.url == request.url);
    assert!(rt; asked.headers.len() == 1 && asked.body.as_slice() == request.body.as_slice());
    Ok(())
}

/// A reply that has each part.
fn reply(alloc: Global) -> Result<Reply, Fail> {
    Ok(Reply {
        status: 404,
        headers: headers(alloc)?,
        body: body(alloc)?,
    })
}

#[test]
fn copies_of_replies_are_equal(rt: HostRuntime) -> Result<(), Fail> {
    let reply = reply(rt.alloc())?;
    let answered = reply.try_clone(rt.alloc())?;
    assert!(rt; answered.status == 404 && answered.headers.len() == 1);
    assert!(rt; answered.body.as_slice() == reply.body.as_slice());
    Ok(())
}
