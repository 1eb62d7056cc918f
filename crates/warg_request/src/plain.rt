//! Requests without the headers that say who asks.

ghost use Rattle.std.specs.Prelude.{◌≡◌, IfOk};
ghost use Rattle.url.specs.Parts.{serialize};
ghost use Rattle.warg_exchange.specs.Requests.{plain_get as plain_get_of, well_known_request as well_known_request_of};

use std::alloc::Global;
use warg_exchange::{Method, Request};
use warg_url::RegistryUrl;
use warg_values::{Memory, Sequence, Text};

/// The request for what a URL names, without headers.
pub fn plain_get(alloc: Global, url: &str) -> Result<Request, Memory>
    ensures { IfOk result (λ r. r ≡ plain_get_of url.now) }
{
    Ok(Request {
        method: Method::Get,
        url: Text::copy_of(alloc, url)?,
        headers: Sequence::new(alloc),
        body: Sequence::new(alloc),
    })
}

/// The request for the configuration of the registry at a URL, at its well-known place (RFC 8615).
pub fn well_known_request(alloc: Global, url: &RegistryUrl) -> Result<Request, Memory>
    ensures { IfOk result (λ r. r ≡ well_known_request_of (serialize url.now)) }
{
    let mut text = String::from_str(alloc, url.as_str())?;
    text.push_str(".well-known/warg/registry.json")?;
    plain_get(alloc, &text)
}
