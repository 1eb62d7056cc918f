//! A registry's configuration at its well-known place.

ghost use Rattle.std.specs.Prelude.{option_map};
ghost use Rattle.serde_json.specs.View.{view};
ghost use Rattle.warg_exchange.specs.Replies.{well_known_in, well_known_says};
ghost use Rattle.warg_json.specs.Answers.{BodyGives};

use crate::error::BodyError;
use crate::members::optional;
use crate::reply::{is_success, value_in_bytes};
use serde_json::Value;
use std::alloc::Global;
use warg_exchange::Reply;
use warg_values::Text;

/// The text of a registry's URL, where a configuration gives one.
#[tactic(auto, unfolding(warg_exchange::specs::Replies::well_known_in))]
fn url_in(alloc: Global, value: &Value) -> Result<Option<Text>, BodyError>
    ensures { BodyGives (option_map (λ url. url)) result (well_known_in (view value.now)) }
{
    match value.as_object() {
        Some(_) => optional(alloc, "wargUrl", value),
        None => Err(BodyError::Unexpected),
    }
}

/// What a reply to the request for a registry's configuration says: the text of the registry's URL, where it gives one.
///
/// A reply that is no success says nothing, and its content type plays no part.
pub fn read_well_known(alloc: Global, reply: &Reply) -> Result<Option<Text>, BodyError>
    ensures { BodyGives (option_map (λ url. url)) result (well_known_says reply.now) }
{
    if !is_success(reply.status) {
        return Ok(None);
    }
    let value = value_in_bytes(alloc, reply.body.as_slice())?;
    url_in(alloc, &value)
}
