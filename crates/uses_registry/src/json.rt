//! A caller of `warg_json`.

ghost use Rattle.serde_json.specs.View.{view};
ghost use Rattle.warg_json.specs.Answers.{BodyGives};
ghost use Rattle.uses_registry.specs.Length.{length_in};

use serde_json::Value;
use std::alloc::Global;
use warg_exchange::SignedCheckpoint;
use warg_json::{BodyError, FromBody};

/// The length of the log that the checkpoint in a JSON value tells, in records.
pub fn log_length(alloc: Global, value: &Value) -> Result<u64, BodyError>
    ensures { BodyGives (λ n. n) result (length_in (view value.now)) }
{
    let checkpoint = SignedCheckpoint::from_body(alloc, value)?;
    Ok(checkpoint.contents.log_length)
}
