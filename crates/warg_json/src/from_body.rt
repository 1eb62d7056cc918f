//! What is read of a JSON value.

ghost use Rattle.serde_json.specs.Data.{Data};
ghost use Rattle.serde_json.specs.View.{view};
ghost use Rattle.warg_exchange.specs.Body.{Meaning};
ghost use Rattle.warg_json.specs.Answers.{BodyGives};

use crate::error::BodyError;
use serde_json::Value;
use std::alloc::Global;

/// A type of which a value is read of a JSON value.
pub trait FromBody: Drop {
    /// The type of what clauses see of it.
    ghost Plain: { Type 0 };

    /// What clauses see of it.
    ghost plain: { Self → Plain };

    /// What a JSON value means.
    ghost meaning: { Data → Meaning Plain };

    /// Reads a JSON value. An error is the first fault in the order in which the meaning asks.
    fn from_body(alloc: Global, value: &Value) -> Result<Self, BodyError>
        ensures { BodyGives plain result (meaning (view value.now)) };
}
