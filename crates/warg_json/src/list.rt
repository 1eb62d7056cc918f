//! Lists, and values that may be null.

ghost use Rattle.std.specs.Prelude.{List, Option, map, option_map};
ghost use Rattle.serde_json.specs.View.{view, items_view};
ghost use Rattle.warg_exchange.specs.Body.{each_item, list_in, nullable_in};
ghost use Rattle.warg_json.specs.Answers.{BodyGives};

use crate::error::BodyError;
use crate::from_body::FromBody;
use serde_json::Value;
use std::alloc::Global;
use warg_values::Sequence;

/// What each of some values is read as.
fn each_of<T: FromBody>(alloc: Global, values: &[Value]) -> Result<Sequence<T>, BodyError>
    ensures { BodyGives (λ xs. map T.plain xs) result (each_item T.meaning (items_view values.now)) }
{
    let mut items = Sequence::new(alloc);
    for value in values {
        let item = T::from_body(alloc, value)?;
        items.push(item)?;
    }
    Ok(items)
}

impl<T: FromBody> FromBody for Sequence<T> {
    ghost Plain = { List T.Plain };

    ghost plain = { λ xs. map T.plain xs };

    ghost meaning = { list_in T.meaning };

    fn from_body(alloc: Global, value: &Value) -> Result<Sequence<T>, BodyError> {
        match value.as_array() {
            Some(values) => each_of(alloc, values.as_slice()),
            None => Err(BodyError::Unexpected),
        }
    }
}

impl<T: FromBody> FromBody for Option<T> {
    ghost Plain = { Option T.Plain };

    ghost plain = { option_map T.plain };

    ghost meaning = { nullable_in T.meaning };

    fn from_body(alloc: Global, value: &Value) -> Result<Option<T>, BodyError> {
        if value.is_null() {
            return Ok(None);
        }
        let read = T::from_body(alloc, value)?;
        Ok(Some(read))
    }
}
