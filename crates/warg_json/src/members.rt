//! Members of objects.

ghost use Rattle.std.specs.Prelude.{option_map};
ghost use Rattle.serde_json.specs.View.{view};
ghost use Rattle.warg_exchange.specs.Body.{member as member_in, member_as, optional_as};
ghost use Rattle.warg_json.specs.Answers.{BodyGives};

use crate::error::BodyError;
use crate::from_body::FromBody;
use serde_json::Value;
use std::alloc::Global;

/// The member of a name.
pub fn member<'a>(name: &str, value: &'a Value) -> Result<&'a Value, BodyError>
    ensures { BodyGives (λ v. view v.now) result (member_in name.now (view value.now)) }
{
    match value.get(name) {
        Some(found) => Ok(found),
        None => Err(BodyError::Unexpected),
    }
}

/// What a member is read as, which has to be there.
pub fn required<T: FromBody>(alloc: Global, name: &str, value: &Value) -> Result<T, BodyError>
    ensures { BodyGives T.plain result (member_as name.now T.meaning (view value.now)) }
{
    let found = member(name, value)?;
    T::from_body(alloc, found)
}

/// What a member is read as, which may be missing or null.
pub fn optional<T: FromBody>(
    alloc: Global,
    name: &str,
    value: &Value,
) -> Result<Option<T>, BodyError>
    ensures { BodyGives (option_map T.plain) result (optional_as name.now T.meaning (view value.now)) }
{
    match value.get(name) {
        Some(found) => Option::<T>::from_body(alloc, found),
        None => Ok(None),
    }
}
