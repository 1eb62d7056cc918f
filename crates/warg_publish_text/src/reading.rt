//! What is to be published, read from a text.

ghost use Rattle.std.specs.Prelude.{◌≡◌, IfOk, IfSome, option_map};
ghost use Rattle.std.specs.List.{AllByRecursion};
ghost use Rattle.std.specs.Result.{result_ok};
ghost use Rattle.serde_json.specs.View.{view};
ghost use Rattle.warg_publish.specs.Publish.{IsPublishableEntry};
ghost use Rattle.warg_publish.specs.Shown.{info_view};
ghost use Rattle.warg_publish_text.specs.PublishText.{publish_in, publish_of};

use crate::stored::StoredInfo;
use serde_json::Value;
use std::alloc::Global;
use warg_json::{BodyError, FromBody, value_in_bytes};
use warg_publish::PublishInfo;
use warg_values::Memory;

/// What a value is, as what is to be published, and none where it is none.
fn info_in(alloc: Global, value: &Value) -> Result<Option<PublishInfo>, Memory>
    ensures found { IfOk result (λ o. option_map info_view o ≡ result_ok (publish_in (view value.now))) }
    ensures publishable { IfOk result (λ o. IfSome o (λ info.
        AllByRecursion IsPublishableEntry (info_view info).entries)) }
{
    match StoredInfo::from_body(alloc, value) {
        Ok(StoredInfo { info }) => Ok(Some(info)),
        Err(BodyError::Memory) => Err(Memory),
        Err(_) => Ok(None),
    }
}

/// What bytes are, as what is to be published, and none where they are none. Each of its entries can be published.
pub fn read_publish(alloc: Global, bytes: &[u8]) -> Result<Option<PublishInfo>, Memory>
    ensures found { IfOk result (λ o. option_map info_view o ≡ publish_of bytes.now) }
    ensures publishable { IfOk result (λ o. IfSome o (λ info.
        AllByRecursion IsPublishableEntry (info_view info).entries)) }
{
    match value_in_bytes(alloc, bytes) {
        Ok(value) => info_in(alloc, &value),
        Err(BodyError::Memory) => Err(Memory),
        Err(_) => Ok(None),
    }
}
