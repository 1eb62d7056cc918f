//! What is to be published, written as a text.

ghost use Rattle.std.specs.Prelude.{◌≡◌, ◌<◌, ◌≤◌, ℕ, Some, None, IfOk, OnOk, length, take};
ghost use Rattle.std.specs.List.{AllByRecursion};
ghost use Rattle.json.specs.Layout.{pretty};
ghost use Rattle.json.specs.Lex.{tokens};
ghost use Rattle.serde_json.specs.Data.{depth};
ghost use Rattle.serde_json.specs.Read.{max_depth};
ghost use Rattle.serde_json.specs.View.{view};
ghost use Rattle.serde_json.specs.Written.{IsInOrder};
ghost use Rattle.warg_exchange.specs.Replies.{json_of};
ghost use Rattle.warg_publish.specs.Publish.{IsPublishableEntry};
ghost use Rattle.warg_publish.specs.Shown.{info_view};
ghost use Rattle.warg_publish_text.specs.PublishText.{publish_of, publish_text};

use crate::values::info_value;
use serde_json::Value;
use std::alloc::Global;
use warg_publish::PublishInfo;
use warg_values::Memory;
use warg_whole_json::laws::a_front_is_read_as_no_object;

/// A value in lines.
fn lines(alloc: Global, value: &Value) -> Result<Vec<u8>, Memory>
    ensures layout { IfOk result (λ text. text.items ≡ pretty (tokens text.items)) }
    ensures order { IfOk result (λ text. IsInOrder text.items (view value.now)) }
    ensures reads { IfOk result (λ text. depth (view value.now) ≤ max_depth
        → json_of text.items ≡ Some (view value.now)) }
{
    Ok(value.to_vec_pretty(alloc)?)
}

/// The text of what is to be published. It reads back where each entry can be published, and no proper front of it is
/// read.
pub fn write_publish(alloc: Global, info: &PublishInfo) -> Result<Vec<u8>, Memory>
    ensures text { IfOk result (λ text. text.items ≡ publish_text (info_view info.now)) }
    ensures whole { OnOk result (AllByRecursion IsPublishableEntry (info_view info.now).entries
        → publish_of (publish_text (info_view info.now)) ≡ Some (info_view info.now)) }
    ensures front { OnOk result ((n : ℕ) → n < length (publish_text (info_view info.now))
        → publish_of (take n (publish_text (info_view info.now))) ≡ None) }
{
    a_front_is_read_as_no_object();
    let value = info_value(alloc, info)?;
    let text = lines(alloc, &value)?;
    Ok(text)
}
