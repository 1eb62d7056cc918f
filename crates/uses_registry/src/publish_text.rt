//! A caller of `warg_publish_text`.

ghost use Rattle.std.specs.Prelude.{◌≡◌, IfOk, Some, option_map};
ghost use Rattle.std.specs.List.{AllByRecursion};
ghost use Rattle.warg_publish.specs.Publish.{IsPublishableEntry};
ghost use Rattle.warg_publish.specs.Shown.{info_view};

use std::alloc::Global;
use warg_publish::PublishInfo;
use warg_publish_text::{read_publish, write_publish};
use warg_values::Memory;

/// What is to be published, written and read again: the same.
pub fn written_and_read(alloc: Global, info: &PublishInfo) -> Result<Option<PublishInfo>, Memory>
    requires { AllByRecursion IsPublishableEntry (info_view info.now).entries }
    ensures { IfOk result (λ o. option_map info_view o ≡ Some (info_view info.now)) }
{
    let text = write_publish(alloc, info)?;
    read_publish(alloc, &text)
}
