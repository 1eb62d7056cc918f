//! A caller of `warg_recorded`.

ghost use Rattle.std.specs.Prelude.{◌≡◌, List, [], Ok, IfOk};
ghost use Rattle.warg_exchange.specs.declared.exchange.Reply.{Reply as Replied};
ghost use Rattle.warg_recorded.specs.Files.{replies_in};

use std::alloc::Global;
use warg_api::RecordedLink;
use warg_recorded::{FormError, read_replies};

/// A link that gives the replies in a file, in order, whatever is asked.
pub fn replay(alloc: Global, bytes: &[u8]) -> Result<RecordedLink, FormError>
    ensures { IfOk result (λ link. (replies : List Replied) × (replies_in bytes.now ≡ Ok replies)
        × (link ≡ record { left = replies; asked = []; faults = 0 })) }
{
    let replies = read_replies(alloc, bytes)?;
    Ok(RecordedLink::new(alloc, replies))
}
