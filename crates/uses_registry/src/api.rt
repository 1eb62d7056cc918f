//! Callers of `warg_api`.

ghost use Rattle.std.specs.Prelude.{◌≡◌, IfOk, Ok, None};
ghost use Rattle.warg_exchange.specs.declared.checkpoint.SignedCheckpoint.{SignedCheckpoint as Signed};
ghost use Rattle.warg_exchange.specs.Replies.{checkpoint_in, says};
ghost use Rattle.warg_exchange.specs.Requests.{checkpoint_request};
ghost use Rattle.warg_api.specs.Asking.{asker};
ghost use Rattle.warg_api.specs.Calls.{Asks};

use std::alloc::Global;
use warg_api::{Client, ClientError, Link};

/// How many records a registry has, by its latest checkpoint.
pub fn latest_length<L: Link>(
    alloc: Global,
    client: &Client,
    link: &mut L,
) -> Result<u64, ClientError>
    ensures { IfOk result (λ n. Asks L.Steps (L.told link.old)
        (checkpoint_request (asker client.now None))
        (L.told link.new)
        (λ reply. (c : Signed) × (says checkpoint_in reply ≡ Ok c) × (n ≡ c.contents.log_length))) }
{
    let checkpoint = client.latest_checkpoint(alloc, link, None)?;
    Ok(checkpoint.contents.log_length)
}
