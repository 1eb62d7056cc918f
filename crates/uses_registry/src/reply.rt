//! A caller of `warg_reply`.

ghost use Rattle.std.specs.Prelude.{◌≡◌, IfOk};

use std::alloc::Global;
use warg_exchange::SignedCheckpoint;
use warg_json::{BodyError, ReplyError, read_reply};
use warg_reply::checkpoint_reply;

/// What a client reads where a registry answers with this checkpoint: this checkpoint.
pub fn answered_checkpoint(
    alloc: Global,
    checkpoint: &SignedCheckpoint,
) -> Result<SignedCheckpoint, ReplyError>
    ensures { IfOk result (λ read. read ≡ checkpoint.now) }
{
    match checkpoint_reply(alloc, checkpoint) {
        Ok(reply) => read_reply(alloc, &reply),
        Err(_) => Err(ReplyError::NoMeaning(BodyError::Memory)),
    }
}
