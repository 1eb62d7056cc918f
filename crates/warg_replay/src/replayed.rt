//! A plan, assembled over recorded replies.

ghost use Rattle.std.specs.Prelude.{◌≡◌, IfOk, IfErr};
ghost use Rattle.warg_plan.specs.View.{plan_view};
ghost use Rattle.warg_client.specs.ClientError.TheVariants.{Memory as WantsMemory};
ghost use Rattle.warg_replay.specs.Replay.{IsReplayFault, IsReplayable, IsReplayed, accepts_listed};

use crate::anew::{Assembled, assemble_anew};
use std::alloc::Global;
use warg_api::RecordedLink;
use warg_client::ClientError;
use warg_course::laws::recorded_replies_are_given;
use warg_exchange::Reply;
use warg_log::ListedVerifier;

/// Assembles the component that the plan of a text makes, by a client that has kept nothing and asks recorded replies, in
/// order, whatever it asks.
///
/// Signatures are good that are listed as checked, hints at other registries are followed where that is built, and 10,000
/// pages may be asked for. Replies past the last one asked for are not used, and where they are too few the error is
/// `LinkFault`. Each error is one that `Client::assemble` answers.
pub fn replay(
    alloc: Global,
    text: &str,
    replies: Vec<Reply>,
    checked: ListedVerifier,
) -> Result<Assembled, ClientError>
    ensures replayed { IfOk result (λ made.
        IsReplayed (accepts_listed checked) replies.items text.now (plan_view made.plan) made.lock.left.items
        made.lock.bytes.items made.bytes.items) }
    ensures cause { IfErr result (λ e. IsReplayFault (accepts_listed checked) replies.items e text.now) }
    // Over the replies of a session whose plan can be linked, a component is assembled, or memory runs out.
    ensures complete { IfErr result (λ e. IsReplayable (accepts_listed checked) replies.items text.now
        → e ≡ WantsMemory) }
{
    recorded_replies_are_given();
    match assemble_anew(alloc, text, RecordedLink::new(alloc, replies), checked) {
        Ok(made) => Ok(made),
        Err(error) => Err(error),
    }
}
