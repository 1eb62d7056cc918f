//! That replies determine an update, over any link that gives them. Each law is the contract of a function that does
//! nothing.

ghost use Rattle.std.specs.Prelude.{◌≡◌, ◌++◌, ℕ, Bool, true, List};
ghost use Rattle.warg_log.specs.Rules.{Accepts};
ghost use Rattle.warg_exchange.specs.declared.checkpoint.SignedCheckpoint.{SignedCheckpoint as Signed};
ghost use Rattle.warg_exchange.specs.declared.exchange.Exchange.{Exchange};
ghost use Rattle.warg_exchange.specs.declared.exchange.Request.{Request as Sent};
ghost use Rattle.warg_exchange.specs.Requests.{Asker};
ghost use Rattle.warg_api.specs.Download.{Downloads, IsDownloadFault};
ghost use Rattle.warg_api.specs.Link.{Exchanges, Recorded, IsRecordedStep};
ghost use Rattle.warg_api.specs.declared.error.ClientError.{ClientError as Failure};
ghost use Rattle.warg_page.specs.Logs.{Logs};
ghost use Rattle.warg_update.specs.Proved.{Start, Asks, AreAsked, Proves};
ghost use Rattle.warg_session.specs.Recording.{Transcript, IsRecorded};
ghost use Rattle.warg_session.specs.Updating.{IsUpdated, IsUpdateRefusal};
ghost use Rattle.warg_session.specs.declared.error.UpdateRefusal.{UpdateRefusal as Refusal};
ghost use Rattle.warg_course.specs.Replies.{IsFront, AreRepliesOf, GivesReplies};
ghost use Rattle.warg_course.specs.Refusals.{IsUnanswered, IsOwnRefusal, IsOwnFault};

use warg_api::Link;
use warg_page::laws::brought_pages_are_taken;
use warg_update::laws::{
    exchanges_come_in_turn, proving_exchanges_are_taken, refusals_are_of_what_came,
};

/// What an update asks next is determined by the exchanges before.
pub fn exchanges_determine_requests()
    ensures { (a : Asker) (start : Start) (xs : List Exchange) (r q : Sent)
        → Asks a start xs r → Asks a start xs q → r ≡ q }
{
    brought_pages_are_taken();
}

/// Over a link that gives the replies of exchanges that prove logs, the exchanges of an update are the first of these,
/// or all. Behind the first of some exchanges a link that gives the replies of all gives those of the rest; and it
/// gives those of the first.
pub fn given_replies_are_followed<L: Link>()
    ensures front { (accepts : Accepts) (a : Asker) (start : Start) (xs ys : List Exchange) (logs : Logs) (c : Signed)
        (old new : L.Told) → AreAsked a start xs → Proves accepts a start ys logs c → GivesReplies L.Steps old ys
        → Exchanges L.Steps old xs new → IsFront xs ys }
    ensures rest { (xs ys : List Exchange) (old new : L.Told)
        → GivesReplies L.Steps old (xs ++ ys) → Exchanges L.Steps old xs new → GivesReplies L.Steps new ys }
    ensures first { (xs ys : List Exchange) (now : L.Told)
        → GivesReplies L.Steps now (xs ++ ys) → GivesReplies L.Steps now xs }
{
    brought_pages_are_taken();
    exchanges_come_in_turn();
}

/// Exchanges that prove logs are those of an update, each asked for, and behind them nothing is asked.
pub fn proving_exchanges_are_asked()
    ensures asked { (accepts : Accepts) (a : Asker) (start : Start) (xs : List Exchange) (logs : Logs) (c : Signed)
        → Proves accepts a start xs logs c → AreAsked a start xs }
    ensures over { (accepts : Accepts) (a : Asker) (start : Start) (xs : List Exchange) (logs : Logs) (c : Signed)
        (r : Sent) → Proves accepts a start xs logs c → Asks a start xs r → ⊥ }
{
    brought_pages_are_taken();
    exchanges_come_in_turn();
}

/// What exchanges prove is one: the logs, and the checkpoint.
pub fn proved_logs_are_one()
    ensures { (accepts : Accepts) (a : Asker) (start : Start) (xs : List Exchange) (logs other : Logs) (c d : Signed)
        → Proves accepts a start xs logs c → Proves accepts a start xs other d → (logs ≡ other) × (c ≡ d) }
{
    brought_pages_are_taken();
}

/// Over a link that gives the replies of exchanges that prove logs, an update proves just these logs, by just these
/// exchanges. Or it is refused for want of memory, or for what is no reply's fault: two packages with one log, what no
/// header can hold, a limit below the pages among these exchanges, or no reply of the link to the next of them.
pub fn proving_replies_are_taken<L: Link>()
    ensures refused { (accepts : Accepts) (a : Asker) (start : Start) (ys : List Exchange) (logs : Logs) (c : Signed)
        (ids : List (List ℕ)) (limit : ℕ) (said : Bool → Bool) (e : Refusal) (begun now : Transcript L.Told)
        → Proves accepts a start ys logs c → GivesReplies L.Steps begun.link ys
        → IsUpdateRefusal e ids accepts said limit a start L.Steps begun now
        → IsOwnRefusal e ids limit a L.Steps ys begun.link now.link }
    ensures proved { (accepts : Accepts) (a : Asker) (start : Start) (ys : List Exchange) (logs other : Logs)
        (c d : Signed) (begun now : Transcript L.Told)
        → Proves accepts a start ys logs c → GivesReplies L.Steps begun.link ys
        → IsUpdated accepts a start L.Steps begun now other d
        → (now.exchanges ≡ begun.exchanges ++ ys) × (other ≡ logs) × (d ≡ c) }
{
    brought_pages_are_taken();
    exchanges_come_in_turn();
    proving_exchanges_are_taken();
    refusals_are_of_what_came();
}

/// Over a link that gives the replies of exchanges that get a content's bytes, a download gives just these bytes, by
/// just these exchanges. Or it gives nothing for want of memory, for what no header can hold, or since the link gave no
/// reply to the next of them: also over a link whose exchanges are kept, where no reply was lost.
pub fn downloading_replies_are_taken<L: Link>()
    ensures refused { (a : Asker) (digest : List ℕ) (ys : List Exchange) (bytes : List ℕ) (e : Failure)
        (old new : L.Told) → Downloads a digest ys bytes → GivesReplies L.Steps old ys
        → IsDownloadFault a digest e L.Steps old new → IsOwnFault e a L.Steps ys old new }
    ensures whole { (a : Asker) (digest : List ℕ) (ys : List Exchange) (bytes : List ℕ) (e : Failure)
        (begun now : Transcript L.Told) → Downloads a digest ys bytes → GivesReplies L.Steps begun.link ys
        → now.is_whole ≡ true → IsDownloadFault a digest e (IsRecorded L.Steps) begun now
        → IsOwnFault e a L.Steps ys begun.link now.link }
    ensures downloaded { (a : Asker) (digest : List ℕ) (xs ys : List Exchange) (other bytes : List ℕ)
        (old new : L.Told) → Downloads a digest ys bytes → GivesReplies L.Steps old ys
        → Exchanges L.Steps old xs new → Downloads a digest xs other → (xs ≡ ys) × (other ≡ bytes) }
{}

/// A link that replies in order, whatever it is asked, gives the replies of exchanges where its first replies are
/// those, and it gives a reply to each of them.
pub fn recorded_replies_are_given()
    ensures given { (xs : List Exchange) (r : Recorded) → AreRepliesOf xs r.left → GivesReplies IsRecordedStep r xs }
    ensures answered { (xs : List Exchange) (old new : Recorded)
        → AreRepliesOf xs old.left → IsUnanswered IsRecordedStep xs old new → ⊥ }
{}
