//! That honest replies are taken, and what they prove. Each law is the contract of a function that does nothing.

ghost use Rattle.std.specs.Prelude.{◌≡◌, ◌≤◌, ◌++◌, ℕ, Bool, false, List, Some, Contains};
ghost use Rattle.warg_hash.specs.Hash.{operator_log_id, package_log_id};
ghost use Rattle.warg_record.specs.Record.{Kind};
ghost use Rattle.warg_log.specs.Rules.{Accepts};
ghost use Rattle.warg_exchange.specs.declared.logs.PublishedRecord.{PublishedRecord as Published};
ghost use Rattle.warg_info.specs.Faults.{FirstFault};
ghost use Rattle.warg_info.specs.Kept.{Kept, Grows};
ghost use Rattle.warg_info.specs.declared.error.TakeError.{TakeError};
ghost use Rattle.warg_info.specs.declared.error.TakeError.TheVariants.{Memory as TakeWantsMemory};
ghost use Rattle.warg_exchange.specs.declared.exchange.Exchange.{Exchange};
ghost use Rattle.warg_exchange.specs.declared.exchange.Reply.{Reply as Answer};
ghost use Rattle.warg_exchange.specs.declared.exchange.Request.{Request as Sent};
ghost use Rattle.warg_exchange.specs.Requests.{Asker};
ghost use Rattle.warg_exchange.specs.Views.{Page};
ghost use Rattle.warg_page.specs.Logs.{Logs, Brings, LeavesNoneEmpty};
ghost use Rattle.warg_page.specs.PageFaults.{IsPageFault};
ghost use Rattle.warg_page.specs.declared.page.PageError.{PageError};
ghost use Rattle.warg_page.specs.declared.page.PageError.TheVariants.{Memory as PageWantsMemory};
ghost use Rattle.warg_exchange.specs.declared.checkpoint.Checkpoint.{Checkpoint};
ghost use Rattle.warg_exchange.specs.declared.proof.InclusionResponse.{InclusionResponse as Bundles};
ghost use Rattle.warg_page.specs.Logs.{indices_of, leafs_of};
ghost use Rattle.warg_verify.specs.Shown.{Includes, Continues};
ghost use Rattle.warg_ledger.specs.Registry.{Registry, IsLogId, IsRegistry, IsCheckpointOf, log_below, BringsBehind, IsPageOf, Begins};
ghost use Rattle.warg_update.specs.Proved.{Start, Asks, AreAsked};
ghost use Rattle.warg_update.specs.Standing.{request_at, Stands};
ghost use Rattle.warg_update.specs.FeedFaults.{IsFeedFault};
ghost use Rattle.warg_update.specs.declared.step.UpdateStep.{UpdateStep as Step};
ghost use Rattle.warg_update.specs.declared.error.UpdateError.{UpdateError as Refusal};
ghost use Rattle.warg_update.specs.declared.error.UpdateError.TheVariants.{Memory as UpdateWantsMemory};
ghost use Rattle.warg_ledger.specs.Honest.{IsHonestNext, AreHonest, ProveWhole};
ghost use Rattle.warg_ledger.specs.Replies.{AreWhole, ShowHeads, ShowsGrowth};

use warg_info::laws::growth_is_taken;
use warg_log::laws::fronts_are_lawful;
use warg_proof::laws::leaves_are_bytes;
use warg_prover::laws::{consistency_bundles_prove, inclusion_bundles_prove, map_bundles_prove};
use warg_update::laws::{exchanges_come_in_turn, refusals_are_of_what_came};

/// What an honest registry brings of a log, behind a beginning of it, has no fault but want of memory; the log grows by all
/// of it, and where no more is to come it is then the registry's whole log below that length.
pub fn honest_records_are_taken()
    ensures never_refused { (accepts : Accepts) (w : Registry) (kind : Kind) (id : List ℕ) (n : ℕ)
        (before : List Kept) (ps : List Published) (more : Bool) (e : TakeError) (kept : List Kept)
        → IsRegistry accepts w → IsLogId kind id → BringsBehind kind (log_below w n id) before ps more
        → FirstFault e kind accepts before ps kept → e ≡ TakeWantsMemory }
    ensures grows { (w : Registry) (kind : Kind) (id : List ℕ) (n : ℕ)
        (before : List Kept) (ps : List Published) (more : Bool)
        → (b : BringsBehind kind (log_below w n id) before ps more) → Grows kind before ps (before ++ b.next) }
    ensures whole { (w : Registry) (kind : Kind) (id : List ℕ) (n : ℕ)
        (before : List Kept) (ps : List Published) (more : Bool)
        → (b : BringsBehind kind (log_below w n id) before ps more) → more ≡ false
        → before ++ b.next ≡ log_below w n id }
{
    growth_is_taken();
    fronts_are_lawful();
}

/// An honest registry's page has no fault but want of memory, and leaves logs that begin the registry's: the whole of them
/// where no more is to come. None that it lists is without a record.
pub fn honest_pages_are_taken()
    ensures never_refused { (accepts : Accepts) (w : Registry) (n : ℕ) (logs : Logs) (page : Page) (e : PageError)
        → IsRegistry accepts w → IsPageOf w n logs page → IsPageFault e accepts logs page → e ≡ PageWantsMemory }
    ensures operator { (accepts : Accepts) (w : Registry) (n : ℕ) (logs : Logs) (page : Page) (after : Logs)
        → IsRegistry accepts w → IsPageOf w n logs page → Brings logs page after
        → Begins (log_below w n operator_log_id) after.operator page.more }
    ensures packages { (accepts : Accepts) (w : Registry) (n : ℕ) (logs : Logs) (page : Page) (after : Logs)
        (name : List ℕ) (log : List Kept)
        → IsRegistry accepts w → IsPageOf w n logs page → Brings logs page after → Contains after.packages (name, log)
        → Begins (log_below w n (package_log_id name)) log page.more }
    ensures kept { (accepts : Accepts) (w : Registry) (n : ℕ) (logs : Logs) (page : Page) (after : Logs)
        → IsRegistry accepts w → IsPageOf w n logs page → Brings logs page after
        → LeavesNoneEmpty after.packages page.packages }
{
    growth_is_taken();
    fronts_are_lawful();
}

/// An honest registry's bundles show what is asked: that the last records of its whole logs are in its log and its map
/// below a length, and that a longer log of it continues a shorter one.
pub fn honest_bundles_show()
    ensures heads { (accepts : Accepts) (w : Registry) (c : Checkpoint) (logs : Logs) (bundles : Bundles)
        → IsRegistry accepts w → IsCheckpointOf w c → AreWhole w c.log_length logs
        → ShowHeads w c.log_length logs bundles → Includes c (indices_of logs) (leafs_of logs) bundles }
    ensures growth { (w : Registry) (old new : Checkpoint) (bytes : List ℕ)
        → IsCheckpointOf w old → IsCheckpointOf w new → old.log_length ≤ new.log_length
        → ShowsGrowth w old.log_length new.log_length bytes
        → Continues old.log_length new.log_length old.log_root new.log_root bytes }
{
    inclusion_bundles_prove();
    map_bundles_prove();
    consistency_bundles_prove();
    leaves_are_bytes();
}

/// Over an honest registry an update is never refused: behind exchanges of which each reply gives what was asked, such
/// a reply has no fault but want of memory. So each feed of it is `Ok` or want of memory.
pub fn honest_replies_are_taken()
    ensures { (accepts : Accepts) (w : Registry) (a : Asker) (start : Start) (xs : List Exchange) (step : Step)
        (request : Sent) (said : Bool → Bool) (reply : Answer) (e : Refusal)
        → IsRegistry accepts w → AreHonest accepts w a start xs → IsHonestNext accepts w a start xs reply
        → Stands accepts a start step xs → request_at a step ≡ Some request
        → IsFeedFault e accepts said step reply → e ≡ UpdateWantsMemory }
{
    growth_is_taken();
    fronts_are_lawful();
    inclusion_bundles_prove();
    map_bundles_prove();
    consistency_bundles_prove();
    leaves_are_bytes();
    exchanges_come_in_turn();
    refusals_are_of_what_came();
}

/// The exchanges of a whole update with an honest registry prove: where each request is the next after those before it,
/// each reply gives what was asked, and nothing is asked behind them, they prove the registry's whole logs below the
/// length of the checkpoint that came.
pub fn honest_updates_prove()
    ensures { (accepts : Accepts) (w : Registry) (a : Asker) (start : Start) (xs : List Exchange)
        → IsRegistry accepts w → AreAsked a start xs → AreHonest accepts w a start xs
        → ((r : Sent) → Asks a start xs r → ⊥) → ProveWhole accepts w a start xs }
{
    growth_is_taken();
    fronts_are_lawful();
    inclusion_bundles_prove();
    map_bundles_prove();
    consistency_bundles_prove();
    leaves_are_bytes();
    exchanges_come_in_turn();
}
