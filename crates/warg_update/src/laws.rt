//! Laws over definitions alone.

ghost use Rattle.std.specs.Prelude.{◌≡◌, ◌++◌, ◌∷◌, [], ℕ, Bool, true, false, List, Option, Some, Ok, length, Contains};
ghost use Rattle.sha2.specs.Sha256.{sha256};
ghost use Rattle.warg_log.specs.Rules.{Accepts};
ghost use Rattle.warg_exchange.specs.declared.exchange.Exchange.{Exchange};
ghost use Rattle.warg_exchange.specs.declared.exchange.Request.{Request as Sent};
ghost use Rattle.warg_exchange.specs.declared.exchange.Reply.{Reply as Answer};
ghost use Rattle.warg_exchange.specs.declared.checkpoint.Checkpoint.{Checkpoint as Contents};
ghost use Rattle.warg_exchange.specs.declared.checkpoint.SignedCheckpoint.{SignedCheckpoint as Signed};
ghost use Rattle.warg_exchange.specs.declared.proof.InclusionResponse.{InclusionResponse as Bundles};
ghost use Rattle.warg_exchange.specs.declared.proof.ConsistencyResponse.{ConsistencyResponse as Bundle};
ghost use Rattle.warg_exchange.specs.Replies.{says, checkpoint_in, page_in, bundles_in, proof_in};
ghost use Rattle.warg_exchange.specs.Views.{Page};
ghost use Rattle.warg_hint.specs.declared.settings.HintSettings.{HintSettings as Hints};
ghost use Rattle.warg_verify.specs.Shown.{Includes, Continues};
ghost use Rattle.warg_exchange.specs.Requests.{Asker};
ghost use Rattle.warg_info.specs.Kept.{Kept, last_kept};
ghost use Rattle.warg_page.specs.Logs.{Logs, AreLawful, indices_of, leafs_of, logs_by_id};
ghost use Rattle.warg_proof.specs.Leaves.{log_entry, map_value};
ghost use Rattle.warg_proof.specs.LogTree.{root};
ghost use Rattle.warg_proof.specs.MapProofs.{log_key};
ghost use Rattle.warg_proof.specs.MapTree.{Entries, IsMap, map_root};
ghost use Rattle.warg_proof.specs.Merkle.{AreBytes};
ghost use Rattle.warg_update.specs.Included.{StandsAt, HasValue};
ghost use Rattle.warg_update.specs.Proved.{AsksCheckpoint, Turns, Start, Opens, Shows, Proves, IsSigned, AsksInclusion, AsksConsistency, Succeeds};
ghost use Rattle.warg_update.specs.Standing.{request_at, hints_of, Stands};
ghost use Rattle.warg_update.specs.Succession.{MayFollow};
ghost use Rattle.warg_update.specs.Signature.{IsSignatureFault};
ghost use Rattle.warg_update.specs.NotFound.{IsNoPageFault};
ghost use Rattle.warg_update.specs.Refusals.{IsFaultBehind};
ghost use Rattle.warg_update.specs.FeedFaults.{IsCheckpointFault, IsHeadsFault, IsContinuationFault, IsFeedFault};
ghost use Rattle.warg_update.specs.declared.step.UpdateStep.{UpdateStep as Step};
ghost use Rattle.warg_update.specs.declared.error.UpdateError.{UpdateError as Refusal};
ghost use Rattle.warg_update.specs.declared.signature.SignatureError.{SignatureError as Unsigned};
ghost use Rattle.warg_update.specs.declared.signature.SignatureError.TheVariants.{Memory as SignatureWantsMemory};
ghost use Rattle.warg_update.specs.declared.error.UpdateError.TheVariants.{Memory as WantsMemory};

use warg_page::laws::brought_pages_are_taken;
use warg_proof::laws::{inclusion, leaves_are_bytes, map_inclusion};

/// The exchanges of an update come one after the other: the checkpoint's, then each page's, and in the end the inclusion's
/// with what the stored checkpoint asks for.
pub fn exchanges_come_in_turn()
    ensures checkpoint { (a : Asker) (start : Start) (x : Exchange) (c : Signed)
        → AsksCheckpoint a x c → Opens a start (x ∷ []) c start.logs true }
    ensures page { (a : Asker) (start : Start) (xs : List Exchange) (c : Signed) (mid after : Logs) (x : Exchange)
        (more : Bool) → Opens a start xs c mid true → Turns a c.contents.log_length mid x after more
        → Opens a start (xs ++ x ∷ []) c after more }
    ensures inclusion { (accepts : Accepts) (a : Asker) (start : Start) (xs : List Exchange) (c : Signed) (logs : Logs)
        (x : Exchange) (rest : List Exchange)
        → Opens a start xs c logs false → AreLawful accepts logs → IsSigned accepts logs.operator c
        → AsksInclusion a c.contents logs x → Succeeds a start.stored c.contents rest
        → Proves accepts a start (xs ++ x ∷ rest) logs c }
    ensures consistency { (accepts : Accepts) (a : Asker) (start : Start) (xs : List Exchange) (old c : Signed) (logs : Logs)
        (x : Exchange) → Shows a start xs old c logs → AreLawful accepts logs → IsSigned accepts logs.operator c
        → AsksConsistency a old.contents c.contents x → Proves accepts a start (xs ++ x ∷ []) logs c }
{}

/// Exchanges that prove logs are never refused. An update that stands behind the first of them asks what the next one
/// asked, and the next reply has no fault but want of memory.
pub fn proving_exchanges_are_taken()
    ensures asked { (accepts : Accepts) (a : Asker) (start : Start) (before : List Exchange) (x : Exchange)
        (after : List Exchange) (logs : Logs) (c : Signed) (step : Step) (request : Sent)
        → Proves accepts a start (before ++ x ∷ after) logs c → Stands accepts a start step before
        → request_at a step ≡ Some request → request ≡ x.request }
    ensures never_refused { (accepts : Accepts) (a : Asker) (start : Start) (before : List Exchange) (x : Exchange)
        (after : List Exchange) (logs : Logs) (c : Signed) (step : Step) (request : Sent) (said : Bool → Bool)
        (e : Refusal) → Proves accepts a start (before ++ x ∷ after) logs c → Stands accepts a start step before
        → request_at a step ≡ Some request → IsFeedFault e accepts said step x.reply → e ≡ WantsMemory }
{
    brought_pages_are_taken();
}

/// What is proved is included: the last record of each log, the operator's and each package's, stands at its place in
/// any entries of the checkpoint's length and log root, and at its log's key in any map of the checkpoint's map root. Or
/// else two different byte strings of equal SHA-256 are computed, or one whose SHA-256 is 32 zero bytes.
pub fn proved_records_are_included()
    ensures log { (accepts : Accepts) (a : Asker) (start : Start) (xs : List Exchange) (logs : Logs) (c : Signed)
        (entries : List (List ℕ)) (l : List ℕ × List Kept) (k : Kept) → Proves accepts a start xs logs c
        → Contains (logs_by_id logs) l → last_kept l.1 ≡ Some k → AreBytes entries
        → length entries ≡ c.contents.log_length → root entries ≡ c.contents.log_root
        → StandsAt entries k.registry_index (log_entry l.0 (sha256 k.signed.contents)) }
    ensures map { (accepts : Accepts) (a : Asker) (start : Start) (xs : List Exchange) (logs : Logs) (c : Signed)
        (m : Entries) (l : List ℕ × List Kept) (k : Kept) → Proves accepts a start xs logs c
        → Contains (logs_by_id logs) l → last_kept l.1 ≡ Some k → IsMap m → map_root m ≡ c.contents.map_root
        → HasValue m (log_key l.0) (map_value (sha256 k.signed.contents)) }
{
    inclusion();
    map_inclusion();
    leaves_are_bytes();
}

/// A reply that is refused has a fault by the exchanges before it. A reply that gives what is asked has none but want
/// of memory: a checkpoint; a page, but for faults of the page itself; bundles that show the last records, where the
/// checkpoint may follow the stored one; a bundle that shows the consistency.
pub fn refusals_are_of_what_came()
    ensures behind { (accepts : Accepts) (a : Asker) (start : Start) (xs : List Exchange) (step : Step) (request : Sent)
        (said : Bool → Bool) (reply : Answer) (e : Refusal) → Stands accepts a start step xs
        → request_at a step ≡ Some request → IsFeedFault e accepts said step reply
        → IsFaultBehind e accepts (hints_of step) said a start xs reply }
    ensures checkpoint { (reply : Answer) (c : Signed) (e : Refusal)
        → says checkpoint_in reply ≡ Ok c → IsCheckpointFault e reply → e ≡ WantsMemory }
    ensures page { (settings : Hints) (said : Bool → Bool) (packages : List (List ℕ × List Kept)) (reply : Answer)
        (page : Page) (e : Refusal) → says page_in reply ≡ Ok page
        → IsNoPageFault e settings said packages reply → e ≡ WantsMemory }
    ensures signature { (accepts : Accepts) (operator : List Kept) (c : Signed) (e : Unsigned)
        → IsSigned accepts operator c → IsSignatureFault e accepts operator c → e ≡ SignatureWantsMemory }
    ensures inclusion { (c : Contents) (logs : Logs) (stored : Option Signed) (reply : Answer) (bundles : Bundles)
        (e : Refusal) → says bundles_in reply ≡ Ok bundles → Includes c (indices_of logs) (leafs_of logs) bundles
        → MayFollow stored c → IsHeadsFault e logs c stored reply → e ≡ WantsMemory }
    ensures consistency { (old new : Contents) (reply : Answer) (shown : Bundle) (e : Refusal)
        → says proof_in reply ≡ Ok shown
        → Continues old.log_length new.log_length old.log_root new.log_root shown.proof
        → IsContinuationFault e old new reply → e ≡ WantsMemory }
{}
