//! A caller of `warg_ledger`.

ghost use Rattle.std.specs.Prelude.{◌≡◌, ℕ, List, Some, IfErr};
ghost use Rattle.warg_exchange.specs.declared.checkpoint.SignedCheckpoint.{SignedCheckpoint as Signed};
ghost use Rattle.warg_exchange.specs.declared.exchange.Exchange.{Exchange};
ghost use Rattle.warg_exchange.specs.declared.exchange.Request.{Request as Sent};
ghost use Rattle.warg_exchange.specs.Requests.{Asker as Who};
ghost use Rattle.warg_exchange.specs.Views.{page_view};
ghost use Rattle.warg_hash.specs.Hash.{operator_log_id};
ghost use Rattle.warg_ledger.specs.Honest.{AreHonest, IsHonestNext};
ghost use Rattle.warg_ledger.specs.Registry.{Registry, IsRegistry, IsPageOf, log_below};
ghost use Rattle.warg_log.specs.Rules.{Accepts};
ghost use Rattle.warg_page.specs.Logs.{Logs};
ghost use Rattle.warg_page.specs.Steps.{HaveIds, AreGood, IsGoodOperator};
ghost use Rattle.warg_page.specs.Views.{logs_view};
ghost use Rattle.warg_page.specs.declared.page.PageError.TheVariants.{Memory as WantsMemory};
ghost use Rattle.warg_update.specs.Proved.{Start, Asks, AreAsked, Proves};
ghost use Rattle.warg_update.specs.Standing.{request_at, Stands};
ghost use Rattle.warg_update.specs.declared.error.UpdateError.TheVariants.{Memory as UpdateWantsMemory};

use indexmap::IndexSet;
use std::alloc::Global;
use warg_exchange::{FetchLogsResponse, Reply};
use warg_hash::LogId;
use warg_hint::Decide;
use warg_info::{OperatorInfo, PackageInfo};
use warg_ledger::laws::{honest_pages_are_taken, honest_replies_are_taken, honest_updates_prove};
use warg_log::Verifier;
use warg_page::{PageError, take_page};
use warg_update::{UpdateError, UpdateStep};

/// Takes a page. That of an honest registry is refused for want of memory alone.
pub fn take_honest_page<V: Verifier>(
    alloc: Global,
    verifier: &V,
    ids: &IndexSet<LogId>,
    operator: &mut OperatorInfo,
    packages: &mut Vec<PackageInfo>,
    page: &FetchLogsResponse,
) -> Result<(), PageError>
    ensures { IfErr result (λ e. (w : Registry) (n : ℕ) → HaveIds ids.now.keys packages.old.items
        → IsGoodOperator (V.good verifier.now) operator.old → AreGood (V.good verifier.now) packages.old.items
        → IsRegistry (V.good verifier.now) w
        → IsPageOf w n (logs_view operator.old packages.old.items) (page_view page.now) → e ≡ WantsMemory) }
{
    honest_pages_are_taken();
    take_page(alloc, verifier, ids, operator, packages, page)
}

/// Feeds an update with a reply. That of an honest registry is refused for want of memory alone.
pub fn feed_honest_reply<V: Verifier, D: Decide>(
    alloc: Global,
    verifier: &V,
    decide: &mut D,
    step: &mut UpdateStep,
    reply: &Reply,
) -> Result<(), UpdateError>
    ensures { IfErr result (λ e. (w : Registry) (a : Who) (start : Start) (xs : List Exchange) (request : Sent)
        → IsRegistry (V.good verifier.now) w → AreHonest (V.good verifier.now) w a start xs
        → IsHonestNext (V.good verifier.now) w a start xs reply.now
        → Stands (V.good verifier.now) a start step.old xs → request_at a step.old ≡ Some request
        → e ≡ UpdateWantsMemory) }
{
    honest_replies_are_taken();
    step.feed(alloc, verifier, decide, reply)
}

/// A whole update with an honest registry proves the whole log of its operator.
pub fn operators_are_proved()
    ensures { (accepts : Accepts) (w : Registry) (a : Who) (start : Start) (xs : List Exchange)
        → IsRegistry accepts w → AreAsked a start xs → AreHonest accepts w a start xs
        → ((r : Sent) → Asks a start xs r → ⊥)
        → (logs : Logs) × (c : Signed) × Proves accepts a start xs logs c
        × (logs.operator ≡ log_below w c.contents.log_length operator_log_id) }
{
    honest_updates_prove();
}
