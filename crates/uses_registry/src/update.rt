//! A caller of `warg_update`.

ghost use Rattle.std.specs.Prelude.{◌≡◌, ◌++◌, ◌∷◌, [], List, Some, true, OnOk, IfOk, option_copied};
ghost use Rattle.warg_exchange.specs.declared.checkpoint.SignedCheckpoint.{SignedCheckpoint as Signed};
ghost use Rattle.warg_exchange.specs.declared.exchange.Exchange.{Exchange};
ghost use Rattle.warg_exchange.specs.declared.exchange.Request.{Request as Sent};
ghost use Rattle.warg_exchange.specs.Requests.{Asker as Who};
ghost use Rattle.warg_info.specs.Info.{operator_log, IsSoundOperator};
ghost use Rattle.warg_page.specs.Logs.{Logs};
ghost use Rattle.warg_update.specs.Proved.{IsSigned, Start, Proves};
ghost use Rattle.warg_update.specs.Standing.{request_at, Stands};
ghost use Rattle.warg_update.specs.Succession.{StandsTo};

use std::alloc::Global;
use warg_exchange::{Reply, SignedCheckpoint};
use warg_hint::Decide;
use warg_info::OperatorInfo;
use warg_log::Verifier;
use warg_update::{SignatureError, Succession, UpdateError, UpdateStep, check_signature, compare};

/// How a registry's checkpoint stands to the stored one, where a key of its operator signed it.
pub fn believe<V: Verifier>(
    alloc: Global,
    verifier: &V,
    operator: &OperatorInfo,
    stored: Option<&SignedCheckpoint>,
    checkpoint: &SignedCheckpoint,
) -> Result<Succession, SignatureError>
    ensures signed { OnOk result (IsSoundOperator operator.now
        → IsSigned (V.good verifier.now) (operator_log operator.now) checkpoint.now) }
    ensures stands { IfOk result (λ how. StandsTo (option_copied stored.entry) checkpoint.now.contents how) }
{
    check_signature(alloc, verifier, operator, checkpoint)?;
    Ok(compare(stored, &checkpoint.contents))
}

/// Whether a reply is the last that an update waited for: then the exchanges so far, with this one, prove its logs.
pub fn is_last_reply<V: Verifier, D: Decide>(
    alloc: Global,
    verifier: &V,
    decide: &mut D,
    step: &mut UpdateStep,
    reply: &Reply,
) -> Result<bool, UpdateError>
    ensures { IfOk result (λ last. (a : Who) (start : Start) (xs : List Exchange) (request : Sent)
        → request_at a step.old ≡ Some request → Stands (V.good verifier.now) a start step.old xs → last ≡ true
        → (logs : Logs) × (c : Signed) × Proves (V.good verifier.now) a start
        (xs ++ record { request = request; reply = reply.now } ∷ []) logs c) }
{
    step.feed(alloc, verifier, decide, reply)?;
    match step.proved() {
        Some(_) => Ok(true),
        None => Ok(false),
    }
}
