//! What an update does with a page.

ghost use Rattle.std.specs.Prelude.{◌≡◌, ◌⊎◌, IfOk, IfErr};
ghost use Rattle.warg_exchange.specs.Views.{page_view};
ghost use Rattle.warg_update.specs.FeedFaults.{IsTurnFault};
ghost use Rattle.warg_update.specs.Stages.{IsTurned};
ghost use Rattle.warg_update.specs.declared.stage.Stage.TheVariants as at;
ghost use Rattle.warg_page.specs.Steps.{HaveIds, AreGood, IsGoodOperator};
ghost use Rattle.warg_page.specs.Views.{logs_view, AreSound};

use crate::error::UpdateError;
use crate::signature::check_signature;
use crate::stage::Stage;
use indexmap::IndexSet;
use std::alloc::Global;
use warg_exchange::{FetchLogsResponse, SignedCheckpoint};
use warg_hash::LogId;
use warg_info::{OperatorInfo, PackageInfo};
use warg_log::Verifier;
use warg_page::{check_listed, check_presence, take_page};

/// Takes a page, and answers the stage behind it.
///
/// Each package that the page lists has to have a record, with the last page each log, and then a key of the operator's
/// log has to have signed the checkpoint.
pub fn turn_page<V: Verifier>(
    alloc: Global,
    verifier: &V,
    ids: &IndexSet<LogId>,
    operator: &mut OperatorInfo,
    packages: &mut Vec<PackageInfo>,
    checkpoint: &SignedCheckpoint,
    page: &FetchLogsResponse,
) -> Result<Stage, UpdateError>
    ensures ids { HaveIds ids.now.keys packages.old.items → HaveIds ids.now.keys packages.new.items }
    ensures sound { AreSound operator.old packages.old.items → AreSound operator.new packages.new.items }
    ensures operator { IsGoodOperator (V.good verifier.now) operator.old
        → IsGoodOperator (V.good verifier.now) operator.new }
    ensures packages { AreGood (V.good verifier.now) packages.old.items
        → AreGood (V.good verifier.now) packages.new.items }
    ensures turned { IfOk result (λ next. HaveIds ids.now.keys packages.old.items
        → IsGoodOperator (V.good verifier.now) operator.old
        → AreGood (V.good verifier.now) packages.old.items
        → IsTurned (V.good verifier.now) checkpoint.now (logs_view operator.old packages.old.items) (page_view page.now)
        (logs_view operator.new packages.new.items) next) }
    ensures next { IfOk result (λ next. (next ≡ at.Page) ⊎ (next ≡ at.Inclusion)) }
    ensures fault { IfErr result (λ e. HaveIds ids.now.keys packages.old.items
        → IsGoodOperator (V.good verifier.now) operator.old
        → AreGood (V.good verifier.now) packages.old.items
        → IsTurnFault e (V.good verifier.now) (logs_view operator.old packages.old.items) checkpoint.now
        (page_view page.now)) }
{
    take_page(alloc, verifier, ids, operator, packages, page)?;
    let kept = packages.as_slice();
    if page.more {
        check_listed(alloc, kept, &page.packages)?;
        return Ok(Stage::Page);
    }
    check_presence(alloc, operator, kept)?;
    check_signature(alloc, verifier, operator, checkpoint)?;
    Ok(Stage::Inclusion)
}
