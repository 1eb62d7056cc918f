//! The replies to requests for proofs.

ghost use Rattle.std.specs.Prelude.{IfOk, IfErr, OnOk, Option, option_copied};
ghost use Rattle.warg_exchange.specs.declared.checkpoint.SignedCheckpoint.{SignedCheckpoint as Signed};
ghost use Rattle.warg_update.specs.FeedFaults.{IsHeadsFault, IsContinuationFault};
ghost use Rattle.warg_update.specs.Stages.{AreShown, FollowsHeads, IsSuccessionFault, IsContinued};
ghost use Rattle.warg_page.specs.Views.{logs_view, AreSound};

use crate::error::UpdateError;
use crate::inclusion::verify_heads;
use crate::stage::Stage;
use crate::succession::{Succession, compare};
use std::alloc::Global;
use warg_api::{consistency_error, inclusion_error, read_consistency, read_inclusion};
use warg_exchange::{Checkpoint, ConsistencyRequest, Reply, SignedCheckpoint};
use warg_info::{OperatorInfo, PackageInfo};
use warg_verify::verify_consistency;

/// Whether a reply shows that the logs' last records are in the checkpoint's log and map.
pub fn show_heads(
    alloc: Global,
    checkpoint: &Checkpoint,
    operator: &OperatorInfo,
    packages: &[PackageInfo],
    reply: &Reply,
) -> Result<(), UpdateError>
    ensures ok { OnOk result (AreSound operator.now packages.now
        → AreShown checkpoint.now (logs_view operator.now packages.now) reply.now) }
    ensures err { IfErr result (λ e. AreSound operator.now packages.now → (stored : Option Signed)
        → IsHeadsFault e (logs_view operator.now packages.now) checkpoint.now stored reply.now) }
{
    let bundles = read_inclusion(alloc, reply)?;
    match verify_heads(alloc, &bundles, checkpoint, operator, packages) {
        Ok(()) => Ok(()),
        Err(fault) => Err(UpdateError::from(inclusion_error(fault))),
    }
}

/// The stage behind the inclusion, by how the checkpoint stands to the stored one.
pub fn stage_after(
    stored: Option<&SignedCheckpoint>,
    checkpoint: &Checkpoint,
) -> Result<Stage, UpdateError>
    ensures ok { IfOk result (λ next. FollowsHeads (option_copied stored.entry) checkpoint.now next) }
    ensures err { IfErr result (λ e. IsSuccessionFault e (option_copied stored.entry) checkpoint.now) }
{
    match compare(stored, checkpoint) {
        Succession::Settled => Ok(Stage::Proved),
        Succession::Longer { from } => Ok(Stage::Consistency { from }),
        Succession::Rewound { from, to } => Err(UpdateError::Rewound { from, to }),
        Succession::Changed { log_length } => Err(UpdateError::Changed { log_length }),
    }
}

/// Whether a reply shows that the new checkpoint's log continues the old one's.
pub fn show_continuation(
    alloc: Global,
    old: &Checkpoint,
    new: &Checkpoint,
    reply: &Reply,
) -> Result<(), UpdateError>
    ensures ok { OnOk result (IsContinued old.now new.now reply.now) }
    ensures err { IfErr result (λ e. IsContinuationFault e old.now new.now reply.now) }
{
    let shown = read_consistency(alloc, reply)?;
    let lengths = ConsistencyRequest {
        from: old.log_length,
        to: new.log_length,
    };
    match verify_consistency(alloc, &shown, &lengths, &old.log_root, &new.log_root) {
        Ok(()) => Ok(()),
        Err(fault) => Err(UpdateError::from(consistency_error(fault))),
    }
}
