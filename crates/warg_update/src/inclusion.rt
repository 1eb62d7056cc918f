//! Verifying the inclusion of the last records of logs.

ghost use Rattle.std.specs.Prelude.{OnOk, IfErr};
ghost use Rattle.warg_verify.specs.Shown.{Includes};
ghost use Rattle.warg_verify.specs.Faults.{IsInclusionFault};
ghost use Rattle.warg_page.specs.Logs.{indices_of, leafs_of};
ghost use Rattle.warg_page.specs.Views.{logs_view, AreSound};

use std::alloc::Global;
use warg_exchange::{Checkpoint, InclusionResponse};
use warg_info::{OperatorInfo, PackageInfo};
use warg_page::heads_of;
use warg_proof::ProofFault;
use warg_verify::verify_inclusion;

/// Verifies that the last record of each log is in a checkpoint's log, at its place, and the last of its log in the
/// checkpoint's map. The faults are those of `verify_inclusion`.
pub fn verify_heads(
    alloc: Global,
    bundles: &InclusionResponse,
    checkpoint: &Checkpoint,
    operator: &OperatorInfo,
    packages: &[PackageInfo],
) -> Result<(), ProofFault>
    ensures ok { OnOk result (AreSound operator.now packages.now
        → Includes checkpoint.now (indices_of (logs_view operator.now packages.now))
        (leafs_of (logs_view operator.now packages.now)) bundles.now) }
    ensures err { IfErr result (λ fault. AreSound operator.now packages.now
        → IsInclusionFault checkpoint.now (indices_of (logs_view operator.now packages.now))
        (leafs_of (logs_view operator.now packages.now)) bundles.now fault) }
{
    let Ok(heads) = heads_of(alloc, operator, packages) else {
        return Err(ProofFault::Memory);
    };
    let indices = heads.indices.as_slice();
    let leafs = heads.leafs.as_slice();
    verify_inclusion(alloc, bundles, checkpoint, indices, leafs)
}
