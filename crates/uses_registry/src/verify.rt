//! A caller of `warg_verify`.

ghost use Rattle.std.specs.Prelude.{◌∷◌, [], OnOk};
ghost use Rattle.warg_verify.specs.Shown.{Includes};

use std::alloc::Global;
use warg_exchange::{Checkpoint, InclusionResponse};
use warg_proof::{LogLeaf, ProofFault};
use warg_verify::verify_inclusion;

/// Verifies that a record is at an index of a checkpoint's log, and the last of its log in the checkpoint's map.
pub fn verify_record(
    alloc: Global,
    bundles: &InclusionResponse,
    checkpoint: &Checkpoint,
    index: u64,
    leaf: &LogLeaf,
) -> Result<(), ProofFault>
    ensures { OnOk result (Includes checkpoint.now (index ∷ []) (leaf.now ∷ []) bundles.now) }
{
    verify_inclusion(alloc, bundles, checkpoint, &[index], &[*leaf])
}
