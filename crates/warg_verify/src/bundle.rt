//! Verifying one path of a bundle, and those of all leaves.

ghost use Rattle.std.specs.Prelude.{◌≡◌, ℕ, length, OnOk, IfErr};
ghost use Rattle.warg_proof.specs.declared.leaf.LogLeaf.{LogLeaf as Leaf};
ghost use Rattle.warg_proof.specs.declared.fault.ProofFault.{ProofFault as Fault};
ghost use Rattle.warg_exchange.specs.declared.checkpoint.Checkpoint.{Checkpoint as Shown};
ghost use Rattle.warg_verify.specs.Shown.{EachLeaf, InLog, InMap};
ghost use Rattle.warg_verify.specs.Faults.{IsFirstFault, IsLogPathFault, IsMapPathFault};

use std::alloc::Global;
use warg_exchange::Checkpoint;
use warg_proof::{LogBundle, LogLeaf, MapBundle, MapLeaf, ProofFault};

/// A bundle of paths, which is to show leaves of a checkpoint.
pub trait PathBundle {
    /// The path of a number shows the leaf at an index.
    ghost Shows: { Self → Shown → ℕ → ℕ → Leaf → Type 0 };

    /// Why the path of a number does not show it.
    ghost Fails: { Self → Shown → ℕ → ℕ → Leaf → Fault → Type 0 };

    /// Whether the path of number `at` shows the leaf at an index.
    fn verify_path(
        &self,
        alloc: Global,
        checkpoint: &Checkpoint,
        at: usize,
        index: u64,
        leaf: &LogLeaf,
    ) -> Result<(), ProofFault>
        ensures ok { OnOk result (Shows self.now checkpoint.now at index leaf.now) }
        ensures err { IfErr result (λ fault. Fails self.now checkpoint.now at index leaf.now fault) };
}

impl PathBundle for LogBundle {
    ghost Shows = { InLog };

    ghost Fails = { IsLogPathFault };

    fn verify_path(
        &self,
        alloc: Global,
        checkpoint: &Checkpoint,
        at: usize,
        index: u64,
        leaf: &LogLeaf,
    ) -> Result<(), ProofFault> {
        let entry = leaf.bytes(alloc)?;
        self.inclusion(
            at,
            checkpoint.log_length,
            index,
            entry.as_slice(),
            &checkpoint.log_root,
        )
    }
}

impl PathBundle for MapBundle {
    ghost Shows = { InMap };

    ghost Fails = { IsMapPathFault };

    fn verify_path(
        &self,
        alloc: Global,
        checkpoint: &Checkpoint,
        at: usize,
        _index: u64,
        leaf: &LogLeaf,
    ) -> Result<(), ProofFault> {
        let value = MapLeaf {
            record_id: leaf.record_id,
        };
        let value = value.bytes(alloc)?;
        self.inclusion(at, &leaf.log_id, value.as_slice(), &checkpoint.map_root)
    }
}

/// Whether the paths of a bundle show the leaves at these indices, the first path the first leaf.
pub fn verify_paths<B: PathBundle>(
    alloc: Global,
    bundle: &B,
    checkpoint: &Checkpoint,
    indices: &[u64],
    leafs: &[LogLeaf],
) -> Result<(), ProofFault>
    requires one_index_each { length indices.now ≡ length leafs.now }
    ensures ok { OnOk result (EachLeaf (B.Shows bundle.now checkpoint.now) indices.now leafs.now) }
    ensures err { IfErr result (λ fault. IsFirstFault
        (B.Shows bundle.now checkpoint.now)
        (λ at index leaf. B.Fails bundle.now checkpoint.now at index leaf fault)
        indices.now leafs.now) }
{
    for at in 0..leafs.len() {
        bundle.verify_path(alloc, checkpoint, at, indices[at], &leafs[at])?;
    }
    Ok(())
}
