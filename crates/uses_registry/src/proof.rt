//! Callers of `warg_proof`.

ghost use Rattle.std.specs.Prelude.{◌≡◌, ◌∷◌, [], List, IfOk, OnOk, bytes_eq, map};
ghost use Rattle.warg_proof.specs.Leaves.{log_entry, leaf_entry};
ghost use Rattle.warg_proof.specs.LogProofs.{LogProofs, IsLogBundle, ProvesInclusion, log_text};
ghost use Rattle.warg_proof.specs.LogTree.{root};

use std::alloc::Global;
use warg_hash::AnyHash;
use warg_proof::laws::root_is_that_of_the_hashes;
use warg_proof::{LogBundle, LogLeaf, ProofFault, hashed_root, leaf_hash, log_root};
use warg_values::Memory;

/// Judges the bytes of a bundle, whose first proof is to show that a record of a log stands at an index of a
/// registry's log of this length and root.
pub fn prove_record(
    alloc: Global,
    bytes: &[u8],
    leaf: &LogLeaf,
    index: u64,
    length: u64,
    root: &AnyHash,
) -> Result<(), ProofFault>
    ensures { OnOk result ((proofs : LogProofs) × IsLogBundle proofs × (bytes.now ≡ log_text proofs)
        × ProvesInclusion proofs 0 length index (log_entry leaf.now.log_id leaf.now.record_id) root.now) }
{
    let proofs = LogBundle::decode(alloc, bytes)?;
    let entry = leaf.bytes(alloc)?;
    proofs.inclusion(0, length, index, &entry, root)
}

/// Whether a hash is the root of a registry's log.
pub fn is_root(alloc: Global, leaves: &[LogLeaf], found: &AnyHash) -> Result<bool, Memory>
    ensures { IfOk result (λ is. is ≡ bytes_eq (root (map leaf_entry leaves.now)) found.now) }
{
    Ok(log_root(alloc, leaves)? == *found)
}

/// Writes the bundle that some bytes are: the very bytes.
pub fn rewritten(alloc: Global, bytes: &[u8]) -> Result<Vec<u8>, ProofFault>
    ensures { IfOk result (λ again. again.items ≡ bytes.now) }
{
    let proofs = LogBundle::decode(alloc, bytes)?;
    Ok(proofs.encode(alloc)?)
}

/// The root of a log of two entries.
pub fn root_of_two(first: &[u8], second: &[u8]) -> AnyHash
    ensures { result ≡ root (first.now ∷ second.now ∷ []) }
{
    root_is_that_of_the_hashes();
    AnyHash::from_digest(hashed_root(&[leaf_hash(first), leaf_hash(second)]))
}
