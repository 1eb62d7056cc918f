//! Callers of `warg_prover`.

ghost use Rattle.std.specs.Prelude.{◌≡◌, ℕ, List, IfOk, Some, length, slice_get, take};
ghost use Rattle.warg_proof.specs.LogProofs.{LogProofs, ProvesConsistency, ProvesInclusion, log_text};
ghost use Rattle.warg_proof.specs.LogTree.{root};
ghost use Rattle.warg_proof.specs.MapProofs.{MapPath, ProvesValue, log_key, map_text};
ghost use Rattle.warg_proof.specs.MapTree.{value_at};
ghost use Rattle.warg_prover.specs.Asked.{AreHashesOf};
ghost use Rattle.warg_prover.specs.Maps.{map_of};

use std::alloc::Global;
use warg_hash::{AnyHash, LogId};
use warg_proof::LogLeaf;
use warg_prover::laws::{consistency_bundles_prove, inclusion_bundles_prove, map_bundles_prove};
use warg_prover::{LogHashes, MapHashes, ProverFault};
use warg_values::Memory;

/// Answers a client that asks for an entry of a log's first `count` entries: with a bundle that proves it.
pub fn entry_proof(
    alloc: Global,
    log: &LogHashes,
    count: usize,
    index: u64,
) -> Result<Vec<u8>, ProverFault>
    ensures { IfOk result (λ bytes. (proofs : LogProofs) × (bytes.items ≡ log_text proofs)
        × ((entries : List (List ℕ)) (entry : List ℕ) → AreHashesOf entries log.now
        → slice_get (take count entries) index ≡ Some entry
        → ProvesInclusion proofs 0 (length (take count entries)) index entry (root (take count entries)))) }
{
    inclusion_bundles_prove();
    Ok(log.inclusion_bundle(alloc, count, &[index])?)
}

/// Answers a client that knows an older length of a log: with a bundle that proves that the log continues it.
pub fn continuation_proof(
    alloc: Global,
    log: &LogHashes,
    old: usize,
) -> Result<Vec<u8>, ProverFault>
    ensures { IfOk result (λ bytes. (proofs : LogProofs) × (bytes.items ≡ log_text proofs)
        × ((entries : List (List ℕ)) → AreHashesOf entries log.now
        → ProvesConsistency proofs old (length entries) (root (take old entries)) (root entries))) }
{
    consistency_bundles_prove();
    log.consistency_bundle(alloc, old, log.len())
}

/// Answers a client that asks for a log's last record: with the root of the map, and a bundle that proves the record
/// against it.
pub fn record_proof(
    alloc: Global,
    map: &MapHashes,
    log_id: &LogId,
) -> Result<(AnyHash, Vec<u8>), ProverFault>
    ensures { IfOk result (λ answer. (paths : List MapPath) × (answer.1.items ≡ map_text paths)
        × ((value : List ℕ) → value_at (map_of map.now) (log_key log_id.now) ≡ Some value
        → ProvesValue paths 0 log_id.now value answer.0)) }
{
    map_bundles_prove();
    let root = map.root();
    let bytes = map.inclusion_bundle(alloc, &[*log_id])?;
    Ok((root, bytes))
}

/// The hashes of the map of a registry with these logs, and how many they are.
pub fn map_hashes(alloc: Global, leaves: &[LogLeaf]) -> Result<(MapHashes, usize), Memory>
    ensures { IfOk result (λ made. (made.0 ≡ leaves.now) × (made.1 ≡ length leaves.now)) }
{
    let map = MapHashes::new(alloc, leaves)?;
    let count = map.leaves().len();
    Ok((map, count))
}
