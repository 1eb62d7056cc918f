//! The hashes of a registry's log and of its map.

ghost use Rattle.std.specs.Prelude.{◌≡◌, ◌≢◌, ◌⊎◌, ◌<◌, ◌≤◌, ◌^◌, ℕ, List, Some, Err, length, map, reverse, IfOk};
ghost use Rattle.std.specs.List.{All, flat_map};
ghost use Rattle.warg_proof.specs.LogTree.{root};
ghost use Rattle.warg_proof.specs.MapTree.{map_root};
ghost use Rattle.warg_prover.specs.Asked.{AreHashesOf, inclusion_needs, consistency_needs};
ghost use Rattle.warg_prover.specs.declared.fault.ProverFault.TheVariants.{LogTooShort, NoSuchProof, TooLarge};
ghost use Rattle.warg_page.specs.Logs.{Logs, indices_of};
ghost use Rattle.warg_ledger.specs.Registry.{Registry, entry_texts};
ghost use Rattle.warg_ledger.specs.Replies.{AreWhole, ShowHeads, ShowsGrowth};
ghost use Rattle.warg_model.specs.Hashes.{AreHashesBelow, log_at};
ghost use Rattle.warg_prover.specs.Maps.{map_of};
ghost use Rattle.warg_proof.specs.Leaves.{entry_hash};

use std::alloc::Global;
use warg_exchange::{ConsistencyResponse, InclusionResponse};
use warg_hash::{AnyHash, LogId};
use warg_proof::LogLeaf;
use warg_prover::{LogHashes, MapHashes, ProverFault};
use warg_values::{Memory, Sequence};

/// The hashes of a registry's log and of its map below a length: all that proofs over it are made of.
#[derive(Debug, Drop)]
pub struct RegistryHashes {
    /// The entries of the registry's log.
    leaves: Vec<LogLeaf>,
    /// The hashes of the log.
    log: LogHashes,
    /// The hashes of the map from logs to their last records.
    map: MapHashes,
}

/// The hashes of a log with these leaves.
fn log_hashes(alloc: Global, leaves: &[LogLeaf]) -> Result<LogHashes, Memory>
    ensures { IfOk result (λ log. log ≡ map entry_hash leaves.now) }
{
    let mut log = LogHashes::new(alloc);
    for leaf in leaves {
        let entry = leaf.bytes(alloc)?;
        log.push(entry.as_slice())?;
    }
    Ok(log)
}

/// The hashes of the map in which each log has the last of these leaves.
fn map_hashes(alloc: Global, leaves: &[LogLeaf]) -> Result<MapHashes, Memory>
    ensures { IfOk result (λ map. map ≡ reverse leaves.now) }
{
    let mut newest_first = Vec::from_slice(alloc, leaves)?;
    newest_first.reverse();
    MapHashes::new(alloc, newest_first.as_slice())
}

impl RegistryHashes {
    /// Those of a registry with these records, in its order.
    pub(crate) fn new(alloc: Global, leaves: Vec<LogLeaf>) -> Result<Self, Memory>
        ensures leaves { IfOk result (λ h. h.leaves.items ≡ leaves.items) }
        ensures log { IfOk result (λ h. h.log ≡ map entry_hash leaves.items) }
        ensures map { IfOk result (λ h. h.map ≡ reverse leaves.items) }
    {
        let log = log_hashes(alloc, leaves.as_slice())?;
        let map = map_hashes(alloc, leaves.as_slice())?;
        Ok(RegistryHashes { leaves, log, map })
    }

    /// The root of the log. There is one.
    pub(crate) fn log_root(&self) -> Option<AnyHash>
        ensures { (entries : List (List ℕ)) → AreHashesOf entries self.now.log
            → result ≡ Some (root entries) }
    {
        self.log.root(self.log.len())
    }

    /// The root of the map.
    pub(crate) fn map_root(&self) -> AnyHash
        ensures { result ≡ map_root (map_of self.now.map) }
    {
        self.map.root()
    }

    /// The proof that the registry's log of the length `new` continues that of the length `old`.
    ///
    /// - `LogTooShort`: the log has fewer than `new` entries.
    /// - `NoSuchProof`: `old` is 0 or past `new`.
    /// - `TooLarge`: the proof needs more hashes than a bundle can count.
    pub fn consistency(
        &self,
        alloc: Global,
        old: usize,
        new: usize,
    ) -> Result<ConsistencyResponse, ProverFault>
        ensures shown { IfOk result (λ shown. (w : Registry) (n : ℕ) → AreHashesBelow w n self.now
            → ShowsGrowth w old new shown.proof) }
        ensures too_short { (result ≡ Err LogTooShort) → (w : Registry) (n : ℕ) → AreHashesBelow w n self.now
            → length (entry_texts w n) < new }
        ensures no_such_proof { (result ≡ Err NoSuchProof) → ¬ ((0 < old) × (old ≤ new)) }
        ensures too_large { (result ≡ Err TooLarge) → 2 ^ 32 ≤ length (consistency_needs old new) }
    {
        let proof = self.log.consistency_bundle(alloc, old, new)?;
        Ok(ConsistencyResponse {
            proof: Sequence::from_vec(proof),
        })
    }

    /// The ids of the logs of the records at these places. `NoSuchProof` where there is no record at one of them.
    fn log_ids(&self, alloc: Global, indices: &[u64]) -> Result<Vec<LogId>, ProverFault>
        ensures ids { IfOk result (λ ids. map (λ id. Some id) ids.items
            ≡ map (log_at self.now.leaves.items) indices.now) }
        ensures no_such_proof { (result ≡ Err NoSuchProof)
            → ¬ All (λ index. index < length self.now.leaves.items) indices.now }
        ensures no_other { (result ≢ Err LogTooShort) × (result ≢ Err TooLarge) }
    {
        let mut ids = Vec::with_capacity(alloc, indices.len())?;
        for index in indices {
            let Some(leaf) = self.leaves.get(*index as usize) else {
                return Err(ProverFault::NoSuchProof);
            };
            ids.push(leaf.log_id)?;
        }
        Ok(ids)
    }

    /// The proofs that the records at these places are in the registry's log, and that the logs of these records stand
    /// in its map with their last records.
    ///
    /// - `NoSuchProof`: there is no record at one of the places.
    /// - `TooLarge`: a bundle would hold more than it can count.
    pub fn inclusion(
        &self,
        alloc: Global,
        indices: &[u64],
    ) -> Result<InclusionResponse, ProverFault>
        ensures shown { IfOk result (λ bundles. (w : Registry) (n : ℕ) (logs : Logs) → AreHashesBelow w n self.now
            → AreWhole w n logs → indices_of logs ≡ indices.now → ShowHeads w n logs bundles) }
        ensures there { IfOk result (λ _. (w : Registry) (n : ℕ) → AreHashesBelow w n self.now
            → All (λ index. index < length (entry_texts w n)) indices.now) }
        ensures no_such_proof { (result ≡ Err NoSuchProof) → (w : Registry) (n : ℕ) → AreHashesBelow w n self.now
            → ¬ All (λ index. index < length (entry_texts w n)) indices.now }
        ensures too_large { (result ≡ Err TooLarge) → (w : Registry) (n : ℕ) → AreHashesBelow w n self.now
            → (2 ^ 32 ≤ length indices.now)
            ⊎ (2 ^ 32 ≤ length (flat_map (inclusion_needs (length (entry_texts w n))) indices.now)) }
        ensures not_too_short { result ≢ Err LogTooShort }
    {
        let logs = self.log_ids(alloc, indices)?;
        let log = self.log.inclusion_bundle(alloc, self.log.len(), indices)?;
        let map = self.map.inclusion_bundle(alloc, logs.as_slice())?;
        Ok(InclusionResponse {
            log: Sequence::from_vec(log),
            map: Sequence::from_vec(map),
        })
    }
}
