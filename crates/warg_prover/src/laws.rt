//! What the bundles prove. Each law is the contract of a function that does nothing itself.

ghost use Rattle.std.specs.Prelude.{◌≡◌, ◌<◌, ◌≤◌, ℕ, List, length, take, Some, slice_get};
ghost use Rattle.warg_proof.specs.LogTree.{root};
ghost use Rattle.warg_proof.specs.LogProofs.{LogProofs, ProvesInclusion, ProvesConsistency};
ghost use Rattle.warg_proof.specs.MapProofs.{MapPath, ProvesValue, log_key};
ghost use Rattle.warg_proof.specs.MapTree.{Entries, IsMap, map_root, value_at};
ghost use Rattle.warg_prover.specs.Maps.{IsMapBundleOf};
ghost use Rattle.warg_prover.specs.Asked.{IsInclusionBundle, IsConsistencyBundle};

use warg_proof::laws::{listed_consistency, listed_inclusion, listed_value};

/// A bundle for the inclusions of some entries of a log proves each of them against the log's root.
pub fn inclusion_bundles_prove()
    ensures { (proofs : LogProofs) (entries : List (List ℕ)) (indices : List ℕ) (at index : ℕ) (entry : List ℕ)
        → IsInclusionBundle proofs entries indices
        → slice_get indices at ≡ Some index → slice_get entries index ≡ Some entry
        → ProvesInclusion proofs at (length entries) index entry (root entries) }
{
    listed_inclusion();
}

/// A bundle for the consistency of an old length of a log proves it against the two roots.
pub fn consistency_bundles_prove()
    ensures { (proofs : LogProofs) (entries : List (List ℕ)) (old : ℕ)
        → IsConsistencyBundle proofs entries old → 0 < old → old ≤ length entries
        → ProvesConsistency proofs old (length entries) (root (take old entries)) (root entries) }
{
    listed_consistency();
}

/// A bundle for some logs of a map proves the value of each of them against the map's root.
pub fn map_bundles_prove()
    ensures { (paths : List MapPath) (m : Entries) (logs : List (List ℕ)) (at : ℕ) (log value : List ℕ)
        → IsMapBundleOf paths m logs → IsMap m
        → slice_get logs at ≡ Some log → value_at m (log_key log) ≡ Some value
        → ProvesValue paths at log value (map_root m) }
{
    listed_value();
}
