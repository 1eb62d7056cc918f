//! What a proof shows. Each law is the contract of a function that does nothing.

ghost use Rattle.std.specs.Prelude.{◌≡◌, ◌⊎◌, ℕ, ◌+◌, ◌^◌, ◌<◌, ◌≤◌, List, [], ◌∷◌, length, take, drop, map, Some, slice_get, IsSomeAnd};
ghost use Rattle.sha2.specs.Sha256.{sha256};
ghost use Rattle.hex.specs.Hex.{IsBytes};
ghost use Rattle.warg_hash.specs.Hash.{IsDigest};
ghost use Rattle.warg_proof.specs.Leaves.{log_entry, map_value};
ghost use Rattle.warg_proof.specs.Merkle.{AreBytes, AreHashes, IsClash, leaf_hash, branch_hash};
ghost use Rattle.warg_proof.specs.HashedTree.{hashed_root};
ghost use Rattle.warg_proof.specs.LogTree.{root, ranges_beside, inclusion_ranges, path_root, inclusion_clash, ranges_joining, consistency_ranges, two_roots, consistency_clash};
ghost use Rattle.warg_proof.specs.LogProofs.{LogProofs, asked_inclusion, ProvesInclusion, asked_consistency, ProvesConsistency};
ghost use Rattle.warg_proof.specs.MapProofs.{MapPath, IsMapPath, siblings, log_key, ProvesValue};
ghost use Rattle.warg_proof.specs.TrueProofs.{true_path, true_hashes, true_siblings, ListsTruly};
ghost use Rattle.warg_proof.specs.MapTree.{Entries, IsMap, has_bit, value_at, map_root, map_path_root, map_clash, IsMapClash};

/// The root of a list of entries is that of RFC 6962, section 2.1: the hash of no bytes for no entries, the leaf's hash
/// for one, and else the branch over the two parts of a split at the largest power of two below the number of entries.
pub fn root_is_that_of_the_standard()
    ensures none { root [] ≡ sha256 [] }
    ensures one { (entry : List ℕ) → root (entry ∷ []) ≡ leaf_hash entry }
    ensures more { (entries : List (List ℕ)) (k : ℕ)
        → 2 ^ k < length entries → length entries ≤ 2 ^ (k + 1)
        → root entries ≡ branch_hash (root (take (2 ^ k) entries)) (root (drop (2 ^ k) entries)) }
{}

/// The root of entries, of which there are at most `2 ^ 64`, is that by the hashes of their leaves, and a digest.
pub fn root_is_that_of_the_hashes()
    ensures hashes { (entries : List (List ℕ)) → length entries ≤ 2 ^ 64
        → hashed_root (map leaf_hash entries) ≡ root entries }
    ensures digest { (entries : List (List ℕ)) → IsDigest (root entries) }
{}

/// The ranges that a proof needs are found from each level on that has room for the log.
pub fn ranges_are_found_from_each_level()
    ensures inclusion { (level count index : ℕ) → count ≤ 2 ^ level
        → ranges_beside level 0 count index ≡ inclusion_ranges count index }
    ensures consistency { (level old new : ℕ) → new ≤ 2 ^ level
        → ranges_joining level 0 old new ≡ consistency_ranges old new }
{}

/// A path that gives the root of the entries is that of the entry at the index, or else two different byte strings of
/// equal SHA-256 are computed from it.
pub fn inclusion()
    ensures { (entries : List (List ℕ)) (index : ℕ) (leaf : List ℕ) (path : List (List ℕ))
        → AreBytes entries → IsBytes leaf → AreHashes path
        → path_root index (length entries) leaf path ≡ Some (root entries)
        → (slice_get entries index ≡ Some leaf)
        ⊎ IsSomeAnd (inclusion_clash entries index leaf path) IsClash }
{}

/// A consistency proof that gives the root of the entries as its new root has as its old root that of their first
/// entries, as many as the old length, or else two different byte strings of equal SHA-256 are computed from it.
pub fn consistency()
    ensures { (entries : List (List ℕ)) (old : ℕ) (old_root : List ℕ) (hashes : List (List ℕ))
        → AreHashes hashes
        → two_roots old (length entries) hashes ≡ Some (old_root, root entries)
        → (old_root ≡ root (take old entries))
        ⊎ IsSomeAnd (consistency_clash entries old hashes) IsClash }
{}

/// Siblings that give the root of a map for a value are those of the map's value at the key, or else two different byte
/// strings of equal SHA-256 are computed from them, or one byte string whose SHA-256 is 32 zero bytes, the hash of an
/// empty leaf.
pub fn map_inclusion()
    ensures { (map : Entries) (key value : List ℕ) (siblings : List (List ℕ))
        → IsMap map → IsDigest key → IsBytes value → AreHashes siblings
        → map_path_root key value siblings ≡ Some (map_root map)
        → (value_at map key ≡ Some value)
        ⊎ IsSomeAnd (map_clash map key value siblings) IsMapClash }
{}

/// The roots of the ranges beside an entry prove it: a true inclusion proof is never refused.
pub fn true_inclusion()
    ensures { (entries : List (List ℕ)) (index : ℕ) (leaf : List ℕ)
        → slice_get entries index ≡ Some leaf
        → path_root index (length entries) leaf (true_path entries index) ≡ Some (root entries) }
{}

/// The roots of the ranges that join an older log to a newer one prove that it begins the newer one: a true consistency
/// proof is never refused.
pub fn true_consistency()
    ensures { (entries : List (List ℕ)) (old : ℕ) → 0 < old → old ≤ length entries
        → two_roots old (length entries) (true_hashes entries old)
        ≡ Some (root (take old entries), root entries) }
{}

/// The roots of the subtrees beside a key prove its value: a true proof over a map is never refused.
pub fn true_map_inclusion()
    ensures { (map : Entries) (key value : List ℕ)
        → IsMap map → IsDigest key → value_at map key ≡ Some value
        → map_path_root key value (true_siblings map key) ≡ Some (map_root map) }
{}

/// The root of a map depends on the values at its keys alone, and not on the order in which they are listed.
pub fn map_root_is_that_of_the_map()
    ensures { (map other : Entries) → IsMap map → IsMap other
        → ((key : List ℕ) → IsDigest key → value_at map key ≡ value_at other key)
        → map_root map ≡ map_root other }
{}

/// A log bundle that lists the nodes that its inclusion proof needs, each with the root of its entries, proves the
/// entry. `LogBundle::inclusion` is then `Ok`.
pub fn listed_inclusion()
    ensures { (proofs : LogProofs) (at : ℕ) (entries : List (List ℕ)) (index : ℕ) (leaf : List ℕ)
        → asked_inclusion proofs at ≡ Some (record { log_length = length entries; index = index })
        → slice_get entries index ≡ Some leaf
        → ListsTruly proofs.nodes entries (inclusion_ranges (length entries) index)
        → ProvesInclusion proofs at (length entries) index leaf (root entries) }
{}

/// A log bundle that lists the nodes that its consistency proof needs, each with the root of its entries, proves the
/// two roots. `LogBundle::consistency` is then `Ok`.
pub fn listed_consistency()
    ensures { (proofs : LogProofs) (entries : List (List ℕ)) (old : ℕ) → 0 < old → old ≤ length entries
        → asked_consistency proofs ≡ Some (record { old_length = old; new_length = length entries })
        → ListsTruly proofs.nodes entries (consistency_ranges old (length entries))
        → ProvesConsistency proofs old (length entries) (root (take old entries)) (root entries) }
{}

/// An entry of a registry's log tells which log and which record it is, and a value of its map which record.
pub fn leaves_are_told_apart()
    ensures entries { (log_id record_id other_log other_record : List ℕ)
        → IsDigest log_id → IsDigest record_id → IsDigest other_log → IsDigest other_record
        → log_entry log_id record_id ≡ log_entry other_log other_record
        → (log_id ≡ other_log) × (record_id ≡ other_record) }
    ensures values { (record_id other_record : List ℕ) → IsDigest record_id → IsDigest other_record
        → map_value record_id ≡ map_value other_record → record_id ≡ other_record }
{}

/// A map bundle whose path has the true siblings of a log's key proves the log's value. `MapBundle::inclusion` is then
/// `Ok`.
pub fn listed_value()
    ensures { (paths : List MapPath) (at : ℕ) (path : MapPath) (map : Entries) (log_id value : List ℕ)
        → slice_get paths at ≡ Some path → IsMapPath path
        → siblings path ≡ true_siblings map (log_key log_id)
        → IsMap map → value_at map (log_key log_id) ≡ Some value
        → ProvesValue paths at log_id value (map_root map) }
{}

/// Keys of which each bit is the same are the same: a key's way through the tree of a map is its own.
pub fn bits_tell_keys_apart()
    ensures { (key other : List ℕ) → IsDigest key → IsDigest other
        → ((depth : ℕ) → depth < 256 → has_bit key depth ≡ has_bit other depth) → key ≡ other }
{}

/// An entry of a registry's log and a value of its map are byte strings.
pub fn leaves_are_bytes()
    ensures entries { (log_id record_id : List ℕ) → IsBytes (log_entry log_id record_id) }
    ensures values { (record_id : List ℕ) → IsBytes (map_value record_id) }
{}
