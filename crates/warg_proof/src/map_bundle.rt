//! Bundles of proofs over a map.

ghost use Rattle.std.specs.Prelude.{◌≡◌, ◌≢◌, ◌↔◌, ◌⊎◌, ◌<◌, ◌^◌, List, ℕ, length, map, IfOk, IfErr, IsOk, Err, None, MatchResult, slice_get, if◌then◌else◌};
ghost use Rattle.warg_proof.specs.Merkle.{branch_hash as branch_hash_of};
ghost use Rattle.warg_proof.specs.MapTree.{subtree_path_root};
ghost use Rattle.warg_proof.specs.MapProofs.{MapPath, path_of, map_text, IsMapBundle, given_before, siblings as siblings_of, ProvesValue};
ghost use Rattle.warg_proof.specs.Reading.{GivesOrForm, path_at, map_at, map_rest_at};
ghost use Rattle.warg_proof.specs.Judging.{map_verdict};

use crate::empty_root::empty_root;
use crate::fault::ProofFault;
use crate::hashing::{branch_hash, has_bit, leaf_hash};
use crate::reading::{Field, counted_of, each_of, given_count};
use crate::verdict::judge_root;
use crate::writing::{Written, push_counted, push_each};
use sha2::{Digest, Sha256};
use std::alloc::Global;
use std::marker::Model;
use warg_hash::{AnyHash, LogId};
use warg_values::Memory;

/// The path of a key in a map: its siblings that are given, and at which depths. The others are the roots of empty
/// subtrees.
#[derive(Debug, Drop)]
pub struct SiblingPath {
    /// Bit d, from the highest of the first byte on, says whether the sibling at depth d is given.
    pub given: [u8; 32],
    /// The given siblings, from the root down.
    pub siblings: Vec<[u8; 32]>,
}

impl Field for SiblingPath {
    ghost Seen = { MapPath };

    ghost seen = { λ path. path_of path.given path.siblings.items };

    ghost read_at = { path_at };

    #[tactic(auto, unfolding(crate::specs::Reading::path_at))]
    fn read(alloc: Global, bytes: &[u8]) -> Result<(SiblingPath, &[u8]), ProofFault> {
        let (given, rest) = <[u8; 32]>::read(alloc, bytes)?;
        let (siblings, rest) = each_of::<[u8; 32]>(alloc, given_count(&given), rest)?;
        Ok((SiblingPath { given, siblings }, rest))
    }
}

impl Written for SiblingPath {
    ghost use Rattle.warg_proof.specs.MapProofs.{path_of, path_text};

    ghost text = { λ path. path_text (path_of path.given path.siblings.items) };

    fn push_to(&self, out: &mut Vec<u8>) -> Result<(), Memory> {
        out.extend_from_slice(&self.given)?;
        push_each(out, self.siblings.as_slice())?;
        Ok(())
    }
}

/// A bundle of inclusion proofs over a map of depth 256.
///
/// A clause sees it as the list of its paths.
#[derive(Debug, Drop)]
pub struct MapBundle {
    paths: Vec<SiblingPath>,
}

impl Model for MapBundle {
    ghost use Rattle.std.specs.Prelude.{List, map};
    ghost use Rattle.warg_proof.specs.MapProofs.{MapPath, path_of, IsMapBundle};

    ghost Value = { List MapPath };

    ghost view = { λ b. map (λ path. path_of path.given path.siblings.items) b.paths.items };

    ghost invariant = { λ b. IsMapBundle (map (λ path. path_of path.given path.siblings.items) b.paths.items) };
}

/// The paths of a bundle, read from the bytes after its version.
#[tactic(auto, unfolding(crate::specs::Reading::map_rest_at))]
fn paths_of(alloc: Global, bytes: &[u8]) -> Result<Vec<SiblingPath>, ProofFault>
    ensures { GivesOrForm (λ v. map (λ path. path_of path.given path.siblings.items) v.items)
        result (map_rest_at bytes.now) }
{
    let (paths, rest) = counted_of::<SiblingPath>(alloc, bytes)?;
    if !rest.is_empty() {
        return Err(ProofFault::Form);
    }
    Ok(paths)
}

/// The paths of a bundle, read from all of its bytes.
#[tactic(auto, unfolding(crate::specs::Reading::map_at))]
fn all_of(alloc: Global, bytes: &[u8]) -> Result<Vec<SiblingPath>, ProofFault>
    ensures { GivesOrForm (λ v. map (λ path. path_of path.given path.siblings.items) v.items)
        result (map_at bytes.now) }
{
    match bytes {
        [0, rest @ ..] => paths_of(alloc, rest),
        _ => Err(ProofFault::Form),
    }
}

/// The branch over a root and its sibling, which is to the left where the key leads to the right.
fn branch_beside(is_right: bool, root: &[u8; 32], sibling: &[u8; 32]) -> [u8; 32]
    ensures { result ≡ (if is_right then branch_hash_of sibling.now root.now
        else branch_hash_of root.now sibling.now) }
{
    if is_right {
        branch_hash(sibling, root)
    } else {
        branch_hash(root, sibling)
    }
}

/// The root that a key's value and its siblings give.
fn root_of(given: &[u8; 32], siblings: &[[u8; 32]], key: &[u8; 32], value: &[u8]) -> [u8; 32]
    requires { length siblings.now ≡ given_before 256 given.now }
    ensures { result
        ≡ subtree_path_root key.now value.now (siblings_of (path_of given.now siblings.now)) }
{
    let mut root = leaf_hash(value);
    let mut next = siblings.len();
    for height in 0..256usize {
        let depth = 255 - height;
        let sibling = if has_bit(given, depth) {
            next -= 1;
            siblings[next]
        } else {
            empty_root(height)
        };
        root = branch_beside(has_bit(key, depth), &root, &sibling);
    }
    root
}

impl MapBundle {
    /// The bundle that the bytes are, all of them.
    ///
    /// The bytes are a byte 0, the number of paths in four bytes, highest first, and the paths. A path is 32 bytes of
    /// bits, of which bit d, from the highest of the first byte on, says whether the sibling at depth d is given, and
    /// then the given siblings, 32 bytes each, from the root down. Any other bytes are `Form`.
    pub fn decode(alloc: Global, bytes: &[u8]) -> Result<MapBundle, ProofFault>
        // What is read is a bundle with these bytes.
        ensures found { IfOk result (λ bundle. IsMapBundle bundle × (bytes.now ≡ map_text bundle)) }
        // A bundle with these bytes is read, unless memory runs out.
        ensures only { (bundle : List MapPath) → IsMapBundle bundle → bytes.now ≡ map_text bundle
            → MatchResult result (λ found. found ≡ bundle) (λ fault. fault ≡ ProofFault.Memory) }
        ensures err { IfErr result (λ fault. (fault ≡ ProofFault.Form) ⊎ (fault ≡ ProofFault.Memory)) }
    {
        let paths = all_of(alloc, bytes)?;
        Ok(MapBundle { paths })
    }

    /// The bundle's bytes, which `decode` reads as this bundle.
    pub fn encode(&self, alloc: Global) -> Result<Vec<u8>, Memory>
        ensures { IfOk result (λ bytes. bytes.items ≡ map_text self.now) }
    {
        MapBundle::write(alloc, self.paths.as_slice())
    }

    /// The bytes of a bundle of these paths, which `decode` reads where each has a sibling for each bit that is 1.
    pub fn write(alloc: Global, paths: &[SiblingPath]) -> Result<Vec<u8>, Memory>
        requires { length paths.now < 2 ^ 32 }
        ensures { IfOk result (λ bytes.
            bytes.items ≡ map_text (map (λ path. path_of path.given path.siblings.items) paths.now)) }
    {
        let mut bytes = Vec::new(alloc);
        bytes.push(0)?;
        push_counted(&mut bytes, paths)?;
        Ok(bytes)
    }

    /// How many paths the bundle has.
    pub fn count(&self) -> usize
        ensures count { result ≡ length self.now }
        ensures formed { IsMapBundle self.now }
    {
        self.paths.len()
    }

    /// Whether the bundle's path of number `at` proves that a map with this root has `value` for the log.
    ///
    /// The key of a log is the SHA-256 of its id's bytes. It takes no memory. The first of these faults is answered:
    ///
    /// - `WrongCount`: the bundle has no path of that number.
    /// - `OtherRoot`: the path gives another root.
    pub fn inclusion(
        &self,
        at: usize,
        log_id: &LogId,
        value: &[u8],
        root: &AnyHash,
    ) -> Result<(), ProofFault>
        ensures ok { IsOk result ↔ ProvesValue self.now at log_id.now value.now root.now }
        ensures wrong_count { (result ≡ Err ProofFault.WrongCount) ↔ (slice_get self.now at ≡ None) }
        ensures other_root { (given found : List ℕ) → (result ≡ Err (ProofFault.OtherRoot given found))
            ↔ ((given ≡ root.now) × (found ≢ root.now)
            × ProvesValue self.now at log_id.now value.now found) }
        ensures judged { (result ≢ Err ProofFault.WrongLength) × (result ≢ Err ProofFault.WrongLeaf)
            × (result ≢ Err ProofFault.MissingHash) × (result ≢ Err ProofFault.Form)
            × (result ≢ Err ProofFault.Memory) }
    {
        self.judge_inclusion(at, log_id, value, root)
    }

    fn judge_inclusion(
        &self,
        at: usize,
        log_id: &LogId,
        value: &[u8],
        root: &AnyHash,
    ) -> Result<(), ProofFault>
        ensures verdict { result ≡ map_verdict self.now at log_id.now value.now root.now }
        ensures formed { IsMapBundle self.now }
    {
        let Some(path) = self.paths.get(at) else {
            return Err(ProofFault::WrongCount);
        };
        let key = Sha256::digest(log_id.hash().bytes());
        let found = root_of(&path.given, path.siblings.as_slice(), &key, value);
        judge_root(Some(found), root)
    }
}
