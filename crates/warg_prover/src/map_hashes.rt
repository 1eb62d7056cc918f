//! The hashes of a map, and the paths of its keys.

ghost use Rattle.std.specs.Prelude.{◌≡◌, ◌==◌, ◌<◌, ◌≤◌, ◌^◌, [], ℕ, List, None, IsSome, length, map, IfOk, Err, MatchOption};
ghost use Rattle.std.specs.List.{All, list_any};
ghost use Rattle.warg_hash.specs.Hash.{IsDigest};
ghost use Rattle.warg_proof.specs.MapTree.{IsMap, has_bit, map_root, value_at};
ghost use Rattle.warg_proof.specs.MapProofs.{MapPath, IsMapPath, path_of, map_text, siblings, log_key};
ghost use Rattle.warg_proof.specs.TrueProofs.{true_siblings};
ghost use Rattle.warg_prover.specs.Maps.{IsMapBundleOf, map_of};
ghost use Rattle.warg_prover.specs.Subtrees.{IsTreeOf, entries_of, tree_of};

use crate::fault::ProverFault;
use crate::subtree::{HEIGHT, Member, Sibling, Subtree, empty_roots, grow, siblings_beside};
use std::alloc::Global;
use std::marker::Model;
use warg_hash::{AnyHash, LogId};
use warg_proof::laws::{bits_tell_keys_apart, leaves_are_bytes};
use warg_proof::{LogLeaf, MapBundle, SiblingPath};
use warg_values::Memory;

/// The most paths that a bundle can count.
const MOST: usize = 4_294_967_295;

/// The key of a log in the map.
fn key_of(log_id: &LogId) -> [u8; 32]
    ensures value { result ≡ log_key log_id.now }
    ensures form { IsDigest result }
{
    let key = AnyHash::sha256_of(log_id.hash().bytes());
    *key.bytes()
}

/// The members of a map that the last records of logs are.
fn members_of(alloc: Global, leaves: &[LogLeaf]) -> Result<Vec<Member>, Memory>
    ensures entries { IfOk result (λ members. entries_of members.items ≡ map_of leaves.now) }
    ensures formed { IfOk result (λ _. IsMap (map_of leaves.now)) }
{
    leaves_are_bytes();
    let mut members = Vec::with_capacity(alloc, leaves.len())?;
    for leaf in leaves {
        members.push(Member {
            key: key_of(&leaf.log_id),
            record_id: leaf.record_id,
        })?;
    }
    Ok(members)
}

/// The root of the map with these members, and its tree, if it has a key.
fn grown(alloc: Global, members: &[Member]) -> Result<([u8; 32], Option<Subtree>), Memory>
    ensures root { IfOk result (λ grown. grown.0 ≡ map_root (entries_of members.now)) }
    ensures tree { IfOk result (λ grown. MatchOption grown.1 (entries_of members.now ≡ [])
        (λ tree. IsTreeOf 256 (entries_of members.now) (tree_of tree))) }
{
    let empty = empty_roots(alloc)?;
    if members.is_empty() {
        return Ok((empty[HEIGHT], None));
    }
    let (root, tree) = grow(alloc, empty.as_slice(), HEIGHT, members)?;
    Ok((root, Some(tree)))
}

/// The path with these siblings at their depths.
fn path_with(alloc: Global, way: &[Sibling]) -> Result<SiblingPath, Memory>
    ensures given { IfOk result (λ path. (depth : ℕ) → depth < 256
        → has_bit path.given depth ≡ list_any (λ s. s.0 == depth) way.now) }
    ensures siblings { IfOk result (λ path. path.siblings.items ≡ map (λ s. s.1) way.now) }
    ensures formed { IfOk result (λ path. IsDigest path.given × All IsDigest path.siblings.items) }
{
    let mut given = [0u8; 32];
    let mut siblings = Vec::with_capacity(alloc, way.len())?;
    for (depth, sibling) in way {
        let sibling = AnyHash::from_digest(*sibling);
        given[(*depth / 8) as usize] |= 1 << (7 - *depth % 8);
        siblings.push(*sibling.bytes())?;
    }
    Ok(SiblingPath { given, siblings })
}

/// The hashes of a registry's map: its root, and all that the paths of its keys are made of.
///
/// A clause sees it as the list of the leaves that it was made of.
#[derive(Debug, Drop)]
pub struct MapHashes {
    leaves: Vec<LogLeaf>,
    root: [u8; 32],
    tree: Option<Subtree>,
}

impl Model for MapHashes {
    ghost use Rattle.std.specs.Prelude.{List};
    ghost use Rattle.warg_proof.specs.declared.leaf.LogLeaf.{LogLeaf};
    ghost use Rattle.warg_prover.specs.Subtrees.{IsKept};

    ghost Value = { List LogLeaf };

    ghost view = { λ m. m.leaves.items };

    ghost invariant = { λ m. IsKept m.leaves.items m.root m.tree };
}

impl MapHashes {
    /// Those of the map in which the log of each of these leaves has the leaf's record: the last records of logs. Of a
    /// log that stands twice the first one counts.
    ///
    /// It takes at most 256 hashes of branches for each leaf.
    pub fn new(alloc: Global, leaves: &[LogLeaf]) -> Result<MapHashes, Memory>
        ensures { IfOk result (λ hashes. hashes ≡ leaves.now) }
    {
        let members = members_of(alloc, leaves)?;
        let (root, tree) = grown(alloc, members.as_slice())?;
        Ok(MapHashes {
            leaves: Vec::from_slice(alloc, leaves)?,
            root,
            tree,
        })
    }

    /// The leaves that it was made of.
    pub fn leaves(&self) -> &[LogLeaf]
        ensures { result.now ≡ self.now }
    {
        self.leaves.as_slice()
    }

    /// The root of the map.
    pub fn root(&self) -> AnyHash
        ensures value { result ≡ map_root (map_of self.now) }
        ensures formed { IsMap (map_of self.now) }
    {
        AnyHash::from_digest(self.root)
    }

    /// The path of a log, where the map has a value for it: the siblings beside the way from the root to its key, but for
    /// the empty ones.
    pub fn path(&self, alloc: Global, log_id: &LogId) -> Result<Option<SiblingPath>, Memory>
        ensures { IfOk result (λ found. MatchOption found (value_at (map_of self.now) (log_key log_id.now) ≡ None)
            (λ path. IsSome (value_at (map_of self.now) (log_key log_id.now))
            × IsMapPath (path_of path.given path.siblings.items)
            × (siblings (path_of path.given path.siblings.items)
            ≡ true_siblings (map_of self.now) (log_key log_id.now)))) }
    {
        bits_tell_keys_apart();
        let Some(tree) = &self.tree else {
            return Ok(None);
        };
        let key = key_of(log_id);
        let Some(way) = siblings_beside(alloc, tree, &key)? else {
            return Ok(None);
        };
        Ok(Some(path_with(alloc, way.as_slice())?))
    }

    /// The paths of logs, in their order. `NoSuchProof` where the map has no value for one of them.
    fn paths(&self, alloc: Global, logs: &[LogId]) -> Result<Vec<SiblingPath>, ProverFault>
        ensures formed { IfOk result (λ paths.
            All (λ path. IsMapPath (path_of path.given path.siblings.items)) paths.items) }
        ensures truly { IfOk result (λ paths.
            map (λ path. siblings (path_of path.given path.siblings.items)) paths.items
            ≡ map (λ log. true_siblings (map_of self.now) (log_key log)) logs.now) }
        ensures there { IfOk result (λ _.
            All (λ log. IsSome (value_at (map_of self.now) (log_key log))) logs.now) }
        ensures no_such_proof { (result ≡ Err ProverFault.NoSuchProof)
            → ¬ All (λ log. IsSome (value_at (map_of self.now) (log_key log))) logs.now }
        ensures no_other { (result ≡ Err ProverFault.LogTooShort → ⊥) × (result ≡ Err ProverFault.TooLarge → ⊥) }
    {
        let mut paths = Vec::with_capacity(alloc, logs.len())?;
        for log_id in logs {
            let Some(path) = self.path(alloc, log_id)? else {
                return Err(ProverFault::NoSuchProof);
            };
            paths.push(path)?;
        }
        Ok(paths)
    }

    /// The bytes of a bundle of the paths of these logs, in their order, which `MapBundle::decode` reads.
    pub fn inclusion_bundle(&self, alloc: Global, logs: &[LogId]) -> Result<Vec<u8>, ProverFault>
        ensures bundle { IfOk result (λ bytes. (paths : List MapPath) × (bytes.items ≡ map_text paths)
            × IsMapBundleOf paths (map_of self.now) logs.now) }
        ensures there { IfOk result (λ _.
            All (λ log. IsSome (value_at (map_of self.now) (log_key log))) logs.now) }
        ensures no_such_proof { (result ≡ Err ProverFault.NoSuchProof)
            → ¬ All (λ log. IsSome (value_at (map_of self.now) (log_key log))) logs.now }
        ensures too_large { (result ≡ Err ProverFault.TooLarge) → 2 ^ 32 ≤ length logs.now }
        ensures not_too_short { (result ≡ Err ProverFault.LogTooShort) → ⊥ }
    {
        if MOST < logs.len() {
            return Err(ProverFault::TooLarge);
        }
        let paths = self.paths(alloc, logs)?;
        Ok(MapBundle::write(alloc, paths.as_slice())?)
    }
}
