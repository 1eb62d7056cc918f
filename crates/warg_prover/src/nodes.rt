//! The nodes that proofs list, by the hashes of a log's leaves.

ghost use Rattle.std.specs.Prelude.{◌≡◌, ◌<◌, ◌≤◌, ◌^◌, ℕ, List, length, map, IfOk, IfSome, Err};
ghost use Rattle.std.specs.List.{All, flat_map};
ghost use Rattle.std.specs.List.Sorted.{IsStrictlySortedBy};
ghost use Rattle.warg_proof.specs.TrueProofs.{needed};
ghost use Rattle.warg_proof.specs.LogTree.{inclusion_ranges, consistency_ranges};
ghost use Rattle.warg_prover.specs.Asked.{inclusion_needs, consistency_needs};
ghost use Rattle.warg_prover.specs.Places.{AreHashesAt, IsHashAt, IsPlaceOf, hash_at, node_at as node_of};

use crate::fault::ProverFault;
use crate::needed::{Place, TOP, push_beside, push_joining, size_of};
use indexmap::IndexMap;
use std::alloc::Global;
use warg_proof::laws::ranges_are_found_from_each_level;
use warg_proof::{Node, hashed_root};
use warg_values::Memory;

/// The hash of the node at a place, where it is known: a leaf's, or one that was kept.
pub fn known_at(
    hashes: &[[u8; 32]],
    nodes: &IndexMap<Place, [u8; 32]>,
    at: Place,
) -> Option<[u8; 32]>
    ensures { AreHashesAt hashes.now nodes.now.entries → IfSome result (IsHashAt hashes.now at) }
{
    let (level, place) = at;
    if level == 0 {
        return match hashes.get(place as usize) {
            Some(hash) => Some(*hash),
            None => None,
        };
    }
    match nodes.get(&at) {
        Some(hash) => Some(*hash),
        None => None,
    }
}

/// The hash of the node at a place, by those of the leaves below it.
fn hash_below(hashes: &[[u8; 32]], at: Place) -> [u8; 32]
    requires { IsPlaceOf (length hashes.now) at }
    ensures { result ≡ hash_at hashes.now at }
{
    let (level, place) = at;
    let size = size_of(level);
    let start = place * size;
    let end = start + size;
    hashed_root(&hashes[start as usize..end as usize])
}

/// The node at a place.
fn node_at(hashes: &[[u8; 32]], nodes: &IndexMap<Place, [u8; 32]>, at: Place) -> Node
    requires whole { IsPlaceOf (length hashes.now) at }
    requires known { AreHashesAt hashes.now nodes.now.entries }
    ensures { result ≡ node_of hashes.now at }
{
    let hash = match known_at(hashes, nodes, at) {
        Some(hash) => hash,
        None => hash_below(hashes, at),
    };
    let (level, place) = at;
    Node { level, place, hash }
}

/// The nodes at places, in their order, by the hashes of all leaves and those that were kept.
pub fn nodes_at(
    alloc: Global,
    hashes: &[[u8; 32]],
    nodes: &IndexMap<Place, [u8; 32]>,
    places: &[Place],
) -> Result<Vec<Node>, Memory>
    requires whole { All (IsPlaceOf (length hashes.now)) places.now }
    requires known { AreHashesAt hashes.now nodes.now.entries }
    ensures { IfOk result (λ made. made.items ≡ map (node_of hashes.now) places.now) }
{
    let mut made = Vec::with_capacity(alloc, places.len())?;
    for at in places {
        made.push(node_at(hashes, nodes, *at))?;
    }
    Ok(made)
}

/// The places of the nodes that the inclusions of some entries of a log need.
///
/// `NoSuchProof` where the log has no entry at one of the indices.
pub fn inclusion_places(
    alloc: Global,
    count: u64,
    indices: &[u64],
) -> Result<Vec<Place>, ProverFault>
    ensures places { IfOk result (λ places. places.items ≡ flat_map (inclusion_needs count) indices.now) }
    ensures whole { IfOk result (λ places. All (IsPlaceOf count) places.items) }
    ensures below { IfOk result (λ _. All (λ index. index < count) indices.now) }
    ensures refused { (result ≡ Err ProverFault.NoSuchProof) → ¬ All (λ index. index < count) indices.now }
    ensures err { (result ≡ Err ProverFault.LogTooShort → ⊥) × (result ≡ Err ProverFault.TooLarge → ⊥) }
{
    ranges_are_found_from_each_level();
    let mut places = Vec::new(alloc);
    for index in indices {
        if count <= *index {
            return Err(ProverFault::NoSuchProof);
        }
        push_beside(&mut places, TOP, 0, count, *index)?;
    }
    Ok(places)
}

/// The places of the nodes that a consistency of two lengths needs, of which the old one is at least 1 and at most the
/// new one.
pub fn consistency_places(alloc: Global, old: u64, new: u64) -> Result<Vec<Place>, Memory>
    requires positive { 0 < old }
    requires ordered { old ≤ new }
    ensures places { IfOk result (λ places. places.items ≡ consistency_needs old new) }
    ensures whole { IfOk result (λ places. All (IsPlaceOf new) places.items) }
{
    ranges_are_found_from_each_level();
    let mut places = Vec::new(alloc);
    push_joining(&mut places, TOP, 0, old, new)?;
    Ok(places)
}
