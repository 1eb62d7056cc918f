//! The leaves of a log, and the proofs over it.

ghost use Rattle.std.specs.Prelude.{◌≡◌, ◌⊎◌, ◌++◌, ◌∷◌, [], ◌+◌, ◌*◌, ◌<◌, ◌≤◌, ◌^◌, ℕ, List, length, take, map, IfOk, OnOk, OnErr, Err, MatchOption};
ghost use Rattle.std.specs.List.{All, flat_map};
ghost use Rattle.warg_proof.specs.LogProofs.{LogProofs, log_text};
ghost use Rattle.warg_proof.specs.LogTree.{root as root_of, consistency_ranges};
ghost use Rattle.warg_proof.specs.Merkle.{leaf_hash as leaf_hash_of};
ghost use Rattle.warg_prover.specs.Places.{AreHashesAt, IsPlaceOf};
ghost use Rattle.warg_prover.specs.Asked.{AreHashesOf, ListsInclusions, ListsConsistency, IsInclusionBundle, IsConsistencyBundle, inclusion_in, inclusion_needs, consistency_needs};

use crate::fault::ProverFault;
use crate::needed::{Place, sort_places};
use crate::nodes::{consistency_places, inclusion_places, known_at, nodes_at};
use indexmap::IndexMap;
use std::alloc::Global;
use std::marker::Model;
use warg_hash::AnyHash;
use warg_proof::laws::root_is_that_of_the_hashes;
use warg_proof::{Consistency, Inclusion, LogBundle, Node, hashed_root, leaf_hash};
use warg_values::Memory;

/// The most values of one kind that a bundle can count.
const MOST: usize = 4_294_967_295;

/// The inclusions of entries of a log of a length.
fn inclusions_in(alloc: Global, count: u64, indices: &[u64]) -> Result<Vec<Inclusion>, Memory>
    ensures { IfOk result (λ inclusions. inclusions.items ≡ map (inclusion_in count) indices.now) }
{
    let mut inclusions = Vec::with_capacity(alloc, indices.len())?;
    for index in indices {
        inclusions.push(Inclusion {
            log_length: count,
            index: *index,
        })?;
    }
    Ok(inclusions)
}

/// The hashes of a log's leaves, in the order of its entries: all that proofs over the log are made of.
///
/// A clause sees it as the list of these hashes, 32 bytes each. The hash of each whole node is kept once its last leaf is
/// there, about one for each leaf, so that a proof looks up what it needs.
#[derive(Debug, Drop)]
pub struct LogHashes {
    hashes: Vec<[u8; 32]>,
    /// Those of whole nodes above the leaves. One that there was no memory to keep is computed where it is needed.
    nodes: IndexMap<Place, [u8; 32]>,
}

impl Model for LogHashes {
    ghost use Rattle.std.specs.Prelude.{List, ℕ};
    ghost use Rattle.warg_prover.specs.Places.{AreHashesAt};

    ghost Value = { List (List ℕ) };

    ghost view = { λ log. log.hashes.items };

    ghost invariant = { λ log. AreHashesAt log.hashes.items log.nodes.entries };
}

/// Keeps the hash of a node, which stands a level above `below`, over two whose hashes are known; or it answers `false`.
fn keep_over(
    hashes: &[[u8; 32]],
    nodes: &mut IndexMap<Place, [u8; 32]>,
    below: u8,
    place: u64,
) -> bool
    requires fits { (below < 63) × (2 * place + 1 < 2 ^ 64) }
    requires whole { IsPlaceOf (length hashes.now) (below + 1, place) }
    ensures { AreHashesAt hashes.now nodes.old.entries → AreHashesAt hashes.now nodes.new.entries }
{
    let Some(left) = known_at(hashes, nodes, (below, 2 * place)) else {
        return false;
    };
    let Some(right) = known_at(hashes, nodes, (below, 2 * place + 1)) else {
        return false;
    };
    match nodes.insert((below + 1, place), hashed_root(&[left, right])) {
        Ok(_) => true,
        Err(_memory) => false,
    }
}

/// Keeps the hashes of the nodes that the last leaf makes whole, as far as there is memory.
fn keep_whole(hashes: &[[u8; 32]], nodes: &mut IndexMap<Place, [u8; 32]>)
    ensures { AreHashesAt hashes.now nodes.old.entries → AreHashesAt hashes.now nodes.new.entries }
{
    let mut count = hashes.len() as u64;
    let mut level: u8 = 0;
    while 1 < count && count % 2 == 0 && level < 63 {
        if !keep_over(hashes, nodes, level, count / 2 - 1) {
            return;
        }
        count /= 2;
        level += 1;
    }
}

impl LogHashes {
    /// Those of a log without entries.
    pub fn new(alloc: Global) -> LogHashes
        ensures { result ≡ [] }
    {
        LogHashes {
            hashes: Vec::new(alloc),
            nodes: IndexMap::new(alloc),
        }
    }

    /// Adds an entry at the end of the log.
    pub fn push(&mut self, entry: &[u8]) -> Result<(), Memory>
        ensures ok { OnOk result (self.new ≡ self.old ++ leaf_hash_of entry.now ∷ []) }
        ensures err { OnErr result (self.new ≡ self.old) }
    {
        self.hashes.push(leaf_hash(entry))?;
        keep_whole(&self.hashes, &mut self.nodes);
        Ok(())
    }

    /// How many entries the log has.
    pub fn len(&self) -> usize
        ensures { result ≡ length self.now }
    {
        self.hashes.len()
    }

    /// The hashes of the first leaves, where there are so many.
    fn first(&self, count: usize) -> Option<&[[u8; 32]]>
        ensures { MatchOption result (length self.now < count) (λ hashes. (count ≤ length self.now)
            × (hashes.now ≡ take count self.now)) }
    {
        self.hashes.get(..count)
    }

    /// The root of the first entries of the log (RFC 6962, section 2.1), where it has so many.
    pub fn root(&self, count: usize) -> Option<AnyHash>
        ensures { MatchOption result (length self.now < count) (λ root. (count ≤ length self.now)
            × ((entries : List (List ℕ)) → AreHashesOf entries self.now → root ≡ root_of (take count entries))) }
    {
        root_is_that_of_the_hashes();
        let hashes = self.first(count)?;
        Some(AnyHash::from_digest(hashed_root(hashes)))
    }

    /// The nodes that the inclusions of the entries at these indices of the log's first `count` entries need, in order,
    /// each once.
    ///
    /// Each node is looked up.
    pub fn inclusion_nodes(
        &self,
        alloc: Global,
        count: usize,
        indices: &[u64],
    ) -> Result<Vec<Node>, ProverFault>
        ensures nodes { IfOk result (λ nodes. (entries : List (List ℕ)) → AreHashesOf entries self.now
            → ListsInclusions nodes.items (take count entries) indices.now) }
        ensures there { IfOk result (λ _. (count ≤ length self.now) × All (λ index. index < count) indices.now) }
        ensures few { IfOk result (λ nodes.
            length nodes.items ≤ length (flat_map (inclusion_needs count) indices.now)) }
        ensures too_short { (result ≡ Err ProverFault.LogTooShort) → length self.now < count }
        ensures no_such_proof { (result ≡ Err ProverFault.NoSuchProof) → ¬ All (λ index. index < count) indices.now }
        ensures not_too_large { (result ≡ Err ProverFault.TooLarge) → ⊥ }
    {
        root_is_that_of_the_hashes();
        if self.hashes.len() < count {
            return Err(ProverFault::LogTooShort);
        }
        let mut places = inclusion_places(alloc, count as u64, indices)?;
        sort_places(&mut places);
        Ok(nodes_at(alloc, &self.hashes, &self.nodes, places.as_slice())?)
    }

    /// The nodes that the consistency of an old length with a new one needs, in order.
    pub fn consistency_nodes(
        &self,
        alloc: Global,
        old: usize,
        new: usize,
    ) -> Result<Vec<Node>, ProverFault>
        ensures nodes { IfOk result (λ nodes. (entries : List (List ℕ)) → AreHashesOf entries self.now
            → ListsConsistency nodes.items (take new entries) old) }
        ensures there { IfOk result (λ _. (0 < old) × (old ≤ new) × (new ≤ length self.now)) }
        ensures few { IfOk result (λ nodes. length nodes.items ≤ length (consistency_needs old new)) }
        ensures too_short { (result ≡ Err ProverFault.LogTooShort) → length self.now < new }
        ensures no_such_proof { (result ≡ Err ProverFault.NoSuchProof) → ¬ ((0 < old) × (old ≤ new)) }
        ensures not_too_large { (result ≡ Err ProverFault.TooLarge) → ⊥ }
    {
        root_is_that_of_the_hashes();
        if self.hashes.len() < new {
            return Err(ProverFault::LogTooShort);
        }
        if old == 0 || new < old {
            return Err(ProverFault::NoSuchProof);
        }
        let mut places = consistency_places(alloc, old as u64, new as u64)?;
        sort_places(&mut places);
        Ok(nodes_at(alloc, &self.hashes, &self.nodes, places.as_slice())?)
    }

    /// The bytes of a bundle of the inclusions of the entries at these indices of the log's first `count` entries,
    /// with just the nodes that they need, which `LogBundle::decode` reads.
    pub fn inclusion_bundle(
        &self,
        alloc: Global,
        count: usize,
        indices: &[u64],
    ) -> Result<Vec<u8>, ProverFault>
        ensures bundle { IfOk result (λ bytes. (proofs : LogProofs) × (bytes.items ≡ log_text proofs)
            × ((entries : List (List ℕ)) → AreHashesOf entries self.now
            → IsInclusionBundle proofs (take count entries) indices.now)) }
        ensures there { IfOk result (λ _. (count ≤ length self.now) × All (λ index. index < count) indices.now) }
        ensures too_short { (result ≡ Err ProverFault.LogTooShort) → length self.now < count }
        ensures no_such_proof { (result ≡ Err ProverFault.NoSuchProof) → ¬ All (λ index. index < count) indices.now }
        ensures too_large { (result ≡ Err ProverFault.TooLarge) → (2 ^ 32 ≤ length indices.now)
            ⊎ (2 ^ 32 ≤ length (flat_map (inclusion_needs count) indices.now)) }
    {
        let nodes = self.inclusion_nodes(alloc, count, indices)?;
        if MOST < indices.len() || MOST < nodes.len() {
            return Err(ProverFault::TooLarge);
        }
        let inclusions = inclusions_in(alloc, count as u64, indices)?;
        Ok(LogBundle::write(alloc, nodes.as_slice(), &[], inclusions.as_slice())?)
    }

    /// The bytes of a bundle of the consistency of an old length with a new one, with just the nodes that it needs,
    /// which `LogBundle::decode` reads.
    pub fn consistency_bundle(
        &self,
        alloc: Global,
        old: usize,
        new: usize,
    ) -> Result<Vec<u8>, ProverFault>
        ensures bundle { IfOk result (λ bytes. (proofs : LogProofs) × (bytes.items ≡ log_text proofs)
            × ((entries : List (List ℕ)) → AreHashesOf entries self.now
            → IsConsistencyBundle proofs (take new entries) old)) }
        ensures there { IfOk result (λ _. (0 < old) × (old ≤ new) × (new ≤ length self.now)) }
        ensures too_short { (result ≡ Err ProverFault.LogTooShort) → length self.now < new }
        ensures no_such_proof { (result ≡ Err ProverFault.NoSuchProof) → ¬ ((0 < old) × (old ≤ new)) }
        ensures too_large { (result ≡ Err ProverFault.TooLarge) → 2 ^ 32 ≤ length (consistency_needs old new) }
    {
        let nodes = self.consistency_nodes(alloc, old, new)?;
        if MOST < nodes.len() {
            return Err(ProverFault::TooLarge);
        }
        let consistency = Consistency {
            old_length: old as u64,
            new_length: new as u64,
        };
        Ok(LogBundle::write(alloc, nodes.as_slice(), &[consistency], &[])?)
    }
}
