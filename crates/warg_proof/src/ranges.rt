//! The hashes of ranges of a log's entries, from the nodes that a bundle lists.
//!
//! A range is given by a level and a place: it has at most `2 ^ level` entries, from entry `place * 2 ^ level` on. Its
//! split has the parts `2 * place` and `2 * place + 1` of the level below.

ghost use Rattle.std.specs.Prelude.{◌≡◌, ◌-◌, ◌+◌, ◌^◌, ◌<◌, ◌≤◌, true};
ghost use Rattle.warg_proof.specs.LogProofs.{is_ascending, listed as listed_hash, hash_within};
ghost use Rattle.warg_proof.specs.Judging.{root_beside, roots_joining};

use crate::hashing::{branch_hash, leaf_hash};
use crate::node::Node;

/// The level of the whole log, whose length is below `2 ^ 64`.
pub const TOP: u8 = 64;

/// The hash of the node at a place of a level, where it is listed. The nodes are ascending.
fn listed(nodes: &[Node], level: u8, place: u64) -> Option<[u8; 32]>
    requires { is_ascending nodes.now ≡ true }
    ensures { result ≡ listed_hash nodes.now level place }
{
    match nodes.binary_search_by_key(&(level, place), |node| (node.level, node.place)) {
        Ok(at) => Some(nodes[at].hash),
        Err(_) => None,
    }
}

/// Half of the entries that fit a level.
pub fn half_of(level: u8) -> u64
    requires above { 0 < level }
    requires within { level ≤ 64 }
    ensures { result ≡ 2 ^ (level - 1) }
{
    1 << (level - 1)
}

/// The hash of the first entries of a range, at least one, unless a listed node is lacking.
fn hash_of(nodes: &[Node], level: u8, place: u64, count: u64) -> Option<[u8; 32]>
    requires ascending { is_ascending nodes.now ≡ true }
    requires within { level ≤ 64 }
    requires place_within { place < 2 ^ (64 - level) }
    ensures { result ≡ hash_within nodes.now level place count }
{
    if level == 0 {
        return listed(nodes, level, place);
    }
    let half = half_of(level);
    if count <= half {
        return hash_of(nodes, level - 1, 2 * place, count);
    }
    if count - half == half {
        return listed(nodes, level, place);
    }
    let left = hash_of(nodes, level - 1, 2 * place, half)?;
    let right = hash_of(nodes, level - 1, 2 * place + 1, count - half)?;
    Some(branch_hash(&left, &right))
}

/// The root of the first entries of a range, rebuilt from the leaf at an index, unless a node is lacking.
pub fn rebuilt_root(
    nodes: &[Node],
    level: u8,
    place: u64,
    count: u64,
    index: u64,
    leaf: &[u8],
) -> Option<[u8; 32]>
    requires ascending { is_ascending nodes.now ≡ true }
    requires within { level ≤ 64 }
    requires place_within { place < 2 ^ (64 - level) }
    ensures { result ≡ root_beside nodes.now level place count index leaf.now }
{
    if level == 0 {
        return Some(leaf_hash(leaf));
    }
    let half = half_of(level);
    if count <= half {
        return rebuilt_root(nodes, level - 1, 2 * place, count, index, leaf);
    }
    if index < half {
        let right = hash_of(nodes, level - 1, 2 * place + 1, count - half)?;
        let left = rebuilt_root(nodes, level - 1, 2 * place, half, index, leaf)?;
        Some(branch_hash(&left, &right))
    } else {
        let left = hash_of(nodes, level - 1, 2 * place, half)?;
        let right = rebuilt_root(
            nodes,
            level - 1,
            2 * place + 1,
            count - half,
            index - half,
            leaf,
        )?;
        Some(branch_hash(&left, &right))
    }
}

/// The root of the first `old` entries of a range, at least one, and that of its first `new` entries, unless a node is
/// lacking.
pub fn rebuilt_roots(
    nodes: &[Node],
    level: u8,
    place: u64,
    old: u64,
    new: u64,
) -> Option<([u8; 32], [u8; 32])>
    requires ascending { is_ascending nodes.now ≡ true }
    requires within { level ≤ 64 }
    requires place_within { place < 2 ^ (64 - level) }
    requires ordered { old ≤ new }
    ensures { result ≡ roots_joining nodes.now level place old new }
{
    if level == 0 {
        let whole = hash_of(nodes, level, place, new)?;
        return Some((whole, whole));
    }
    let half = half_of(level);
    if new <= half {
        return rebuilt_roots(nodes, level - 1, 2 * place, old, new);
    }
    if old == new {
        let whole = hash_of(nodes, level, place, new)?;
        return Some((whole, whole));
    }
    if half < old {
        let left = hash_of(nodes, level - 1, 2 * place, half)?;
        let right = rebuilt_roots(nodes, level - 1, 2 * place + 1, old - half, new - half)?;
        Some((branch_hash(&left, &right.0), branch_hash(&left, &right.1)))
    } else {
        let right = hash_of(nodes, level - 1, 2 * place + 1, new - half)?;
        let left = rebuilt_roots(nodes, level - 1, 2 * place, old, half)?;
        Some((left.0, branch_hash(&left.1, &right)))
    }
}
