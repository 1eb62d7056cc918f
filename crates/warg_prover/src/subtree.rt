//! The tree of a map, without the parts in which no key lies.

ghost use Rattle.std.specs.Prelude.{◌≡◌, ◌≢◌, ◌<◌, ◌≤◌, length, IfOk, MatchOption};
ghost use Rattle.warg_proof.specs.Leaves.{map_value};
ghost use Rattle.warg_proof.specs.MapTree.{left_of, right_of, subtree_root};
ghost use Rattle.warg_proof.specs.Merkle.{leaf_hash as leaf_hash_of};
ghost use Rattle.warg_prover.specs.Subtrees.{AreEmptyRoots, IsTreeOf, Only, entries_of, end_of, tree_of, way_of};

use std::alloc::Global;
use warg_hash::RecordId;
use warg_proof::{MapLeaf, branch_hash, has_bit, leaf_hash};
use warg_values::Memory;

/// The height of the whole tree.
pub const HEIGHT: usize = 256;

/// A key of the map, and the record that its value tells.
#[derive(Clone, Copy, Debug)]
pub struct Member {
    pub key: [u8; 32],
    pub record_id: RecordId,
}

/// A subtree in which a key lies.
#[derive(Debug, Drop)]
pub enum Subtree {
    /// One key alone.
    Leaf {
        key: [u8; 32],
    },
    /// The depth at which the keys part, and both sides, each with its root.
    Split {
        depth: u8,
        left_root: [u8; 32],
        left: Box<Subtree>,
        right_root: [u8; 32],
        right: Box<Subtree>,
    },
}

/// A sibling that is not empty, and its depth.
pub type Sibling = (u8, [u8; 32]);

/// The roots of the empty subtrees of each height, from 0 to that of the whole tree.
pub fn empty_roots(alloc: Global) -> Result<Vec<[u8; 32]>, Memory>
    ensures { IfOk result (λ roots. AreEmptyRoots roots.items) }
{
    let mut roots = Vec::with_capacity(alloc, HEIGHT + 1)?;
    roots.push([0u8; 32])?;
    for height in 0..HEIGHT {
        let below = roots[height];
        roots.push(branch_hash(&below, &below))?;
    }
    Ok(roots)
}

/// The members whose keys lead to the left, and those whose keys lead to the right, from a depth.
fn parted(
    alloc: Global,
    depth: usize,
    members: &[Member],
) -> Result<(Vec<Member>, Vec<Member>), Memory>
    requires { depth < 256 }
    ensures left { IfOk result (λ sides. entries_of sides.0.items ≡ left_of depth (entries_of members.now)) }
    ensures right { IfOk result (λ sides. entries_of sides.1.items ≡ right_of depth (entries_of members.now)) }
{
    let mut left = Vec::new(alloc);
    let mut right = Vec::new(alloc);
    for member in members {
        if has_bit(&member.key, depth) {
            right.push(*member)?;
        } else {
            left.push(*member)?;
        }
    }
    Ok((left, right))
}

/// The root of the subtree of a height in which these members lie, one at least, and the subtree.
pub fn grow(
    alloc: Global,
    empty: &[[u8; 32]],
    height: usize,
    members: &[Member],
) -> Result<([u8; 32], Subtree), Memory>
    requires roots { AreEmptyRoots empty.now }
    requires within { height ≤ 256 }
    requires some { 0 < length members.now }
    ensures root { IfOk result (λ grown. grown.0 ≡ subtree_root height (entries_of members.now)) }
    ensures tree { IfOk result (λ grown. IsTreeOf height (entries_of members.now) (tree_of grown.1)) }
{
    if height == 0 {
        return leaf_of(alloc, &members[0]);
    }
    let below = height - 1;
    let (left, right) = parted(alloc, 255 - below, members)?;
    if right.is_empty() {
        let (root, tree) = grow(alloc, empty, below, left.as_slice())?;
        return Ok((branch_hash(&root, &empty[below]), tree));
    }
    if left.is_empty() {
        let (root, tree) = grow(alloc, empty, below, right.as_slice())?;
        return Ok((branch_hash(&empty[below], &root), tree));
    }
    let (left_root, left) = grow(alloc, empty, below, left.as_slice())?;
    let (right_root, right) = grow(alloc, empty, below, right.as_slice())?;
    let tree = Subtree::Split {
        depth: (255 - below) as u8,
        left_root,
        left: Box::new(alloc, left)?,
        right_root,
        right: Box::new(alloc, right)?,
    };
    Ok((branch_hash(&left_root, &right_root), tree))
}

/// The hash of the leaf of a member, and the subtree that it is.
fn leaf_of(alloc: Global, member: &Member) -> Result<([u8; 32], Subtree), Memory>
    ensures root { IfOk result (λ grown. grown.0 ≡ leaf_hash_of (map_value member.now.record_id)) }
    ensures tree { IfOk result (λ grown. tree_of grown.1 ≡ Only member.now.key) }
{
    let leaf = MapLeaf {
        record_id: member.record_id,
    };
    let value = leaf.bytes(alloc)?;
    let tree = Subtree::Leaf { key: member.key };
    Ok((leaf_hash(value.as_slice()), tree))
}

/// The siblings beside a key's way that are not empty, from the top down, where the way ends at the key.
pub fn siblings_beside(
    alloc: Global,
    tree: &Subtree,
    key: &[u8; 32],
) -> Result<Option<Vec<Sibling>>, Memory>
    ensures { IfOk result (λ found. MatchOption found (end_of (tree_of tree.now) key.now ≢ key.now)
        (λ way. (end_of (tree_of tree.now) key.now ≡ key.now) × (way.items ≡ way_of (tree_of tree.now) key.now))) }
{
    let mut way = Vec::new(alloc);
    let mut at = tree;
    loop {
        match at {
            Subtree::Leaf { key: only } => {
                return Ok(if only == key { Some(way) } else { None });
            }
            Subtree::Split {
                depth,
                left_root,
                left,
                right_root,
                right,
            } => {
                if has_bit(key, *depth as usize) {
                    way.push((*depth, *left_root))?;
                    at = right;
                } else {
                    way.push((*depth, *right_root))?;
                    at = left;
                }
            }
        }
    }
}
