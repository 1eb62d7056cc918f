//! The root of a log from its leaves.

ghost use Rattle.std.specs.Prelude.{◌≡◌, ◌≤◌, ◌^◌, List, ℕ, length, map, IfOk};
ghost use Rattle.warg_proof.specs.HashedTree.{hashed_within, hashed_root as hashed_root_of};
ghost use Rattle.warg_proof.specs.Leaves.{entry_hash, leaf_entry};
ghost use Rattle.warg_proof.specs.LogTree.{root};

use crate::hashing::branch_hash;
use crate::leaf::LogLeaf;
use crate::ranges::{TOP, half_of};
use sha2::{Digest, Sha256};
use std::alloc::Global;
use warg_hash::AnyHash;
use warg_values::Memory;

/// The root of one entry or none, by its leaf's hash.
#[tactic(auto, unfolding(crate::specs::HashedTree::hashed_within))]
fn root_of_leaf(hashes: &[[u8; 32]]) -> [u8; 32]
    ensures { result ≡ hashed_within 0 hashes.now }
{
    match hashes {
        [] => Sha256::digest(b"".as_slice()),
        [hash, ..] => *hash,
    }
}

/// The root of at most `2 ^ level` entries whose leaves have these hashes.
fn root_within(level: u8, hashes: &[[u8; 32]]) -> [u8; 32]
    requires within { level ≤ 64 }
    ensures { result ≡ hashed_within level hashes.now }
{
    if level == 0 {
        return root_of_leaf(hashes);
    }
    let half = half_of(level);
    if hashes.len() as u64 <= half {
        return root_within(level - 1, hashes);
    }
    let (left, right) = hashes.split_at(half as usize);
    let left = root_within(level - 1, left);
    let right = root_within(level - 1, right);
    branch_hash(&left, &right)
}

/// The root of entries whose leaves have these hashes, in order (RFC 6962, section 2.1).
///
/// It is found in one pass over the hashes.
pub fn hashed_root(hashes: &[[u8; 32]]) -> [u8; 32]
    ensures { result ≡ hashed_root_of hashes.now }
{
    root_within(TOP, hashes)
}

/// The hashes of leaves, in order.
fn leaf_hashes(alloc: Global, leaves: &[LogLeaf]) -> Result<Vec<[u8; 32]>, Memory>
    ensures { IfOk result (λ hashes. hashes.items ≡ map entry_hash leaves.now) }
{
    let mut hashes = Vec::with_capacity(alloc, leaves.len())?;
    for leaf in leaves {
        hashes.push(leaf.hash())?;
    }
    Ok(hashes)
}

/// The root of a registry's log with these entries (RFC 6962, section 2.1).
///
/// It is found in one pass over the entries' hashes.
pub fn log_root(alloc: Global, leaves: &[LogLeaf]) -> Result<AnyHash, Memory>
    ensures { IfOk result (λ found. found ≡ root (map leaf_entry leaves.now)) }
{
    let hashes = leaf_hashes(alloc, leaves)?;
    Ok(AnyHash::from_digest(hashed_root(hashes.as_slice())))
}
