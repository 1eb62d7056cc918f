//! Verifying that leaves are in a checkpoint's log and map.

ghost use Rattle.std.specs.Prelude.{◌≡◌, length, OnOk, IfErr};
ghost use Rattle.warg_verify.specs.Shown.{Includes, IncludesInLog, IncludesInMap};
ghost use Rattle.warg_verify.specs.Faults.{IsInclusionFault, IsLogFault, IsMapFault};

use crate::bundle::verify_paths;
use std::alloc::Global;
use warg_exchange::{Checkpoint, InclusionResponse};
use warg_proof::{LogBundle, LogLeaf, MapBundle, ProofFault};

/// Whether the bytes of a log bundle show the leaves.
fn verify_in_log(
    alloc: Global,
    bytes: &[u8],
    checkpoint: &Checkpoint,
    indices: &[u64],
    leafs: &[LogLeaf],
) -> Result<(), ProofFault>
    requires one_index_each { length indices.now ≡ length leafs.now }
    ensures ok { OnOk result (IncludesInLog checkpoint.now indices.now leafs.now bytes.now) }
    ensures err { IfErr result (λ fault. IsLogFault checkpoint.now indices.now leafs.now bytes.now fault) }
{
    let bundle = LogBundle::decode(alloc, bytes)?;
    if bundle.counts() != (0, leafs.len()) {
        return Err(ProofFault::WrongCount);
    }
    verify_paths(alloc, &bundle, checkpoint, indices, leafs)
}

/// Whether the bytes of a map bundle show the leaves.
fn verify_in_map(
    alloc: Global,
    bytes: &[u8],
    checkpoint: &Checkpoint,
    indices: &[u64],
    leafs: &[LogLeaf],
) -> Result<(), ProofFault>
    requires one_index_each { length indices.now ≡ length leafs.now }
    ensures ok { OnOk result (IncludesInMap checkpoint.now indices.now leafs.now bytes.now) }
    ensures err { IfErr result (λ fault. IsMapFault checkpoint.now indices.now leafs.now bytes.now fault) }
{
    let bundle = MapBundle::decode(alloc, bytes)?;
    if bundle.count() != leafs.len() {
        return Err(ProofFault::WrongCount);
    }
    verify_paths(alloc, &bundle, checkpoint, indices, leafs)
}

/// Verifies that each leaf is in a checkpoint's log, at its index, and the last of its log in the checkpoint's map.
///
/// `indices` has the index of each leaf, counted from 0. The log bundle is looked at whole, then the map bundle, and the
/// first of these faults is answered:
///
/// - `Form`: the bytes are no bundle.
/// - `WrongCount`: a bundle does not hold one path for each leaf and nothing else, or there is not one index for each.
/// - `WrongLength`, `WrongLeaf`: a path is for another length of the log, or for another index.
/// - `MissingHash`: the bundle lacks a hash that a path needs.
/// - `OtherRoot`: a path gives another root than the checkpoint's.
pub fn verify_inclusion(
    alloc: Global,
    bundles: &InclusionResponse,
    checkpoint: &Checkpoint,
    indices: &[u64],
    leafs: &[LogLeaf],
) -> Result<(), ProofFault>
    ensures ok { OnOk result (Includes checkpoint.now indices.now leafs.now bundles.now) }
    ensures err { IfErr result (λ fault. IsInclusionFault checkpoint.now indices.now leafs.now bundles.now fault) }
{
    if indices.len() != leafs.len() {
        return Err(ProofFault::WrongCount);
    }
    verify_in_log(alloc, bundles.log.as_slice(), checkpoint, indices, leafs)?;
    verify_in_map(alloc, bundles.map.as_slice(), checkpoint, indices, leafs)
}
