//! Bundles that are made of the reference tree of Certificate Transparency and of small maps, judged by `warg_proof`
//! against their roots.

use crate::proof::{CONSISTENCY, ENTRIES, INCLUSION, bundle, entry, map_bundle, root};
use std::alloc::Global;
use std::test::Fail;
use test_check::holds;
use warg_hash::{AnyHash, LogId, PackageName, RecordId};
use warg_proof::{LogBundle, LogLeaf, MapBundle, MapLeaf};
use warg_prover::{LogHashes, MapHashes, ProverFault};

/// The leaves of the reference tree.
fn reference(alloc: Global) -> Result<LogHashes, Fail> {
    let mut log = LogHashes::new(alloc);
    for entry in ENTRIES {
        log.push(entry)?;
    }
    Ok(log)
}

/// The bundle of an inclusion.
fn inclusion(alloc: Global, log: &LogHashes, count: u64, index: u64) -> Result<LogBundle, Fail> {
    let bytes = log.inclusion_bundle(alloc, count as usize, &[index])?;
    Ok(LogBundle::decode(alloc, &bytes)?)
}

/// Whether the bundle of an inclusion proves the entry to a client that knows the root.
fn is_included(alloc: Global, log: &LogHashes, count: u64, index: u64) -> Result<bool, Fail> {
    let (entry, whole) = (entry(index as usize)?, root(alloc, count)?);
    let proofs = inclusion(alloc, log, count, index)?;
    Ok(proofs.inclusion(0, count, index, entry, &whole).is_ok())
}

/// The bundle of a consistency.
fn consistency(alloc: Global, log: &LogHashes, old: u64, new: u64) -> Result<LogBundle, Fail> {
    let bytes = log.consistency_bundle(alloc, old as usize, new as usize)?;
    Ok(LogBundle::decode(alloc, &bytes)?)
}

/// Whether the bundle of a consistency proves it to a client that knows both roots.
fn is_continued(alloc: Global, log: &LogHashes, old: u64, new: u64) -> Result<bool, Fail> {
    let (old_root, new_root) = (root(alloc, old)?, root(alloc, new)?);
    let proofs = consistency(alloc, log, old, new)?;
    Ok(proofs.consistency(old, new, &old_root, &new_root).is_ok())
}

/// Fails at the first proof of a log of this many entries that does not prove what it is of.
fn are_made(alloc: Global, log: &LogHashes, count: u64) -> Result<(), Fail> {
    for below in 0..count {
        if !is_included(alloc, log, count, below)? {
            return Err(Fail::new(format_args!("{below} of {count}")));
        }
        if !is_continued(alloc, log, below + 1, count)? {
            return Err(Fail::new(format_args!("{below} to {count}")));
        }
    }
    Ok(())
}

#[test]
fn each_proof_of_the_reference_tree_is_made(rt: HostRuntime) -> Result<(), Fail> {
    let log = reference(rt.alloc())?;
    for count in 1..=8u64 {
        are_made(rt.alloc(), &log, count)?;
    }
    Ok(())
}

/// Fails where the bundle of an inclusion has other nodes than those of the standard's example.
fn is_the_standards_inclusion(alloc: Global, log: &LogHashes) -> Result<(), Fail> {
    let included = log.inclusion_bundle(alloc, 7, &[0])?;
    let wanted = bundle(alloc, INCLUSION, &[], &[(7, 0)])?;
    holds(
        included.as_slice() == wanted.as_slice(),
        "an inclusion has its nodes",
    )
}

/// Fails where the bundle of a consistency has other nodes than those of the standard's example.
fn is_the_standards_consistency(alloc: Global, log: &LogHashes) -> Result<(), Fail> {
    let continued = log.consistency_bundle(alloc, 3, 7)?;
    let wanted = bundle(alloc, CONSISTENCY, &[(3, 7)], &[])?;
    holds(
        continued.as_slice() == wanted.as_slice(),
        "a consistency has its nodes",
    )
}

/// Why no bundle of an inclusion is made, where none is.
fn inclusion_fault(
    alloc: Global,
    log: &LogHashes,
    count: usize,
    indices: &[u64],
) -> Option<ProverFault> {
    log.inclusion_bundle(alloc, count, indices).err()
}

/// Why no bundle of a consistency is made, where none is.
fn consistency_fault(alloc: Global, log: &LogHashes, old: usize) -> Option<ProverFault> {
    log.consistency_bundle(alloc, old, 7).err()
}

/// Whether an index and lengths that the log has not are refused.
fn are_refused(alloc: Global, log: &LogHashes) -> bool {
    inclusion_fault(alloc, log, 7, &[0, 7]) == Some(ProverFault::NoSuchProof)
        && inclusion_fault(alloc, log, 9, &[0]) == Some(ProverFault::LogTooShort)
        && consistency_fault(alloc, log, 0) == Some(ProverFault::NoSuchProof)
        && consistency_fault(alloc, log, 8) == Some(ProverFault::NoSuchProof)
}

/// Fails where a log tells another root of its first five entries, or one of nine.
fn has_roots(alloc: Global, log: &LogHashes) -> Result<(), Fail> {
    let five = root(alloc, 5)?;
    holds(
        log.root(9).is_none() && log.root(5) == Some(five),
        "a log has its roots",
    )
}

#[test]
fn bundles_have_just_the_nodes_that_they_need(rt: HostRuntime) -> Result<(), Fail> {
    let log = reference(rt.alloc())?;
    is_the_standards_inclusion(rt.alloc(), &log)?;
    is_the_standards_consistency(rt.alloc(), &log)?;
    holds(are_refused(rt.alloc(), &log), "other bundles are refused")?;
    has_roots(rt.alloc(), &log)
}

/// The roots of maps, by how many logs they have: those of the first of `MAP_LOGS`, computed by Python's `hashlib`.
const MAP_ROOTS: &[&str] = &[
    "sha256:6155289130893872355eac98042d22aefa2c2e708bea169402760e3b55f9a2dc",
    "sha256:b4d9f5759b4b675b6e038eb8e21650b41a238f2d2700d0f4c7d2bc0b7b1ad5c1",
    "sha256:b66660bf0d862ce107d572e3b6b315dc08d44d33b323d967d6ee51be044d685d",
    "sha256:1dedcc10e75141a55035a994bed1829ab17cfe0260db842e1c5c4a7b473b2c2b",
    "sha256:d9b90f3286befac1a558a3c9d769ba893b7a543adf7f1dfb563daa31ae7f533c",
    "sha256:2a29dd2266f81e3c5f734447c9287e409672d960a808d120099f2ea58932af5a",
];

/// The packages whose logs stand in the maps behind the operator's, and the last records of all.
const MAP_LOGS: &[(&str, &[u8])] = &[
    ("", b"record 0"),
    ("demo:app", b"record 1"),
    ("demo:base", b"record 2"),
    ("demo:core", b"record 3"),
    ("demo:data", b"record 4"),
];

/// The id of the log of a package, or of the operator's log where the name is empty.
fn log_id(alloc: Global, name: &str) -> Result<LogId, Fail> {
    if name.is_empty() {
        return Ok(LogId::operator_log());
    }
    Ok(LogId::package_log(&PackageName::new(alloc, name)?))
}

/// The leaves of the map of the first logs.
fn map_leaves(alloc: Global, count: usize) -> Result<Vec<LogLeaf>, Fail> {
    let mut leaves = Vec::new(alloc);
    for (name, record) in MAP_LOGS.get(..count).ok_or("five logs")? {
        leaves.push(LogLeaf {
            log_id: log_id(alloc, name)?,
            record_id: RecordId::of(record),
        })?;
    }
    Ok(leaves)
}

/// The ids of the logs of leaves.
fn logs_of(alloc: Global, leaves: &[LogLeaf]) -> Result<Vec<LogId>, Fail> {
    let mut logs = Vec::new(alloc);
    for leaf in leaves {
        logs.push(leaf.log_id)?;
    }
    Ok(logs)
}

/// A bundle of all logs of a map.
fn bundle_of(alloc: Global, map: &MapHashes, leaves: &[LogLeaf]) -> Result<MapBundle, Fail> {
    let logs = logs_of(alloc, leaves)?;
    let bytes = map.inclusion_bundle(alloc, logs.as_slice())?;
    Ok(MapBundle::decode(alloc, &bytes)?)
}

/// Fails where a bundle does not prove the record of a leaf at a number.
fn proves(
    alloc: Global,
    bundle: &MapBundle,
    at: usize,
    leaf: &LogLeaf,
    root: &AnyHash,
) -> Result<(), Fail> {
    let value = MapLeaf {
        record_id: leaf.record_id,
    };
    let bytes = value.bytes(alloc)?;
    bundle.inclusion(at, &leaf.log_id, &bytes, root)?;
    Ok(())
}

/// Fails where a bundle does not prove the record of a leaf.
fn proves_all(
    alloc: Global,
    bundle: &MapBundle,
    leaves: &[LogLeaf],
    root: &AnyHash,
) -> Result<(), Fail> {
    for (at, leaf) in leaves.iter().enumerate() {
        proves(alloc, bundle, at, leaf, root)?;
    }
    Ok(())
}

/// Fails where a bundle of all logs of a map does not prove each record.
fn is_proved(
    alloc: Global,
    map: &MapHashes,
    leaves: &[LogLeaf],
    root: &AnyHash,
) -> Result<(), Fail> {
    let bundle = bundle_of(alloc, map, leaves)?;
    proves_all(alloc, &bundle, leaves, root)
}

/// Fails where the map of these logs has another root, or a bundle of all of them does not prove each record.
fn has_root(alloc: Global, leaves: &[LogLeaf], root: &AnyHash) -> Result<(), Fail> {
    let map = MapHashes::new(alloc, leaves)?;
    holds(map.root() == *root, "a map has its root")?;
    is_proved(alloc, &map, leaves, root)
}

/// Fails at the first number of logs whose map has another root, or of which a bundle of all of them does not prove
/// each record.
fn are_proved(alloc: Global, roots: &[&str]) -> Result<(), Fail> {
    for (count, root) in roots.iter().enumerate() {
        let root = AnyHash::from_text(alloc, root)?;
        let leaves = map_leaves(alloc, count)?;
        has_root(alloc, leaves.as_slice(), &root)?;
    }
    Ok(())
}

#[test]
fn each_record_of_a_map_is_proved(rt: HostRuntime) -> Result<(), Fail> {
    are_proved(rt.alloc(), MAP_ROOTS)
}

/// The map of the first two logs.
fn map_of_two(alloc: Global) -> Result<MapHashes, Fail> {
    let leaves = map_leaves(alloc, 2)?;
    Ok(MapHashes::new(alloc, leaves.as_slice())?)
}

/// Fails where the bundle of the map of two logs has other bytes than those that were made outside.
fn is_the_bundle_of_two(alloc: Global, map: &MapHashes) -> Result<(), Fail> {
    let logs = [LogId::operator_log(), log_id(alloc, "demo:app")?];
    let bytes = map.inclusion_bundle(alloc, &logs)?;
    let wanted = map_bundle(alloc)?.encode(alloc)?;
    holds(
        bytes.as_slice() == wanted.as_slice(),
        "a map bundle has its siblings",
    )
}

/// Why no bundle of a log is made, where none is.
fn map_fault(alloc: Global, map: &MapHashes, log: LogId) -> Option<ProverFault> {
    map.inclusion_bundle(alloc, &[log]).err()
}

#[test]
fn a_map_bundle_has_just_the_siblings_that_are_not_empty(rt: HostRuntime) -> Result<(), Fail> {
    let absent = log_id(rt.alloc(), "demo:base")?;
    let map = map_of_two(rt.alloc())?;
    is_the_bundle_of_two(rt.alloc(), &map)?;
    let fault = map_fault(rt.alloc(), &map, absent);
    holds(
        fault == Some(ProverFault::NoSuchProof),
        "an absent log has no proof",
    )
}
