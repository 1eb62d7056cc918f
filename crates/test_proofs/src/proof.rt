//! Proofs over the reference tree of Certificate Transparency and over a small map. The roots, and the siblings of the
//! map, are computed by Python's `hashlib`.

use sha2::{Digest, Sha256};
use std::alloc::Global;
use std::test::Fail;
use test_check::{holds, is_text};
use warg_hash::{AnyHash, LogId, PackageName, RecordId};
use warg_proof::{LogBundle, LogLeaf, MapBundle, MapLeaf, ProofFault, log_root};

/// The entries of the reference tree.
pub const ENTRIES: &[&[u8]] = &[
    b"",
    b"\x00",
    b"\x10",
    b"\x20\x21",
    b"\x30\x31",
    b"\x40\x41\x42\x43",
    b"\x50\x51\x52\x53\x54\x55\x56\x57",
    b"\x60\x61\x62\x63\x64\x65\x66\x67\x68\x69\x6a\x6b\x6c\x6d\x6e\x6f",
];

/// The roots of its first entries, from one to eight.
const ROOTS: &[&str] = &[
    "sha256:6e340b9cffb37a989ca544e6bb780a2c78901d3fb33738768511a30617afa01d",
    "sha256:fac54203e7cc696cf0dfcb42c92a1d9dbaf70ad9e621f4bd8d98662f00e3c125",
    "sha256:aeb6bcfe274b70a14fb067a5e5578264db0fa9b51af5e0ba159158f329e06e77",
    "sha256:d37ee418976dd95753c1c73862b9398fa2a2cf9b4ff0fdfe8b30cd95209614b7",
    "sha256:4e3bbb1f7b478dcfe71fb631631519a3bca12c9aefca1612bfce4c13a86264d4",
    "sha256:76e67dadbcdf1e10e1b74ddc608abd2f98dfb16fbce75277b5232a127f2087ef",
    "sha256:ddb89be403809e325750d3d263cd78929c2942b7942a34b77e122c9594a74c8c",
    "sha256:5dc9da79a70659a9ad559cb701ded9a2ab9d823aad2f4960cfe370eff4604328",
];

/// The levels and places of all its nodes.
const ALL: &[(u8, u64)] = &[
    (0, 0),
    (0, 1),
    (0, 2),
    (0, 3),
    (0, 4),
    (0, 5),
    (0, 6),
    (0, 7),
    (1, 0),
    (1, 1),
    (1, 2),
    (1, 3),
    (2, 0),
    (2, 1),
    (3, 0),
];

/// The root of the first entries of the reference tree.
pub fn root(alloc: Global, length: u64) -> Result<AnyHash, Fail> {
    let text = ROOTS
        .get((length as usize).wrapping_sub(1))
        .ok_or("a length from 1 to 8")?;
    Ok(AnyHash::from_text(alloc, text)?)
}

/// The entry of an index of the reference tree.
pub fn entry(index: usize) -> Result<&'static [u8], Fail> {
    Ok(*ENTRIES.get(index).ok_or("an index below 8")?)
}

/// The hash of an entry.
fn leaf(entry: &[u8]) -> [u8; 32] {
    let mut hasher = Sha256::new();
    hasher.update([0u8]);
    hasher.update(entry);
    hasher.finalize()
}

/// The hash of two parts.
fn branch(left: &[u8; 32], right: &[u8; 32]) -> [u8; 32] {
    let mut hasher = Sha256::new();
    hasher.update([1u8]);
    hasher.update(left);
    hasher.update(right);
    hasher.finalize()
}

/// The hash of the node above those at these places.
fn above(hashes: &[[u8; 32]], left: usize, right: usize) -> Result<[u8; 32], Fail> {
    let left = hashes.get(left).ok_or("a left part")?;
    let right = hashes.get(right).ok_or("a right part")?;
    Ok(branch(left, right))
}

/// The hashes of the nodes of the reference tree, as `ALL` names them.
fn tree(alloc: Global) -> Result<Vec<[u8; 32]>, Fail> {
    let mut hashes = Vec::new(alloc);
    for entry in ENTRIES {
        hashes.push(leaf(entry))?;
    }
    for below in 0..7usize {
        let node = above(&hashes, 2 * below, 2 * below + 1)?;
        hashes.push(node)?;
    }
    Ok(hashes)
}

/// Four bytes that count.
fn count(length: usize) -> Result<[u8; 4], Fail> {
    let count = u32::try_from(length).ok().ok_or("a short list")?;
    Ok(count.to_be_bytes())
}

/// Where the hash of a node stands among those of the tree.
fn place_among_all(level: u8, place: u64) -> usize {
    let place = place as usize;
    match level {
        0 => place,
        1 => place.wrapping_add(8),
        2 => place.wrapping_add(12),
        _ => place.wrapping_add(14),
    }
}

/// A count and pairs of numbers.
fn push_pairs(bytes: &mut Vec<u8>, pairs: &[(u64, u64)]) -> Result<(), Fail> {
    bytes.extend_from_slice(&count(pairs.len())?)?;
    for (first, second) in pairs {
        bytes.extend_from_slice(&first.to_be_bytes())?;
        bytes.extend_from_slice(&second.to_be_bytes())?;
    }
    Ok(())
}

/// A node: its level, its place and its hash.
fn push_node(bytes: &mut Vec<u8>, hashes: &[[u8; 32]], level: u8, place: u64) -> Result<(), Fail> {
    let hash = hashes
        .get(place_among_all(level, place))
        .ok_or("a node of the tree")?;
    bytes.push(level)?;
    bytes.extend_from_slice(&place.to_be_bytes())?;
    bytes.extend_from_slice(hash)?;
    Ok(())
}

/// A count and nodes of the reference tree.
fn push_nodes(alloc: Global, bytes: &mut Vec<u8>, places: &[(u8, u64)]) -> Result<(), Fail> {
    let hashes = tree(alloc)?;
    bytes.extend_from_slice(&count(places.len())?)?;
    for (level, place) in places {
        push_node(bytes, &hashes, *level, *place)?;
    }
    Ok(())
}

/// The bytes of a bundle of some nodes of the reference tree, in the order given, and of pairs of numbers.
pub fn bundle(
    alloc: Global,
    places: &[(u8, u64)],
    consistencies: &[(u64, u64)],
    inclusions: &[(u64, u64)],
) -> Result<Vec<u8>, Fail> {
    let mut bytes = vec![in alloc; 0]?;
    push_nodes(alloc, &mut bytes, places)?;
    push_pairs(&mut bytes, consistencies)?;
    push_pairs(&mut bytes, inclusions)?;
    Ok(bytes)
}

/// A bundle of some nodes of the reference tree, in the order given, and of pairs of numbers.
fn decoded(
    alloc: Global,
    places: &[(u8, u64)],
    consistencies: &[(u64, u64)],
    inclusions: &[(u64, u64)],
) -> Result<LogBundle, Fail> {
    let bytes = bundle(alloc, places, consistencies, inclusions)?;
    Ok(LogBundle::decode(alloc, &bytes)?)
}

/// What a bundle of these nodes answers to its one inclusion proof, asked of an entry of the tree.
fn included(
    alloc: Global,
    places: &[(u8, u64)],
    asked: (u64, u64),
    index: u64,
    entry: &[u8],
) -> Result<Result<(), ProofFault>, Fail> {
    let whole = root(alloc, asked.0)?;
    let proofs = decoded(alloc, places, &[], &[asked])?;
    Ok(proofs.inclusion(0, asked.0, index, entry, &whole))
}

/// What a bundle of these nodes answers to its one consistency proof, asked of the root of a length as the old root.
fn continued(
    alloc: Global,
    places: &[(u8, u64)],
    asked: (u64, u64),
    length: u64,
) -> Result<Result<(), ProofFault>, Fail> {
    let (old_root, new_root) = (root(alloc, length)?, root(alloc, asked.1)?);
    let proofs = decoded(alloc, places, &[asked], &[])?;
    Ok(proofs.consistency(asked.0, asked.1, &old_root, &new_root))
}

/// Fails at the first entry of the reference tree for which the answer to an index and a length is wrong.
fn is_judged(alloc: Global, length: u64, index: u64) -> Result<(), Fail> {
    for (at, entry) in (0..8u64).zip(ENTRIES.iter()) {
        let judged = included(alloc, ALL, (length, index), index, entry)?;
        if judged.is_ok() != (at == index) {
            return Err(Fail::new(format_args!("{at} as {index} of {length}")));
        }
    }
    Ok(())
}

/// Fails at the first entry, index and length of the reference tree for which the answer is wrong.
fn are_judged(alloc: Global) -> Result<(), Fail> {
    for length in 1..=8u64 {
        for index in 0..length {
            is_judged(alloc, length, index)?;
        }
    }
    Ok(())
}

#[test]
fn each_entry_of_the_reference_tree_is_proved_at_each_length(rt: HostRuntime) -> Result<(), Fail> {
    are_judged(rt.alloc())
}

/// Fails at the first length of the reference tree for which the answer to an old and a new length is wrong.
fn is_continued(alloc: Global, old: u64, new: u64) -> Result<(), Fail> {
    for length in 1..=8u64 {
        let judged = continued(alloc, ALL, (old, new), length)?;
        if judged.is_ok() != (length == old) {
            return Err(Fail::new(format_args!("{length} as {old} to {new}")));
        }
    }
    Ok(())
}

/// Fails at the first length, old length and new length of the reference tree for which the answer is wrong.
fn are_continued(alloc: Global) -> Result<(), Fail> {
    for new in 1..=8u64 {
        for old in 1..=new {
            is_continued(alloc, old, new)?;
        }
    }
    Ok(())
}

#[test]
fn each_length_of_the_reference_tree_continues_each_shorter_one(
    rt: HostRuntime,
) -> Result<(), Fail> {
    are_continued(rt.alloc())
}

/// The nodes that the standard's example of an inclusion needs.
pub const INCLUSION: &[(u8, u64)] = &[(0, 1), (0, 6), (1, 1), (1, 2)];

/// The nodes that the standard's example of a consistency needs, but for one.
const LACKING: &[(u8, u64)] = &[(0, 3), (0, 6), (1, 0), (1, 2)];

/// The nodes that the standard's example of a consistency needs.
pub const CONSISTENCY: &[(u8, u64)] = &[(0, 2), (0, 3), (0, 6), (1, 0), (1, 2)];

/// Fails where another answer was wanted.
fn is_answered(answer: Result<(), ProofFault>, wanted: Result<(), ProofFault>) -> Result<(), Fail> {
    if answer != wanted {
        return Err(Fail::new(format_args!("{answer:?} in place of {wanted:?}")));
    }
    Ok(())
}

/// Fails where these nodes answer something else to the inclusion at the index 0 of seven entries, asked of an entry.
fn is_path(
    alloc: Global,
    places: &[(u8, u64)],
    index: u64,
    wanted: Result<(), ProofFault>,
) -> Result<(), Fail> {
    let entry = entry(index as usize)?;
    is_answered(included(alloc, places, (7, 0), index, entry)?, wanted)
}

/// Fails where these nodes answer something else to the consistency of three entries with seven.
fn is_continuation(
    alloc: Global,
    places: &[(u8, u64)],
    wanted: Result<(), ProofFault>,
) -> Result<(), Fail> {
    is_answered(continued(alloc, places, (3, 7), 3)?, wanted)
}

#[test]
fn the_paths_of_the_standards_example_need_these_nodes(rt: HostRuntime) -> Result<(), Fail> {
    let alloc = rt.alloc();
    is_path(alloc, INCLUSION, 0, Ok(()))?;
    is_path(alloc, INCLUSION, 1, Err(ProofFault::WrongLeaf))?;
    let lacking = [(0, 1), (1, 1), (1, 2)];
    is_path(alloc, &lacking, 0, Err(ProofFault::MissingHash))?;
    is_continuation(alloc, CONSISTENCY, Ok(()))?;
    is_continuation(alloc, LACKING, Err(ProofFault::MissingHash))
}

/// Whether a bundle has one proof, of an inclusion, and refuses a proof of another number.
fn has_one_inclusion(proofs: &LogBundle, whole: &AnyHash, entry: &[u8]) -> bool {
    proofs.counts() == (0, 1)
        && proofs.inclusion(1, 7, 0, entry, whole) == Err(ProofFault::WrongCount)
}

/// Fails where proofs of a kind are counted or numbered otherwise.
fn are_counted(alloc: Global) -> Result<(), Fail> {
    let (entry, whole) = (entry(0)?, root(alloc, 7)?);
    let proofs = decoded(alloc, INCLUSION, &[], &[(7, 0)])?;
    holds(
        has_one_inclusion(&proofs, &whole, entry),
        "proofs are counted and numbered",
    )
}

/// What a bundle for the lengths 3 and 7 answers where the roots are exchanged.
fn exchanged(
    alloc: Global,
    three: &AnyHash,
    seven: &AnyHash,
) -> Result<Result<(), ProofFault>, Fail> {
    let proofs = decoded(alloc, CONSISTENCY, &[(3, 7)], &[])?;
    Ok(proofs.consistency(3, 7, seven, three))
}

/// Fails where the old root of a consistency is not compared before the new one.
fn compares_the_old_root_first(alloc: Global) -> Result<(), Fail> {
    let (found, root) = (root(alloc, 3)?, root(alloc, 7)?);
    let judged = exchanged(alloc, &found, &root)?;
    is_answered(judged, Err(ProofFault::OtherRoot { root, found }))
}

/// What a bundle for the lengths 2 and 3 answers where it is asked for others.
fn other_lengths(alloc: Global) -> Result<Result<(), ProofFault>, Fail> {
    let (two, three) = (root(alloc, 2)?, root(alloc, 3)?);
    let proofs = decoded(alloc, &[(0, 2), (1, 0)], &[(2, 3)], &[])?;
    Ok(proofs.consistency(1, 3, &two, &three))
}

#[test]
fn proofs_are_numbered_and_answer_what_was_asked(rt: HostRuntime) -> Result<(), Fail> {
    are_counted(rt.alloc())?;
    compares_the_old_root_first(rt.alloc())?;
    is_answered(other_lengths(rt.alloc())?, Err(ProofFault::WrongLength))
}

/// What a bundle for a log of one empty entry answers of an entry at the index 0 of a log of a length.
fn of_one_entry(alloc: Global, length: u64, entry: &[u8]) -> Result<Result<(), ProofFault>, Fail> {
    let whole = root(alloc, 1)?;
    let proofs = decoded(alloc, &[], &[], &[(1, 0)])?;
    Ok(proofs.inclusion(0, length, 0, entry, &whole))
}

/// Fails where an answer is not that the root is another.
fn is_other_root(answer: Result<(), ProofFault>) -> Result<(), Fail> {
    holds(
        matches!(answer, Err(ProofFault::OtherRoot { .. })),
        "another root is found",
    )
}

#[test]
fn a_log_of_one_empty_entry(rt: HostRuntime) -> Result<(), Fail> {
    let alloc = rt.alloc();
    is_answered(of_one_entry(alloc, 1, b"")?, Ok(()))?;
    is_answered(of_one_entry(alloc, 2, b"")?, Err(ProofFault::WrongLength))?;
    is_other_root(of_one_entry(alloc, 1, b"a")?)
}

/// Whether bytes are no bundle.
fn is_no_bundle(alloc: Global, bytes: &[u8]) -> bool {
    matches!(LogBundle::decode(alloc, bytes), Err(ProofFault::Form))
}

/// Whether a bundle's bytes without the first one, and without the last one, are no bundle.
fn is_no_bundle_when_cut(alloc: Global, bytes: &[u8]) -> Option<bool> {
    let (_, behind) = bytes.split_first()?;
    let (_, before) = bytes.split_last()?;
    Some(is_no_bundle(alloc, behind) && is_no_bundle(alloc, before))
}

/// Whether bytes are 111 ones of a bundle, and no bundle when they are cut.
fn are_whole(alloc: Global, whole: &[u8]) -> bool {
    whole.len() == 111
        && !is_no_bundle(alloc, whole)
        && is_no_bundle_when_cut(alloc, whole) == Some(true)
}

/// Fails where a bundle of two nodes has not 111 bytes, or is one when it is cut.
fn is_whole(alloc: Global) -> Result<(), Fail> {
    let whole = bundle(alloc, &[(0, 2), (1, 0)], &[(2, 3)], &[])?;
    holds(
        are_whole(alloc, &whole),
        "the bytes are a bundle, and whole",
    )
}

/// Fails where the bytes for these nodes are a bundle.
fn are_no_nodes(alloc: Global, places: &[(u8, u64)], why: &str) -> Result<(), Fail> {
    let bytes = bundle(alloc, places, &[(2, 3)], &[])?;
    holds(is_no_bundle(alloc, &bytes), why)
}

#[test]
fn bytes_of_another_form_are_no_bundle(rt: HostRuntime) -> Result<(), Fail> {
    is_whole(rt.alloc())?;
    are_no_nodes(rt.alloc(), &[(1, 0), (0, 2)], "the nodes descend")?;
    are_no_nodes(rt.alloc(), &[(0, 2), (0, 2)], "a node stands twice")
}

/// The siblings of two logs at the depth 2.
const SIBLINGS: &[&str] = &[
    "f1ba0b3f83e2f4de63efe1c405422c82c9dd0910f5b10e0bde94afbe2ccce460",
    "27accb902ab66c02d160182b1882c6656cea4a08c88055ef27440f62247e3d4c",
];

/// The path of a log whose one sibling stands at the depth 2.
fn push_path(alloc: Global, bytes: &mut Vec<u8>, sibling: &str) -> Result<(), Fail> {
    bytes.push(0x20)?;
    bytes.extend_from_slice(&[0; 31])?;
    bytes.extend_from_slice(&hex::decode(alloc, sibling)?)?;
    Ok(())
}

/// The bytes of a bundle of the paths of two logs, each with one sibling at the depth 2.
fn map_bytes(alloc: Global) -> Result<Vec<u8>, Fail> {
    let mut bytes = [0, 0, 0, 0, 2].to_vec(alloc)?;
    for sibling in SIBLINGS {
        push_path(alloc, &mut bytes, sibling)?;
    }
    Ok(bytes)
}

/// A bundle of the paths of two logs, each with one sibling at the depth 2.
pub fn map_bundle(alloc: Global) -> Result<MapBundle, Fail> {
    let bytes = map_bytes(alloc)?;
    Ok(MapBundle::decode(alloc, &bytes)?)
}

/// The bytes of the leaf of a log's last record.
fn leaf_bytes(alloc: Global, record: &[u8]) -> Result<Vec<u8>, Fail> {
    let leaf = MapLeaf {
        record_id: RecordId::of(record),
    };
    Ok(leaf.bytes(alloc)?)
}

/// What the bundle answers at a number of a log and the log's last record.
fn has_record(
    alloc: Global,
    at: usize,
    log_id: &LogId,
    record: &[u8],
) -> Result<Result<(), ProofFault>, Fail> {
    let whole = AnyHash::from_text(
        alloc,
        "sha256:b66660bf0d862ce107d572e3b6b315dc08d44d33b323d967d6ee51be044d685d",
    )?;
    let leaf = leaf_bytes(alloc, record)?;
    let proofs = map_bundle(alloc)?;
    Ok(proofs.inclusion(at, log_id, &leaf, &whole))
}

/// The id of the log of `demo:app`.
fn app(alloc: Global) -> Result<LogId, Fail> {
    Ok(LogId::package_log(&PackageName::new(alloc, "demo:app")?))
}

/// Fails where the bundle has not two paths.
fn are_two(alloc: Global) -> Result<(), Fail> {
    holds(map_bundle(alloc)?.count() == 2, "the bundle has two paths")
}

#[test]
fn each_log_of_a_map_of_two_is_proved_by_its_path(rt: HostRuntime) -> Result<(), Fail> {
    let alloc = rt.alloc();
    are_two(alloc)?;
    let (operator, app) = (LogId::operator_log(), app(alloc)?);
    is_answered(has_record(alloc, 0, &operator, b"record 0")?, Ok(()))?;
    is_answered(has_record(alloc, 1, &app, b"record 1")?, Ok(()))?;
    is_other_root(has_record(alloc, 1, &app, b"record 0")?)?;
    is_answered(
        has_record(alloc, 2, &app, b"record 1")?,
        Err(ProofFault::WrongCount),
    )
}

/// The bytes of an entry of the log.
fn entry_bytes(alloc: Global) -> Result<Vec<u8>, Fail> {
    let entry = LogLeaf {
        log_id: LogId::operator_log(),
        record_id: RecordId::of(b"record 0"),
    };
    Ok(entry.bytes(alloc)?)
}

/// Fails where an entry of the log is written otherwise.
fn is_entry(alloc: Global, want: &str) -> Result<(), Fail> {
    let bytes = entry_bytes(alloc)?;
    holds(bytes.as_slice() == want.as_bytes(), want)
}

#[test]
fn an_entry_of_the_log_is_written_with_both_ids(rt: HostRuntime) -> Result<(), Fail> {
    is_entry(
        rt.alloc(),
        "WARG-LOG-LEAF-V0:\
        sha256:0db9178aabc877b42f03a038bf453ee53f08e3c8c55fab916043428078596bfb:\
        sha256:e00d4616051cce59f50090fafabb0d9b5172e50b72037a7a85c603b117257648",
    )
}

/// Fails where a log bundle is written otherwise than it was read.
fn is_log_written_again(alloc: Global) -> Result<(), Fail> {
    let bytes = bundle(alloc, INCLUSION, &[], &[(7, 0), (7, 1)])?;
    let log = LogBundle::decode(alloc, &bytes)?.encode(alloc)?;
    holds(
        log.as_slice() == bytes.as_slice(),
        "a log bundle is written again",
    )
}

/// Fails where a map bundle has not 133 bytes, or is written otherwise than it was read.
fn is_map_written_again(alloc: Global) -> Result<(), Fail> {
    let map = map_bundle(alloc)?.encode(alloc)?;
    let again = MapBundle::decode(alloc, &map)?.encode(alloc)?;
    holds(
        map.len() == 133 && again.as_slice() == map.as_slice(),
        "a map bundle is written again",
    )
}

#[test]
fn bundles_are_written_as_they_were_read(rt: HostRuntime) -> Result<(), Fail> {
    is_log_written_again(rt.alloc())?;
    is_map_written_again(rt.alloc())
}

/// The roots of logs whose records are of the texts `record 0` and so on, by their length.
const LOG_ROOTS: &[&str] = &[
    "sha256:e3b0c44298fc1c149afbf4c8996fb92427ae41e4649b934ca495991b7852b855",
    "sha256:156c5b694f309bba6e42780262a65fab90b8d344396be326790c051a5562504d",
    "sha256:2a371a2b6987ace493dfe0a9ec422849d9f2c34b38e1bfc1aca03a1ea2a2301e",
    "sha256:ba054ed16f65512750c23ec9a3d09f30af34ef46d92c3755750aff80c027a33f",
    "sha256:53a19563df9e7f48a0c1c9700a6f55665ccaf0292220335a5e121fead10f38cf",
    "sha256:91b369e84e12682fb7c3baf213919d799f8c9d8ad2310ca5e498bcee2a63fa91",
];

/// The texts of the records of these logs.
const RECORDS: &[&str] = &["record 0", "record 1", "record 2", "record 3", "record 4"];

/// The leaves of a log of the first records.
fn leaves(alloc: Global, length: usize) -> Result<Vec<LogLeaf>, Fail> {
    let mut leaves = Vec::new(alloc);
    for record in RECORDS.iter().take(length) {
        leaves.push(LogLeaf {
            log_id: LogId::operator_log(),
            record_id: RecordId::of(record.as_bytes()),
        })?;
    }
    Ok(leaves)
}

/// Fails where the root of a log of the first records has another text.
fn is_root(alloc: Global, length: usize, want: &str) -> Result<(), Fail> {
    let leaves = leaves(alloc, length)?;
    let root = log_root(alloc, &leaves)?;
    is_text(&format!(in alloc; "{root}")?, want)
}

/// Fails at the first length whose log has another root.
fn are_roots(alloc: Global, roots: &[&str]) -> Result<(), Fail> {
    for (length, root) in roots.iter().enumerate() {
        is_root(alloc, length, root)?;
    }
    Ok(())
}

#[test]
fn roots_of_logs_are_those_of_another_program(rt: HostRuntime) -> Result<(), Fail> {
    are_roots(rt.alloc(), LOG_ROOTS)
}
