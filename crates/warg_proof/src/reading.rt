//! Reading the bytes of proof bundles.

ghost use Rattle.std.specs.Prelude.{◌≡◌, List, ℕ, map, Ok};
ghost use Rattle.warg_proof.specs.declared.node.Node.{Node};
ghost use Rattle.warg_proof.specs.declared.node.Consistency.{Consistency};
ghost use Rattle.warg_proof.specs.declared.node.Inclusion.{Inclusion};
ghost use Rattle.std.specs.Int.{w32, w64};
ghost use Rattle.warg_proof.specs.LogProofs.{is_ascending as is_ascending_list};
ghost use Rattle.warg_proof.specs.MapProofs.{given_before};
ghost use Rattle.warg_proof.specs.Reading.{Read, GivesOrForm, byte_at, number_at, hash_at, node_at, consistency_at, inclusion_at, each_at, counted_at};

use crate::fault::ProofFault;
use crate::hashing::has_bit;
use crate::node::{Consistency, Inclusion, Node};
use std::alloc::Global;

/// A value that is read from the front of bytes.
pub trait Field: Drop {
    /// What a clause sees of a value.
    ghost Seen: { Type 0 };

    /// A value as a clause sees it.
    ghost seen: { Self → Seen };

    /// What reading gives: a value and the bytes after it.
    ghost read_at: { List ℕ → Read (Seen × List ℕ) };

    /// Reads a value from the front, and gives the bytes after it.
    fn read(alloc: Global, bytes: &[u8]) -> Result<(Self, &[u8]), ProofFault>
        ensures { GivesOrForm (λ x. (seen x.0, x.1.now)) result (read_at bytes.now) };
}

#[tactic(auto, unfolding(crate::specs::Reading::byte_at))]
fn byte_of(bytes: &[u8]) -> Result<(u8, &[u8]), ProofFault>
    ensures { GivesOrForm (λ x. (x.0, x.1.now)) result (byte_at bytes.now) }
{
    match bytes {
        [] => Err(ProofFault::Form),
        [byte, rest @ ..] => Ok((*byte, rest)),
    }
}

fn u32_of(bytes: &[u8]) -> Result<(u32, &[u8]), ProofFault>
    ensures { GivesOrForm (λ x. (x.0, x.1.now)) result (number_at w32 bytes.now) }
{
    let Some((front, rest)) = bytes.split_first_chunk::<4>() else {
        return Err(ProofFault::Form);
    };
    Ok((u32::from_be_bytes(*front), rest))
}

fn u64_of(bytes: &[u8]) -> Result<(u64, &[u8]), ProofFault>
    ensures { GivesOrForm (λ x. (x.0, x.1.now)) result (number_at w64 bytes.now) }
{
    let Some((front, rest)) = bytes.split_first_chunk::<8>() else {
        return Err(ProofFault::Form);
    };
    Ok((u64::from_be_bytes(*front), rest))
}

impl Field for [u8; 32] {
    ghost Seen = { List ℕ };

    ghost seen = { λ x. x };

    ghost read_at = { hash_at };

    fn read(_alloc: Global, bytes: &[u8]) -> Result<([u8; 32], &[u8]), ProofFault> {
        let Some((hash, rest)) = bytes.split_first_chunk::<32>() else {
            return Err(ProofFault::Form);
        };
        Ok((*hash, rest))
    }
}

impl Field for Node {
    ghost Seen = { Node };

    ghost seen = { λ x. x };

    ghost read_at = { node_at };

    #[tactic(auto, unfolding(crate::specs::Reading::node_at))]
    fn read(alloc: Global, bytes: &[u8]) -> Result<(Node, &[u8]), ProofFault> {
        let (level, rest) = byte_of(bytes)?;
        let (place, rest) = u64_of(rest)?;
        let (hash, rest) = <[u8; 32]>::read(alloc, rest)?;
        Ok((Node { level, place, hash }, rest))
    }
}

impl Field for Consistency {
    ghost Seen = { Consistency };

    ghost seen = { λ x. x };

    ghost read_at = { consistency_at };

    #[tactic(auto, unfolding(crate::specs::Reading::consistency_at))]
    fn read(_alloc: Global, bytes: &[u8]) -> Result<(Consistency, &[u8]), ProofFault> {
        let (old_length, rest) = u64_of(bytes)?;
        let (new_length, rest) = u64_of(rest)?;
        Ok((
            Consistency {
                old_length,
                new_length,
            },
            rest,
        ))
    }
}

impl Field for Inclusion {
    ghost Seen = { Inclusion };

    ghost seen = { λ x. x };

    ghost read_at = { inclusion_at };

    #[tactic(auto, unfolding(crate::specs::Reading::inclusion_at))]
    fn read(_alloc: Global, bytes: &[u8]) -> Result<(Inclusion, &[u8]), ProofFault> {
        let (log_length, rest) = u64_of(bytes)?;
        let (index, rest) = u64_of(rest)?;
        Ok((Inclusion { log_length, index }, rest))
    }
}

/// As many values as the count says, and the bytes after them.
pub fn each_of<T: Field>(
    alloc: Global,
    count: u32,
    bytes: &[u8],
) -> Result<(Vec<T>, &[u8]), ProofFault>
    ensures { GivesOrForm (λ x. (map T.seen x.0.items, x.1.now)) result (each_at T.read_at count bytes.now) }
{
    let mut values = Vec::new(alloc);
    let mut rest = bytes;
    for _ in 0..count {
        let (value, after) = T::read(alloc, rest)?;
        values.push(value)?;
        rest = after;
    }
    Ok((values, rest))
}

/// A count in four bytes and as many values, and the bytes after them.
#[tactic(auto, unfolding(crate::specs::Reading::counted_at))]
pub fn counted_of<T: Field>(alloc: Global, bytes: &[u8]) -> Result<(Vec<T>, &[u8]), ProofFault>
    ensures { GivesOrForm (λ x. (map T.seen x.0.items, x.1.now)) result (counted_at T.read_at bytes.now) }
{
    let (count, rest) = u32_of(bytes)?;
    each_of(alloc, count, rest)
}

/// Whether each node comes before the next, by its level and then by its place.
pub fn is_ascending(nodes: &[Node]) -> bool
    ensures { result ≡ is_ascending_list nodes.now }
{
    nodes.is_sorted_by(|a, b| a.comes_before(b))
}

/// At how many depths a sibling is given.
pub fn given_count(given: &[u8; 32]) -> u32
    ensures { result ≡ given_before 256 given.now }
{
    let mut count = 0;
    for depth in 0..256usize {
        if has_bit(given, depth) {
            count += 1;
        }
    }
    count
}
