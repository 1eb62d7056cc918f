//! Where the nodes stand that proofs need.
//!
//! A range is given by a level, a place and a count: that many entries, at most `2 ^ level`, from entry
//! `place * 2 ^ level` on. Its split has the parts `2 * place` and `2 * place + 1` of the level below.

ghost use Rattle.std.specs.Prelude.{◌≡◌, ◌-◌, ◌++◌, ◌↔◌, ◌<◌, ◌≤◌, ◌^◌, ℕ, length, OnOk};
ghost use Rattle.std.specs.List.{Contains, flat_map};
ghost use Rattle.std.specs.List.Sorted.{IsStrictlySortedBy};
ghost use Rattle.warg_proof.specs.LogTree.{ranges_beside, ranges_joining};
ghost use Rattle.warg_proof.specs.TrueProofs.{needed, needed_within};
ghost use Rattle.warg_prover.specs.Places.{place_cmp};

use warg_values::Memory;

/// The level of the whole log, whose length is below `2 ^ 64`.
pub const TOP: u8 = 64;

/// Where a node stands: its level, 0 for a leaf, and its place on the level, counted from 0.
pub type Place = (u8, u64);

/// How many entries a node of a level has.
pub fn size_of(level: u8) -> u64
    requires { level < 64 }
    ensures { result ≡ 2 ^ level }
{
    1 << level
}

/// Pushes the places of the nodes that the hash of a range needs. It has at least one entry.
fn push_needed(out: &mut Vec<Place>, level: u8, place: u64, count: u64) -> Result<(), Memory>
    requires within { level ≤ 64 }
    requires place_within { place < 2 ^ (64 - level) }
    ensures { OnOk result (out.new.items ≡ out.old.items ++ needed_within level place count) }
{
    if level == 0 {
        out.push((level, place))?;
        return Ok(());
    }
    let half = size_of(level - 1);
    if count <= half {
        push_needed(out, level - 1, 2 * place, count)?;
        return Ok(());
    }
    if count - half == half {
        out.push((level, place))?;
        return Ok(());
    }
    push_needed(out, level - 1, 2 * place, half)?;
    push_needed(out, level - 1, 2 * place + 1, count - half)?;
    Ok(())
}

/// Pushes the places of the nodes that prove the entry at an index of a range.
pub fn push_beside(
    out: &mut Vec<Place>,
    level: u8,
    place: u64,
    count: u64,
    index: u64,
) -> Result<(), Memory>
    requires within { level ≤ 64 }
    requires place_within { place < 2 ^ (64 - level) }
    ensures { OnOk result (out.new.items
        ≡ out.old.items ++ flat_map needed (ranges_beside level place count index)) }
{
    if level == 0 {
        return Ok(());
    }
    let half = size_of(level - 1);
    if count <= half {
        push_beside(out, level - 1, 2 * place, count, index)?;
        return Ok(());
    }
    if index < half {
        push_needed(out, level - 1, 2 * place + 1, count - half)?;
        push_beside(out, level - 1, 2 * place, half, index)?;
    } else {
        push_needed(out, level - 1, 2 * place, half)?;
        push_beside(out, level - 1, 2 * place + 1, count - half, index - half)?;
    }
    Ok(())
}

/// Pushes the places of the nodes that join the first `old` entries of a range, at least one, to its first `new`.
pub fn push_joining(
    out: &mut Vec<Place>,
    level: u8,
    place: u64,
    old: u64,
    new: u64,
) -> Result<(), Memory>
    requires within { level ≤ 64 }
    requires place_within { place < 2 ^ (64 - level) }
    requires ordered { old ≤ new }
    ensures { OnOk result (out.new.items
        ≡ out.old.items ++ flat_map needed (ranges_joining level place old new)) }
{
    if level == 0 {
        push_needed(out, level, place, new)?;
        return Ok(());
    }
    let half = size_of(level - 1);
    if new <= half {
        push_joining(out, level - 1, 2 * place, old, new)?;
        return Ok(());
    }
    if old == new {
        push_needed(out, level, place, new)?;
        return Ok(());
    }
    if half < old {
        push_needed(out, level - 1, 2 * place, half)?;
        push_joining(out, level - 1, 2 * place + 1, old - half, new - half)?;
    } else {
        push_needed(out, level - 1, 2 * place + 1, new - half)?;
        push_joining(out, level - 1, 2 * place, old, half)?;
    }
    Ok(())
}

/// Puts places in order, each once.
pub fn sort_places(places: &mut Vec<Place>)
    ensures ordered { IsStrictlySortedBy place_cmp places.new.items }
    ensures kept { (at : ℕ × ℕ) → Contains places.old.items at ↔ Contains places.new.items at }
    ensures no_more { length places.new.items ≤ length places.old.items }
{
    places.sort_unstable();
    places.dedup();
}
