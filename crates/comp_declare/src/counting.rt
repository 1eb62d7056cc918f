//! How many names of a scope are mentioned.

ghost use Rattle.std.specs.Prelude.{◌≡◌, ◌+◌, IfOk, length, max};
ghost use Rattle.comp_entity.specs.Names.{beyond, counts_at};
ghost use Rattle.comp_mention.specs.Mentions.{mentions_at, picked_in};
ghost use Rattle.comp_space.specs.SpaceViews.{counts};
ghost use Rattle.comp_table.specs.Trees.{IsBelow};

use comp_mention::{What, first_mentioned};
use comp_space::Counts;
use comp_table::TypeTable;
use std::alloc::Global;
use warg_values::Memory;

/// The greater of two numbers.
fn greater(first: usize, second: usize) -> usize
    ensures { result ≡ max first second }
{
    if first < second { second } else { first }
}

/// One more than a number. `Memory` where no number holds it.
fn next(number: usize) -> Result<usize, Memory>
    ensures { IfOk result (λ n. n ≡ number + 1) }
{
    match number.checked_add(1) {
        Some(next) => Ok(next),
        None => Err(Memory),
    }
}

/// One more than the largest of some numbers, and 0 where there are none.
fn beyond(numbers: &[usize]) -> Result<usize, Memory>
    ensures { IfOk result (λ n. n ≡ beyond numbers.now) }
{
    let mut most = 0;
    for number in numbers {
        most = greater(most, next(*number)?);
    }
    Ok(most)
}

/// How many of the resources, or of the places that named types, of the scope so far out some numbers stand for mention:
/// one more than the largest of their numbers.
fn count_of(
    table: &TypeTable,
    alloc: Global,
    what: What,
    out: usize,
    numbers: &[usize],
) -> Result<usize, Memory>
    requires { IsBelow (length table.now) numbers.now }
    ensures { IfOk result (λ n. n ≡ beyond (picked_in what out (mentions_at table.now numbers.now))) }
{
    let mentioned = first_mentioned(table, alloc, what, out, numbers)?;
    beyond(mentioned.as_slice())
}

/// How many resources, and how many places that named types, of the scope so far out some numbers stand for mention:
/// of each one more than the largest of their numbers. `Memory` also where more than a thousand types and entities lie
/// within each other.
pub fn counts_of(
    table: &TypeTable,
    alloc: Global,
    out: usize,
    numbers: &[usize],
) -> Result<Counts, Memory>
    requires { IsBelow (length table.now) numbers.now }
    ensures { IfOk result (λ c. counts c ≡ counts_at out (mentions_at table.now numbers.now)) }
{
    let resources = count_of(table, alloc, What::Resources, out, numbers)?;
    let places = count_of(table, alloc, What::Places, out, numbers)?;
    Ok(Counts { resources, places })
}
