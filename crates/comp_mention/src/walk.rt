//! The way through what numbers stand for.

ghost use Rattle.std.specs.Prelude.{◌≡◌, ◌<◌, length, map, flat_map, IfOk, OnOk};
ghost use Rattle.comp_mention.specs.Mentions.{below_mentions, func_mentions, head_mentions, mentions_at, picked_in, tree_mentions, trees_mentions};
ghost use Rattle.comp_mention.specs.Walked.{AreVisited, with_numbers};
ghost use Rattle.comp_scope.specs.Closing.{first_mentions};
ghost use Rattle.comp_table.specs.Trees.{IsBelow, tree_at, trees_of};

use crate::heads::{depth_within, inner, is_func_type, mentioned_by};
use crate::what::What;
use comp_table::{Head, TypeTable};
use indexmap::IndexSet;
use std::alloc::Global;
use warg_values::Memory;

/// How many levels deep what is walked through may lie at most.
const LEVELS: usize = 1000;

/// A number, and how many scopes deep what it stands for is mentioned.
#[derive(Clone, Copy, Debug, PartialEq, Eq, Hash)]
pub struct Visited {
    /// The number.
    pub number: usize,
    /// How many scopes deep.
    pub depth: usize,
}

/// What is known on the way.
#[derive(Debug, Drop)]
pub struct Walk {
    /// What was mentioned so far, each once, in order.
    pub seen: IndexSet<usize>,
    /// Where there is nothing more to be found.
    pub visited: IndexSet<Visited>,
}

/// Notes what a head mentions, where it is one of those that are looked for.
fn note_head(
    head: &Head,
    what: What,
    out: usize,
    depth: usize,
    seen: &mut IndexSet<usize>,
) -> Result<(), Memory>
    ensures { OnOk result (seen.new.keys ≡ with_numbers seen.old.keys (picked_in what out (head_mentions depth head.now))) }
{
    match mentioned_by(head, what, out, depth) {
        Some(number) => {
            seen.insert(number)?;
            Ok(())
        }
        None => Ok(()),
    }
}

/// Notes what a number stands for mentions, so many scopes deep.
#[cycle(walking)]
fn visit(
    table: &TypeTable,
    what: What,
    out: usize,
    levels: usize,
    place: Visited,
    walk: &mut Walk,
) -> Result<(), Memory>
    requires there { place.number < length table.now }
    requires visited { AreVisited what out table.now walk.old }
    ensures visited { OnOk result (AreVisited what out table.now walk.new) }
    ensures seen { OnOk result (walk.new.seen.keys ≡ with_numbers walk.old.seen.keys
        (picked_in what out (tree_mentions place.depth (tree_at table.now place.number)))) }
{
    if walk.visited.contains(&place) {
        return Ok(());
    }
    let levels = inner(levels)?;
    let head = table.head(place.number);
    note_head(head, what, out, place.depth, &mut walk.seen)?;
    let depth = depth_within(head, place.depth)?;
    visit_below(table, what, out, levels, depth, place.number, walk)?;
    walk.visited.insert(place)?;
    Ok(())
}

/// Notes what the parts of what a number stands for mention, so many scopes deep.
#[cycle(walking)]
fn visit_below(
    table: &TypeTable,
    what: What,
    out: usize,
    levels: usize,
    depth: usize,
    number: usize,
    walk: &mut Walk,
) -> Result<(), Memory>
    requires there { number < length table.now }
    requires visited { AreVisited what out table.now walk.old }
    ensures visited { OnOk result (AreVisited what out table.now walk.new) }
    ensures seen { OnOk result (walk.new.seen.keys ≡ with_numbers walk.old.seen.keys
        (picked_in what out (below_mentions depth (tree_at table.now number)))) }
{
    let parts = table.parts(number);
    if is_func_type(table.head(number)) {
        return visit_func(table, what, out, levels, depth, parts, walk);
    }
    visit_parts(table, what, out, levels, depth, parts, walk)?;
    Ok(())
}

/// Notes what the result and the parameters of a function mention, which have these numbers, so many scopes deep.
#[cycle(walking)]
fn visit_func(
    table: &TypeTable,
    what: What,
    out: usize,
    levels: usize,
    depth: usize,
    parts: &[usize],
    walk: &mut Walk,
) -> Result<(), Memory>
    requires there { IsBelow (length table.now) parts.now }
    requires visited { AreVisited what out table.now walk.old }
    ensures visited { OnOk result (AreVisited what out table.now walk.new) }
    ensures seen { OnOk result (walk.new.seen.keys ≡ with_numbers walk.old.seen.keys
        (picked_in what out (func_mentions depth (trees_of (map (tree_at table.now) parts.now))))) }
{
    let Some((first, params)) = parts.split_first() else {
        return Ok(());
    };
    visit_parts(table, what, out, levels, depth, params, walk)?;
    let result = Visited {
        number: *first,
        depth,
    };
    visit(table, what, out, levels, result, walk)?;
    Ok(())
}

/// Notes what some numbers stand for mentions, so many scopes deep.
#[cycle(walking)]
fn visit_parts(
    table: &TypeTable,
    what: What,
    out: usize,
    levels: usize,
    depth: usize,
    parts: &[usize],
    walk: &mut Walk,
) -> Result<(), Memory>
    requires there { IsBelow (length table.now) parts.now }
    requires visited { AreVisited what out table.now walk.old }
    ensures visited { OnOk result (AreVisited what out table.now walk.new) }
    ensures seen { OnOk result (walk.new.seen.keys ≡ with_numbers walk.old.seen.keys
        (picked_in what out (trees_mentions depth (trees_of (map (tree_at table.now) parts.now))))) }
{
    for part in parts {
        let place = Visited {
            number: *part,
            depth,
        };
        visit(table, what, out, levels, place, walk)?;
    }
    Ok(())
}

/// The numbers of the resources, or of the places that named types, of the scope so far out that some numbers stand for
/// mention: each once, in the order in which they are mentioned first.
///
/// What is shared is looked at once for each depth at which it is mentioned. `Memory` also where more than a thousand types
/// and entities lie within each other.
pub fn first_mentioned(
    table: &TypeTable,
    alloc: Global,
    what: What,
    out: usize,
    numbers: &[usize],
) -> Result<IndexSet<usize>, Memory>
    requires { IsBelow (length table.now) numbers.now }
    ensures { IfOk result (λ found.
        found.keys ≡ first_mentions (picked_in what out (mentions_at table.now numbers.now))) }
{
    let mut walk = Walk {
        seen: IndexSet::new(alloc),
        visited: IndexSet::new(alloc),
    };
    visit_parts(table, what, out, LEVELS, 0, numbers, &mut walk)?;
    Ok(walk.seen)
}
