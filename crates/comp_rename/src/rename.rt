//! What numbers stand for, in other names.

ghost use Rattle.std.specs.Prelude.{◌≡◌, ◌<◌, length, map, IfOk, OnOk};
ghost use Rattle.comp_entity.specs.Names.{changing};
ghost use Rattle.comp_rename.specs.Known.{IsKnown};
ghost use Rattle.comp_table.specs.Changes.{tree_by};
ghost use Rattle.comp_table.specs.Trees.{AllStand, Extends, IsBelow, Stands, tree_at};

use crate::heads::{depth_within, inner, renamed_head};
use crate::names::Renaming;
use comp_table::{Numbers, TypeTable};
use std::alloc::Global;
use std::collections::BTreeMap;
use warg_values::Memory;

/// How many levels deep what is renamed may lie at most.
const LEVELS: usize = 1000;

/// A number, and how many scopes deep what it stands for is mentioned.
#[derive(Clone, Copy, PartialEq, Eq, PartialOrd, Ord)]
pub struct Mentioned {
    /// The number.
    pub number: usize,
    /// How many scopes deep.
    pub depth: usize,
}

/// The numbers that are known already of what was renamed.
pub type Known = BTreeMap<Mentioned, usize>;

/// A copy of some numbers.
fn copied(alloc: Global, numbers: &[usize]) -> Result<Vec<usize>, Memory>
    ensures { IfOk result (λ copy. copy.items ≡ numbers.now) }
{
    let mut copy = Vec::new(alloc);
    copy.extend_from_slice(numbers)?;
    Ok(copy)
}

/// The number of what a number stands for, mentioned so many scopes deep, in other names.
#[cycle(renaming)]
fn rename<R: Renaming>(
    table: &mut TypeTable,
    known: &mut Known,
    alloc: Global,
    renaming: &R,
    levels: usize,
    place: Mentioned,
) -> Result<usize, Memory>
    requires there { place.number < length table.old }
    requires known { IsKnown (changing (R.resources renaming.now) (R.places renaming.now)) table.old known.old }
    ensures extends { Extends table.old table.new }
    ensures known { OnOk result
        (IsKnown (changing (R.resources renaming.now) (R.places renaming.now)) table.new known.new) }
    ensures number { IfOk result (λ n. Stands table.new n
        (tree_by (changing (R.resources renaming.now) (R.places renaming.now)) place.depth
        (tree_at table.old place.number))) }
{
    if let Some(number) = known.get(&place) {
        return Ok(*number);
    }
    let levels = inner(levels)?;
    let head = renamed_head(alloc, renaming, place.depth, table.head(place.number))?;
    let depth = depth_within(table.head(place.number), place.depth)?;
    let parts = copied(alloc, table.parts(place.number))?;
    let renamed = rename_parts(table, known, alloc, renaming, levels, depth, &parts)?;
    let number = table.number_of(alloc, head, Numbers::from_vec(renamed))?;
    match known.insert(place, number) {
        Ok(_) => Ok(number),
        Err(_) => Err(Memory),
    }
}

/// The numbers of what some numbers stand for, mentioned so many scopes deep, in other names.
#[cycle(renaming)]
fn rename_parts<R: Renaming>(
    table: &mut TypeTable,
    known: &mut Known,
    alloc: Global,
    renaming: &R,
    levels: usize,
    depth: usize,
    parts: &[usize],
) -> Result<Vec<usize>, Memory>
    requires below { IsBelow (length table.old) parts.now }
    requires known { IsKnown (changing (R.resources renaming.now) (R.places renaming.now)) table.old known.old }
    ensures extends { Extends table.old table.new }
    ensures known { OnOk result
        (IsKnown (changing (R.resources renaming.now) (R.places renaming.now)) table.new known.new) }
    ensures numbers { IfOk result (λ ns. AllStand table.new ns.items
        (map (λ p. tree_by (changing (R.resources renaming.now) (R.places renaming.now)) depth (tree_at table.old p))
        parts.now)) }
{
    let mut numbers = Vec::new(alloc);
    for part in parts {
        let place = Mentioned {
            number: *part,
            depth,
        };
        let number = rename(table, known, alloc, renaming, levels, place)?;
        numbers.push(number)?;
    }
    Ok(numbers)
}

/// The number of what a number stands for, in other names: the resources of the scopes around it, and the places there
/// that named its types, are called as the renaming says. Whatever the answer, the numbers given so far keep their
/// meaning. What is shared stays shared. `Memory` also where more than a thousand types and entities lie within each
/// other, and where no number holds a new name.
pub fn renamed<R: Renaming>(
    table: &mut TypeTable,
    alloc: Global,
    renaming: &R,
    number: usize,
) -> Result<usize, Memory>
    requires { number < length table.old }
    ensures kept { Extends table.old table.new }
    ensures number { IfOk result (λ n. Stands table.new n
        (tree_by (changing (R.resources renaming.now) (R.places renaming.now)) 0 (tree_at table.old number))) }
{
    let mut known = BTreeMap::new(alloc);
    rename(
        table,
        &mut known,
        alloc,
        renaming,
        LEVELS,
        Mentioned { number, depth: 0 },
    )
}
