//! What numbers stand for, with all resources taken as one.

ghost use Rattle.std.specs.Prelude.{◌≡◌, ◌<◌, ℕ, length, map, IfOk, OnOk};
ghost use Rattle.comp_entity.specs.Entity.{made};
ghost use Rattle.comp_fit.specs.Known.{AreLoosened};
ghost use Rattle.comp_fit.specs.Loose.{loose_tree, loosely};
ghost use Rattle.comp_table.specs.Changes.{head_by, tree_by};
ghost use Rattle.comp_table.specs.Trees.{AllStand, Extends, IsBelow, Stands, tree_at};

use crate::pair::inner;
use comp_entity::ResourceNo;
use comp_table::{Head, Numbers, TypeTable};
use std::alloc::Global;
use std::collections::BTreeMap;
use warg_values::Memory;

/// How many levels deep what is loosened may lie at most.
const LEVELS: usize = 1000;

/// The one resource that stands for all.
fn one_resource() -> ResourceNo
    ensures { result ≡ made 0 }
{
    match ResourceNo::new(0, 0) {
        Some(resource) => resource,
        None => unreachable!(),
    }
}

/// A head, with all resources taken as one.
fn loose_head(alloc: Global, head: &Head) -> Result<Head, Memory>
    ensures { IfOk result (λ loose. (depth : ℕ) → loose ≡ head_by loosely depth head.now) }
{
    match head {
        Head::RecordOf(_) => Ok(Head::RecordOf(None)),
        Head::VariantOf(_) => Ok(Head::VariantOf(None)),
        Head::FlagsOf(_) => Ok(Head::FlagsOf(None)),
        Head::EnumOf(_) => Ok(Head::EnumOf(None)),
        Head::Own(_) => Ok(Head::Own(one_resource())),
        Head::Borrow(_) => Ok(Head::Borrow(one_resource())),
        Head::Resource(_) => Ok(Head::Resource(one_resource())),
        Head::Entry(_, name) => Ok(Head::Entry(true, name.try_clone(alloc)?)),
        other => other.try_clone(alloc),
    }
}

/// A copy of some numbers.
fn copied(alloc: Global, numbers: &[usize]) -> Result<Vec<usize>, Memory>
    ensures { IfOk result (λ copy. copy.items ≡ numbers.now) }
{
    let mut copy = Vec::new(alloc);
    copy.extend_from_slice(numbers)?;
    Ok(copy)
}

/// The number of what a number stands for, with all resources taken as one.
#[cycle(loosening)]
fn loosen(
    table: &mut TypeTable,
    known: &mut BTreeMap<usize, usize>,
    alloc: Global,
    levels: usize,
    number: usize,
) -> Result<usize, Memory>
    requires there { number < length table.old }
    requires known { AreLoosened table.old known.old }
    ensures extends { Extends table.old table.new }
    ensures known { OnOk result (AreLoosened table.new known.new) }
    ensures number { IfOk result
        (λ n. (depth : ℕ) → Stands table.new n (tree_by loosely depth (tree_at table.old number))) }
{
    if let Some(loosened) = known.get(&number) {
        return Ok(*loosened);
    }
    let levels = inner(levels)?;
    let head = loose_head(alloc, table.head(number))?;
    let parts = copied(alloc, table.parts(number))?;
    let loosened_parts = loosen_parts(table, known, alloc, levels, &parts)?;
    let loosened = table.number_of(alloc, head, Numbers::from_vec(loosened_parts))?;
    match known.insert(number, loosened) {
        Ok(_) => Ok(loosened),
        Err(_) => Err(Memory),
    }
}

/// The numbers of what some numbers stand for, with all resources taken as one.
#[cycle(loosening)]
fn loosen_parts(
    table: &mut TypeTable,
    known: &mut BTreeMap<usize, usize>,
    alloc: Global,
    levels: usize,
    parts: &[usize],
) -> Result<Vec<usize>, Memory>
    requires below { IsBelow (length table.old) parts.now }
    requires known { AreLoosened table.old known.old }
    ensures extends { Extends table.old table.new }
    ensures known { OnOk result (AreLoosened table.new known.new) }
    ensures numbers { IfOk result (λ ns. (depth : ℕ)
        → AllStand table.new ns.items (map (λ p. tree_by loosely depth (tree_at table.old p)) parts.now)) }
{
    let mut numbers = Vec::new(alloc);
    for part in parts {
        let number = loosen(table, known, alloc, levels, *part)?;
        numbers.push(number)?;
    }
    Ok(numbers)
}

/// The number of what a number stands for, with all resources taken as one, without the places that named types and
/// with all naming bits. Whatever the answer, the numbers given so far keep their meaning. What is shared stays shared.
/// `Memory` also where more than a thousand types and entities lie within each other.
pub fn loosened(table: &mut TypeTable, alloc: Global, number: usize) -> Result<usize, Memory>
    requires { number < length table.old }
    ensures kept { Extends table.old table.new }
    ensures number { IfOk result (λ n. Stands table.new n (loose_tree (tree_at table.old number))) }
{
    let mut known = BTreeMap::new(alloc);
    loosen(table, &mut known, alloc, LEVELS, number)
}
