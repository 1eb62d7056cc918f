//! Core modules of a component's own, whose type is not known, in entities.

ghost use Rattle.std.specs.Prelude.{◌≡◌, ◌<◌, IfOk, length, map, OnOk};
ghost use Rattle.comp_instance.specs.OwnModules.{AreWithout, any_holds, goes_into, holds, is_own};
ghost use Rattle.comp_table.specs.Trees.{IsBelow, tree_at, trees_of};

use comp_table::{Head, TypeTable};
use indexmap::IndexSet;
use std::alloc::Global;
use warg_values::Memory;

/// How many levels deep what is looked at may lie at most.
const LEVELS: usize = 1000;

/// In what core modules are looked for.
#[derive(Clone, Copy, PartialEq, Eq)]
pub enum Within {
    /// In instances, and instances within these.
    Instances,
    /// In instances, components, and their types.
    Everything,
}

/// How many levels more may lie within what lies where so many may.
fn inner(levels: usize) -> Result<usize, Memory>
    ensures { IfOk result (λ n. n < levels) }
{
    match levels.checked_sub(1) {
        Some(levels) => Ok(levels),
        None => Err(Memory),
    }
}

/// Whether a core module of a component's own has this root.
fn is_own(head: &Head) -> bool
    ensures { result ≡ is_own head.now }
{
    matches!(head, Head::OwnModule)
}

/// Whether core modules are looked for in the parts of a root.
fn goes_into(head: &Head, within: Within) -> bool
    ensures { result ≡ goes_into head.now within }
{
    match head {
        Head::Instance => true,
        Head::Entry(_, _) => true,
        Head::Entries => within == Within::Everything,
        Head::Component => within == Within::Everything,
        Head::InstanceType => within == Within::Everything,
        Head::ComponentType => within == Within::Everything,
        _ => false,
    }
}

/// Whether a core module of a component's own stands in what a number stands for. Of what is among the others it is
/// known that none does.
#[cycle(looking)]
fn look(
    table: &TypeTable,
    without: &mut IndexSet<usize>,
    within: Within,
    levels: usize,
    number: usize,
) -> Result<bool, Memory>
    requires there { number < length table.now }
    requires without { AreWithout within table.now without.old.keys }
    ensures without { OnOk result (AreWithout within table.now without.new.keys) }
    ensures found { IfOk result (λ b. b ≡ holds within (tree_at table.now number)) }
{
    if without.contains(&number) {
        return Ok(false);
    }
    let levels = inner(levels)?;
    if is_own(table.head(number)) {
        return Ok(true);
    }
    if !goes_into(table.head(number), within) {
        return Ok(false);
    }
    if look_below(table, without, within, levels, table.parts(number))? {
        return Ok(true);
    }
    without.insert(number)?;
    Ok(false)
}

/// Whether a core module of a component's own stands in what one of some numbers stands for.
#[cycle(looking)]
fn look_below(
    table: &TypeTable,
    without: &mut IndexSet<usize>,
    within: Within,
    levels: usize,
    parts: &[usize],
) -> Result<bool, Memory>
    requires there { IsBelow (length table.now) parts.now }
    requires without { AreWithout within table.now without.old.keys }
    ensures without { OnOk result (AreWithout within table.now without.new.keys) }
    ensures found { IfOk result (λ b. b ≡ any_holds within (trees_of (map (tree_at table.now) parts.now))) }
{
    for part in parts {
        if look(table, without, within, levels, *part)? {
            return Ok(true);
        }
    }
    Ok(false)
}

/// Whether a core module of a component's own stands in what a number stands for. What is shared is looked at once.
/// `Memory` also where more than a thousand types and entities lie within each other.
pub fn holds_own_module(
    table: &TypeTable,
    alloc: Global,
    within: Within,
    number: usize,
) -> Result<bool, Memory>
    requires { number < length table.now }
    ensures { IfOk result (λ b. b ≡ holds within (tree_at table.now number)) }
{
    let mut without = IndexSet::new(alloc);
    look(table, &mut without, within, LEVELS, number)
}
