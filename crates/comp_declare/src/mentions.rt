//! Whether types mention resources.

ghost use Rattle.std.specs.Prelude.{◌≡◌, ◌<◌, IfOk, length, map, OnOk};
ghost use Rattle.comp_declare.specs.Mentioned.{AreWithout, any_has_resource, has_resource, names_resource};
ghost use Rattle.comp_entity.specs.Entity.{TypeShapeTree};
ghost use Rattle.comp_entity.specs.Names.{mentions_resource};
ghost use Rattle.comp_table.specs.Plain.{plain_type};
ghost use Rattle.comp_table.specs.Trees.{IsBelow, Stands, tree_at, trees_of};

use comp_mention::laws::trees_mention_as_entities;
use comp_table::{Head, TypeTable};
use indexmap::IndexSet;
use std::alloc::Global;
use warg_values::Memory;

/// How many levels deep what is looked at may lie at most.
const LEVELS: usize = 1000;

/// How many levels more may lie within what lies where so many may.
fn inner(levels: usize) -> Result<usize, Memory>
    ensures { IfOk result (λ n. n < levels) }
{
    match levels.checked_sub(1) {
        Some(levels) => Ok(levels),
        None => Err(Memory),
    }
}

/// Whether a head names a resource.
fn names_resource(head: &Head) -> bool
    ensures { result ≡ names_resource head.now }
{
    matches!(head, Head::Own(_) | Head::Borrow(_) | Head::Resource(_))
}

/// Whether what a number stands for mentions a resource. Of what is among the others it is known that it does not.
#[cycle(looking)]
fn look(
    table: &TypeTable,
    without: &mut IndexSet<usize>,
    levels: usize,
    number: usize,
) -> Result<bool, Memory>
    requires there { number < length table.now }
    requires without { AreWithout table.now without.old.keys }
    ensures without { OnOk result (AreWithout table.now without.new.keys) }
    ensures found { IfOk result (λ b. b ≡ has_resource (tree_at table.now number)) }
{
    if without.contains(&number) {
        return Ok(false);
    }
    let levels = inner(levels)?;
    if names_resource(table.head(number)) {
        return Ok(true);
    }
    if look_below(table, without, levels, table.parts(number))? {
        return Ok(true);
    }
    without.insert(number)?;
    Ok(false)
}

/// Whether one of some numbers stands for what mentions a resource.
#[cycle(looking)]
fn look_below(
    table: &TypeTable,
    without: &mut IndexSet<usize>,
    levels: usize,
    parts: &[usize],
) -> Result<bool, Memory>
    requires there { IsBelow (length table.now) parts.now }
    requires without { AreWithout table.now without.old.keys }
    ensures without { OnOk result (AreWithout table.now without.new.keys) }
    ensures found { IfOk result (λ b. b ≡ any_has_resource (trees_of (map (tree_at table.now) parts.now))) }
{
    for part in parts {
        if look(table, without, levels, *part)? {
            return Ok(true);
        }
    }
    Ok(false)
}

/// Whether a type mentions a resource, one of its own scopes too. What is shared is looked at once. `Memory` also where
/// more than a thousand types and entities lie within each other.
pub fn mentions_resource(table: &TypeTable, alloc: Global, number: usize) -> Result<bool, Memory>
    requires { number < length table.now }
    ensures { (t : TypeShapeTree) → Stands table.now number (plain_type t)
        → IfOk result (λ b. b ≡ mentions_resource t) }
{
    trees_mention_as_entities();
    let mut without = IndexSet::new(alloc);
    look(table, &mut without, LEVELS, number)
}
