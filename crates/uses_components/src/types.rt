//! Callers of `comp_table`.

ghost use Rattle.std.specs.Prelude.{◌≡◌, ◌<◌, length, IfOk};
ghost use Rattle.comp_entity.specs.Fits.{equal};
ghost use Rattle.comp_entity.specs.Views.{entity_tree};
ghost use Rattle.comp_table.specs.Trees.{Extends, Stands, more, none, tree, tree_at};

use comp_entity::Entity;
use comp_table::{Head, Numbers, TypeTable};
use std::alloc::Global;
use warg_values::Memory;

/// The number of the type of lists of what has this number.
pub fn list_of(alloc: Global, table: &mut TypeTable, item: usize) -> Result<usize, Memory>
    requires { item < length table.old }
    ensures extends { Extends table.old table.new }
    ensures number { IfOk result (λ n.
        Stands table.new n (tree Head.ListOf (more (tree_at table.old item) none))) }
{
    let parts = Numbers::from_vec(vec![in alloc; item]?);
    table.number_of(alloc, Head::ListOf, parts)
}

/// Whether two entities are equal, by their numbers in a table.
pub fn are_equal(
    alloc: Global,
    table: &mut TypeTable,
    first: &Entity,
    second: &Entity,
) -> Result<bool, Memory>
    ensures { IfOk result (λ answer. answer ≡ equal (entity_tree first.now) (entity_tree second.now)) }
{
    let first = table.intern(alloc, first)?;
    let second = table.intern(alloc, second)?;
    Ok(table.equal(first, second))
}
