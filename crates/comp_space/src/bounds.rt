//! Bounds of what is read.

ghost use Rattle.std.specs.Prelude.{◌≡◌, ◌<◌, length};
ghost use Rattle.warg_values.specs.Answers.{Gives};
ghost use Rattle.comp_entity.specs.Bounds.{bounded, depth_of, entity_nodes, kept};
ghost use Rattle.comp_entity.specs.Entity.{EntityTree};
ghost use Rattle.comp_space.specs.Faults.{fault_of};
ghost use Rattle.comp_table.specs.Facts.{capped};
ghost use Rattle.comp_table.specs.Plain.{plain_entity};
ghost use Rattle.comp_table.specs.Trees.{Stands};

use crate::error::ScopeError;
use crate::parts::is_value;
use comp_table::TypeTable;
use comp_table::laws::{trees_are_as_deep, trees_are_as_large};

/// How deep a value type may be at most.
const LEVELS: usize = 100;

/// How many nodes an entity may have at most.
const NODES: usize = 1_000_000;

/// How deep an entity is that is a value type, and 0 of all else.
fn value_depth(table: &TypeTable, number: usize) -> usize
    requires { number < length table.now }
    ensures { (e : EntityTree) → Stands table.now number (plain_entity e) → result ≡ capped (depth_of e) }
{
    trees_are_as_deep();
    if is_value(table.head(number)) {
        table.depth(number)
    } else {
        0
    }
}

/// How many nodes an entity has.
fn node_count(table: &TypeTable, number: usize) -> usize
    requires { number < length table.now }
    ensures { (e : EntityTree) → Stands table.now number (plain_entity e) → result ≡ capped (entity_nodes e) }
{
    trees_are_as_large();
    table.size(number)
}

/// Whether an entity keeps the bounds.
pub fn check_bounds(table: &TypeTable, number: usize) -> Result<(), ScopeError>
    requires { number < length table.now }
    ensures { (e : EntityTree) → Stands table.now number (plain_entity e)
        → Gives fault_of (λ u. u) result (kept bounded e tt) }
{
    if value_depth(table, number) > LEVELS {
        return Err(ScopeError::TooDeep);
    }
    if node_count(table, number) > NODES {
        return Err(ScopeError::TooBig);
    }
    Ok(())
}
