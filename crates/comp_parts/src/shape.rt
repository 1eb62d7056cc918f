//! What a component imports and exports, as it lies in memory.

ghost use Rattle.std.specs.Prelude.{◌≡◌, ◌+◌, ◌<◌, IfOk, length};
ghost use Rattle.warg_values.specs.Answers.{Gives};
ghost use Rattle.comp_entity.specs.Bounds.{bounded, entries_nodes};
ghost use Rattle.comp_entity.specs.Views.{Sides, shape_tree};
ghost use Rattle.comp_parts.specs.Sides.{LieAt, StandAt, checked_size, listed_sides};
ghost use Rattle.comp_scope.specs.Shape.{as_shape};
ghost use Rattle.comp_space.specs.Faults.{Finds, fault_of};
ghost use Rattle.comp_table.specs.Facts.{capped};

use comp_entity::{Entity, Shape};
use comp_space::ScopeError;
use comp_table::laws::trees_are_as_large;
use comp_table::{TypeNumber, TypeTable};
use comp_view::entity_at;
use comp_view::laws::shown_entities_can_lie_in_memory;
use std::alloc::Global;
use warg_values::Memory;

/// How many nodes the imports and exports of a component may have at most.
const NODES: usize = 1_000_000;

/// How many nodes a component has: itself, its imports and its exports.
fn node_count(table: &TypeTable, number: usize) -> usize
    requires { number < length table.now }
    ensures { (c : Sides) → StandAt table.now number c
        → result ≡ capped (1 + entries_nodes c.imports + entries_nodes c.exports) }
{
    trees_are_as_large();
    table.size(number)
}

/// Whether the imports and exports of a component keep the bound of a shape.
fn check_size(table: &TypeTable, number: usize) -> Result<(), ScopeError>
    requires { number < length table.now }
    ensures { (c : Sides) → StandAt table.now number c → Gives fault_of (λ u. u) result (checked_size bounded c) }
{
    // The component itself is a node.
    if node_count(table, number) > NODES + 1 {
        return Err(ScopeError::TooBig);
    }
    Ok(())
}

/// What the component of a number imports and exports, with all naming bits.
fn sides_at(table: &TypeTable, alloc: Global, number: usize) -> Result<Shape, Memory>
    requires { (c : Sides) × LieAt table.now number c }
    ensures { (c : Sides) → StandAt table.now number c → IfOk result (λ s. shape_tree s ≡ listed_sides c) }
{
    shown_entities_can_lie_in_memory();
    match entity_at(table, alloc, TypeNumber(number))? {
        Entity::Component(component) => Ok(Shape {
            imports: component.imports,
            exports: component.exports,
        }),
        _ => unreachable!(),
    }
}

/// The imports and exports of the component of a number, with all naming bits. More than a million nodes are `TooBig`.
/// `Memory` also where more than a thousand types and entities lie within each other.
pub fn shape_at(table: &TypeTable, alloc: Global, number: usize) -> Result<Shape, ScopeError>
    requires { (c : Sides) × LieAt table.now number c }
    ensures { (c : Sides) → StandAt table.now number c
        → Finds (λ s t. shape_tree s ≡ t) result (as_shape bounded c) }
{
    check_size(table, number)?;
    let shape = sides_at(table, alloc, number)?;
    Ok(shape)
}
