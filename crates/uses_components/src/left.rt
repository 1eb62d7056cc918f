//! A caller of `compose_left`.

ghost use Rattle.std.specs.Prelude.{◌≡◌, IfOk, IfSome};
ghost use Rattle.comp_entity.specs.Views.{entity_tree};
ghost use Rattle.compose_left.specs.Origins.{placed};
ghost use Rattle.compose_left.specs.Wiring.{shapes_of};

use comp_entity::{Entity, Shape};
use compose_left::{Wire, follows_order, origins};
use std::alloc::Global;
use warg_values::Memory;

/// An entity of an instance with the numbers of origins in place. `None` where a wire comes from an instance that is
/// made no earlier than the one that it goes to.
pub fn placed_entity(
    alloc: Global,
    shapes: &[&Shape],
    wires: &[Wire],
    at: usize,
    entity: &Entity,
) -> Result<Option<Entity>, Memory>
    ensures { IfOk result (λ found. IfSome found (λ copy. entity_tree copy
        ≡ placed (record { shapes = shapes_of shapes.now; wires = wires.now }) at (entity_tree entity.now))) }
{
    if !follows_order(shapes, wires) {
        return Ok(None);
    }
    let origins = origins(alloc, shapes, wires)?;
    let copy = origins.place(alloc, at, entity)?;
    Ok(Some(copy))
}
