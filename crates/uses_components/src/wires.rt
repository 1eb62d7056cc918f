//! A caller of `compose_fit`.

ghost use Rattle.std.specs.Prelude.{IfOk, MatchOption};
ghost use Rattle.compose_fit.specs.Fit.{IsMisfit, WiresFit};
ghost use Rattle.compose_fit.specs.Seen.{AreInstances};
ghost use Rattle.compose_left.specs.Wiring.{HasNoCircle, shapes_of};

use comp_entity::Shape;
use comp_table::TypeTable;
use compose_fit::{Misfit, ShapeNumbers, first_misfit};
use compose_left::{Wire, origins};
use std::alloc::Global;
use warg_values::Memory;

/// The first wire that does not fit, of instances with these shapes, whose components have these numbers in a table.
pub fn unfit_wire(
    alloc: Global,
    table: &mut TypeTable,
    shapes: &[&Shape],
    components: &[ShapeNumbers],
    instances: &[usize],
    wires: &[Wire],
) -> Result<Option<Misfit>, Memory>
    requires numbers { AreInstances table.old components.now instances.now (shapes_of shapes.now) }
    requires order { HasNoCircle (record { shapes = shapes_of shapes.now; wires = wires.now }) }
    ensures { IfOk result (λ found. MatchOption found
        (WiresFit (record { shapes = shapes_of shapes.now; wires = wires.now }))
        (IsMisfit (record { shapes = shapes_of shapes.now; wires = wires.now }))) }
{
    let origins = origins(alloc, shapes, wires)?;
    let misfit = first_misfit(table, alloc, &origins, components, instances, wires)?;
    Ok(misfit)
}
