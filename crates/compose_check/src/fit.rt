//! Whether what wires join fits.

ghost use Rattle.std.specs.Prelude.{◌≡◌, map, IfErr, IfOk, MatchOption, OnOk};
ghost use Rattle.comp_table.specs.Trees.{Extends};
ghost use Rattle.compose_check.specs.Checked.{IsCheckRefusal, IsUnfitWire};
ghost use Rattle.compose_check.specs.Composition.{IsComposition, composition_tree, wiring};
ghost use Rattle.compose_check.specs.Shapes.{AreNumbered, lent_shape_tree};
ghost use Rattle.compose_fit.specs.Fit.{IsMisfit, WiresFit};
ghost use Rattle.compose_left.specs.Numbers.{AreOrigins};
ghost use Rattle.compose_left.specs.Wiring.{HasNoCircle, shapes_of};

use crate::composition::Composition;
use crate::error::{CheckError, Why};
use comp_entity::Shape;
use comp_table::TypeTable;
use compose_fit::{Misfit, ShapeNumbers, Unfit, first_misfit};
use compose_left::Origins;
use std::alloc::Global;
use warg_values::Memory;

/// The shapes of the instances.
pub fn shapes<'a>(alloc: Global, composition: &Composition<'a>) -> Result<Vec<&'a Shape>, Memory>
    requires { IsComposition (composition_tree composition.now) }
    ensures { IfOk result (λ shapes. shapes_of shapes.items ≡ (wiring (composition_tree composition.now)).shapes) }
{
    let mut shapes = Vec::new(alloc);
    for number in &composition.instances {
        let component = composition.components[*number];
        shapes.push(component.types())?;
    }
    Ok(shapes)
}

/// The numbers of what the components import and export.
fn numbers(
    alloc: Global,
    table: &mut TypeTable,
    composition: &Composition<'_>,
) -> Result<Vec<ShapeNumbers>, Memory>
    ensures { IfOk result (λ numbers.
        AreNumbered table.new numbers.items (map lent_shape_tree composition.now.components.items)) }
{
    let mut numbers = Vec::new(alloc);
    for number in 0..composition.components.len() {
        let component = composition.components[number];
        numbers.push(ShapeNumbers::of(table, alloc, component.types())?)?;
    }
    Ok(numbers)
}

/// Why a wire does not fit.
fn unfit(misfit: Misfit) -> Why
    ensures { IsUnfitWire result misfit }
{
    let Misfit {
        target: _target,
        import,
        why,
    } = misfit;
    match why {
        Unfit::NotInstance => Why::NotInstance(import),
        Unfit::Export(export) => Why::Unfit(export, import),
    }
}

/// Finds whether each wire fits: all resources being taken as one, and then with origins in place.
pub fn check_fit(
    alloc: Global,
    composition: &Composition<'_>,
    origins: &Origins,
) -> Result<(), CheckError>
    requires made { IsComposition (composition_tree composition.now) }
    requires origins { AreOrigins origins.now (wiring (composition_tree composition.now)) }
    requires no_circle { HasNoCircle (wiring (composition_tree composition.now)) }
    ensures fit { OnOk result (WiresFit (wiring (composition_tree composition.now))) }
    ensures refused { IfErr result (IsCheckRefusal (composition_tree composition.now)) }
{
    if composition.wires.is_empty() {
        // Nothing is given, so what the components import and export need not be numbered.
        return Ok(());
    }
    let mut table = TypeTable::new(alloc);
    let numbers = numbers(alloc, &mut table, composition)?;
    match first_misfit(
        &mut table,
        alloc,
        origins,
        &numbers,
        &composition.instances,
        &composition.wires,
    )? {
        None => Ok(()),
        Some(misfit) => Err(CheckError::Incompatible(unfit(misfit))),
    }
}
