//! Whether a composition can be written.

ghost use Rattle.std.specs.Prelude.{◌≡◌, [], true, IfErr, IfOk, map};
ghost use Rattle.compose_check.specs.Checked.{IsAgreement, IsCheckRefusal, IsSound};
ghost use Rattle.compose_check.specs.Composition.{CompositionTree, IsComposition, composition_tree, wiring};
ghost use Rattle.compose_check.specs.Open.{all_agree, left_open, lefts};
ghost use Rattle.compose_fit.specs.Fit.{WiresFit};
ghost use Rattle.compose_check.specs.Bits.{IsBitRefusal, IsOrdered};
ghost use Rattle.compose_left.specs.Numbers.{AreOrigins};
ghost use Rattle.compose_left.specs.Wiring.{HasNoCircle, shapes_of};
ghost use Rattle.compose_naming.specs.Bits.{HaveBits};
ghost use Rattle.compose_order.specs.Known.{left_tree, merged_left};

use crate::agreed::Agreed;
use crate::composition::Composition;
use crate::error::{CheckError, Why};
use crate::fit::{check_fit, shapes};
use crate::instances::instance_order;
use crate::open::left_imports;
use comp_entity::Shape;
use compose_left::{MergeError, MergedImport, Origins, origins};
use compose_naming::first_without_bit;
use compose_order::{LeftImport, OrderError, ordered};
use std::alloc::Global;

/// Left imports in the order in which they are written, where each of their functions has the naming bit.
fn with_bits(alloc: Global, lefts: Vec<LeftImport>) -> Result<Vec<LeftImport>, CheckError>
    ensures bits { IfOk result
        (λ out. (map left_tree out.items ≡ map left_tree lefts.items) × HaveBits (map left_tree out.items)) }
    ensures refused { IfErr result (IsBitRefusal (map left_tree lefts.items)) }
{
    match first_without_bit(alloc, &lefts)? {
        None => Ok(lefts),
        Some(number) => {
            let name = lefts[number].name.try_clone(alloc)?;
            Err(CheckError::Incompatible(Why::NeedsUnbrought(name)))
        }
    }
}

/// What is left open, merged, in the order in which it is written, before anything is known of naming bits.
fn ordered_lefts(
    alloc: Global,
    origins: &Origins,
    list: Vec<MergedImport>,
) -> Result<Vec<LeftImport>, CheckError>
    ensures ordered { (c : CompositionTree) → AreOrigins origins.now (wiring c)
        → map merged_left list.items ≡ lefts (wiring c) → all_agree [] (left_open (wiring c)) ≡ true
        → IfOk result (λ out. IsOrdered (wiring c) (map left_tree out.items)) }
    ensures refused { (c : CompositionTree) → AreOrigins origins.now (wiring c)
        → map merged_left list.items ≡ lefts (wiring c) → all_agree [] (left_open (wiring c)) ≡ true
        → HasNoCircle (wiring c) → WiresFit (wiring c) → IfErr result (IsCheckRefusal c) }
{
    match ordered(alloc, origins, list) {
        Ok(lefts) => Ok(lefts),
        Err(OrderError::CaseClash(earlier, later)) => {
            Err(CheckError::Incompatible(Why::CaseClash(earlier, later)))
        }
        Err(OrderError::NeedsUnbrought(name)) => {
            Err(CheckError::Incompatible(Why::NeedsUnbrought(name)))
        }
        Err(OrderError::Circle(name)) => Err(CheckError::Incompatible(Why::Circle(name))),
        Err(OrderError::Memory) => Err(CheckError::Memory),
    }
}

/// What is left open, merged, in the order in which it is written.
fn in_order(
    alloc: Global,
    origins: &Origins,
    list: Vec<MergedImport>,
) -> Result<Vec<LeftImport>, CheckError>
    ensures agree { (c : CompositionTree) → AreOrigins origins.now (wiring c)
        → map merged_left list.items ≡ lefts (wiring c) → all_agree [] (left_open (wiring c)) ≡ true
        → IfOk result (λ out. IsAgreement (wiring c) (map left_tree out.items)) }
    ensures refused { (c : CompositionTree) → AreOrigins origins.now (wiring c)
        → map merged_left list.items ≡ lefts (wiring c) → all_agree [] (left_open (wiring c)) ≡ true
        → HasNoCircle (wiring c) → WiresFit (wiring c) → IfErr result (IsCheckRefusal c) }
{
    let lefts = ordered_lefts(alloc, origins, list)?;
    with_bits(alloc, lefts)
}

/// What the instances leave open, merged, in the order in which it is written, where each wire fits.
fn left_in_order(
    alloc: Global,
    composition: &Composition<'_>,
    shapes: &[&Shape],
    origins: &Origins,
) -> Result<Vec<LeftImport>, CheckError>
    requires shapes { shapes_of shapes.now ≡ (wiring (composition_tree composition.now)).shapes }
    requires origins { AreOrigins origins.now (wiring (composition_tree composition.now)) }
    requires no_circle { HasNoCircle (wiring (composition_tree composition.now)) }
    requires fit { WiresFit (wiring (composition_tree composition.now)) }
    ensures agree { IfOk result
        (λ out. IsAgreement (wiring (composition_tree composition.now)) (map left_tree out.items)) }
    ensures refused { IfErr result (IsCheckRefusal (composition_tree composition.now)) }
{
    match left_imports(alloc, origins, shapes, &composition.wires) {
        Ok(list) => {
            let lefts = in_order(alloc, origins, list)?;
            Ok(lefts)
        }
        Err(MergeError::Disagree(name)) => Err(CheckError::Incompatible(Why::Disagree(name))),
        Err(MergeError::Memory) => Err(CheckError::Memory),
    }
}

/// Finds whether a composition can be written, with the order of its instances, what they leave open, and where their
/// resources and named types come from.
///
/// Of what refuses it the first is the error: `Cycle` where instances are given to each other in a circle;
/// `NotInstance` or `Unfit` for the first wire that does not fit; `Disagree` for the first that is asked under a name
/// and does not agree with what was asked under it before; what refuses left imports that are `ordered`; and
/// `NeedsUnbrought` for the first of them, in their order, that has a function over a type with parts that have no name
/// where they are written.
pub fn check(alloc: Global, composition: &Composition<'_>) -> Result<Agreed, CheckError>
    requires { IsComposition (composition_tree composition.now) }
    ensures sound { IfOk result
        (λ a. IsSound (composition_tree composition.now) a.order.items (map left_tree a.lefts.items)) }
    ensures origins { IfOk result (λ a. AreOrigins a.origins (wiring (composition_tree composition.now))) }
    ensures refused { IfErr result (IsCheckRefusal (composition_tree composition.now)) }
{
    let order = instance_order(alloc, composition)?;
    let shapes = shapes(alloc, composition)?;
    let origins = origins(alloc, &shapes, &composition.wires)?;
    check_fit(alloc, composition, &origins)?;
    let lefts = left_in_order(alloc, composition, &shapes, &origins)?;
    Ok(Agreed {
        order,
        lefts,
        origins,
    })
}
