//! The order in which the instances of a composition are written.

ghost use Rattle.std.specs.Prelude.{◌≡◌, ◌<◌, ◌++◌, ◌∷◌, [], ℕ, length, map, slice_set, vec_len, IfErr, IfOk, OnOk};
ghost use Rattle.std.specs.List.{AllByRecursion, range_with_len};
ghost use Rattle.compose_agree.specs.Order.{IsStuck, all_of, is_ready, needs_at, needs_of};
ghost use Rattle.compose_check.specs.Checked.{IsCheckRefusal, IsCircle, IsComponentOf, IsInstanceOrder, sources};
ghost use Rattle.compose_check.specs.Composition.{IsBetween, IsComposition, composition_tree, sources_of, wiring};
ghost use Rattle.compose_left.specs.Wiring.{HasNoCircle};

use crate::circles::last_on_circle;
use crate::composition::Composition;
use crate::error::CheckError;
use compose_agree::laws::only_circles_have_no_order;
use compose_agree::{Order, order_of};
use compose_left::Wire;
use std::alloc::Global;
use warg_values::{Memory, Text};

/// As many lists as this, with nothing in them.
fn empty_lists(alloc: Global, count: usize) -> Result<Vec<Vec<usize>>, Memory>
    ensures { IfOk result (λ lists. needs_of lists.items ≡ map (sources_of []) (range_with_len 0 count)) }
{
    let mut lists = Vec::new(alloc);
    for _made in 0..count {
        lists.push(Vec::new(alloc))?;
    }
    Ok(lists)
}

/// Adds what a wire gives to the list of its target.
fn add_source(lists: &mut Vec<Vec<usize>>, wire: Wire) -> Result<(), Memory>
    requires { wire.target < vec_len lists.old }
    ensures { IfOk result (λ done. needs_of lists.new.items ≡ slice_set (needs_of lists.old.items) wire.target
        (needs_at (needs_of lists.old.items) wire.target ++ wire.source ∷ [])) }
{
    let list = &mut lists[wire.target];
    list.push(wire.source)?;
    Ok(())
}

/// The instances that each of so many is given.
fn sources(alloc: Global, instances: usize, wires: &[Wire]) -> Result<Vec<Vec<usize>>, Memory>
    requires { AllByRecursion (IsBetween instances) wires.now }
    ensures { IfOk result (λ lists. needs_of lists.items ≡ map (sources_of wires.now) (range_with_len 0 instances)) }
{
    let mut lists = empty_lists(alloc, instances)?;
    for wire in wires {
        add_source(&mut lists, *wire)?;
    }
    Ok(lists)
}

/// The name of the component of an instance.
fn component_name(
    alloc: Global,
    composition: &Composition<'_>,
    instance: usize,
) -> Result<Text, Memory>
    requires made { IsComposition (composition_tree composition.now) }
    requires there { instance < length composition.now.instances.items }
    ensures { IfOk result (λ name. IsComponentOf (composition_tree composition.now) instance name) }
{
    let number = composition.instances[instance];
    let component = composition.components[number];
    let name = Text::copy_of(alloc, component.name())?;
    Ok(name)
}

/// The last instance on a circle, and the name of its component.
fn last_of_circle(
    alloc: Global,
    composition: &Composition<'_>,
    given: &[Vec<usize>],
) -> Result<(usize, Text), Memory>
    requires made { IsComposition (composition_tree composition.now) }
    requires given { needs_of given.now ≡ sources (composition_tree composition.now) }
    requires stuck { (n : ℕ) × IsStuck (is_ready (needs_of given.now)) (all_of (needs_of given.now)) n }
    ensures { IfOk result (λ last. IsCircle (composition_tree composition.now) last.0 last.1) }
{
    let Some(instance) = last_on_circle(alloc, given)? else {
        // Where some wait for each other, one is on a circle.
        unreachable!()
    };
    let name = component_name(alloc, composition, instance)?;
    Ok((instance, name))
}

/// The instances in the order in which they are written: of those of which all that they are given is written, always
/// the one that was made first. `Cycle` where some are given to each other in a circle.
pub fn instance_order(
    alloc: Global,
    composition: &Composition<'_>,
) -> Result<Vec<usize>, CheckError>
    requires { IsComposition (composition_tree composition.now) }
    ensures order { IfOk result (λ order. IsInstanceOrder (composition_tree composition.now) order.items) }
    ensures no_circle { OnOk result (HasNoCircle (wiring (composition_tree composition.now))) }
    ensures refused { IfErr result (IsCheckRefusal (composition_tree composition.now)) }
{
    only_circles_have_no_order();
    let given = sources(alloc, composition.instances.len(), &composition.wires)?;
    match order_of(alloc, &given)? {
        Order::Whole(order) => Ok(order),
        Order::Circle(_) => {
            let (instance, name) = last_of_circle(alloc, composition, &given)?;
            Err(CheckError::Cycle(instance, name))
        }
    }
}
