//! Finding where the resources and named types of wired instances come from.

ghost use Rattle.std.specs.Prelude.{◌≡◌, ℕ, ◌++◌, map, length, IfOk, is_some, true};
ghost use Rattle.std.specs.BTreeMap.{get};
ghost use Rattle.comp_entity.specs.Views.{shape_tree};
ghost use Rattle.compose_left.specs.declared.origin.Held.{Held};
ghost use Rattle.compose_left.specs.Origins.{brought_from, held_at, origin, with_origin};
ghost use Rattle.compose_left.specs.Numbers.{AreNoted, AreNumbers, AreOrigins, FindsOrigins, IsNumbered, IsReached, Numbers, held_cmp};
ghost use Rattle.compose_left.specs.Spots.{spots};
ghost use Rattle.compose_left.specs.Wired.{IsWired, wiring_of};
ghost use Rattle.compose_left.specs.Wiring.{HasNoCircle, Wiring, shapes_of};

use crate::known::Origins;
use crate::numbering::{OriginKey, Reached, follow, note_all, number_of};
use crate::origin::{Held, Origin};
use crate::spots::{Spot, spots};
use crate::wiring::{Wire, Wired, wired_of};
use comp_entity::Shape;
use std::alloc::Global;
use std::collections::BTreeMap;
use warg_values::Memory;

/// Adds what an instance brings at some spots.
fn push_held(instance: usize, spots: &[Spot], all: &mut Vec<Held>) -> Result<(), Memory>
    ensures { IfOk result (λ done. all.new.items ≡ all.old.items ++ map (held_at instance) spots.now) }
{
    for spot in spots {
        all.push(Held {
            instance,
            thing: spot.what,
        })?;
    }
    Ok(())
}

/// Adds what the imports of an instance bring.
fn push_brought(
    alloc: Global,
    instance: usize,
    shape: &Shape,
    all: &mut Vec<Held>,
) -> Result<(), Memory>
    ensures { IfOk result (λ done.
        all.new.items ≡ all.old.items ++ map (held_at instance) (spots (shape_tree shape.now).imports)) }
{
    let found = spots(alloc, &shape.imports)?;
    push_held(instance, &found, all)?;
    Ok(())
}

/// What the imports of instances bring, in order.
fn all_brought(alloc: Global, shapes: &[&Shape]) -> Result<Vec<Held>, Memory>
    ensures { IfOk result (λ all. all.items ≡ brought_from 0 (shapes_of shapes.now)) }
{
    let mut all = Vec::new(alloc);
    for (instance, shape) in shapes.iter().enumerate() {
        push_brought(alloc, instance, shape, &mut all)?;
    }
    Ok(all)
}

/// The number of an origin that was come to.
fn number_reached(
    alloc: Global,
    instances: usize,
    table: &mut Vec<Origin>,
    places: &mut BTreeMap<OriginKey, usize>,
    reached: Reached,
) -> Result<usize, Memory>
    requires { FindsOrigins places.old table.old.items }
    ensures table { IfOk result (λ number. FindsOrigins places.new table.new.items) }
    ensures numbered { (w : Wiring) (numbers : Numbers) (o : Origin) → instances ≡ length w.shapes
        → AreNumbers w table.old.items numbers → IsReached w numbers o reached
        → IfOk result (λ number. IsNumbered w table.old.items table.new.items o number) }
{
    match reached {
        Reached::Known(number) => Ok(number),
        Reached::Ends(origin) => number_of(alloc, instances, table, places, origin),
    }
}

/// Notes the number of a thing's origin, and of what is passed on the way to it.
fn note(
    alloc: Global,
    wired: &Wired<'_>,
    table: &mut Vec<Origin>,
    places: &mut BTreeMap<OriginKey, usize>,
    numbers: &mut BTreeMap<Held, usize>,
    held: Held,
) -> Result<(), Memory>
    requires wired { IsWired wired.now }
    requires order { HasNoCircle (wiring_of wired.now) }
    requires table { FindsOrigins places.old table.old.items }
    requires numbers { AreNumbers (wiring_of wired.now) table.old.items numbers.old }
    ensures table { IfOk result (λ done. FindsOrigins places.new table.new.items) }
    ensures added { IfOk result (λ done.
        table.new.items ≡ with_origin table.old.items (origin (wiring_of wired.now) held)) }
    ensures numbers { IfOk result (λ done. AreNumbers (wiring_of wired.now) table.new.items numbers.new) }
    ensures noted { IfOk result (λ done. is_some (get held_cmp numbers.new held) ≡ true) }
    ensures kept { IfOk result (λ done. (h : Held) → is_some (get held_cmp numbers.old h) ≡ true
        → is_some (get held_cmp numbers.new h) ≡ true) }
{
    let followed = follow(alloc, wired, numbers, held)?;
    let number = number_reached(alloc, wired.shapes.len(), table, places, followed.reached)?;
    note_all(numbers, &followed.trail, number)?;
    Ok(())
}

/// The numbers of the origins of some things.
fn noted(alloc: Global, wired: &Wired<'_>, brought: &[Held]) -> Result<Origins, Memory>
    requires wired { IsWired wired.now }
    requires order { HasNoCircle (wiring_of wired.now) }
    ensures { IfOk result (λ o. AreNoted o (wiring_of wired.now) brought.now) }
{
    let mut table = Vec::new(alloc);
    let mut places = BTreeMap::new(alloc);
    let mut numbers = BTreeMap::new(alloc);
    for held in brought {
        note(alloc, wired, &mut table, &mut places, &mut numbers, *held)?;
    }
    Ok(Origins {
        instances: wired.shapes.len(),
        table,
        numbers,
    })
}

/// Where the resources and named types of instances of these shapes come from, along these wires.
///
/// The wires have no circle. Of two wires into one import the first counts.
pub fn origins(alloc: Global, shapes: &[&Shape], wires: &[Wire]) -> Result<Origins, Memory>
    requires { HasNoCircle (record { shapes = shapes_of shapes.now; wires = wires.now }) }
    ensures { IfOk result (λ o. AreOrigins o (record { shapes = shapes_of shapes.now; wires = wires.now })) }
{
    let wired = wired_of(alloc, shapes, wires)?;
    let brought = all_brought(alloc, shapes)?;
    noted(alloc, &wired, &brought)
}
