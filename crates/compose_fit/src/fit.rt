//! The first wire that does not fit.

ghost use Rattle.std.specs.Prelude.{◌≡◌, ◌<◌, ℕ, length, List, IfOk, MatchOption};
ghost use Rattle.comp_entity.specs.Entity.{ShapeTree};
ghost use Rattle.comp_entity.specs.Names.{Change};
ghost use Rattle.comp_table.specs.Trees.{Extends};
ghost use Rattle.compose_fit.specs.Fit.{EachFits, FitsAt, IsFirstMisfit, IsMisfit, IsMisfitAt, WiresFit};
ghost use Rattle.compose_fit.specs.Seen.{AreInstances, AreSeen, AreSomething, HaveShapes, IsFirstInto, changes, compared_by};
ghost use Rattle.compose_left.specs.Numbers.{AreOrigins};
ghost use Rattle.compose_left.specs.Wired.{FindsWires};
ghost use Rattle.compose_left.specs.Wiring.{HasNoCircle, Wiring};

use crate::entries::entry_in;
use crate::misfit::Misfit;
use crate::naming::{Naming, instances_in};
use crate::numbered::ShapeNumbers;
use crate::wire::{given_by, why_unfit};
use comp_entity::laws::a_change_keeps_fit;
use comp_table::TypeTable;
use compose_left::laws::origins_call_things_as_placed;
use compose_left::{Input, Origins, Wire, wires_by_import};
use std::alloc::Global;
use std::collections::BTreeMap;
use warg_values::Memory;

/// What goes into an import of an instance and does not fit.
fn import_misfit(
    table: &TypeTable,
    alloc: Global,
    seen: &[ShapeNumbers],
    wires: &BTreeMap<Input, Wire>,
    target: usize,
    import: usize,
) -> Result<Option<Misfit>, Memory>
    requires seen { AreSomething table.now seen.now }
    requires target { target < length seen.now }
    ensures { IfOk result (λ found. (c : ℕ → Change) (w : Wiring) → AreSeen table.now c 0 seen.now w.shapes
        → FindsWires wires.now w.wires → MatchOption found (FitsAt (compared_by c) w target import)
        (IsMisfitAt (compared_by c) w target import)) }
{
    let input = Input { target, import };
    let Some(wire) = wires.get(&input) else {
        return Ok(None);
    };
    let Some(given) = given_by(table, seen, *wire) else {
        return Ok(None);
    };
    let Some((name, asked)) = entry_in(table, seen[target].imports, import) else {
        return Ok(None);
    };
    match why_unfit(table, alloc, given, asked)? {
        None => Ok(None),
        Some(why) => Ok(Some(Misfit {
            target,
            import: name.try_clone(alloc)?,
            why,
        })),
    }
}

/// The first of what goes into the imports of an instance that does not fit.
fn instance_misfit(
    table: &TypeTable,
    alloc: Global,
    seen: &[ShapeNumbers],
    wires: &BTreeMap<Input, Wire>,
    target: usize,
) -> Result<Option<Misfit>, Memory>
    requires seen { AreSomething table.now seen.now }
    requires target { target < length seen.now }
    ensures { IfOk result (λ found. (c : ℕ → Change) (w : Wiring) → AreSeen table.now c 0 seen.now w.shapes
        → FindsWires wires.now w.wires → MatchOption found ((i : ℕ) → FitsAt (compared_by c) w target i)
        (IsFirstInto (compared_by c) w target)) }
{
    let imports = table.parts(seen[target].imports).len();
    for import in 0..imports {
        if let Some(misfit) = import_misfit(table, alloc, seen, wires, target, import)? {
            return Ok(Some(misfit));
        }
    }
    Ok(None)
}

/// The first wire that does not fit, names being compared as they are.
fn seen_misfit(
    table: &TypeTable,
    alloc: Global,
    seen: &[ShapeNumbers],
    wires: &BTreeMap<Input, Wire>,
) -> Result<Option<Misfit>, Memory>
    requires { AreSomething table.now seen.now }
    ensures { IfOk result (λ found. (c : ℕ → Change) (w : Wiring) → AreSeen table.now c 0 seen.now w.shapes
        → FindsWires wires.now w.wires → MatchOption found (EachFits (compared_by c) w)
        (IsFirstMisfit (compared_by c) w)) }
{
    for target in 0..seen.len() {
        if let Some(misfit) = instance_misfit(table, alloc, seen, wires, target)? {
            return Ok(Some(misfit));
        }
    }
    Ok(None)
}

/// The first wire that does not fit, things being called so.
fn misfit_in(
    table: &mut TypeTable,
    alloc: Global,
    naming: Naming<'_>,
    components: &[ShapeNumbers],
    instances: &[usize],
    wires: &BTreeMap<Input, Wire>,
) -> Result<Option<Misfit>, Memory>
    requires { HaveShapes table.old components.now instances.now }
    ensures kept { Extends table.old table.new }
    ensures found { IfOk result (λ found. (w : Wiring)
        → AreInstances table.old components.now instances.now w.shapes → FindsWires wires.now w.wires
        → MatchOption found (EachFits (compared_by (changes naming.entry)) w)
        (IsFirstMisfit (compared_by (changes naming.entry)) w)) }
{
    let seen = instances_in(table, alloc, naming, components, instances)?;
    let misfit = seen_misfit(table, alloc, &seen, wires)?;
    Ok(misfit)
}

/// The first wire that does not fit, by instances as made and their imports: all resources being taken as one; or, where
/// each wire fits so, with the origins of resources in place of their names. `None` exactly where each wire fits.
///
/// Instances have the numbers of their components. What numbers stand for in other names is added to the table. Whatever
/// the answer, the numbers given so far keep their meaning. `Memory` also where more than a thousand types and entities
/// lie within each other, and where a number has no room in a name.
pub fn first_misfit(
    table: &mut TypeTable,
    alloc: Global,
    origins: &Origins,
    components: &[ShapeNumbers],
    instances: &[usize],
    wires: &[Wire],
) -> Result<Option<Misfit>, Memory>
    requires { HaveShapes table.old components.now instances.now }
    ensures kept { Extends table.old table.new }
    ensures fit { IfOk result (λ found. (w : Wiring)
        → AreInstances table.old components.now instances.now w.shapes → w.wires ≡ wires.now
        → AreOrigins origins.now w → HasNoCircle w → MatchOption found (WiresFit w) (IsMisfit w)) }
{
    a_change_keeps_fit();
    origins_call_things_as_placed();
    let by_import = wires_by_import(alloc, wires)?;
    if let Some(misfit) = misfit_in(
        table,
        alloc,
        Naming::AsOne,
        components,
        instances,
        &by_import,
    )? {
        return Ok(Some(misfit));
    }
    let naming = Naming::InPlace(origins);
    let misfit = misfit_in(table, alloc, naming, components, instances, &by_import)?;
    Ok(misfit)
}
