//! What exports may mention.

ghost use Rattle.std.specs.Prelude.{◌≡◌, ◌++◌, [], None, true, filter, map, IfOk};
ghost use Rattle.comp_entity.specs.Views.{entity_tree, named_entities, shape_tree};
ghost use Rattle.compose_left.specs.Numbers.{AreOrigins};
ghost use Rattle.compose_left.specs.Wiring.{Wiring};
ghost use Rattle.compose_needs.specs.Exports.{component_hides, export_hides, given_place, is_made};
ghost use Rattle.compose_needs.specs.Exports.{is_side_tied, own_places, sides_named, side_hides};
ghost use Rattle.compose_needs.specs.Seen.{Holds, Things};
ghost use Rattle.compose_needs.specs.Lefts.{lefts_of};
ghost use Rattle.compose_needs.specs.Tied.{named_in};

use crate::leaves::{Leaf, leaves_at};
use crate::place::Place;
use crate::tied::{are_tied, entity_holds_tied, named_list, near_places};
use comp_entity::{Entity, Shape};
use compose_left::{Origins, Thing};
use std::alloc::Global;
use std::collections::BTreeSet;
use warg_values::{Memory, Sequence, Text};

/// Those of some things that are resources which no left import brings.
fn made(alloc: Global, origins: &Origins, things: &[Thing]) -> Result<Sequence<Thing>, Memory>
    ensures { (w : Wiring) → AreOrigins origins.now w
        → IfOk result (λ made. made ≡ filter (is_made (lefts_of w)) things.now) }
{
    let mut made = Vec::new(alloc);
    for thing in things {
        if !thing.is_type && origins.left_import(thing.number).is_none() {
            made.push(*thing)?;
        }
    }
    Ok(Sequence::from_vec(made))
}

/// A place of an export of an instance.
fn given_place(alloc: Global, origins: &Origins, leaf: &Leaf) -> Result<Place, Memory>
    ensures { (w : Wiring) → AreOrigins origins.now w
        → IfOk result (λ place. place ≡ given_place (lefts_of w) leaf.now) }
{
    let named = named_list(alloc, leaf.named)?;
    let asked = made(alloc, origins, leaf.mentioned.as_slice())?;
    Ok(Place { named, asked })
}

/// The places of an export of an instance.
fn given_places(alloc: Global, origins: &Origins, leaves: &[Leaf]) -> Result<Vec<Place>, Memory>
    ensures { (w : Wiring) → AreOrigins origins.now w
        → IfOk result (λ places. places.items ≡ map (given_place (lefts_of w)) leaves.now) }
{
    let mut places = Vec::new(alloc);
    for leaf in leaves {
        places.push(given_place(alloc, origins, leaf)?)?;
    }
    Ok(places)
}

/// The name of the first export of an instance that mentions a resource which no left import brings, and which the
/// instance does not export there or earlier. `None` where there is none.
///
/// The exports are those of the instance's shape, with the numbers of origins in place (`Origins::place`).
pub fn export_needs(
    alloc: Global,
    origins: &Origins,
    exports: &[(Text, Entity)],
) -> Result<Option<Text>, Memory>
    ensures { (w : Wiring) → AreOrigins origins.now w
        → IfOk result (λ found. found ≡ export_hides (lefts_of w) [] (named_entities exports.now)) }
{
    let mut seen = BTreeSet::new(alloc);
    for export in exports {
        let leaves = leaves_at(alloc, &export.1)?;
        let places = given_places(alloc, origins, &leaves)?;
        if !are_tied(&places, &mut seen)? {
            return Ok(Some(export.0.try_clone(alloc)?));
        }
    }
    Ok(None)
}

/// Whether what an import or an export of a component mentions is brought or exported there or earlier, in the
/// components within it too.
fn is_side_tied(alloc: Global, entity: &Entity, seen: &mut BTreeSet<Thing>) -> Result<bool, Memory>
    ensures tied { (s : Things) → Holds seen.old s → IfOk result (λ tied.
        tied ≡ is_side_tied s (entity_tree entity.now)) }
    ensures seen { (s : Things) → Holds seen.old s
        → IfOk result (λ tied. tied ≡ true → Holds seen.new (s ++ named_in (own_places (entity_tree entity.now)))) }
{
    let leaves = leaves_at(alloc, entity)?;
    let places = near_places(alloc, &leaves)?;
    if !are_tied(&places, seen)? {
        return Ok(false);
    }
    let tied = entity_holds_tied(alloc, entity)?;
    Ok(tied)
}

/// The name of the first of some imports or exports of a component that mentions what is not brought or exported there
/// or earlier.
fn first_untied(
    alloc: Global,
    entries: &[(Text, Entity)],
    seen: &mut BTreeSet<Thing>,
) -> Result<Option<Text>, Memory>
    ensures found { (s : Things) → Holds seen.old s
        → IfOk result (λ found. found ≡ side_hides s (named_entities entries.now)) }
    ensures seen { (s : Things) → Holds seen.old s
        → IfOk result (λ found. found ≡ None → Holds seen.new (s ++ sides_named (named_entities entries.now))) }
{
    for entry in entries {
        if !is_side_tied(alloc, &entry.1, seen)? {
            return Ok(Some(entry.0.try_clone(alloc)?));
        }
    }
    Ok(None)
}

/// The name of the first import or export of a component that could not be written where the component is imported: it
/// mentions a resource or a named type that no import or export of the component brings there or earlier, or holds a
/// component of which that is so. `None` where there is none.
pub fn component_needs(alloc: Global, shape: &Shape) -> Result<Option<Text>, Memory>
    ensures { IfOk result (λ found. found ≡ component_hides (shape_tree shape.now)) }
{
    let mut seen = BTreeSet::new(alloc);
    match first_untied(alloc, &shape.imports, &mut seen)? {
        Some(name) => Ok(Some(name)),
        None => {
            let found = first_untied(alloc, &shape.exports, &mut seen)?;
            Ok(found)
        }
    }
}
