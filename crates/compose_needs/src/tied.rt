//! Whether what is mentioned is named there or earlier.

ghost use Rattle.std.specs.Prelude.{◌≡◌, ◌+◌, ◌++◌, [], true, filter, map, option_to_list, IfOk, List};
ghost use Rattle.std.specs.List.{list_all};
ghost use Rattle.comp_entity.specs.Views.{component_sides, entity_tree, entries_of, named_entities, type_tree};
ghost use Rattle.compose_left.specs.declared.spots.Thing.{Thing};
ghost use Rattle.compose_needs.specs.Seen.{Holds, Things};
ghost use Rattle.compose_needs.specs.Mentioned.{has};
ghost use Rattle.compose_needs.specs.Sides.{sides_hold_tied};
ghost use Rattle.compose_needs.specs.Tied.{are_sides_tied, are_tied, entity_holds_tied, entries_hold_tied};
ghost use Rattle.compose_needs.specs.Tied.{is_near, named_in, near_place, type_holds_tied};

use crate::leaves::{Leaf, push_inner_leaves};
use crate::place::Place;
use comp_entity::{ComponentShape, Entity, TypeShape};
use compose_left::{Path, Thing};
use std::alloc::Global;
use std::collections::BTreeSet;
use warg_values::{Memory, Sequence, Text};

/// How many scopes a component is: one of what its imports bring, and one of what it makes.
const SCOPES: usize = 2;

/// Adds what is named to what was seen.
fn note_named(named: &[Thing], seen: &mut BTreeSet<Thing>) -> Result<(), Memory>
    ensures { (s : Things) → Holds seen.old s → IfOk result (λ done. Holds seen.new (s ++ named.now)) }
{
    for thing in named {
        seen.insert(*thing)?;
    }
    Ok(())
}

/// Whether all of what is asked was seen.
fn all_seen(asked: &[Thing], seen: &BTreeSet<Thing>) -> bool
    ensures { (s : Things) → Holds seen.now s → result ≡ list_all (has s) asked.now }
{
    for thing in asked {
        if !seen.contains(thing) {
            return false;
        }
    }
    true
}

/// Whether what is mentioned at places is named there or earlier, or was seen before.
pub fn are_tied(places: &[Place], seen: &mut BTreeSet<Thing>) -> Result<bool, Memory>
    ensures tied { (s : Things) → Holds seen.old s → IfOk result (λ tied. tied ≡ are_tied s places.now) }
    ensures seen { (s : Things) → Holds seen.old s
        → IfOk result (λ tied. tied ≡ true → Holds seen.new (s ++ named_in places.now)) }
{
    for place in places {
        note_named(place.named.as_slice(), seen)?;
        if !all_seen(place.asked.as_slice(), seen) {
            return Ok(false);
        }
    }
    Ok(true)
}

/// What is named at a place as a list.
pub fn named_list(alloc: Global, named: Option<Thing>) -> Result<Sequence<Thing>, Memory>
    ensures { IfOk result (λ list. list ≡ option_to_list named) }
{
    let mut list = Sequence::new(alloc);
    if let Some(thing) = named {
        list.push(thing)?;
    }
    Ok(list)
}

/// Those of some things that are of the two scopes of a component.
fn near(alloc: Global, things: &[Thing]) -> Result<Sequence<Thing>, Memory>
    ensures { IfOk result (λ near. near ≡ filter is_near things.now) }
{
    let mut near = Vec::new(alloc);
    for thing in things {
        if thing.out < SCOPES {
            near.push(*thing)?;
        }
    }
    Ok(Sequence::from_vec(near))
}

/// The places of a component.
pub fn near_places(alloc: Global, leaves: &[Leaf]) -> Result<Vec<Place>, Memory>
    ensures { IfOk result (λ places. places.items ≡ map near_place leaves.now) }
{
    let mut places = Vec::new(alloc);
    for leaf in leaves {
        let named = named_list(alloc, leaf.named)?;
        let asked = near(alloc, leaf.mentioned.as_slice())?;
        places.push(Place { named, asked })?;
    }
    Ok(places)
}

/// Whether what a component mentions of its own scopes is brought or exported there or earlier.
fn are_sides_tied(alloc: Global, component: &ComponentShape) -> Result<bool, Memory>
    ensures { IfOk result (λ tied. tied
        ≡ are_sides_tied (component_sides component.now).imports (component_sides component.now).exports) }
{
    let path = Path::new(alloc);
    let mut leaves = Vec::new(alloc);
    push_inner_leaves(alloc, &path, &component.imports, &mut leaves)?;
    push_inner_leaves(alloc, &path, &component.exports, &mut leaves)?;
    let places = near_places(alloc, &leaves)?;
    let mut seen = BTreeSet::new(alloc);
    let tied = are_tied(&places, &mut seen)?;
    Ok(tied)
}

/// The same of the components and the types of components that stand in a type.
#[cycle(holding)]
fn type_holds_tied(alloc: Global, ty: &TypeShape) -> Result<bool, Memory>
    ensures { IfOk result (λ tied. tied ≡ type_holds_tied (type_tree ty.now)) }
{
    match ty {
        TypeShape::Resource(_) | TypeShape::Value(_) | TypeShape::Func(_) => Ok(true),
        TypeShape::Instance(instance) => {
            let tied = entries_hold_tied(alloc, &instance.exports)?;
            Ok(tied)
        }
        TypeShape::Component(component) => {
            let tied = sides_hold_tied(alloc, component)?;
            Ok(tied)
        }
    }
}

/// The same of a component and of those that stand in it.
#[cycle(holding)]
fn sides_hold_tied(alloc: Global, component: &ComponentShape) -> Result<bool, Memory>
    ensures { IfOk result (λ tied. tied ≡ sides_hold_tied (component_sides component.now)) }
{
    if !are_sides_tied(alloc, component)? {
        return Ok(false);
    }
    if !entries_hold_tied(alloc, &component.imports)? {
        return Ok(false);
    }
    let tied = entries_hold_tied(alloc, &component.exports)?;
    Ok(tied)
}

/// The same of those that stand in an entity.
#[cycle(holding)]
pub fn entity_holds_tied(alloc: Global, entity: &Entity) -> Result<bool, Memory>
    ensures { IfOk result (λ tied. tied ≡ entity_holds_tied (entity_tree entity.now)) }
{
    match entity {
        Entity::Func(_) | Entity::Module(_) => Ok(true),
        Entity::Instance(instance) => {
            let tied = entries_hold_tied(alloc, &instance.exports)?;
            Ok(tied)
        }
        Entity::Component(component) => {
            let tied = sides_hold_tied(alloc, component)?;
            Ok(tied)
        }
        Entity::Ty(ty) => {
            let tied = type_holds_tied(alloc, ty)?;
            Ok(tied)
        }
    }
}

/// The same of those that stand in imports or exports.
#[cycle(holding)]
fn entries_hold_tied(alloc: Global, entries: &[(Text, Entity)]) -> Result<bool, Memory>
    ensures { IfOk result (λ tied. tied ≡ entries_hold_tied (entries_of (named_entities entries.now))) }
{
    for entry in entries {
        if !entity_holds_tied(alloc, &entry.1)? {
            return Ok(false);
        }
    }
    Ok(true)
}
