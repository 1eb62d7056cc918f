//! Left imports of which each function has the naming bit.

ghost use Rattle.std.specs.Prelude.{◌≡◌, ◌++◌, ◌∷◌, [], IfOk, MatchOption, map};
ghost use Rattle.comp_entity.specs.Views.{entity_tree};
ghost use Rattle.compose_needs.specs.Leaves.{leaves_at};
ghost use Rattle.compose_order.specs.Known.{Leaves, left_tree};
ghost use Rattle.compose_naming.specs.Bits.{HaveBits, IsFirstWithoutBit, behind_call, behind_calls, behind_left, bit_at};
ghost use Rattle.compose_naming.specs.Scopes.{FindsPlaces, scopes_in, where_passed};

use crate::entities::pass_entity;
use crate::scopes::{Open, bit_in, enter, note};
use crate::settling::settled_entity;
use comp_entity::Entity;
use compose_left::{Path, Spot, Thing};
use compose_needs::{Leaf, leaves_at};
use compose_order::LeftImport;
use std::alloc::Global;
use std::collections::BTreeMap;
use warg_values::Memory;

/// Notes what is named at a path, where nothing is noted of it.
fn note_place(
    alloc: Global,
    places: &mut BTreeMap<Path, Option<Thing>>,
    leaf: &Leaf,
) -> Result<(), Memory>
    ensures { (leaves : Leaves) → FindsPlaces places.old leaves
        → IfOk result (λ done. FindsPlaces places.new (leaves ++ leaf.now ∷ [])) }
{
    if places.contains_key(&leaf.path) {
        return Ok(());
    }
    places.insert(leaf.path.try_clone(alloc)?, leaf.named)?;
    Ok(())
}

/// What is named at each path of an entity.
fn places_in(alloc: Global, entity: &Entity) -> Result<BTreeMap<Path, Option<Thing>>, Memory>
    ensures { IfOk result (λ places. FindsPlaces places (leaves_at (entity_tree entity.now))) }
{
    let leaves = leaves_at(alloc, entity)?;
    let mut places = BTreeMap::new(alloc);
    for leaf in &leaves {
        note_place(alloc, &mut places, leaf)?;
    }
    Ok(places)
}

/// The bit of the type that is named at a path.
fn bit_at(scopes: &[Open], places: &BTreeMap<Path, Option<Thing>>, path: &Path) -> Option<bool>
    ensures { (leaves : Leaves) → FindsPlaces places.now leaves
        → result ≡ bit_at leaves (scopes_in scopes.now) path.now }
{
    match places.get(path) {
        Some(Some(thing)) => {
            if thing.is_type {
                bit_in(scopes, *thing)
            } else {
                None
            }
        }
        _ => None,
    }
}

/// Goes behind what those that need an import call at a path of it.
fn pass_call(
    scopes: &mut Vec<Open>,
    places: &BTreeMap<Path, Option<Thing>>,
    call: &Spot,
) -> Result<bool, Memory>
    ensures { (leaves : Leaves) → FindsPlaces places.now leaves
        → IfOk result (λ passes. behind_call leaves (scopes_in scopes.old.items) call.now
        ≡ where_passed passes (scopes_in scopes.new.items)) }
{
    if !call.what.is_type || bit_in(scopes, call.what).is_some() {
        return Ok(true);
    }
    match bit_at(scopes, places, &call.path) {
        Some(bit) => note(scopes, call.what, bit),
        None => Ok(false),
    }
}

/// Goes behind all that they call.
fn pass_calls(
    scopes: &mut Vec<Open>,
    places: &BTreeMap<Path, Option<Thing>>,
    calls: &[Spot],
) -> Result<bool, Memory>
    ensures { (leaves : Leaves) → FindsPlaces places.now leaves
        → IfOk result (λ passes. behind_calls leaves calls.now (scopes_in scopes.old.items)
        ≡ where_passed passes (scopes_in scopes.new.items)) }
{
    for call in calls {
        if !pass_call(scopes, places, call)? {
            return Ok(false);
        }
    }
    Ok(true)
}

/// Goes behind a left import.
fn pass_left(alloc: Global, scopes: &mut Vec<Open>, import: &LeftImport) -> Result<bool, Memory>
    ensures { IfOk result (λ passes. behind_left (left_tree import.now) (scopes_in scopes.old.items)
        ≡ where_passed passes (scopes_in scopes.new.items)) }
{
    let entity = settled_entity(alloc, import)?;
    if !pass_entity(alloc, scopes, &entity)? {
        return Ok(false);
    }
    let places = places_in(alloc, &entity)?;
    pass_calls(scopes, &places, &import.calls)
}

/// The number of the first left import that has, as it is written, a function without the naming bit: a type in it, or a
/// part of such a type where a place named that first, has no name (`Explainer.md`, "Import and Export Definitions"). The
/// imports come in the order in which they are written.
pub fn first_without_bit(alloc: Global, imports: &[LeftImport]) -> Result<Option<usize>, Memory>
    ensures { IfOk result (λ found. MatchOption found (HaveBits (map left_tree imports.now))
        (IsFirstWithoutBit (map left_tree imports.now))) }
{
    let mut scopes = Vec::new(alloc);
    enter(alloc, &mut scopes, 2)?;
    for (number, import) in imports.iter().enumerate() {
        if !pass_left(alloc, &mut scopes, import)? {
            return Ok(Some(number));
        }
    }
    Ok(None)
}
