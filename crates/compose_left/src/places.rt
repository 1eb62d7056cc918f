//! What the imports of an instance bring, and what its exports name, found by maps.

ghost use Rattle.std.specs.Prelude.{◌≡◌, Some, List, IfOk, OnOk};
ghost use Rattle.std.specs.BTreeMap.{Updates};
ghost use Rattle.comp_entity.specs.Views.{shape_tree};
ghost use Rattle.compose_left.specs.declared.places.Place.{Place};
ghost use Rattle.compose_left.specs.declared.spots.Spot.{Spot};
ghost use Rattle.compose_left.specs.declared.spots.Thing.{Thing};
ghost use Rattle.compose_left.specs.Spots.{spots};
ghost use Rattle.compose_left.specs.Wired.{FindsBrought, FindsGiven, IsPlaces, thing_cmp, place_cmp};

use crate::path::Path;
use crate::spots::{Spot, Thing, spots};
use comp_entity::Shape;
use std::alloc::Global;
use std::collections::BTreeMap;
use warg_values::Memory;

/// A kind of thing, and a path at which it is looked for among exports.
#[derive(Debug, Drop, PartialEq, Eq, PartialOrd, Ord)]
pub struct Place {
    /// Whether it is the place that named a type, and no resource.
    pub is_type: bool,
    /// The path, from the name of an export on.
    pub path: Path,
}

/// What an instance brings and what it exports.
#[derive(Drop)]
pub struct Places {
    /// Where its imports bring each thing first.
    pub brought: BTreeMap<Thing, Spot>,
    /// What its exports name first at each path.
    pub given: BTreeMap<Place, Thing>,
}

/// The first spot of each thing.
fn brought(alloc: Global, mut spots: Vec<Spot>) -> Result<BTreeMap<Thing, Spot>, Memory>
    ensures { IfOk result (λ found. FindsBrought found spots.items) }
{
    let mut found = BTreeMap::new(alloc);
    while let Some(spot) = spots.pop() {
        found.insert(spot.what, spot)?;
    }
    Ok(found)
}

/// What is named first at each path.
fn given(alloc: Global, mut spots: Vec<Spot>) -> Result<BTreeMap<Place, Thing>, Memory>
    ensures { IfOk result (λ found. FindsGiven found spots.items) }
{
    let mut found = BTreeMap::new(alloc);
    while let Some(spot) = spots.pop() {
        let place = Place {
            is_type: spot.what.is_type,
            path: spot.path.within(alloc, &spot.name)?,
        };
        found.insert(place, spot.what)?;
    }
    Ok(found)
}

/// What a component's instances bring and export.
pub fn places_of(alloc: Global, shape: &Shape) -> Result<Places, Memory>
    ensures { IfOk result (λ found. IsPlaces found (shape_tree shape.now)) }
{
    let brought = brought(alloc, spots(alloc, &shape.imports)?)?;
    let given = given(alloc, spots(alloc, &shape.exports)?)?;
    Ok(Places { brought, given })
}
