//! Wires between instances, and one step along them.

ghost use Rattle.std.specs.Prelude.{◌≡◌, false, length, IfOk, IsTrue};
ghost use Rattle.std.specs.List.{AllByRecursion};
ghost use Rattle.std.specs.Option.{option_copied};
ghost use Rattle.compose_left.specs.Origins.{along, brought_at, export_name, given_at, given_path, step_from};
ghost use Rattle.compose_left.specs.Wired.{FindsWires, IsFound, IsWired, ArePlaces, wiring_of};
ghost use Rattle.compose_left.specs.Wiring.{HasNoCircle, IsForward, shape_at, shapes_of};

use crate::origin::{Held, Origin, Step};
use crate::path::Path;
use crate::places::{Place, Places, places_of};
use crate::spots::{Spot, Thing};
use comp_entity::Shape;
use std::alloc::Global;
use std::collections::BTreeMap;
use warg_values::{Memory, Text};

/// A wire: an import of an instance is given an instance as a whole, or an export of one.
///
/// Instances are numbered as made, and imports and exports in the order of their shape, all from 0.
#[derive(Clone, Copy, Debug, PartialEq, Eq)]
pub struct Wire {
    /// The instance whose import it is.
    pub target: usize,
    /// The number of the import.
    pub import: usize,
    /// The instance that is given.
    pub source: usize,
    /// The number of the export that is given, where it is not the instance as a whole.
    pub export: Option<usize>,
}

/// An import of an instance, by its number.
#[derive(Clone, Copy, Debug, PartialEq, Eq, PartialOrd, Ord)]
pub struct Input {
    /// The instance.
    pub target: usize,
    /// The number of the import.
    pub import: usize,
}

/// Instances and the wires between them, found by maps.
#[derive(Drop)]
pub struct Wired<'a> {
    /// The shapes of the instances.
    pub shapes: &'a [&'a Shape],
    /// The wires, in the order given.
    pub list: &'a [Wire],
    /// What each instance brings and exports.
    pub places: Vec<Places>,
    /// The wire into each import.
    pub wires: BTreeMap<Input, Wire>,
}

/// Whether each wire comes from an instance that is made before the one that it goes to, which is there: then the wires
/// have no circle.
pub fn follows_order(shapes: &[&Shape], wires: &[Wire]) -> bool
    ensures no_circle { IsTrue result → HasNoCircle (record { shapes = shapes_of shapes.now; wires = wires.now }) }
    ensures backward { (result ≡ false) → AllByRecursion (IsForward (length shapes.now)) wires.now → ⊥ }
{
    for wire in wires {
        if wire.source >= wire.target || wire.target >= shapes.len() {
            return false;
        }
    }
    true
}

/// The first wire into each import.
pub fn wires_by_import(alloc: Global, wires: &[Wire]) -> Result<BTreeMap<Input, Wire>, Memory>
    ensures { IfOk result (λ found. FindsWires found wires.now) }
{
    let mut left = Vec::from_slice(alloc, wires)?;
    let mut found = BTreeMap::new(alloc);
    while let Some(wire) = left.pop() {
        let import = Input {
            target: wire.target,
            import: wire.import,
        };
        found.insert(import, wire)?;
    }
    Ok(found)
}

/// What instances of these shapes bring and export.
fn all_places(alloc: Global, shapes: &[&Shape]) -> Result<Vec<Places>, Memory>
    ensures { IfOk result (λ found. ArePlaces found.items (shapes_of shapes.now)) }
{
    let mut found = Vec::new(alloc);
    for shape in shapes {
        found.push(places_of(alloc, shape)?)?;
    }
    Ok(found)
}

/// Instances of these shapes, and these wires, found by maps.
pub fn wired_of<'a>(
    alloc: Global,
    shapes: &'a [&'a Shape],
    wires: &'a [Wire],
) -> Result<Wired<'a>, Memory>
    ensures found { IfOk result (λ found. IsWired found) }
    ensures wiring { IfOk result (λ found.
        wiring_of found ≡ record { shapes = shapes_of shapes.now; wires = wires.now }) }
{
    let places = all_places(alloc, shapes)?;
    let wires_found = wires_by_import(alloc, wires)?;
    Ok(Wired {
        shapes,
        list: wires,
        places,
        wires: wires_found,
    })
}

/// What an instance brings and exports, where it is there.
fn places_at<'a>(wired: &'a Wired<'_>, instance: usize) -> Option<&'a Places>
    requires { IsWired wired.now }
    ensures { IsFound result (shape_at (shapes_of wired.now.shapes.now) instance) }
{
    if instance >= wired.places.len() {
        return None;
    }
    Some(&wired.places[instance])
}

/// Where an instance's imports bring a thing first.
fn brought_spot<'a>(wired: &'a Wired<'_>, held: Held) -> Option<&'a Spot>
    requires { IsWired wired.now }
    ensures { option_copied result ≡ brought_at (shape_at (shapes_of wired.now.shapes.now) held.instance) held.thing }
{
    if held.thing.out == 1 {
        let places = places_at(wired, held.instance)?;
        places.brought.get(&held.thing)
    } else {
        None
    }
}

/// What an instance's exports name at a place.
fn given_thing(wired: &Wired<'_>, source: usize, place: &Place) -> Option<Thing>
    requires { IsWired wired.now }
    ensures { result ≡ given_at (shape_at (shapes_of wired.now.shapes.now) source) place.now.is_type place.now.path }
{
    let places = places_at(wired, source)?;
    places.given.get(place).copied()
}

/// The name of the export that a wire takes, where it takes one.
fn export_name<'a>(shapes: &'a [&'a Shape], wire: Wire) -> Option<&'a Text>
    ensures { option_copied result ≡ export_name (shape_at (shapes_of shapes.now) wire.source) wire.export }
{
    let export = wire.export?;
    if wire.source >= shapes.len() {
        return None;
    }
    let shape = &shapes[wire.source];
    if export >= shape.exports.len() {
        return None;
    }
    let entry = &shape.exports[export];
    Some(&entry.0)
}

/// A path of what a wire takes, as one of its source's exports.
fn given_path(alloc: Global, shapes: &[&Shape], wire: Wire, path: &Path) -> Result<Path, Memory>
    ensures { IfOk result (λ given.
        given ≡ given_path (shape_at (shapes_of shapes.now) wire.source) wire.export path.now) }
{
    match export_name(shapes, wire) {
        Some(name) => path.within(alloc, name),
        None => path.try_clone(alloc),
    }
}

/// What a thing is that a spot brings, one wire on.
fn along(alloc: Global, wired: &Wired<'_>, spot: &Spot, wire: Option<Wire>) -> Result<Step, Memory>
    requires { IsWired wired.now }
    ensures { IfOk result (λ step. step ≡ along (wiring_of wired.now) spot.now wire) }
{
    match wire {
        None => Ok(Step::Ends(Origin::Left {
            import: spot.name.try_clone(alloc)?,
            path: spot.path.try_clone(alloc)?,
        })),
        Some(wire) => {
            let place = Place {
                is_type: spot.what.is_type,
                path: given_path(alloc, wired.shapes, wire, &spot.path)?,
            };
            match given_thing(wired, wire.source, &place) {
                Some(thing) => Ok(Step::Goes(Held {
                    instance: wire.source,
                    thing,
                })),
                None => Ok(Step::Ends(Origin::Given {
                    instance: wire.source,
                    path: place.path,
                })),
            }
        }
    }
}

/// Where a thing comes from, or what it is one wire on.
pub fn step(alloc: Global, wired: &Wired<'_>, held: Held) -> Result<Step, Memory>
    requires { IsWired wired.now }
    ensures { IfOk result (λ step. step ≡ step_from (wiring_of wired.now) held) }
{
    match brought_spot(wired, held) {
        Some(spot) => {
            let input = Input {
                target: held.instance,
                import: spot.number,
            };
            along(alloc, wired, spot, wired.wires.get(&input).copied())
        }
        None => Ok(Step::Ends(Origin::Made {
            instance: held.instance,
            number: held.thing.number,
        })),
    }
}
