//! Shapes of components from their bytes.

ghost use Rattle.std.specs.Prelude.{◌≡◌, ◌<◌, IfErr, IfOk, MatchResult, length, map};
ghost use Rattle.comp_entity.specs.Bounds.{bounded};
ghost use Rattle.comp_entity.specs.Views.{shape_tree};
ghost use Rattle.comp_format.specs.Items.{item_tree};
ghost use Rattle.comp_format.specs.Sections.{Reads};
ghost use Rattle.comp_parts.specs.Parts.{TellsFault, TellsItem};
ghost use Rattle.comp_reader.specs.Places.{StandsAt};
ghost use Rattle.comp_reader.specs.declared.places.ItemPlace.{ItemPlace as Place};
ghost use Rattle.comp_scope.specs.Shape.{Expands, HasParts, Parts, shape_within};
ghost use Rattle.comp_shape.specs.Refusal.{IsRefused};
ghost use Rattle.comp_shape.specs.Shape.{HasShape};

use crate::error::ShapeError;
use crate::items::read_items;
use comp_entity::Shape;
use comp_format::Item;
use comp_format::laws::one_reading;
use comp_parts::{PartError, ShapeError as PartsError, shape_of};
use comp_reader::item_place;
use comp_scope::laws::parts_are_items;
use comp_space::ScopeError;
use std::alloc::Global;
use warg_values::Memory;

/// The place of an item that was read, in bytes from the component's start.
pub(crate) fn place_of(
    alloc: Global,
    bytes: &[u8],
    items: &[Item<'_>],
    number: usize,
) -> Result<usize, Memory>
    requires reads { Reads bytes.now (map item_tree items.now) }
    requires there { number < length items.now }
    ensures { IfOk result (λ at. (place : Place) × StandsAt number bytes.now place × (at ≡ place.item)) }
{
    match item_place(alloc, bytes, number) {
        Ok(place) => Ok(place.item),
        // The items were read before, so that only memory can be short.
        Err(_) => Err(Memory),
    }
}

/// The error of an item that is at fault.
fn item_refusal(alloc: Global, bytes: &[u8], items: &[Item<'_>], part: PartError) -> ShapeError
    requires reads { Reads bytes.now (map item_tree items.now) }
    requires parts { (parts : Parts) × HasParts bytes.now parts × Expands (map item_tree items.now) parts }
    requires fault { (parts : Parts) → Expands (map item_tree items.now) parts
        → TellsFault (PartsError.Item part) (shape_within bounded parts) }
    requires first { (parts : Parts) → Expands (map item_tree items.now) parts
        → TellsItem (PartsError.Item part) parts }
    ensures { IsRefused result bytes.now }
{
    match part.error {
        ScopeError::Index => match place_of(alloc, bytes, items, part.item) {
            Ok(at) => ShapeError::Index(at),
            Err(Memory) => ShapeError::Memory,
        },
        ScopeError::DoesNotFit => match place_of(alloc, bytes, items, part.item) {
            Ok(at) => ShapeError::DoesNotFit(at),
            Err(Memory) => ShapeError::Memory,
        },
        ScopeError::TooDeep => ShapeError::TooDeep,
        ScopeError::TooBig => ShapeError::TooBig,
        ScopeError::Memory => ShapeError::Memory,
    }
}

/// The error of items that have no shape.
fn refusal(alloc: Global, bytes: &[u8], items: &[Item<'_>], error: PartsError) -> ShapeError
    requires reads { Reads bytes.now (map item_tree items.now) }
    requires parts { (parts : Parts) × HasParts bytes.now parts × Expands (map item_tree items.now) parts }
    requires fault { (parts : Parts) → Expands (map item_tree items.now) parts
        → TellsFault error (shape_within bounded parts) }
    requires first { (parts : Parts) → Expands (map item_tree items.now) parts → TellsItem error parts }
    ensures { IsRefused result bytes.now }
{
    match error {
        PartsError::Item(part) => item_refusal(alloc, bytes, items, part),
        PartsError::TooBig => ShapeError::TooBig,
        PartsError::Memory => ShapeError::Memory,
    }
}

/// The items of a component and its shape, by one reading of its bytes.
///
/// The items are those of [`read_items`], and the errors those of [`read_shape`].
pub fn read_component(alloc: Global, bytes: &[u8]) -> Result<(Vec<Item<'_>>, Shape), ShapeError>
    ensures items { IfOk result (λ read. Reads bytes.now (map item_tree read.0.items)) }
    ensures shape { IfOk result (λ read. HasShape bytes.now (shape_tree read.1)) }
    ensures cause { IfErr result (λ e. IsRefused e bytes.now) }
{
    one_reading();
    parts_are_items();
    let items = match read_items(alloc, bytes) {
        Ok(items) => items,
        Err(error) => return Err(error),
    };
    match shape_of(alloc, &items) {
        Ok(shape) => Ok((items, shape)),
        Err(error) => Err(refusal(alloc, bytes, &items, error)),
    }
}

/// What a component imports and exports, with all indices followed (`Explainer.md`, "Index Spaces" and "Component
/// Definitions").
///
/// `Form` and `NotCarried` are those of [`read_items`], and come before all other errors. `Index` is answered where an
/// item names what is not there yet, or what may not be named there, or has a name that is taken, letter case set aside;
/// `DoesNotFit` where it is given, or exports under a description, what does not fit. Both have the place of the
/// item, that of the nested component where the item lies in one. `TooDeep` is answered where more than 32 scopes are open
/// at one place, the outermost component among them, or a value type is more than 100 deep, and `TooBig` where a type,
/// an item, or the imports and exports have more than a million nodes. Of these errors the one of the first item that is
/// at fault is answered. `Memory` also where more than 200 scopes are open at one place, or more than a thousand types
/// and entities lie within each other: each takes some of the machine's stack.
pub fn read_shape(alloc: Global, bytes: &[u8]) -> Result<Shape, ShapeError>
    ensures found { IfOk result (λ s. HasShape bytes.now (shape_tree s)) }
    ensures cause { IfErr result (λ e. IsRefused e bytes.now) }
{
    match read_component(alloc, bytes) {
        Ok((_, shape)) => Ok(shape),
        Err(error) => Err(error),
    }
}
