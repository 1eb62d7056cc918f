//! A caller of `comp_parts`.

ghost use Rattle.std.specs.Prelude.{◌≡◌, IfSome, Ok};
ghost use Rattle.comp_entity.specs.Bounds.{bounded};
ghost use Rattle.comp_entity.specs.Views.{shape_tree};
ghost use Rattle.comp_scope.specs.Shape.{HasParts, Parts, shape_within};

use comp_entity::Shape;
use comp_parts::shape_of;
use comp_reader::read_items;
use comp_scope::laws::parts_are_items;
use std::alloc::Global;

/// What the component of these bytes imports and exports, if they are a component that is read and that has a shape.
pub fn shape_of_bytes(alloc: Global, bytes: &[u8]) -> Option<Shape>
    ensures { IfSome result (λ s. (parts : Parts) × HasParts bytes.now parts
        × (shape_within bounded parts ≡ Ok (shape_tree s))) }
{
    parts_are_items();
    let Ok(items) = read_items(alloc, bytes) else {
        return None;
    };
    let Ok(shape) = shape_of(alloc, &items) else {
        return None;
    };
    Some(shape)
}
