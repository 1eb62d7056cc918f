//! A caller of `compose_component`.

ghost use Rattle.std.specs.Prelude.{◌≡◌, length, IfSome};
ghost use Rattle.comp_entity.specs.Entity.{ShapeTree};
ghost use Rattle.comp_shape.specs.Shape.{HasShape};

use compose_component::Component;
use std::alloc::Global;

/// How many things the component of these bytes imports, where they are one.
pub fn imports_of_bytes(alloc: Global, bytes: &[u8]) -> Option<usize>
    ensures { IfSome result (λ count. (s : ShapeTree) × HasShape bytes.now s × (count ≡ length s.imports)) }
{
    match Component::from_bytes(alloc, "root", bytes) {
        Ok(component) => Some(component.types().imports.len()),
        Err(_) => None,
    }
}
