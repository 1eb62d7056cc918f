//! Laws of shapes: each is a function that does nothing, and is proved of all bytes.

ghost use Rattle.std.specs.Prelude.{◌≡◌, ◌<◌, All, List, length, ℕ};
ghost use Rattle.comp_entity.specs.Entity.{ShapeTree};
ghost use Rattle.comp_shape.specs.Refusal.{IsRefused};
ghost use Rattle.comp_shape.specs.Shape.{HasShape};
ghost use Rattle.comp_shape.specs.declared.error.ShapeError.{ShapeError as AnyShapeError};
ghost use Rattle.comp_shape.specs.declared.error.ShapeError.TheVariants.{Memory as no_memory};

use comp_format::laws::each_component_is_read;
use comp_scope::laws::one_list_of_parts;

/// No bytes have two shapes.
pub fn one_shape()
    ensures { (bytes : List ℕ) (a b : ShapeTree) → HasShape bytes a → HasShape bytes b → a ≡ b }
{
    one_list_of_parts();
}

/// Bytes that have a shape are refused for want of memory alone.
pub fn shapes_are_read()
    ensures { (e : AnyShapeError) (bytes : List ℕ) (s : ShapeTree) → IsRefused e bytes → HasShape bytes s
        → e ≡ no_memory }
{
    one_list_of_parts();
    each_component_is_read();
}

/// What a component imports and exports has a name.
pub fn names_are_not_empty()
    ensures { (bytes : List ℕ) (s : ShapeTree) → HasShape bytes s
        → All (λ e. 0 < length e.0) s.imports × All (λ e. 0 < length e.0) s.exports }
{}
