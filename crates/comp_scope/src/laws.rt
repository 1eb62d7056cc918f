//! Laws of shapes: each is a function that does nothing, and is proved of all components.
//!
//! Parts, and the shape that they have, are those of `specs/Shape`.

ghost use Rattle.std.specs.Prelude.{◌≡◌, ◌⊎◌, ℕ, List, Err, true};
ghost use Rattle.comp_format.specs.Items.{ItemTree};
ghost use Rattle.comp_format.specs.Sections.{Reads};
ghost use Rattle.comp_entity.specs.Bounds.{Bounds, TooBig, TooDeep};
ghost use Rattle.comp_scope.specs.Shape.{Expands, HasParts, Part, Parts, after_part, answer_beside, beside, is_inner, shape, shape_within};
ghost use Rattle.comp_scope.specs.Spaces.{Known, Spaces, Standing};

use comp_format::laws::one_reading;

/// Bounds only refuse: what is read within them is the shape, or its fault, but where a bound is passed.
pub fn bounds_only_refuse()
    ensures { (b : Bounds) (parts : Parts)
        → (shape_within b parts ≡ Err TooDeep)
        ⊎ ((shape_within b parts ≡ Err TooBig) ⊎ (shape_within b parts ≡ shape parts)) }
{}

/// The parts of a component are the items of which its bytes are the written form, with the parts of nested components
/// in their places.
pub fn parts_are_items()
    ensures { (bytes : List ℕ) (parts : Parts) → HasParts bytes parts
        → (items : List ItemTree) × Reads bytes items × Expands items parts }
{}

/// No bytes have two lists of parts.
pub fn one_list_of_parts()
    ensures { (bytes : List ℕ) (a b : Parts) → HasParts bytes a → HasParts bytes b → a ≡ b }
{
    one_reading();
}

/// A part that is neither imported nor exported means the same, whatever was imported and exported in front of it, and
/// under which names: it adds the same to the index spaces, or has the same fault.
pub fn inner_parts_see_no_names()
    ensures { (b : Bounds) (around : List Spaces) (k : Known) (imports exports : List (List ℕ × Standing)) (p : Part)
        → is_inner p ≡ true
        → after_part b around (beside imports exports k) p
        ≡ answer_beside imports exports (after_part b around k p) }
{}
