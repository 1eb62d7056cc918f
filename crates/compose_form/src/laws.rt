//! Laws of entities that can be written: each is a function that does nothing, and is proved of all trees.

ghost use Rattle.std.specs.Prelude.{◌≡◌, List, Ok, ℕ};
ghost use Rattle.comp_entity.specs.Bounds.{Bounds};
ghost use Rattle.comp_entity.specs.Entity.{Entries, EntityTree, ShapeTree};
ghost use Rattle.comp_entity.specs.Names.{Change, entity_by};
ghost use Rattle.comp_entity.specs.Views.{entries_of};
ghost use Rattle.comp_scope.specs.Shape.{HasParts, Parts, shape_within};
ghost use Rattle.compose_writing.specs.Conditions.{KeepsEntries, KeepsForm};

/// What a component imports and exports, as its bytes are read within bounds, keeps the rules on names, labels and parts
/// that the calls of `compose_types` ask for.
pub fn what_is_read_can_be_written()
    ensures { (b : Bounds) (bytes : List ℕ) (parts : Parts) (s : ShapeTree) → HasParts bytes parts
        → shape_within b parts ≡ Ok s
        → KeepsEntries (entries_of s.imports) × KeepsEntries (entries_of s.exports) }
{}

/// Other names for resources and for the places that named types keep these rules.
pub fn other_names_can_be_written()
    ensures { (c : Change) (depth : ℕ) (e : EntityTree) → KeepsForm e → KeepsForm (entity_by c depth e) }
{}

/// That an entity keeps these rules is one fact: there is one proof of it at most, and so it may be drawn from what is
/// known of a shape that was read without saying how.
pub fn the_form_of_an_entity_is_one_fact()
    ensures form { (e : EntityTree) (a b : KeepsForm e) → a ≡ b }
    ensures entries { (es : Entries) (a b : KeepsEntries es) → a ≡ b }
{}
