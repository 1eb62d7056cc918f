//! Laws of the names in shapes: each is a function that does nothing, and is proved of all components.
//!
//! The shape of a component's parts is that of `specs/Shape` of `comp_scope`. The bounds are any: those within which
//! shapes are read, or none.

ghost use Rattle.std.specs.Prelude.{◌≡◌, ℕ, List, Some, Ok, true};
ghost use Rattle.comp_entity.specs.Bounds.{Bounds};
ghost use Rattle.comp_entity.specs.Entity.{Name, EntityTree, ShapeTree};
ghost use Rattle.comp_entity.specs.Fits.{fits_with, place_for, same_name, stands};
ghost use Rattle.comp_entity.specs.Names.{changing, entity_by};
ghost use Rattle.comp_scope.specs.Shape.{HasParts, Parts, shape_within};
ghost use Rattle.comp_coherence.specs.Changes.{CarriesAlong, SameType};
ghost use Rattle.comp_coherence.specs.Coherence.{Coheres, IsCoherent, Names};
ghost use Rattle.comp_coherence.specs.NamedTypes.{NamesAgree};

/// In the shape of a component each name stands for one type, and so it does in each type in it that is a scope of
/// names. The shape mentions nothing that lies outside of the component.
pub fn each_name_stands_for_one_type()
    ensures { (bytes : List ℕ) (parts : Parts) → HasParts bytes parts
        → (b : Bounds) (s : ShapeTree) → shape_within b parts ≡ Ok s → IsCoherent s }
{}

/// Wherever two types are mentioned in the shape of a component, in its imports or its exports and in types that are
/// scopes of names too: where the places that named them have one name of the component, they are one type.
pub fn two_mentions_of_one_name_are_one_type()
    ensures { (bytes : List ℕ) (parts : Parts) → HasParts bytes parts
        → (b : Bounds) (s : ShapeTree) → shape_within b parts ≡ Ok s → NamesAgree s }
{}

/// Where names are changed, and what they mean is carried along, one name stands for one type as before.
pub fn a_change_carries_types_along()
    ensures { (resource place : Name → Name) (before after : Names) → CarriesAlong resource place before after
        → (e : EntityTree) → Coheres before e → Coheres after (entity_by (changing resource place) 0 e) }
{}

/// Where an entity fits an asked one, of which the names are changed so, a place in it that stands for one of the asked
/// entity stands for the same type.
pub fn what_fits_has_the_same_types()
    ensures { (resource place : Name → Name) (names asked_names : Names) (given asked : EntityTree)
        → Coheres names given → Coheres asked_names asked
        → fits_with same_name given (entity_by (changing resource place) 0 asked) ≡ true
        → (n p : Name) → place_for (stands given asked) n ≡ Some (Some p)
        → SameType resource place names asked_names p n }
{}
