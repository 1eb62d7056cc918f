//! Laws of what the names of a shape mean: each is a function that does nothing, and is proved of all names.

ghost use Rattle.std.specs.Prelude.{◌≡◌, ℕ, Bool, List, Ok, Option};
ghost use Rattle.comp_entity.specs.Bounds.{Bounds};
ghost use Rattle.comp_entity.specs.Entity.{EntityTree, FuncTree, Name, ShapeTree, ValueTree};
ghost use Rattle.comp_scope.specs.Shape.{HasParts, Parts, shape_within};
ghost use Rattle.comp_coherence.specs.Coherence.{Coheres, Names, OneTree, OneTreeFunc, any_resource, nowhere};
ghost use Rattle.comp_coherence.specs.Coherence.{inside_component, inside_instances};
ghost use Rattle.compose_meaning.specs.Meaning as meaning;
ghost use Rattle.compose_meaning.specs.Meaning.{Meaning};
ghost use Rattle.compose_meaning.specs.Readable.{HasMeaning, Spot, in_component_type, in_instance_type};
ghost use Rattle.compose_coherence.specs.Agreement.{Agrees, meaning_of};
ghost use Rattle.compose_coherence.specs.Remaining.{Remains};
ghost use Rattle.compose_coherence.specs.Shapes.{HaveMeanings};

use comp_coherence::laws::each_name_stands_for_one_type;

/// Each import and each export of a component has any meaning that agrees with the names of the component's shape, as
/// soon as what remains is seen to.
pub fn entities_of_a_shape_have_a_meaning()
    ensures { (bytes : List ℕ) (parts : Parts) → HasParts bytes parts
        → (b : Bounds) (s : ShapeTree) → shape_within b parts ≡ Ok s → HaveMeanings s }
{
    each_name_stands_for_one_type();
}

/// An entity that coheres with names has any meaning that agrees with them, as soon as what remains is seen to: how
/// resources are called, naming bits, and names of imports and exports.
pub fn what_coheres_has_a_meaning()
    ensures { (names : Names) (mean : Meaning) (spot : Spot) → Agrees names mean
        → (e : EntityTree) → Coheres names e → Remains mean spot e → HasMeaning mean spot e }
{}

/// Whatever names mean, and however resources are called where they are written, there is a meaning that agrees.
pub fn names_have_a_meaning()
    ensures { (names : Names) (resource : Name → Name) (bit : Name → Bool)
        → Agrees names (meaning_of resource bit names) }
{}

/// Around a component of which the shape is known nothing is mentioned, so any meaning agrees there.
pub fn any_meaning_agrees_nowhere()
    ensures { (mean : Meaning) → Agrees nowhere mean }
{}

/// Meanings that agree do so within a type of instances, of whose own places the types agree.
pub fn meanings_agree_within_instances()
    ensures { (names : Names) (mean : Meaning) → Agrees names mean
        → (own : Name → Option ValueTree) (own_mean : Meaning) → Agrees (any_resource own) own_mean
        → Agrees (inside_instances own names) (in_instance_type own_mean mean) }
{}

/// They do so within a component, and within a type of components, of whose own places the types agree.
pub fn meanings_agree_within_components()
    ensures { (names : Names) (mean : Meaning) → Agrees names mean
        → (own : Name → Option ValueTree) (own_mean : Meaning) → Agrees (any_resource own) own_mean
        → Agrees (inside_component own names) (in_component_type own_mean mean) }
{}

/// A type that coheres with names has one tree in each meaning that agrees with them.
pub fn a_coherent_type_has_one_tree()
    ensures { (names : Names) (mean : Meaning) → Agrees names mean
        → (t : ValueTree) → OneTree names t → meaning.OneTree mean t }
{}

/// The same of a type of functions.
pub fn a_coherent_function_has_one_tree()
    ensures { (names : Names) (mean : Meaning) → Agrees names mean
        → (f : FuncTree) → OneTreeFunc names f → meaning.OneTreeFunc mean f }
{}
