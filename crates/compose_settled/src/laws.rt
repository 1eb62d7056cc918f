//! Laws of left imports as they are written: each is a function that does nothing, and is proved of all compositions.

ghost use Rattle.std.specs.Prelude.{◌≡◌, ℕ, List, [], ◌∷◌, Some};
ghost use Rattle.std.specs.List.{AllByRecursion};
ghost use Rattle.comp_format.specs.Items.{ItemTree};
ghost use Rattle.comp_scope.specs.Spaces.{Known};
ghost use Rattle.compose_left.specs.Wiring.{Wiring};
ghost use Rattle.compose_order.specs.Needs.{LeftTree};
ghost use Rattle.compose_writing.specs.Scopes.{WrittenScope};
ghost use Rattle.compose_meaning.specs.Keeps.{Keeps, spot_of};
ghost use Rattle.compose_meaning.specs.Meaning.{Meaning, placed_entity};
ghost use Rattle.compose_check.specs.Checked.{IsSound};
ghost use Rattle.compose_check.specs.Composition.{ComponentTree, CompositionTree, IsComposition, wiring};
ghost use Rattle.compose_check.specs.Open.{lefts};
ghost use Rattle.compose_origins.specs.Named.{IsWellNamed};
ghost use Rattle.compose_origins.specs.Placed.{OneTypeEach};
ghost use Rattle.compose_known.specs.Imports.{import_items, write_lefts};
ghost use Rattle.compose_naming.specs.Bits.{Scope, behind_lefts};
ghost use Rattle.compose_naming.specs.Bits.{outermost as bits_outermost};
ghost use Rattle.compose_naming.specs.NamingBits.{Extends};
ghost use Rattle.compose_naming.specs.Settled.{settled};
ghost use Rattle.compose_settled.specs.Stays.{AllStayToRead};
ghost use Rattle.compose_known.specs.Whole.{IsWhole};
ghost use Rattle.compose_settled.specs.ReadBack.{AllRemainToRead, AreReadable, AreReadableAsWritten, ReadAsMeant, ReadsBack};
ghost use Rattle.compose_settled.specs.ReadBack.{first_import};
ghost use Rattle.compose_settled.specs.Written.{HasImportsInOrder, HasImportsPlaced, HaveMeaningsAsWritten};
ghost use Rattle.compose_settled.specs.Written.{IsWrittenInOrder};
ghost use Rattle.compose_settled.specs.Written.{OneTypeAsWritten};

use comp_coherence::laws::a_change_carries_types_along;
use compose_coherence::laws::{
    a_coherent_type_has_one_tree, names_have_a_meaning, what_coheres_has_a_meaning,
};
use compose_known::laws::one_tree_stands_apart;
use compose_meaning::laws::{
    an_import_reads_back, another_number_is_known, declarations_are_items, nothing_is_written,
    what_is_written_reads_back,
};
use compose_origins::laws::a_sound_composition_has_one_type_each;

/// Where one number of an origin stands for one type, each left import coheres with these types as it is written.
pub fn settled_imports_cohere()
    ensures { (w : Wiring) → OneTypeEach w → OneTypeAsWritten w }
{
    a_change_carries_types_along();
}

/// There names in each left import stand in order as it is written, if they do in the imports of all shapes: no type
/// stands within itself, and types of instances name what they mention of their own scope there or earlier.
pub fn settled_imports_stand_in_order()
    ensures { (w : Wiring) → OneTypeEach w → AllByRecursion HasImportsInOrder w.shapes
        → AllByRecursion IsWrittenInOrder (lefts w) }
{
    settled_imports_cohere();
    names_have_a_meaning();
    a_coherent_type_has_one_tree();
    one_tree_stands_apart();
}

/// There each left import has, as it is written, any meaning that agrees with what the numbers of origins stand for, as
/// soon as what remains is seen to: how resources are called, naming bits, and names of exports.
pub fn settled_imports_have_a_meaning()
    ensures { (w : Wiring) → OneTypeEach w → HaveMeaningsAsWritten w }
{
    settled_imports_cohere();
    what_coheres_has_a_meaning();
}

/// There left imports are readable as they are written, in any order, as soon as what remains is seen to, if each type
/// in the imports of all shapes has the name of its place: what is called in them means what stands there.
pub fn settled_imports_are_readable()
    ensures { (w : Wiring) → OneTypeEach w → AllByRecursion HasImportsPlaced w.shapes → AreReadableAsWritten w }
{
    settled_imports_cohere();
    what_coheres_has_a_meaning();
}

/// The same of the left imports of a composition that can be written, of which each shape is well named.
pub fn a_sound_composition_is_settled()
    ensures cohere { (c : CompositionTree) (order : List ℕ) (out : List LeftTree) → IsComposition c
        → IsSound c order out
        → AllByRecursion IsWellNamed (wiring c).shapes
        → OneTypeAsWritten (wiring c) }
    ensures in_order { (c : CompositionTree) (order : List ℕ) (out : List LeftTree) → IsComposition c
        → IsSound c order out
        → AllByRecursion IsWellNamed (wiring c).shapes
        → AllByRecursion HasImportsInOrder (wiring c).shapes
        → AllByRecursion IsWrittenInOrder (lefts (wiring c)) }
    ensures meanings { (c : CompositionTree) (order : List ℕ) (out : List LeftTree) → IsComposition c
        → IsSound c order out
        → AllByRecursion IsWellNamed (wiring c).shapes
        → HaveMeaningsAsWritten (wiring c) }
    ensures readable { (c : CompositionTree) (order : List ℕ) (out : List LeftTree) → IsComposition c
        → IsSound c order out
        → AllByRecursion IsWellNamed (wiring c).shapes
        → AllByRecursion HasImportsPlaced (wiring c).shapes
        → AreReadableAsWritten (wiring c) }
{
    a_sound_composition_has_one_type_each();
    settled_imports_cohere();
    settled_imports_stand_in_order();
    settled_imports_have_a_meaning();
    settled_imports_are_readable();
}

/// As it is written a left import is what it was, whatever names mean: only the places that named types are called
/// otherwise.
pub fn what_is_settled_is_the_same()
    ensures { (mean : Meaning) (l : LeftTree) → placed_entity mean (settled l).entity ≡ placed_entity mean l.entity }
{}

/// Names in each left import of a composition that can be written stand in order as it is written, where the components
/// are whole and the shapes of instances are well named. For which type each place stands need not be told.
pub fn a_sound_composition_stands_in_order()
    ensures { (c : CompositionTree) (order : List ℕ) (out : List LeftTree) → IsComposition c → IsSound c order out
        → ∥ AllByRecursion IsWellNamed (wiring c).shapes ∥₁
        → AllByRecursion (λ (k : ComponentTree). IsWhole k.shape) c.components
        → AllByRecursion IsWrittenInOrder (lefts (wiring c)) }
{
    a_sound_composition_is_settled();
}

/// What is written for imports reads back as they are meant, in order, if each is readable where it stands: it has a
/// meaning and a name of its own, and what is called in it means what stands there. So does all that is written for
/// them as the items of a component.
pub fn imports_read_back()
    ensures scopes { (mean : Meaning) (ls : List LeftTree) (m : WrittenScope) (k : Known)
        → (later : List WrittenScope)
        → Keeps mean m k
        → AreReadable mean (spot_of m k) ls
        → write_lefts ls (m ∷ []) ≡ Some later
        → ReadsBack mean k ls later }
    ensures items { (mean : Meaning) (ls : List LeftTree) (items : List ItemTree) → AreReadable mean first_import ls
        → import_items ls ≡ Some items
        → ReadAsMeant mean ls items }
{
    nothing_is_written();
    what_is_written_reads_back();
    an_import_reads_back();
    another_number_is_known();
    declarations_are_items();
}

/// Left imports that have their naming bits leave no bits to see to: where the places that are named first, and what is
/// called, have in a meaning the bits that `compose_naming` finds, all remains that is asked of imports which read back,
/// as soon as resources are called in their order, components number what they make, and names differ.
pub fn naming_bits_are_seen_to()
    ensures { (mean : Meaning) (ls : List LeftTree) (scopes : List Scope) → behind_lefts ls bits_outermost ≡ Some scopes
        → Extends mean.bit scopes → AllStayToRead mean first_import ls → AllRemainToRead mean first_import ls }
{}
