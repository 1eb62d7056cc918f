//! Laws of what numbers of origins stand for: each is a function that does nothing, and is proved of all compositions.

ghost use Rattle.std.specs.Prelude.{◌≡◌, ℕ, List, [], true};
ghost use Rattle.std.specs.List.{AllByRecursion};
ghost use Rattle.comp_entity.specs.Entity.{EntityTree};
ghost use Rattle.comp_coherence.specs.Coherence.{Coheres, Names};
ghost use Rattle.compose_left.specs.Merging.{union};
ghost use Rattle.compose_left.specs.Wiring.{HasNoCircle, Wiring};
ghost use Rattle.compose_fit.specs.Fit.{WiresFit};
ghost use Rattle.compose_order.specs.Needs.{LeftTree};
ghost use Rattle.compose_check.specs.Checked.{IsSound};
ghost use Rattle.compose_check.specs.Composition.{CompositionTree, IsComposition, wiring};
ghost use Rattle.compose_check.specs.Open.{all_agree, left_open};
ghost use Rattle.compose_origins.specs.Named.{IsWellNamed, WiresBegin};
ghost use Rattle.compose_origins.specs.Placed.{OneTypeEach};

use comp_coherence::laws::a_change_carries_types_along;
use compose_left::laws::origins_pass_along_wires;

/// Along wires that have no circle and fit, of what is asked under one name merging, one number of an origin stands for
/// one type: in what each instance imports and exports, and in each left import.
pub fn one_number_stands_for_one_type()
    ensures { (w : Wiring) → HasNoCircle w → WiresFit w → WiresBegin w → AllByRecursion IsWellNamed w.shapes
        → all_agree [] (left_open w) ≡ true → OneTypeEach w }
{
    origins_pass_along_wires();
    a_change_carries_types_along();
}

/// In a composition that can be written one number of an origin stands for one type.
pub fn a_sound_composition_has_one_type_each()
    ensures { (c : CompositionTree) (order : List ℕ) (out : List LeftTree) → IsComposition c → IsSound c order out
        → AllByRecursion IsWellNamed (wiring c).shapes → OneTypeEach (wiring c) }
{
    one_number_stands_for_one_type();
}

/// What merges two needs of one import has the types of both.
pub fn what_merges_keeps_types()
    ensures { (names : Names) (e f : EntityTree) → Coheres names e → Coheres names f → Coheres names (union e f) }
{}
