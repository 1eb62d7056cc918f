//! Laws over definitions alone.

ghost use Rattle.std.specs.Prelude.{◌≡◌, [], true, List, ℕ};
ghost use Rattle.compose_check.specs.Checked.{IsCheckRefusal, IsSound};
ghost use Rattle.compose_check.specs.Composition.{CompositionTree, IsComposition};
ghost use Rattle.compose_check.specs.Merging.{Bytes};
ghost use Rattle.compose_check.specs.Open.{IsDisagreement, all_agree, left_open};
ghost use Rattle.compose_check.specs.declared.error.CheckError.{CheckError};
ghost use Rattle.compose_check.specs.declared.error.CheckError.TheVariants.{Cycle, Incompatible, Memory};
ghost use Rattle.compose_check.specs.declared.error.Why.{Why};
ghost use Rattle.compose_left.specs.Wiring.{Wiring};
ghost use Rattle.compose_order.specs.Known.{Imports};

use compose_fit::laws::what_does_not_fit;
use compose_naming::laws::functions_have_bits_or_not;
use compose_order::laws::{outcomes_are_one, outcomes_exclude_each_other};

/// A composition that can be written is refused by no error but want of memory.
pub fn what_can_be_written_is_not_refused()
    ensures { (c : CompositionTree) (order : List ℕ) (out : Imports) (e : CheckError) → IsComposition c
        → IsSound c order out → IsCheckRefusal c e → e ≡ Memory }
{
    what_does_not_fit();
    outcomes_exclude_each_other();
    outcomes_are_one();
    functions_have_bits_or_not();
}

/// Where instances are given to each other in a circle, there is no other cause; and what is asked under one name does
/// not both agree and differ. That the others exclude each other is what the laws of `compose_fit` and `compose_order`
/// say.
pub fn refusals_exclude_each_other()
    ensures circle { (c : CompositionTree) (i : ℕ) (n : Bytes) (reason : Why) → IsComposition c
        → IsCheckRefusal c (Cycle i n) → IsCheckRefusal c (Incompatible reason) → ⊥ }
    ensures disagree { (w : Wiring) (n : Bytes) → IsDisagreement (left_open w) n
        → all_agree [] (left_open w) ≡ true → ⊥ }
{}
