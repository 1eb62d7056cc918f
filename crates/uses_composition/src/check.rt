//! A caller of `compose_check`.

ghost use Rattle.std.specs.Prelude.{◌≡◌, ℕ, List, MatchOption, IfOk};
ghost use Rattle.compose_check.specs.Checked.{IsInstanceOrder, IsSound};
ghost use Rattle.compose_check.specs.Composition.{IsComposition, composition_tree, wiring};
ghost use Rattle.compose_fit.specs.Fit.{WiresFit};
ghost use Rattle.compose_order.specs.Known.{Imports};

use compose_check::laws::what_can_be_written_is_not_refused;
use compose_check::{Agreed, CheckError, Composition, check};
use std::alloc::Global;
use warg_values::Memory;

/// The instances of a composition in the order in which they are written. `None` exactly where it can't be written.
pub fn written_order(
    alloc: Global,
    composition: &Composition<'_>,
) -> Result<Option<Vec<usize>>, Memory>
    requires { IsComposition (composition_tree composition.now) }
    ensures { IfOk result (λ found. MatchOption found
        ((order : List ℕ) (out : Imports) → IsSound (composition_tree composition.now) order out → ⊥)
        (λ order. WiresFit (wiring (composition_tree composition.now))
        × IsInstanceOrder (composition_tree composition.now) order.items)) }
{
    what_can_be_written_is_not_refused();
    match check(alloc, composition) {
        Ok(
            Agreed {
                order,
                lefts: _lefts,
                origins: _origins,
            },
        ) => Ok(Some(order)),
        Err(CheckError::Memory) => Err(Memory),
        Err(CheckError::Cycle(_instance, _name)) => Ok(None),
        Err(CheckError::Incompatible(_why)) => Ok(None),
    }
}
