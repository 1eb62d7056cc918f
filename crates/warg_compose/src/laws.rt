//! Laws of plans that are linked. Each is the contract of a function that does nothing.

ghost use Rattle.std.specs.Prelude.{◌≡◌, Bool, List};
ghost use Rattle.compose_config.specs.Plan.{Settings};
ghost use Rattle.warg_plan.specs.Keys.{Key};
ghost use Rattle.warg_plan.specs.Plan.{IsPlan};
ghost use Rattle.warg_plan.specs.Walk.{Entry, Facts};
ghost use Rattle.warg_compose.specs.Linked.{IsComposeFault, IsLinkable, IsLockFault, IsLockable};
ghost use Rattle.warg_compose.specs.Wired.{AreOfComponents, AreWired};
ghost use Rattle.warg_compose.specs.declared.error.ComposeError.{ComposeError as Unlinked};
ghost use Rattle.warg_compose.specs.declared.error.ComposeError.TheVariants.{Memory as IsShort};

use comp_shape::laws::one_shape;
use compose_complete::laws::what_can_be_encoded_is_refused_for_its_numbers;

/// A plan over contents that are components is wired as linking asks.
pub fn plans_over_components_are_wired()
    ensures { (s : Settings) (f : Facts) (root : Key) (es : List Entry)
        → IsPlan s f root es → AreOfComponents f → AreWired es }
{}

/// A plan that can be linked is refused for want of memory alone.
pub fn linkable_plans_are_linked()
    ensures { (disallow : Bool) (es : List Entry) (e : Unlinked)
        → AreWired es → IsLinkable disallow es → IsComposeFault disallow e es → e ≡ IsShort }
{
    one_shape();
    what_can_be_encoded_is_refused_for_its_numbers();
}

/// A plan that can be locked is refused for want of memory alone.
pub fn lockable_plans_are_locked()
    ensures { (disallow : Bool) (es : List Entry) (e : Unlinked)
        → AreWired es → IsLockable disallow es → IsLockFault disallow e es → e ≡ IsShort }
{
    one_shape();
    what_can_be_encoded_is_refused_for_its_numbers();
}
