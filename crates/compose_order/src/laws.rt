//! Laws over definitions alone.

ghost use Rattle.std.specs.Prelude.{◌≡◌, ◌↔◌, true, Contains};
ghost use Rattle.compose_needs.specs.Lefts.{Lefts};
ghost use Rattle.compose_order.specs.Brought.{IsBrought, NeedsSomethingOf};
ghost use Rattle.compose_order.specs.Agreed.{AllBrought, AreOrdered, Bytes, IsCaseClash, HasNoPlace, IsUnbrought};
ghost use Rattle.compose_order.specs.Agreed.{NoClash};
ghost use Rattle.compose_order.specs.Known.{Imports};
ghost use Rattle.compose_order.specs.Needs.{LeftTree, is_brought, needs};

use compose_agree::laws::{one_first_clash, one_order};
use compose_needs::laws::{components_name_what_they_mention, what_is_mentioned_is_named};

/// Whether what an import mentions is brought is decided as the rule says it.
pub fn what_is_mentioned_is_brought()
    ensures { (left : Lefts) (l : LeftTree) → (is_brought left l ≡ true) ↔ IsBrought left l }
{
    what_is_mentioned_is_named();
    components_name_what_they_mention();
}

/// The imports of which one needs something are found as the rule says it.
pub fn what_is_needed_of_others()
    ensures { (left : Lefts) (l : LeftTree) (other : Bytes) → Contains (needs left l) other
        ↔ NeedsSomethingOf left l other }
{}

/// Imports that have an order are refused by no error, and no two errors refuse the same imports.
pub fn outcomes_exclude_each_other()
    ensures clash { (ls : Imports) (a b : Bytes) → NoClash ls → IsCaseClash ls a b → ⊥ }
    ensures unbrought { (left : Lefts) (ls : Imports) (n : Bytes) → AllBrought left ls → IsUnbrought left ls n → ⊥ }
    ensures circle { (left : Lefts) (ls out : Imports) (n : Bytes) → AreOrdered left ls out → HasNoPlace left ls n
        → ⊥ }
{
    one_order();
}

/// Imports that have an order have one alone, and an error that refuses imports names the same of them each time.
pub fn outcomes_are_one()
    ensures ordered { (left : Lefts) (ls xs ys : Imports) → AreOrdered left ls xs → AreOrdered left ls ys → xs ≡ ys }
    ensures clash { (ls : Imports) (a b c d : Bytes) → IsCaseClash ls a b → IsCaseClash ls c d → (a ≡ c) × (b ≡ d) }
    ensures unbrought { (left : Lefts) (ls : Imports) (m n : Bytes) → IsUnbrought left ls m → IsUnbrought left ls n
        → m ≡ n }
    ensures circle { (left : Lefts) (ls : Imports) (m n : Bytes) → HasNoPlace left ls m → HasNoPlace left ls n → m ≡ n }
{
    one_first_clash();
    one_order();
}
