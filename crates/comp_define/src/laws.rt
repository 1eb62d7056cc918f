//! Laws of closed scopes: each is a function that does nothing, and is proved of all of them.

ghost use Rattle.std.specs.Prelude.{◌≡◌, ℕ, flat_map};
ghost use Rattle.comp_define.specs.Orders.{AreInOrder};
ghost use Rattle.comp_define.specs.OtherNumbers.{IsOneToOne, with_other_numbers};
ghost use Rattle.comp_entity.specs.Names.{place_at, resource_at};
ghost use Rattle.comp_entity.specs.Views.{Sides};
ghost use Rattle.comp_scope.specs.Closing.{first_mentions, mentions_in, numbered};

use comp_mention::laws::trees_mention_as_entities;
use comp_table::laws::{changed_entities_have_changed_trees, one_entity};

/// How a scope numbers what it makes makes no difference once it is closed: where its resources and its places that
/// named types have other numbers, no two of them one, the same imports and exports come out.
pub fn closing_forgets_numbers()
    ensures { (resources places : ℕ → ℕ) → IsOneToOne resources → IsOneToOne places → (sides : Sides)
        → numbered (with_other_numbers resources places sides) ≡ numbered sides }
{
    trees_mention_as_entities();
    changed_entities_have_changed_trees();
    one_entity();
}

/// What is closed is settled: closing it again changes nothing.
pub fn closed_scopes_are_settled()
    ensures { (sides : Sides) → numbered (numbered sides) ≡ numbered sides }
{
    trees_mention_as_entities();
    changed_entities_have_changed_trees();
    one_entity();
}

/// Where what a scope makes is numbered by first mention already, closing it changes nothing.
pub fn what_stands_in_order_stays()
    ensures { (sides : Sides)
        → AreInOrder (first_mentions (flat_map (resource_at 0) (mentions_in sides)))
        → AreInOrder (first_mentions (flat_map (place_at 0) (mentions_in sides)))
        → numbered sides ≡ sides }
{
    trees_mention_as_entities();
    changed_entities_have_changed_trees();
    one_entity();
}
