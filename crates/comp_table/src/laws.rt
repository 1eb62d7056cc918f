//! Laws of types and entities as trees of heads: each is a function that does nothing, and is proved of all of them.

ghost use Rattle.std.specs.Prelude.{◌≡◌, ◌↔◌, ℕ, true};
ghost use Rattle.comp_entity.specs.Bounds.{entity_nodes, value_depth};
ghost use Rattle.comp_entity.specs.Entity.{EntityTree, ValueTree};
ghost use Rattle.comp_entity.specs.Fits.{equal, same_name, values_equal};
ghost use Rattle.comp_entity.specs.Names.{Change, bare, entity_by, value_by, without_places};
ghost use Rattle.comp_table.specs.Changes.{tree_by};
ghost use Rattle.comp_table.specs.Facts.{tree_depth, tree_size};
ghost use Rattle.comp_table.specs.Plain.{plain_entity, plain_value};
ghost use Rattle.comp_table.specs.Shown.{IsShown};

use comp_entity::laws::a_change_keeps_equality;

/// No two entities have one tree of heads, so that those of one number are equal.
pub fn one_entity()
    ensures { (a b : EntityTree) → plain_entity a ≡ plain_entity b → a ≡ b }
{}

/// The tree of heads of an entity has as many nodes as the entity.
pub fn trees_are_as_large()
    ensures { (e : EntityTree) → tree_size (plain_entity e) ≡ entity_nodes e }
{}

/// The tree of heads of a value type is as deep as the type.
pub fn trees_are_as_deep()
    ensures { (t : ValueTree) → tree_depth (plain_value t) ≡ value_depth t }
{}

/// An entity in other names has the tree of heads of the entity, in these names.
pub fn changed_entities_have_changed_trees()
    ensures { (c : Change) (depth : ℕ) (e : EntityTree)
        → plain_entity (entity_by c depth e) ≡ tree_by c depth (plain_entity e) }
{}

/// Entities are equal exactly where they have one tree of heads without the places that named types and without naming
/// bits, and so one number, where no core module of a component's own stands in the second.
pub fn equal_entities_have_one_bare_tree()
    ensures { (a b : EntityTree) → IsShown b → (equal a b ≡ true) ↔ (plain_entity (bare a) ≡ plain_entity (bare b)) }
{}

/// Value types are equal exactly where they have one tree of heads without the places that named types, and so one
/// number.
pub fn equal_types_have_one_bare_tree()
    ensures { (v w : ValueTree) → (values_equal same_name v w ≡ true)
        ↔ (plain_value (value_by without_places 0 v) ≡ plain_value (value_by without_places 0 w)) }
{
    a_change_keeps_equality();
}
