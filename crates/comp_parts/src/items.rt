//! Items that are neither imported nor exported, and no nested components.

ghost use Rattle.std.specs.Prelude.{◌≡◌, List, Ok, OnErr, map};
ghost use Rattle.comp_declare.specs.Outer.{AllShowSpaces, AreSpaces};
ghost use Rattle.comp_entity.specs.Bounds.{bounded};
ghost use Rattle.comp_format.specs.Items.{item_tree};
ghost use Rattle.comp_parts.specs.Parts.{with_own_module};
ghost use Rattle.comp_scope.specs.Shape.{spaces_after};
ghost use Rattle.comp_scope.specs.Spaces.{Spaces};
ghost use Rattle.comp_space.specs.Faults.{Finds};
ghost use Rattle.comp_space.specs.SpaceViews.{IsSpace, ShowsSpaces};
ghost use Rattle.comp_table.specs.Trees.{Extends};

use comp_declare::{add_alias, add_unknown};
use comp_define::{add_core_type, add_type};
use comp_format::{CoreSort, Item};
use comp_instance::{add_canon, add_core_instance, add_instance};
use comp_space::{ScopeError, Space};
use comp_table::TypeTable;
use std::alloc::Global;

/// Adds a core module of the component's own, of whose type nothing is known.
fn add_core_module(
    table: &mut TypeTable,
    alloc: Global,
    space: &mut Space,
) -> Result<(), ScopeError>
    ensures extends { Extends table.old table.new }
    ensures found { (s : Spaces) → ShowsSpaces table.old space.old s
        → Finds (λ u. ShowsSpaces table.new space.new) result (Ok (with_own_module s)) }
    ensures unchanged { (s : Spaces) → ShowsSpaces table.old space.old s
        → OnErr result (ShowsSpaces table.new space.new s) }
{
    add_unknown(table, alloc, space, CoreSort::Module)?;
    Ok(())
}

/// Adds an item that is neither imported nor exported, and no nested component: `around` are the scopes around, from
/// within. Whatever the answer, the numbers given so far keep their meaning; a refusal adds nothing to the scope.
#[tactic(auto, unfolding(comp_scope::specs::Shape::spaces_after))]
pub fn add_item(
    table: &mut TypeTable,
    alloc: Global,
    around: &[&Space],
    space: &mut Space,
    item: &Item<'_>,
) -> Result<(), ScopeError>
    requires own { IsSpace table.old space.old }
    requires around { AreSpaces table.old (map (λ s. s.now) around.now) }
    ensures extends { Extends table.old table.new }
    ensures found { (ss : List Spaces) (s : Spaces)
        → AllShowSpaces table.old (map (λ s. s.now) around.now) ss → ShowsSpaces table.old space.old s
        → Finds (λ u. ShowsSpaces table.new space.new) result (spaces_after bounded ss s (item_tree item.now)) }
    ensures unchanged { (s : Spaces) → ShowsSpaces table.old space.old s
        → OnErr result (ShowsSpaces table.new space.new s) }
{
    match item {
        Item::Custom { name: _, bytes: _ } => Ok(()),
        Item::CoreModule { bytes: _ } => add_core_module(table, alloc, space),
        Item::CoreInstance(instance) => add_core_instance(space, instance),
        Item::CoreTy(ty) => add_core_type(table, alloc, around, space, ty),
        Item::Instance(instance) => add_instance(table, alloc, space, instance),
        Item::Alias(alias) => add_alias(table, alloc, around, space, alias),
        Item::Ty(ty) => add_type(table, alloc, around, space, ty),
        Item::Canon(canon) => add_canon(table, alloc, space, canon),
        // These are no items of index spaces alone.
        Item::Component { bytes: _ } => Err(ScopeError::Index),
        Item::Import { name: _, ty: _ } => Err(ScopeError::Index),
        Item::Export {
            name: _,
            sort: _,
            index: _,
            ty: _,
        } => Err(ScopeError::Index),
    }
}
