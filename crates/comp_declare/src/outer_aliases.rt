//! Aliases of what stands in scopes further out, and aliases of all kinds.

ghost use Rattle.std.specs.Prelude.{◌≡◌, ◌∷◌, IfOk, List, OnErr, map};
ghost use Rattle.comp_declare.specs.Outer.{AllShowSpaces, AreSpaces, is_core_type, standing_outside};
ghost use Rattle.comp_entity.specs.Bounds.{bounded};
ghost use Rattle.comp_format.specs.declared.types.CoreSort.TheVariants as CoreSort;
ghost use Rattle.comp_format.specs.declared.types.Sort.TheVariants as Sort;
ghost use Rattle.comp_scope.specs.Aliases.{aliased, core_scopes, outer_alias, outer_item};
ghost use Rattle.comp_scope.specs.CoreScopes.{outer_core};
ghost use Rattle.comp_scope.specs.Spaces.{Spaces};
ghost use Rattle.comp_space.specs.CoreStandings.{ShowsCore};
ghost use Rattle.comp_space.specs.Faults.{Finds};
ghost use Rattle.comp_space.specs.SpaceViews.{IsSpace, ShowsSpaces};
ghost use Rattle.comp_space.specs.Standings.{Shows};
ghost use Rattle.comp_table.specs.Plain.{plain_entity};
ghost use Rattle.comp_table.specs.Trees.{Extends, PlainTree};

use crate::aliases::{add_core_alias, add_export_alias};
use crate::outer::{item_outside, outer_scope};
use comp_format::{Alias, CoreSort, Sort};
use comp_space::{CoreStanding, ScopeError, Space, Standing, core_type_at};
use comp_table::TypeTable;
use std::alloc::Global;
use warg_values::Memory;

/// The scopes that are open: one, and those around it, from within.
pub fn scopes_within<'a>(
    alloc: Global,
    own: &'a Space,
    around: &'a [&Space],
) -> Result<Vec<&'a Space>, Memory>
    ensures { IfOk result (λ all. map (λ s. s.now) all.items ≡ own.now ∷ map (λ s. s.now) around.now) }
{
    let mut all = Vec::new(alloc);
    all.push(own)?;
    for scope in around {
        all.push(&**scope)?;
    }
    Ok(all)
}

/// An item of a scope further out, seen from one scope within others.
fn item_around(
    table: &mut TypeTable,
    alloc: Global,
    own: &Space,
    around: &[&Space],
    sort: Sort,
    count: u32,
    index: u32,
) -> Result<Standing, ScopeError>
    requires { AreSpaces table.old (own.now ∷ map (λ s. s.now) around.now) }
    ensures extends { Extends table.old table.new }
    ensures found { (ss : List Spaces) → AllShowSpaces table.old (own.now ∷ map (λ s. s.now) around.now) ss
        → Finds (Shows plain_entity table.new) result (standing_outside ss sort count index) }
{
    let scopes = scopes_within(alloc, own, around)?;
    item_outside(table, alloc, &scopes, sort, count, index)
}

/// Adds an item of a scope further out.
fn add_outer_item(
    table: &mut TypeTable,
    alloc: Global,
    around: &[&Space],
    space: &mut Space,
    sort: Sort,
    count: u32,
    index: u32,
) -> Result<(), ScopeError>
    requires own { IsSpace table.old space.old }
    requires around { AreSpaces table.old (map (λ s. s.now) around.now) }
    ensures extends { Extends table.old table.new }
    ensures found { (ss : List Spaces) (s : Spaces)
        → AllShowSpaces table.old (map (λ s. s.now) around.now) ss → ShowsSpaces table.old space.old s
        → Finds (λ u. ShowsSpaces table.new space.new) result (outer_item bounded ss s sort count index) }
    ensures unchanged { (s : Spaces) → ShowsSpaces table.old space.old s
        → OnErr result (ShowsSpaces table.new space.new s) }
{
    let item = item_around(table, alloc, &*space, around, sort, count, index)?;
    space.add(table, item)
}

/// A core type of a scope further out, seen from one scope within others.
fn core_type_around(
    alloc: Global,
    own: &Space,
    around: &[&Space],
    count: u32,
    index: u32,
) -> Result<CoreStanding, ScopeError>
    ensures { (table : List PlainTree) (ss : List Spaces)
        → AllShowSpaces table (own.now ∷ map (λ s. s.now) around.now) ss
        → Finds (ShowsCore table) result (outer_core (core_scopes ss) count index) }
{
    let scopes = scopes_within(alloc, own, around)?;
    let outer = outer_scope(&scopes, count)?;
    core_type_at(&outer.space.core_types, index)
}

/// Adds a core type of a scope further out. A refusal changes nothing.
fn add_outer_core(
    alloc: Global,
    around: &[&Space],
    space: &mut Space,
    count: u32,
    index: u32,
) -> Result<(), ScopeError>
    ensures found { (table : List PlainTree) (ss : List Spaces) (s : Spaces)
        → AllShowSpaces table (map (λ s. s.now) around.now) ss → ShowsSpaces table space.old s
        → Finds (λ u. ShowsSpaces table space.new) result
        (outer_alias bounded ss s (Sort.Core CoreSort.Ty) count index) }
    ensures unchanged { (table : List PlainTree) (s : Spaces) → ShowsSpaces table space.old s
        → OnErr result (ShowsSpaces table space.new s) }
{
    let known = core_type_around(alloc, &*space, around, count, index)?;
    space.core_types.push(known)?;
    Ok(())
}

/// Whether core types are of this sort.
fn is_core_type(sort: Sort) -> bool
    ensures { result ≡ is_core_type sort }
{
    matches!(sort, Sort::Core(CoreSort::Ty))
}

/// Adds an alias of what stands in a scope further out.
fn add_outer_alias(
    table: &mut TypeTable,
    alloc: Global,
    around: &[&Space],
    space: &mut Space,
    sort: Sort,
    count: u32,
    index: u32,
) -> Result<(), ScopeError>
    requires own { IsSpace table.old space.old }
    requires around { AreSpaces table.old (map (λ s. s.now) around.now) }
    ensures extends { Extends table.old table.new }
    ensures found { (ss : List Spaces) (s : Spaces)
        → AllShowSpaces table.old (map (λ s. s.now) around.now) ss → ShowsSpaces table.old space.old s
        → Finds (λ u. ShowsSpaces table.new space.new) result (outer_alias bounded ss s sort count index) }
    ensures unchanged { (s : Spaces) → ShowsSpaces table.old space.old s
        → OnErr result (ShowsSpaces table.new space.new s) }
{
    if is_core_type(sort) {
        return add_outer_core(alloc, around, space, count, index);
    }
    add_outer_item(table, alloc, around, space, sort, count, index)
}

/// Adds an alias: `around` are the scopes around, from within. Whatever the answer, the numbers given so far keep their
/// meaning; a refusal adds nothing to the scope.
pub fn add_alias(
    table: &mut TypeTable,
    alloc: Global,
    around: &[&Space],
    space: &mut Space,
    alias: &Alias,
) -> Result<(), ScopeError>
    requires own { IsSpace table.old space.old }
    requires around { AreSpaces table.old (map (λ s. s.now) around.now) }
    ensures extends { Extends table.old table.new }
    ensures found { (ss : List Spaces) (s : Spaces)
        → AllShowSpaces table.old (map (λ s. s.now) around.now) ss → ShowsSpaces table.old space.old s
        → Finds (λ u. ShowsSpaces table.new space.new) result (aliased bounded ss s alias.now) }
    ensures unchanged { (s : Spaces) → ShowsSpaces table.old space.old s
        → OnErr result (ShowsSpaces table.new space.new s) }
{
    match alias {
        Alias::Export {
            sort,
            instance,
            name,
        } => add_export_alias(&*table, space, *sort, *instance, name),
        Alias::CoreExport { sort, instance, .. } => {
            add_core_alias(table, alloc, space, *sort, *instance)
        }
        Alias::Outer { sort, count, index } => {
            add_outer_alias(table, alloc, around, space, *sort, *count, *index)
        }
    }
}
