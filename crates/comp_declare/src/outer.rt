//! What stands in scopes further out.

ghost use Rattle.std.specs.Prelude.{◌≡◌, ◌<◌, IfOk, List, length, map};
ghost use Rattle.std.specs.List.{list_any, sum_by};
ghost use Rattle.comp_declare.specs.Outer.{AllShowSpaces, AreSpaces, ShowsOuter, standing_outside, width_of};
ghost use Rattle.comp_format.specs.declared.types.Sort.TheVariants as Sort;
ghost use Rattle.comp_entity.specs.Entity.{EntityTree};
ghost use Rattle.comp_entity.specs.Names.{deeper};
ghost use Rattle.comp_scope.specs.Aliases.{may_pass, outer_scope};
ghost use Rattle.comp_scope.specs.Spaces.{Spaces, standing};
ghost use Rattle.comp_space.specs.Faults.{Finds};
ghost use Rattle.comp_space.specs.SpaceViews.{ShowsSpaces};
ghost use Rattle.comp_space.specs.Standings.{Shows};
ghost use Rattle.comp_table.specs.Plain.{plain_entity};
ghost use Rattle.comp_table.specs.Trees.{Extends, PlainTree, Stands};

use crate::mentions::mentions_resource;
use crate::new_names::sum;
use comp_entity::{ResourceNo, TypeNo};
use comp_format::{CoreSort, Sort};
use comp_rename::{Renaming, renamed};
use comp_space::{ScopeError, Space, Standing, sort_at, standing_at};
use comp_table::TypeTable;
use comp_table::laws::changed_entities_have_changed_trees;
use std::alloc::Global;
use warg_values::Memory;

/// The names of an outer scope, as they are called so many scopes further in.
#[derive(Clone, Copy, Debug)]
pub struct Deeper {
    /// How many scopes.
    pub scopes: usize,
}

impl Renaming for Deeper {
    ghost resources = { λ d. deeper d.scopes };

    ghost places = { λ d. deeper d.scopes };

    fn resource(&self, resource: ResourceNo) -> Option<ResourceNo> {
        let out = resource.out().checked_add(self.scopes)?;
        ResourceNo::new(out, resource.number())
    }

    fn place(&self, place: TypeNo) -> Option<TypeNo> {
        let out = place.out().checked_add(self.scopes)?;
        TypeNo::new(out, place.number())
    }
}

/// A scope further out, seen from within.
#[derive(Clone, Copy, Debug)]
pub struct Outer<'a> {
    /// Its index spaces.
    pub space: &'a Space,
    /// How many scopes of names lie between.
    pub distance: usize,
    /// Whether a component, or a type of components, is left on the way out.
    pub leaves_component: bool,
}

/// What stands at an index of the index space of a core sort. Only modules may be named so.
fn module_at(space: &Space, sort: CoreSort, index: u32) -> Result<Standing, ScopeError>
    ensures { (table : List PlainTree) (s : Spaces) → ShowsSpaces table space.now s
        → Finds (Shows plain_entity table) result (standing s (Sort.Core sort) index) }
{
    match sort {
        CoreSort::Module => standing_at(&space.modules, index),
        _ => Err(ScopeError::Index),
    }
}

/// What stands at an index of the index space of a sort. Of the core sorts only modules may be named so.
pub fn item_at(space: &Space, sort: Sort, index: u32) -> Result<Standing, ScopeError>
    ensures { (table : List PlainTree) (s : Spaces) → ShowsSpaces table space.now s
        → Finds (Shows plain_entity table) result (standing s sort index) }
{
    match sort {
        Sort::Core(core) => module_at(space, core, index),
        Sort::Func => standing_at(&space.funcs, index),
        Sort::Ty => standing_at(&space.types, index),
        Sort::Component => standing_at(&space.components, index),
        Sort::Instance => standing_at(&space.instances, index),
    }
}

/// How many scopes of names a scope is.
fn width(space: &Space) -> usize
    ensures { result ≡ width_of space.now }
{
    if space.is_closed { 2 } else { 1 }
}

/// How many scopes of names some scopes are.
fn distance(scopes: &[&Space]) -> Result<usize, Memory>
    ensures { IfOk result (λ n. n ≡ sum_by (λ s. width_of s.now) scopes.now) }
{
    let mut distance = 0;
    for scope in scopes {
        distance = sum(distance, width(scope))?;
    }
    Ok(distance)
}

/// Whether one of some scopes is a component, or a type of components.
fn leaves_component(scopes: &[&Space]) -> bool
    ensures { result ≡ list_any (λ s. s.now.is_closed) scopes.now }
{
    scopes.iter().any(|scope| scope.is_closed)
}

/// The scope that is so many scopes further out: `scopes` are those that are open, from the innermost.
pub fn outer_scope<'a>(scopes: &[&'a Space], count: u32) -> Result<Outer<'a>, ScopeError>
    ensures { (table : List PlainTree) (ss : List Spaces) → AllShowSpaces table (map (λ s. s.now) scopes.now) ss
        → Finds (ShowsOuter table) result (outer_scope ss count) }
{
    let count = count as usize;
    if count >= scopes.len() {
        return Err(ScopeError::Index);
    }
    let passed = &scopes[..count];
    let distance = distance(passed)?;
    let leaves_component = leaves_component(passed);
    Ok(Outer {
        space: scopes[count],
        distance,
        leaves_component,
    })
}

/// Whether an entity may be named from within a component, or a type of components, around which it stands.
fn may_pass(
    table: &TypeTable,
    alloc: Global,
    leaves_component: bool,
    number: usize,
) -> Result<bool, Memory>
    requires { number < length table.now }
    ensures { (e : EntityTree) → Stands table.now number (plain_entity e)
        → IfOk result (λ b. b ≡ may_pass leaves_component e) }
{
    let Sort::Ty = sort_at(table, number) else {
        return Ok(true);
    };
    if !leaves_component {
        return Ok(true);
    }
    let mentions = mentions_resource(table, alloc, number)?;
    Ok(!mentions)
}

/// An item of a scope further out in the names of the innermost, with its naming bit: `scopes` are the scopes that are
/// open, from the innermost. Whatever the answer, the numbers given so far keep their meaning.
pub fn item_outside(
    table: &mut TypeTable,
    alloc: Global,
    scopes: &[&Space],
    sort: Sort,
    count: u32,
    index: u32,
) -> Result<Standing, ScopeError>
    requires { AreSpaces table.old (map (λ s. s.now) scopes.now) }
    ensures extends { Extends table.old table.new }
    ensures found { (ss : List Spaces) → AllShowSpaces table.old (map (λ s. s.now) scopes.now) ss
        → Finds (Shows plain_entity table.new) result (standing_outside ss sort count index) }
{
    changed_entities_have_changed_trees();
    let outer = outer_scope(&*scopes, count)?;
    let item = item_at(outer.space, sort, index)?;
    if !may_pass(table, alloc, outer.leaves_component, item.number)? {
        return Err(ScopeError::Index);
    }
    let renaming = Deeper {
        scopes: outer.distance,
    };
    let number = renamed(table, alloc, &renaming, item.number)?;
    Ok(Standing {
        number,
        named: item.named,
    })
}
