//! Aliases of what instances and core instances export.

ghost use Rattle.std.specs.Prelude.{◌≡◌, ◌==◌, IfOk, List, OnErr, OnOk};
ghost use Rattle.comp_declare.specs.Exported.{exported_at, exported_of, is_instance, one_more};
ghost use Rattle.comp_entity.specs.Bounds.{bounded};
ghost use Rattle.comp_entity.specs.Entity.{EntityTree};
ghost use Rattle.comp_format.specs.declared.types.CoreSort.TheVariants as CoreSort;
ghost use Rattle.comp_format.specs.Spaces.{core_space, space_of};
ghost use Rattle.comp_scope.specs.Aliases.{core_alias, export_alias};
ghost use Rattle.comp_scope.specs.Spaces.{Spaces, if_below};
ghost use Rattle.comp_space.specs.Faults.{Finds};
ghost use Rattle.comp_space.specs.SpaceViews.{IsSpace, ShowsSpaces, core_counts};
ghost use Rattle.comp_space.specs.Standings.{Shows};
ghost use Rattle.comp_table.specs.declared.head.Head.TheVariants as Head;
ghost use Rattle.comp_table.specs.Plain.{leaf, plain_entity};
ghost use Rattle.comp_table.specs.Trees.{Extends, PlainTree, Stands};

use crate::exported::export_under;
use crate::new_names::sum;
use comp_format::{CoreSort, Sort};
use comp_space::nodes::leaf;
use comp_space::{CoreCounts, CoreStanding, ScopeError, Space, Standing, sort_at, standing_at};
use comp_table::{Head, TypeTable};
use std::alloc::Global;
use warg_values::{Memory, Text};

/// The index space of a core sort, by its number.
fn core_space(sort: CoreSort) -> u8
    ensures { result ≡ core_space sort }
{
    match sort {
        CoreSort::Func => 0,
        CoreSort::Table => 1,
        CoreSort::Memory => 2,
        CoreSort::Global => 3,
        CoreSort::Ty => 4,
        CoreSort::Module => 5,
        CoreSort::Instance => 6,
    }
}

/// The index space of a sort, by its number.
fn space_of(sort: Sort) -> u8
    ensures { result ≡ space_of sort }
{
    match sort {
        Sort::Core(core) => core_space(core),
        Sort::Func => 7,
        Sort::Ty => 8,
        Sort::Component => 9,
        Sort::Instance => 10,
    }
}

/// Whether items of two sorts have one index space.
fn is_same_space(first: Sort, second: Sort) -> bool
    ensures { result ≡ (space_of first == space_of second) }
{
    space_of(first) == space_of(second)
}

/// Whether an instance has this root.
fn is_instance(head: &Head) -> bool
    ensures { result ≡ is_instance head.now }
{
    matches!(head, Head::Instance)
}

/// What an instance exports under a name, which is of this sort, with its naming bit.
fn exported(
    table: &TypeTable,
    instance: Standing,
    sort: Sort,
    name: &Text,
) -> Result<Standing, ScopeError>
    requires { (e : EntityTree) × Stands table.now instance.number (plain_entity e) }
    ensures { (e : EntityTree) → Stands table.now instance.number (plain_entity e)
        → Finds (Shows plain_entity table.now) result (exported_of sort name.now (e, instance.named)) }
{
    if !is_instance(table.head(instance.number)) {
        return Err(ScopeError::Index);
    }
    let Some(found) = export_under(table, table.parts(instance.number), name) else {
        return Err(ScopeError::Index);
    };
    if !is_same_space(sort_at(table, found.number), sort) {
        return Err(ScopeError::Index);
    }
    Ok(found)
}

/// What the instance of an index exports under a name, which is of this sort, with its naming bit.
fn exported_at(
    table: &TypeTable,
    space: &Space,
    sort: Sort,
    instance: u32,
    name: &Text,
) -> Result<Standing, ScopeError>
    requires { IsSpace table.now space.now }
    ensures { (s : Spaces) → ShowsSpaces table.now space.now s
        → Finds (Shows plain_entity table.now) result (exported_at s sort instance name.now) }
{
    let instance = standing_at(&space.instances, instance)?;
    exported(table, instance, sort, name)
}

/// Adds an alias of what the instance of an index exports under a name. A refusal adds nothing to the scope.
pub fn add_export_alias(
    table: &TypeTable,
    space: &mut Space,
    sort: Sort,
    instance: u32,
    name: &Text,
) -> Result<(), ScopeError>
    requires { IsSpace table.now space.old }
    ensures found { (s : Spaces) → ShowsSpaces table.now space.old s
        → Finds (λ u. ShowsSpaces table.now space.new) result (export_alias bounded s sort instance name.now) }
    ensures unchanged { (s : Spaces) → ShowsSpaces table.now space.old s
        → OnErr result (ShowsSpaces table.now space.new s) }
{
    let item = exported_at(table, &*space, sort, instance, name)?;
    space.add(table, item)
}

/// Counts of core items with one more of a sort. Of core types and modules more is known than how many there are.
fn one_more(core: CoreCounts, sort: CoreSort) -> Result<CoreCounts, Memory>
    ensures { IfOk result (λ c. core_counts c ≡ one_more sort (core_counts core)) }
{
    let mut counts = core;
    match sort {
        CoreSort::Func => counts.funcs = sum(core.funcs, 1)?,
        CoreSort::Table => counts.tables = sum(core.tables, 1)?,
        CoreSort::Memory => counts.memories = sum(core.memories, 1)?,
        CoreSort::Global => counts.globals = sum(core.globals, 1)?,
        CoreSort::Instance => counts.instances = sum(core.instances, 1)?,
        CoreSort::Ty | CoreSort::Module => {}
    }
    Ok(counts)
}

/// Adds a core module of a component's own, whose type is not known, by its number. A refusal changes nothing.
fn add_own_module(space: &mut Space, number: usize) -> Result<(), Memory>
    ensures added { (table : List PlainTree) (s : Spaces)
        → ShowsSpaces table space.old s → Stands table number (leaf Head.OwnModule)
        → OnOk result (ShowsSpaces table space.new (core_alias s CoreSort.Module)) }
    ensures unchanged { (table : List PlainTree) (s : Spaces) → ShowsSpaces table space.old s
        → OnErr result (ShowsSpaces table space.new s) }
{
    let standing = Standing {
        number,
        named: true,
    };
    space.modules.push(standing)?;
    Ok(())
}

/// Adds a core item of which nothing is known but its sort. Whatever the answer, the numbers given so far keep their
/// meaning; a refusal adds nothing to the scope.
pub fn add_unknown(
    table: &mut TypeTable,
    alloc: Global,
    space: &mut Space,
    sort: CoreSort,
) -> Result<(), Memory>
    ensures extends { Extends table.old table.new }
    ensures added { (s : Spaces) → ShowsSpaces table.old space.old s
        → OnOk result (ShowsSpaces table.new space.new (core_alias s sort)) }
    ensures unchanged { (s : Spaces) → ShowsSpaces table.old space.old s
        → OnErr result (ShowsSpaces table.new space.new s) }
{
    match sort {
        CoreSort::Ty => {
            space.core_types.push(CoreStanding::Unknown)?;
            Ok(())
        }
        CoreSort::Module => {
            let number = leaf(table, alloc, Head::OwnModule)?;
            add_own_module(space, number)
        }
        _ => {
            space.core = one_more(space.core, sort)?;
            Ok(())
        }
    }
}

/// Adds an alias of what the core instance of an index exports. Whatever the answer, the numbers given so far keep
/// their meaning; a refusal adds nothing to the scope.
pub fn add_core_alias(
    table: &mut TypeTable,
    alloc: Global,
    space: &mut Space,
    sort: CoreSort,
    instance: u32,
) -> Result<(), ScopeError>
    ensures extends { Extends table.old table.new }
    ensures found { (s : Spaces) → ShowsSpaces table.old space.old s
        → Finds (λ u. ShowsSpaces table.new space.new) result (if_below s.core.instances instance (core_alias s sort)) }
    ensures unchanged { (s : Spaces) → ShowsSpaces table.old space.old s
        → OnErr result (ShowsSpaces table.new space.new s) }
{
    if instance as usize >= space.core.instances {
        return Err(ScopeError::Index);
    }
    add_unknown(table, alloc, space, sort)?;
    Ok(())
}
