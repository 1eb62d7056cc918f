//! Types and entities taken out of a table.

ghost use Rattle.std.specs.Prelude.{◌≡◌, ◌<◌, ℕ, length, map, true, IfOk};
ghost use Rattle.comp_entity.specs.Views.{component_sides, instance_entries};
ghost use Rattle.comp_table.specs.Changes.{head_by, tree_by, trees_by};
ghost use Rattle.comp_table.specs.declared.head.Head.TheVariants as Head;
ghost use Rattle.comp_table.specs.Plain.{plain_entries};
ghost use Rattle.comp_table.specs.Rows.{entity_plain, entries_plain, entry_plain, type_plain};
ghost use Rattle.comp_table.specs.Trees.{below_root, more, none, root, tree, tree_at, trees_of};
ghost use Rattle.comp_view.specs.Kinds.{AreNumbersOf, AreTreesOf, IsEntryHead, IsNumberOf, all_named, two};
ghost use Rattle.comp_view.specs.Kinds as kind;

use crate::modules::build_module;
use crate::parts::{all_parts, inner, only_part, two_parts};
use crate::values::{build_func, build_value};
use comp_entity::{ComponentShape, Entity, InstanceShape, TypeShape};
use comp_table::{Head, TypeTable};
use std::alloc::Global;
use warg_values::{Memory, Text};

/// The name at the root of the import or export that a number stands for.
fn name_at(table: &TypeTable, number: usize) -> &Text
    requires there { number < length table.now }
    requires entry { IsEntryHead (root (tree_at table.now number)) }
    ensures { (depth : ℕ) → head_by all_named depth (root (tree_at table.now number)) ≡ Head.Entry true result.now }
{
    let Head::Entry(_, name) = table.head(number) else {
        unreachable!()
    };
    name
}

/// The type that a number stands for, in which so many levels more may lie at most.
#[cycle(entities)]
pub fn build_type(
    table: &TypeTable,
    alloc: Global,
    levels: usize,
    number: usize,
) -> Result<TypeShape, Memory>
    requires { IsNumberOf kind.AnyType table.now number }
    ensures { IfOk result
        (λ ty. (depth : ℕ) → tree_by all_named depth (tree_at table.now number) ≡ type_plain ty) }
{
    match table.head(number) {
        Head::Resource(resource) => Ok(TypeShape::Resource(*resource)),
        Head::FuncType => {
            let func = build_func(table, alloc, levels, number)?;
            Ok(TypeShape::Func(func))
        }
        Head::InstanceType => {
            let instance = build_instance(table, alloc, levels, all_parts(table, number))?;
            Ok(TypeShape::Instance(instance))
        }
        Head::ComponentType => {
            let component = build_component(table, alloc, levels, number)?;
            Ok(TypeShape::Component(component))
        }
        _ => {
            let value = build_value(table, alloc, levels, number)?;
            Ok(TypeShape::Value(value))
        }
    }
}

/// The entity that a number stands for, in which so many levels more may lie at most.
#[cycle(entities)]
pub fn build_entity(
    table: &TypeTable,
    alloc: Global,
    levels: usize,
    number: usize,
) -> Result<Entity, Memory>
    requires { IsNumberOf kind.AnyEntity table.now number }
    ensures { IfOk result
        (λ entity. (depth : ℕ) → tree_by all_named depth (tree_at table.now number) ≡ entity_plain entity) }
{
    match table.head(number) {
        Head::Func => {
            let func = build_func(table, alloc, levels, only_part(table, number))?;
            Ok(Entity::Func(func))
        }
        Head::Instance => {
            let instance = build_instance(table, alloc, levels, all_parts(table, number))?;
            Ok(Entity::Instance(instance))
        }
        Head::Component => {
            let component = build_component(table, alloc, levels, number)?;
            Ok(Entity::Component(component))
        }
        Head::Module => {
            let module = build_module(table, alloc, number)?;
            Ok(Entity::Module(module))
        }
        _ => {
            let ty = build_type(table, alloc, levels, number)?;
            Ok(Entity::Ty(ty))
        }
    }
}

/// The instance, or the type of instances, of the exports that some numbers stand for.
#[cycle(entities)]
fn build_instance(
    table: &TypeTable,
    alloc: Global,
    levels: usize,
    parts: &[usize],
) -> Result<InstanceShape, Memory>
    requires { AreNumbersOf kind.AnEntry table.now parts.now }
    ensures { IfOk result (λ instance. (depth : ℕ)
        → trees_by all_named depth (trees_of (map (tree_at table.now) parts.now))
        ≡ plain_entries (instance_entries instance)) }
{
    let levels = inner(levels)?;
    let exports = build_entries(table, alloc, levels, parts)?;
    Ok(InstanceShape { exports })
}

/// The component, or the type of components, whose imports and exports are the parts of what a number stands for.
#[cycle(entities)]
fn build_component(
    table: &TypeTable,
    alloc: Global,
    levels: usize,
    number: usize,
) -> Result<ComponentShape, Memory>
    requires there { number < length table.now }
    requires sides { AreTreesOf (two kind.AllEntries kind.AllEntries) (below_root (tree_at table.now number)) }
    ensures { IfOk result (λ component. (depth : ℕ)
        → trees_by all_named depth (below_root (tree_at table.now number))
        ≡ more (tree Head.Entries (plain_entries (component_sides component).imports))
        (more (tree Head.Entries (plain_entries (component_sides component).exports)) none)) }
{
    let levels = inner(levels)?;
    let (first, second) = two_parts(table, number);
    let imports = build_side(table, alloc, levels, first)?;
    let exports = build_side(table, alloc, levels, second)?;
    Ok(ComponentShape { imports, exports })
}

/// The imports or the exports that a number stands for.
#[cycle(entities)]
fn build_side(
    table: &TypeTable,
    alloc: Global,
    levels: usize,
    number: usize,
) -> Result<Vec<(Text, Entity)>, Memory>
    requires { IsNumberOf kind.AllEntries table.now number }
    ensures { IfOk result (λ entries. (depth : ℕ)
        → tree_by all_named depth (tree_at table.now number) ≡ entries_plain entries.items) }
{
    let entries = build_entries(table, alloc, levels, all_parts(table, number))?;
    Ok(entries)
}

/// The import or the export that a number stands for.
#[cycle(entities)]
fn build_entry(
    table: &TypeTable,
    alloc: Global,
    levels: usize,
    number: usize,
) -> Result<(Text, Entity), Memory>
    requires { IsNumberOf kind.AnEntry table.now number }
    ensures { IfOk result (λ entry. (depth : ℕ)
        → tree_by all_named depth (tree_at table.now number) ≡ entry_plain entry) }
{
    let name = name_at(table, number).try_clone(alloc)?;
    let entity = build_entity(table, alloc, levels, only_part(table, number))?;
    Ok((name, entity))
}

/// The imports or the exports that some numbers stand for.
#[cycle(entities)]
fn build_entries(
    table: &TypeTable,
    alloc: Global,
    levels: usize,
    parts: &[usize],
) -> Result<Vec<(Text, Entity)>, Memory>
    requires { AreNumbersOf kind.AnEntry table.now parts.now }
    ensures { IfOk result (λ entries. (depth : ℕ)
        → map entry_plain entries.items
        ≡ map (λ part. tree_by all_named depth (tree_at table.now part)) parts.now) }
{
    let mut entries = Vec::new(alloc);
    for part in parts {
        let entry = build_entry(table, alloc, levels, *part)?;
        entries.push(entry)?;
    }
    Ok(entries)
}
