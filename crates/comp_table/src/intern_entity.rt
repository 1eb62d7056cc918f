//! Types and entities put into a table.

ghost use Rattle.std.specs.Prelude.{map, IfOk, OnOk};
ghost use Rattle.comp_entity.specs.Views.{component_sides, entity_tree, entries_of, instance_entries, named_entities, type_tree};
ghost use Rattle.comp_table.specs.declared.head.Head.TheVariants as Head;
ghost use Rattle.comp_table.specs.Plain.{around, around_two, plain_entries};
ghost use Rattle.comp_table.specs.Rows.{entity_plain, entries_plain, entry_plain, type_plain};
ghost use Rattle.comp_table.specs.Shown.{AreShown, IsShown, IsShownType, SidesAreShown};
ghost use Rattle.comp_table.specs.Trees.{AllStand, Extends, Stands, tree};

use crate::head::Head;
use crate::intern::{
    around, around_two, inner, intern_func, intern_module, intern_value, leaf, node,
};
use crate::table::TypeTable;
use comp_entity::{ComponentShape, Entity, InstanceShape, TypeShape};
use std::alloc::Global;
use warg_values::{Memory, Text};

/// The number of a type, which lies in so many levels more at most.
#[cycle(entities)]
pub fn intern_type(
    table: &mut TypeTable,
    alloc: Global,
    levels: usize,
    ty: &TypeShape,
) -> Result<usize, Memory>
    ensures extends { Extends table.old table.new }
    ensures number { IfOk result (λ n. Stands table.new n (type_plain ty.now)) }
    ensures shown { OnOk result (IsShownType (type_tree ty.now)) }
{
    match ty {
        TypeShape::Resource(resource) => leaf(table, alloc, Head::Resource(*resource)),
        TypeShape::Value(value) => intern_value(table, alloc, levels, value),
        TypeShape::Func(func) => intern_func(table, alloc, levels, func),
        TypeShape::Instance(instance) => {
            intern_instance(table, alloc, levels, Head::InstanceType, instance)
        }
        TypeShape::Component(component) => {
            intern_component(table, alloc, levels, Head::ComponentType, component)
        }
    }
}

/// The number of an entity, which lies in so many levels more at most.
#[cycle(entities)]
pub fn intern_entity(
    table: &mut TypeTable,
    alloc: Global,
    levels: usize,
    entity: &Entity,
) -> Result<usize, Memory>
    ensures extends { Extends table.old table.new }
    ensures number { IfOk result (λ n. Stands table.new n (entity_plain entity.now)) }
    ensures shown { OnOk result (IsShown (entity_tree entity.now)) }
{
    match entity {
        Entity::Func(func) => {
            let part = intern_func(table, alloc, levels, func)?;
            around(table, alloc, Head::Func, part)
        }
        Entity::Instance(instance) => {
            intern_instance(table, alloc, levels, Head::Instance, instance)
        }
        Entity::Component(component) => {
            intern_component(table, alloc, levels, Head::Component, component)
        }
        Entity::Module(module) => intern_module(table, alloc, module),
        Entity::Ty(ty) => intern_type(table, alloc, levels, ty),
    }
}

/// The number of an instance, or of a type of instances, as the root says.
#[cycle(entities)]
fn intern_instance(
    table: &mut TypeTable,
    alloc: Global,
    levels: usize,
    head: Head,
    instance: &InstanceShape,
) -> Result<usize, Memory>
    ensures extends { Extends table.old table.new }
    ensures number { IfOk result (λ n. Stands table.new n
        (tree head (plain_entries (instance_entries instance.now)))) }
    ensures shown { OnOk result (AreShown (instance_entries instance.now)) }
{
    let levels = inner(levels)?;
    let parts = intern_entries(table, alloc, levels, &instance.exports)?;
    node(table, alloc, head, parts)
}

/// The number of a component, or of a type of components, as the root says.
#[cycle(entities)]
fn intern_component(
    table: &mut TypeTable,
    alloc: Global,
    levels: usize,
    head: Head,
    component: &ComponentShape,
) -> Result<usize, Memory>
    ensures extends { Extends table.old table.new }
    ensures number { IfOk result (λ n. Stands table.new n
        (around_two head (tree Head.Entries (plain_entries (component_sides component.now).imports))
        (tree Head.Entries (plain_entries (component_sides component.now).exports)))) }
    ensures shown { OnOk result (SidesAreShown (component_sides component.now)) }
{
    let levels = inner(levels)?;
    let first = intern_side(table, alloc, levels, &component.imports)?;
    let second = intern_side(table, alloc, levels, &component.exports)?;
    around_two(table, alloc, head, first, second)
}

/// The number of imports or exports.
#[cycle(entities)]
fn intern_side(
    table: &mut TypeTable,
    alloc: Global,
    levels: usize,
    entries: &[(Text, Entity)],
) -> Result<usize, Memory>
    ensures extends { Extends table.old table.new }
    ensures number { IfOk result (λ n. Stands table.new n (entries_plain entries.now)) }
    ensures shown { OnOk result (AreShown (entries_of (named_entities entries.now))) }
{
    let parts = intern_entries(table, alloc, levels, entries)?;
    node(table, alloc, Head::Entries, parts)
}

/// The numbers of imports or exports.
#[cycle(entities)]
fn intern_entries(
    table: &mut TypeTable,
    alloc: Global,
    levels: usize,
    entries: &[(Text, Entity)],
) -> Result<Vec<usize>, Memory>
    ensures extends { Extends table.old table.new }
    ensures numbers { IfOk result (λ ns. AllStand table.new ns.items (map entry_plain entries.now)) }
    ensures shown { OnOk result (AreShown (entries_of (named_entities entries.now))) }
{
    let mut numbers = Vec::new(alloc);
    for entry in entries {
        let part = intern_entity(table, alloc, levels, &entry.1)?;
        let name = entry.0.try_clone(alloc)?;
        let number = around(table, alloc, Head::Entry(true, name), part)?;
        numbers.push(number)?;
    }
    Ok(numbers)
}
