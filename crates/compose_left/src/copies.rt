//! Copies of entities in which names are changed.

ghost use Rattle.std.specs.Prelude.{◌≡◌, map, IfOk};
ghost use Rattle.comp_entity.specs.Names.{changing, type_by, entity_by};
ghost use Rattle.comp_entity.specs.Views.{component_sides, entity_tree, named_entities, type_tree};
ghost use Rattle.compose_left.specs.Renaming.{called_name, change_of, entry_by, sides_by};

use crate::renaming::{Renaming, func_in, resource_in, value_in};
use crate::spots::Thing;
use comp_entity::{
    ComponentShape, CoreShape, CoreVal, Entity, InstanceShape, ModuleShape, TypeNo, TypeShape,
};
use std::alloc::Global;
use std::collections::BTreeMap;
use warg_values::{Memory, Sequence, Text};

/// A copy of types of core values.
fn core_values_in(alloc: Global, values: &[CoreVal]) -> Result<Sequence<CoreVal>, Memory>
    ensures { IfOk result (λ copy. copy ≡ values.now) }
{
    let copies = Vec::from_slice(alloc, values)?;
    Ok(Sequence::from_vec(copies))
}

/// A copy of what a core module imports or exports.
fn core_in(alloc: Global, shape: &CoreShape) -> Result<CoreShape, Memory>
    ensures { IfOk result (λ copy. copy ≡ shape.now) }
{
    match shape {
        CoreShape::Func { params, results } => {
            let params = core_values_in(alloc, params.as_slice())?;
            let results = core_values_in(alloc, results.as_slice())?;
            Ok(CoreShape::Func { params, results })
        }
        CoreShape::Table { element, limits } => Ok(CoreShape::Table {
            element: *element,
            limits: *limits,
        }),
        CoreShape::Memory(limits) => Ok(CoreShape::Memory(*limits)),
        CoreShape::Global { value, mutable } => Ok(CoreShape::Global {
            value: *value,
            mutable: *mutable,
        }),
    }
}

/// A copy of the imports of a core module.
fn core_imports_in(
    alloc: Global,
    imports: &[(Text, Text, CoreShape)],
) -> Result<Sequence<(Text, Text, CoreShape)>, Memory>
    ensures { IfOk result (λ copy. copy ≡ imports.now) }
{
    let mut copies = Vec::new(alloc);
    for import in imports {
        let module = import.0.try_clone(alloc)?;
        let name = import.1.try_clone(alloc)?;
        let shape = core_in(alloc, &import.2)?;
        copies.push((module, name, shape))?;
    }
    Ok(Sequence::from_vec(copies))
}

/// A copy of the exports of a core module.
fn core_exports_in(
    alloc: Global,
    exports: &[(Text, CoreShape)],
) -> Result<Sequence<(Text, CoreShape)>, Memory>
    ensures { IfOk result (λ copy. copy ≡ exports.now) }
{
    let mut copies = Vec::new(alloc);
    for export in exports {
        let name = export.0.try_clone(alloc)?;
        let shape = core_in(alloc, &export.1)?;
        copies.push((name, shape))?;
    }
    Ok(Sequence::from_vec(copies))
}

/// A copy of a core module.
fn module_in(alloc: Global, module: &ModuleShape) -> Result<ModuleShape, Memory>
    ensures { IfOk result (λ copy. copy ≡ module.now) }
{
    let imports = core_imports_in(alloc, module.imports.as_slice())?;
    let exports = core_exports_in(alloc, module.exports.as_slice())?;
    Ok(ModuleShape { imports, exports })
}

/// A type with its names changed.
#[cycle(entities)]
fn type_in(
    alloc: Global,
    renaming: &Renaming<'_>,
    depth: usize,
    ty: &TypeShape,
) -> Result<TypeShape, Memory>
    ensures { IfOk result (λ copy. type_tree copy ≡ type_by (change_of renaming.now) depth (type_tree ty.now)) }
{
    match ty {
        TypeShape::Resource(name) => {
            let name = resource_in(renaming, depth, *name)?;
            Ok(TypeShape::Resource(name))
        }
        TypeShape::Value(value) => {
            let value = value_in(alloc, renaming, depth, value)?;
            Ok(TypeShape::Value(value))
        }
        TypeShape::Func(func) => {
            let func = func_in(alloc, renaming, depth, func)?;
            Ok(TypeShape::Func(func))
        }
        TypeShape::Instance(instance) => {
            let inner = depth.checked_add(1).ok_or(Memory)?;
            let exports = entries_in(alloc, renaming, inner, &instance.exports)?;
            Ok(TypeShape::Instance(InstanceShape { exports }))
        }
        TypeShape::Component(component) => {
            let component = component_in(alloc, renaming, depth, component)?;
            Ok(TypeShape::Component(component))
        }
    }
}

/// A component with its names changed.
#[cycle(entities)]
fn component_in(
    alloc: Global,
    renaming: &Renaming<'_>,
    depth: usize,
    component: &ComponentShape,
) -> Result<ComponentShape, Memory>
    ensures { IfOk result (λ copy.
        component_sides copy ≡ sides_by (change_of renaming.now) depth (component_sides component.now)) }
{
    let inner = depth.checked_add(2).ok_or(Memory)?;
    let imports = entries_in(alloc, renaming, inner, &component.imports)?;
    let exports = entries_in(alloc, renaming, inner, &component.exports)?;
    Ok(ComponentShape { imports, exports })
}

/// An entity with its names changed.
#[cycle(entities)]
pub fn entity_in(
    alloc: Global,
    renaming: &Renaming<'_>,
    depth: usize,
    entity: &Entity,
) -> Result<Entity, Memory>
    ensures { IfOk result (λ copy.
        entity_tree copy ≡ entity_by (change_of renaming.now) depth (entity_tree entity.now)) }
{
    match entity {
        Entity::Func(func) => {
            let func = func_in(alloc, renaming, depth, func)?;
            Ok(Entity::Func(func))
        }
        Entity::Instance(instance) => {
            let exports = entries_in(alloc, renaming, depth, &instance.exports)?;
            Ok(Entity::Instance(InstanceShape { exports }))
        }
        Entity::Component(component) => {
            let component = component_in(alloc, renaming, depth, component)?;
            Ok(Entity::Component(component))
        }
        Entity::Module(module) => {
            let module = module_in(alloc, module)?;
            Ok(Entity::Module(module))
        }
        Entity::Ty(ty) => {
            let ty = type_in(alloc, renaming, depth, ty)?;
            Ok(Entity::Ty(ty))
        }
    }
}

/// A copy of an entity in which each named type of the scopes around it is called by the name that is found for it, where
/// one is. Resources keep their names. `Memory` also where there is no room for a name.
pub fn called_otherwise(
    alloc: Global,
    names: &BTreeMap<Thing, TypeNo>,
    entity: &Entity,
) -> Result<Entity, Memory>
    ensures { IfOk result (λ copy.
        entity_tree copy ≡ entity_by (changing (λ n. n) (called_name names.now)) 0 (entity_tree entity.now)) }
{
    entity_in(alloc, &Renaming::Called { names }, 0, entity)
}

/// Imports or exports with their names changed.
#[cycle(entities)]
fn entries_in(
    alloc: Global,
    renaming: &Renaming<'_>,
    depth: usize,
    entries: &[(Text, Entity)],
) -> Result<Vec<(Text, Entity)>, Memory>
    ensures { IfOk result (λ copy. named_entities copy.items
        ≡ map (entry_by (change_of renaming.now) depth) (named_entities entries.now)) }
{
    let mut copies = Vec::new(alloc);
    for entry in entries {
        let name = entry.0.try_clone(alloc)?;
        let copy = entity_in(alloc, renaming, depth, &entry.1)?;
        copies.push((name, copy))?;
    }
    Ok(copies)
}
