//! What entities mention.

ghost use Rattle.std.specs.Prelude.{◌≡◌, ◌+◌, ◌++◌, IfOk};
ghost use Rattle.comp_entity.specs.Names.{in_entity, in_entries, in_type};
ghost use Rattle.comp_entity.specs.Views.{component_sides, entity_tree, entries_of, named_entities, type_tree};
ghost use Rattle.compose_needs.specs.Mentioned.{mentioned, outwards};
ghost use Rattle.compose_needs.specs.Sides.{in_sides};

use crate::values::{push_func, push_resource, push_value};
use comp_entity::{ComponentShape, Entity, TypeShape};
use compose_left::Thing;
use std::alloc::Global;
use warg_values::{Memory, Sequence, Text};

/// A depth that is so much larger.
pub fn deeper(depth: usize, scopes: usize) -> Result<usize, Memory>
    ensures { IfOk result (λ inner. inner ≡ depth + scopes) }
{
    match depth.checked_add(scopes) {
        Some(inner) => Ok(inner),
        None => Err(Memory),
    }
}

/// Adds what a type mentions that stands so many scopes deep.
#[cycle(mentioning)]
fn push_type(depth: usize, ty: &TypeShape, things: &mut Vec<Thing>) -> Result<(), Memory>
    ensures { IfOk result (λ done.
        things.new.items ≡ things.old.items ++ outwards (in_type depth (type_tree ty.now))) }
{
    match ty {
        TypeShape::Resource(name) => {
            push_resource(depth, *name, things)?;
            Ok(())
        }
        TypeShape::Value(value) => {
            push_value(depth, value, things)?;
            Ok(())
        }
        TypeShape::Func(func) => {
            push_func(depth, func, things)?;
            Ok(())
        }
        TypeShape::Instance(instance) => {
            let inner = deeper(depth, 1)?;
            push_entries(inner, &instance.exports, things)?;
            Ok(())
        }
        TypeShape::Component(component) => {
            push_component(depth, component, things)?;
            Ok(())
        }
    }
}

/// Adds what a component mentions that stands so many scopes deep.
#[cycle(mentioning)]
fn push_component(
    depth: usize,
    component: &ComponentShape,
    things: &mut Vec<Thing>,
) -> Result<(), Memory>
    ensures { IfOk result (λ done.
        things.new.items ≡ things.old.items ++ outwards (in_sides depth (component_sides component.now))) }
{
    let inner = deeper(depth, 2)?;
    push_entries(inner, &component.imports, things)?;
    push_entries(inner, &component.exports, things)?;
    Ok(())
}

/// Adds what an entity mentions that stands so many scopes deep.
#[cycle(mentioning)]
fn push_entity(depth: usize, entity: &Entity, things: &mut Vec<Thing>) -> Result<(), Memory>
    ensures { IfOk result (λ done.
        things.new.items ≡ things.old.items ++ outwards (in_entity depth (entity_tree entity.now))) }
{
    match entity {
        Entity::Func(func) => {
            push_func(depth, func, things)?;
            Ok(())
        }
        Entity::Instance(instance) => {
            push_entries(depth, &instance.exports, things)?;
            Ok(())
        }
        Entity::Component(component) => {
            push_component(depth, component, things)?;
            Ok(())
        }
        Entity::Module(_) => Ok(()),
        Entity::Ty(ty) => {
            push_type(depth, ty, things)?;
            Ok(())
        }
    }
}

/// Adds what imports or exports mention that stand so many scopes deep.
#[cycle(mentioning)]
fn push_entries(
    depth: usize,
    entries: &[(Text, Entity)],
    things: &mut Vec<Thing>,
) -> Result<(), Memory>
    ensures { IfOk result (λ done. things.new.items
        ≡ things.old.items ++ outwards (in_entries depth (entries_of (named_entities entries.now)))) }
{
    for entry in entries {
        push_entity(depth, &entry.1, things)?;
    }
    Ok(())
}

/// The resources and the named types of the scopes around an entity that it mentions, from left to right.
pub fn mentioned(alloc: Global, entity: &Entity) -> Result<Sequence<Thing>, Memory>
    ensures { IfOk result (λ things. things ≡ mentioned (entity_tree entity.now)) }
{
    let mut things = Vec::new(alloc);
    push_entity(0, entity, &mut things)?;
    Ok(Sequence::from_vec(things))
}
