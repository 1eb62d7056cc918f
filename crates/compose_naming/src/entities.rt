//! What stands in left imports, with its naming bits noted.

ghost use Rattle.std.specs.Prelude.{◌≡◌, IfOk};
ghost use Rattle.comp_entity.specs.Views.{component_sides, entity_tree, entries_of, named_entities, type_tree, value_tree};
ghost use Rattle.compose_naming.specs.Bits.{behind, behind_all, behind_type, behind_value};
ghost use Rattle.compose_naming.specs.Scopes.{behind_sides, scopes_in, where_passed};

use crate::scopes::{Open, bit_in, enter, leave, note};
use crate::values::{func_has_bit, own_bit, place_of};
use comp_entity::{ComponentShape, Entity, TypeShape, ValueShape};
use compose_left::Thing;
use std::alloc::Global;
use warg_values::{Memory, Text};

/// Goes behind a type of values: one that nothing named before has the bit where all its parts do.
fn pass_value(scopes: &mut Vec<Open>, value: &ValueShape) -> Result<bool, Memory>
    ensures { IfOk result (λ passes. behind_value (scopes_in scopes.old.items) (value_tree value.now)
        ≡ where_passed passes (scopes_in scopes.new.items)) }
{
    let Some(place) = place_of(value) else {
        return Ok(true);
    };
    let thing = Thing::named_type(place);
    if bit_in(scopes, thing).is_some() {
        return Ok(true);
    }
    match own_bit(scopes, value) {
        Some(bit) => note(scopes, thing, bit),
        None => Ok(false),
    }
}

/// Goes behind a type.
#[cycle(passing)]
fn pass_type(alloc: Global, scopes: &mut Vec<Open>, ty: &TypeShape) -> Result<bool, Memory>
    ensures { IfOk result (λ passes. behind_type (type_tree ty.now) (scopes_in scopes.old.items)
        ≡ where_passed passes (scopes_in scopes.new.items)) }
{
    match ty {
        TypeShape::Resource(_) | TypeShape::Func(_) => Ok(true),
        TypeShape::Value(value) => pass_value(scopes, value),
        TypeShape::Instance(instance) => {
            enter(alloc, scopes, 1)?;
            if !pass_entries(alloc, scopes, &instance.exports)? {
                return Ok(false);
            }
            Ok(leave(scopes))
        }
        TypeShape::Component(component) => pass_component(alloc, scopes, component),
    }
}

/// Goes behind a component: its imports and then its exports stand in a scope of their own.
#[cycle(passing)]
fn pass_component(
    alloc: Global,
    scopes: &mut Vec<Open>,
    component: &ComponentShape,
) -> Result<bool, Memory>
    ensures { IfOk result (λ passes. behind_sides (component_sides component.now) (scopes_in scopes.old.items)
        ≡ where_passed passes (scopes_in scopes.new.items)) }
{
    enter(alloc, scopes, 2)?;
    if !pass_entries(alloc, scopes, &component.imports)? {
        return Ok(false);
    }
    if !pass_entries(alloc, scopes, &component.exports)? {
        return Ok(false);
    }
    Ok(leave(scopes))
}

/// Goes behind what stands at a name.
#[cycle(passing)]
pub fn pass_entity(alloc: Global, scopes: &mut Vec<Open>, entity: &Entity) -> Result<bool, Memory>
    ensures { IfOk result (λ passes. behind (entity_tree entity.now) (scopes_in scopes.old.items)
        ≡ where_passed passes (scopes_in scopes.new.items)) }
{
    match entity {
        Entity::Func(func) => Ok(func_has_bit(scopes, func)),
        Entity::Instance(instance) => {
            let passes = pass_entries(alloc, scopes, &instance.exports)?;
            Ok(passes)
        }
        Entity::Component(component) => pass_component(alloc, scopes, component),
        Entity::Module(_) => Ok(true),
        Entity::Ty(ty) => pass_type(alloc, scopes, ty),
    }
}

/// Goes behind imports or exports.
#[cycle(passing)]
fn pass_entries(
    alloc: Global,
    scopes: &mut Vec<Open>,
    entries: &[(Text, Entity)],
) -> Result<bool, Memory>
    ensures { IfOk result (λ passes.
        behind_all (entries_of (named_entities entries.now)) (scopes_in scopes.old.items)
        ≡ where_passed passes (scopes_in scopes.new.items)) }
{
    for entry in entries {
        if !pass_entity(alloc, scopes, &entry.1)? {
            return Ok(false);
        }
    }
    Ok(true)
}
