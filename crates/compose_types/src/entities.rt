//! Entities, written into scopes.

ghost use Rattle.std.specs.Prelude.{◌≡◌, ◌<◌, ◌≤◌, ◌^◌, ◌∷◌, ℕ, false, true, length, IfErr, IfOk, IsSome, IsSomeAnd, OnOk, Err, Some, option_and_then};
ghost use Rattle.comp_format.specs.Definitions as tree;
ghost use Rattle.comp_format.specs.Forms.{AreDecls};
ghost use Rattle.comp_format.specs.Views.{component_type_tree, instance_type_tree};
ghost use Rattle.comp_entity.specs.Fits.{place_of};
ghost use Rattle.comp_entity.specs.Names.{OfResource};
ghost use Rattle.comp_entity.specs.Views.{component_sides, entity_tree, entries_of, named_entities, type_tree as shape_tree, value_tree};
ghost use Rattle.compose_writing.specs.Conditions.{KeepsEntries, KeepsForm, KeepsType, KeepsValue};
ghost use Rattle.compose_writing.specs.WriteEntities.{noted, with_named, write_component, write_entity, write_entries, write_named, write_resource, write_type};
ghost use Rattle.compose_writing.specs.Scopes.{WrittenScope, closed, knows, opened};
ghost use Rattle.compose_types.specs.Largest.{IsWithin, closed_size, scopes_size, written_size};
ghost use Rattle.compose_types.specs.Scopes.{Takes, inner_kind, item_of, scopes};

use crate::body::Side;
use crate::known::{At, Key};
use crate::modules::module_type;
use crate::notes::{key_of, note_exports};
use crate::state::TypeState;
use crate::values::{func_index, own_index, place_index, place_of};
use comp_entity::{ComponentShape, Entity, ResourceNo, TypeShape, ValueShape};
use comp_format::{ComponentType, DefType, EncodeError, InstanceType, TypeRef};
use std::alloc::Global;
use warg_values::Text;

/// The index of a value type that is imported or exported: of the type that is known, or else of the type itself.
fn named_index(alloc: Global, state: &mut TypeState, ty: &ValueShape) -> Result<u32, EncodeError>
    requires form { KeepsValue (value_tree ty.now) }
    requires possible { IsSome (write_named (place_of (value_tree ty.now)) (value_tree ty.now) (scopes state.old)) }
    ensures written { IfOk result (λ i.
        write_named (place_of (value_tree ty.now)) (value_tree ty.now) (scopes state.old)
        ≡ Some (scopes state.new, i)) }
    ensures too_large { (n : ℕ) → result ≡ Err (EncodeError.TooLarge n) → 2 ^ 32 ≤ n }
    ensures among { (n : ℕ) → result ≡ Err (EncodeError.TooLarge n)
        → IsWithin n written_size (write_named (place_of (value_tree ty.now)) (value_tree ty.now) (scopes state.old)) }
{
    match place_of(ty) {
        Some(place) => {
            if state.knows_key(Key::of_place(place)) {
                let index = place_index(alloc, state, place)?;
                Ok(index)
            } else {
                let index = own_index(alloc, state, ty)?;
                Ok(index)
            }
        }
        None => {
            let index = own_index(alloc, state, ty)?;
            Ok(index)
        }
    }
}

/// The description of a resource that is imported or exported.
fn resource_ref(
    alloc: Global,
    state: &mut TypeState,
    name: ResourceNo,
) -> Result<TypeRef, EncodeError>
    requires { IsSome (write_resource name (knows (scopes state.old) (OfResource name)) (scopes state.old)) }
    ensures written { IfOk result (λ ty.
        write_resource name (knows (scopes state.old) (OfResource name)) (scopes state.old)
        ≡ Some (scopes state.new, ty)) }
    ensures too_large { (n : ℕ) → result ≡ Err (EncodeError.TooLarge n) → 2 ^ 32 ≤ n }
    ensures among { (n : ℕ) → result ≡ Err (EncodeError.TooLarge n)
        → IsWithin n written_size
        (write_resource name (knows (scopes state.old) (OfResource name)) (scopes state.old)) }
{
    let key = Key::of_resource(name);
    if state.knows_key(key) {
        let index = state.index_of(alloc, key)?;
        Ok(TypeRef::TyEqual(index))
    } else {
        Ok(TypeRef::TyFresh)
    }
}

/// Notes what an entity brings that was imported or exported behind so many types and instances.
#[tactic(auto, using(crate::proofs::EntityLaws::instance_noted, crate::proofs::EntityLaws::one_noted), unfolding(compose_writing::specs::WriteEntities::note_here))]
pub fn note_entity(
    alloc: Global,
    state: &mut TypeState,
    entity: &Entity,
    types: u32,
    instances: u32,
) -> Result<(), EncodeError>
    requires { KeepsForm (entity_tree entity.now) }
    ensures noted { OnOk result ((m : WrittenScope) → types ≡ m.types → instances ≡ m.instances
        → scopes state.new ≡ noted (entity_tree entity.now) m (scopes state.old)) }
    ensures err { IfErr result (λ e. e ≡ EncodeError.Memory) }
{
    match key_of(entity) {
        Some(key) => {
            state.note(key, At::Index(types))?;
            Ok(())
        }
        None => match entity {
            Entity::Instance(instance) => {
                note_exports(alloc, state, instances, &[], &instance.exports)?;
                Ok(())
            }
            Entity::Func(_) | Entity::Component(_) | Entity::Module(_) | Entity::Ty(_) => Ok(()),
        },
    }
}

/// Declares an import or an export of an entity in the innermost scope, and notes what it brings.
#[tactic(auto, using(crate::proofs::EntityLaws::entity_named))]
pub fn name_entity(
    alloc: Global,
    state: &mut TypeState,
    side: Side,
    name: &Text,
    entity: &Entity,
    ty: TypeRef,
) -> Result<(), EncodeError>
    requires form { KeepsForm (entity_tree entity.now) }
    requires kind { IsSomeAnd (inner_kind (scopes state.old)) (Takes side) }
    requires name { 0 < length name.now }
    ensures named { OnOk result (scopes state.new
        ≡ with_named (item_of side) name.now (entity_tree entity.now) ty (scopes state.old)) }
    ensures too_large { (n : ℕ) → result ≡ Err (EncodeError.TooLarge n) → 2 ^ 32 ≤ n }
    ensures among { (n : ℕ) → result ≡ Err (EncodeError.TooLarge n)
        → n ≤ scopes_size
        (with_named (item_of side) name.now (entity_tree entity.now) ty (scopes state.old)) }
{
    let (types, instances) = state.name(alloc, side, name.as_str(), ty)?;
    note_entity(alloc, state, entity, types, instances)?;
    Ok(())
}

/// Writes an entity in front of its import or export, and gives the description.
#[cycle(entities)]
#[tactic(auto, using(crate::proofs::NoteLaws::instance_keeps, crate::proofs::EntityLaws::func_ref, crate::proofs::EntityLaws::instance_ref, crate::proofs::EntityLaws::component_ref, crate::proofs::EntityLaws::module_ref, crate::proofs::EntityLaws::type_of_entity, crate::proofs::EntityLaws::func_form, crate::proofs::EntityLaws::module_form, crate::proofs::EntityLaws::component_form, crate::proofs::EntityLaws::type_form, crate::proofs::EntityLaws::tree_instance, crate::proofs::EntityLaws::tree_component))]
pub fn entity_ref(
    alloc: Global,
    state: &mut TypeState,
    entity: &Entity,
) -> Result<TypeRef, EncodeError>
    requires form { KeepsForm (entity_tree entity.now) }
    requires possible { IsSome (write_entity (entity_tree entity.now) (scopes state.old)) }
    ensures written { IfOk result (λ ty. write_entity (entity_tree entity.now) (scopes state.old)
        ≡ Some (scopes state.new, ty)) }
    ensures too_large { (n : ℕ) → result ≡ Err (EncodeError.TooLarge n) → 2 ^ 32 ≤ n }
    ensures among { (n : ℕ) → result ≡ Err (EncodeError.TooLarge n)
        → IsWithin n written_size (write_entity (entity_tree entity.now) (scopes state.old)) }
{
    match entity {
        Entity::Func(func) => {
            let index = func_index(alloc, state, func)?;
            Ok(TypeRef::Func(index))
        }
        Entity::Instance(instance) => {
            let ty = instance_type(alloc, state, 0, &instance.exports)?;
            let index = state.add_type(alloc, DefType::Instance(ty))?;
            Ok(TypeRef::Instance(index))
        }
        Entity::Component(component) => {
            let ty = component_of(alloc, state, component)?;
            let index = state.add_type(alloc, DefType::Component(ty))?;
            Ok(TypeRef::Component(index))
        }
        Entity::Module(module) => {
            let ty = module_type(alloc, module)?;
            let index = state.add_core_type(alloc, ty)?;
            Ok(TypeRef::Module(index))
        }
        Entity::Ty(ty) => {
            let ty = type_ref(alloc, state, ty)?;
            Ok(ty)
        }
    }
}

/// Writes a type in front of its import or export, and gives the description.
#[cycle(entities)]
#[tactic(auto, using(crate::proofs::EntityLaws::type_resource, crate::proofs::EntityLaws::type_value, crate::proofs::EntityLaws::type_func, crate::proofs::EntityLaws::type_instance, crate::proofs::EntityLaws::type_component, crate::proofs::EntityLaws::value_keeps, crate::proofs::EntityLaws::func_keeps, crate::proofs::EntityLaws::sides_keep, crate::proofs::EntityLaws::exports_keep, crate::proofs::EntityLaws::tree_instance, crate::proofs::EntityLaws::tree_component))]
fn type_ref(alloc: Global, state: &mut TypeState, ty: &TypeShape) -> Result<TypeRef, EncodeError>
    requires form { KeepsType (shape_tree ty.now) }
    requires possible { IsSome (write_type (shape_tree ty.now) (scopes state.old)) }
    ensures written { IfOk result (λ t. write_type (shape_tree ty.now) (scopes state.old)
        ≡ Some (scopes state.new, t)) }
    ensures too_large { (n : ℕ) → result ≡ Err (EncodeError.TooLarge n) → 2 ^ 32 ≤ n }
    ensures among { (n : ℕ) → result ≡ Err (EncodeError.TooLarge n)
        → IsWithin n written_size (write_type (shape_tree ty.now) (scopes state.old)) }
{
    match ty {
        TypeShape::Resource(name) => {
            let ty = resource_ref(alloc, state, *name)?;
            Ok(ty)
        }
        TypeShape::Value(ty) => {
            let index = named_index(alloc, state, ty)?;
            Ok(TypeRef::TyEqual(index))
        }
        TypeShape::Func(func) => {
            let index = func_index(alloc, state, func)?;
            Ok(TypeRef::TyEqual(index))
        }
        TypeShape::Instance(instance) => {
            let ty = instance_type(alloc, state, 1, &instance.exports)?;
            let index = state.add_type(alloc, DefType::Instance(ty))?;
            Ok(TypeRef::TyEqual(index))
        }
        TypeShape::Component(component) => {
            let ty = component_of(alloc, state, component)?;
            let index = state.add_type(alloc, DefType::Component(ty))?;
            Ok(TypeRef::TyEqual(index))
        }
    }
}

/// The type of instances with these exports, which counts as one scope of names or as none.
#[cycle(entities)]
#[tactic(auto, using(crate::proofs::EntityLaws::instance_written))]
pub fn instance_type(
    alloc: Global,
    state: &mut TypeState,
    width: usize,
    exports: &[(Text, Entity)],
) -> Result<InstanceType, EncodeError>
    requires form { KeepsEntries (entries_of (named_entities exports.now)) }
    requires width { width < 2 }
    requires possible { IsSome (option_and_then closed
        (write_entries tree.Export (entries_of (named_entities exports.now)) (opened width ∷ scopes state.old))) }
    ensures written { IfOk result (λ t. option_and_then closed
        (write_entries tree.Export (entries_of (named_entities exports.now)) (opened width ∷ scopes state.old))
        ≡ Some (scopes state.new, instance_type_tree t)) }
    ensures form { IfOk result (λ t. AreDecls false (instance_type_tree t)) }
    ensures too_large { (n : ℕ) → result ≡ Err (EncodeError.TooLarge n) → 2 ^ 32 ≤ n }
    ensures among { (n : ℕ) → result ≡ Err (EncodeError.TooLarge n)
        → IsWithin n closed_size (option_and_then closed
        (write_entries tree.Export (entries_of (named_entities exports.now)) (opened width ∷ scopes state.old))) }
{
    state.open(alloc, width)?;
    write_entries(alloc, state, Side::Exports, exports)?;
    let ty = state.close_instance();
    Ok(ty)
}

/// The type of a component.
#[cycle(entities)]
#[tactic(auto, using(crate::proofs::EntityLaws::component_written, crate::proofs::EntityLaws::component_is))]
fn component_of(
    alloc: Global,
    state: &mut TypeState,
    component: &ComponentShape,
) -> Result<ComponentType, EncodeError>
    requires form { KeepsEntries (component_sides component.now).imports
        × KeepsEntries (component_sides component.now).exports }
    requires possible { IsSome (write_component (component_sides component.now).imports
        (component_sides component.now).exports (scopes state.old)) }
    ensures written { IfOk result (λ t. write_component (component_sides component.now).imports
        (component_sides component.now).exports (scopes state.old) ≡ Some (scopes state.new, component_type_tree t)) }
    ensures form { IfOk result (λ t. AreDecls true (component_type_tree t)) }
    ensures too_large { (n : ℕ) → result ≡ Err (EncodeError.TooLarge n) → 2 ^ 32 ≤ n }
    ensures among { (n : ℕ) → result ≡ Err (EncodeError.TooLarge n)
        → IsWithin n closed_size (write_component (component_sides component.now).imports
        (component_sides component.now).exports (scopes state.old)) }
{
    state.open(alloc, 2)?;
    write_entries(alloc, state, Side::Imports, &component.imports)?;
    write_entries(alloc, state, Side::Exports, &component.exports)?;
    let ty = state.close_component();
    Ok(ty)
}

/// Writes imports, or exports, into the innermost scope, which lies within another and takes them.
#[cycle(entities)]
pub fn write_entries(
    alloc: Global,
    state: &mut TypeState,
    side: Side,
    entries: &[(Text, Entity)],
) -> Result<(), EncodeError>
    requires form { KeepsEntries (entries_of (named_entities entries.now)) }
    requires kind { IsSomeAnd (inner_kind (scopes state.old)) (Takes side) }
    requires possible { IsSome
        (write_entries (item_of side) (entries_of (named_entities entries.now)) (scopes state.old)) }
    ensures written { OnOk result (
        write_entries (item_of side) (entries_of (named_entities entries.now)) (scopes state.old)
        ≡ Some (scopes state.new)) }
    ensures too_large { (n : ℕ) → result ≡ Err (EncodeError.TooLarge n) → 2 ^ 32 ≤ n }
    ensures among { (n : ℕ) → result ≡ Err (EncodeError.TooLarge n)
        → IsWithin n scopes_size
        (write_entries (item_of side) (entries_of (named_entities entries.now)) (scopes state.old)) }
{
    for entry in entries {
        let ty = entity_ref(alloc, state, &entry.1)?;
        name_entity(alloc, state, side, &entry.0, &entry.1, ty)?;
    }
    Ok(())
}
