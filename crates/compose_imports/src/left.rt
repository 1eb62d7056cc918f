//! One import, written behind what it needs.

ghost use Rattle.std.specs.Prelude.{◌≡◌, ◌≤◌, ◌^◌, ◌∷◌, [], ℕ, List, true, Err, IfOk, OnOk, Some};
ghost use Rattle.comp_entity.specs.Views.{entity_tree};
ghost use Rattle.comp_format.specs.declared.types.TypeRef.{TypeRef};
ghost use Rattle.compose_image.specs.Imports.{next_place, write_left};
ghost use Rattle.compose_image.specs.Writable.{IsWritable};
ghost use Rattle.compose_imports.specs.Begun.{IsImportedAt, component_left};
ghost use Rattle.compose_imports.specs.Calls.{HasNamedCalls};
ghost use Rattle.compose_order.specs.Known.{left_tree};
ghost use Rattle.compose_types.specs.Largest.{scopes_size, written_size};
ghost use Rattle.compose_types.specs.Scopes.{outermost_scope, scopes};
ghost use Rattle.compose_writing.specs.Conditions.{KeepsForm, is_known};
ghost use Rattle.compose_writing.specs.Scopes.{WrittenScope, knows};
ghost use Rattle.compose_writing.specs.WriteEntities.{write_entity};

use crate::calls::note_calls;
use comp_encoder::EncodeError;
use comp_entity::{Entity, Shape};
use comp_format::TypeRef;
use compose_component::Component;
use compose_image::laws::an_import_is_one_item;
use compose_order::LeftImport;
use compose_types::laws::what_is_written_only_grows;
use compose_types::{TypeEncoder, TypeState};
use std::alloc::Global;

/// The index that an import of an entity gets which is an instance or a type.
fn next_place(state: &TypeState, entity: &Entity) -> u32
    ensures { result ≡ next_place (entity_tree entity.now) (outermost_scope state.now) }
{
    match entity {
        Entity::Instance(_) => state.instances(),
        Entity::Func(_) | Entity::Component(_) | Entity::Module(_) | Entity::Ty(_) => state.types(),
    }
}

/// Writes what an import of an entity needs, and gives its description.
fn described(alloc: Global, state: &mut TypeState, entity: &Entity) -> Result<TypeRef, EncodeError>
    requires form { KeepsForm (entity_tree entity.now) }
    requires known { is_known (knows (scopes state.old)) (entity_tree entity.now) ≡ true }
    ensures written { IfOk result (λ ty. write_entity (entity_tree entity.now) (scopes state.old)
        ≡ Some (scopes state.new, ty)) }
    ensures too_large { (n : ℕ) → result ≡ Err (EncodeError.TooLarge n) → 2 ^ 32 ≤ n }
    ensures among { (n : ℕ) (x : List WrittenScope × TypeRef) → result ≡ Err (EncodeError.TooLarge n)
        → write_entity (entity_tree entity.now) (scopes state.old) ≡ Some x
        → n ≤ written_size x }
{
    let shape = Shape {
        imports: Vec::new(alloc),
        exports: Vec::new(alloc),
    };
    let ty = TypeEncoder::new(&shape).entity(alloc, state, entity)?;
    Ok(ty)
}

/// Writes a left import, and gives the index of what is imported.
///
/// `TooLarge` has a number of 2^32 or more, which is not above the largest length, count or index that would have to be
/// written.
pub fn write_left(
    alloc: Global,
    state: &mut TypeState,
    left: &LeftImport,
) -> Result<u32, EncodeError>
    requires writable { IsWritable (left_tree left.now) (scopes state.old) }
    requires called { HasNamedCalls (left_tree left.now) }
    ensures written { OnOk result (write_left (left_tree left.now) (scopes state.old) ≡ Some (scopes state.new)) }
    ensures imported { (m : WrittenScope) → scopes state.old ≡ m ∷ []
        → IfOk result (λ i. IsImportedAt m (scopes state.new) left.now.name i) }
    ensures too_large { (n : ℕ) → result ≡ Err (EncodeError.TooLarge n) → 2 ^ 32 ≤ n }
    ensures among { (n : ℕ) (next : List WrittenScope) → result ≡ Err (EncodeError.TooLarge n)
        → write_left (left_tree left.now) (scopes state.old) ≡ Some next
        → n ≤ scopes_size next }
{
    an_import_is_one_item();
    what_is_written_only_grows();
    let ty = described(alloc, state, &left.entity)?;
    let place = next_place(state, &left.entity);
    let index = state.import(alloc, left.name.as_str(), &left.entity, &ty)?;
    note_calls(alloc, state, place, &left.calls)?;
    Ok(index)
}

/// Writes an import of a component, and gives the index of what is imported. `TooLarge` is as of `write_left`.
pub fn write_component(
    alloc: Global,
    state: &mut TypeState,
    component: &Component<'_>,
) -> Result<u32, EncodeError>
    requires { IsWritable (component_left component.now) (scopes state.old) }
    ensures written { OnOk result (write_left (component_left component.now) (scopes state.old)
        ≡ Some (scopes state.new)) }
    ensures imported { (m : WrittenScope) → scopes state.old ≡ m ∷ []
        → IfOk result (λ i. IsImportedAt m (scopes state.new) (component_left component.now).name i) }
    ensures too_large { (n : ℕ) → result ≡ Err (EncodeError.TooLarge n) → 2 ^ 32 ≤ n }
    ensures among { (n : ℕ) (next : List WrittenScope) → result ≡ Err (EncodeError.TooLarge n)
        → write_left (component_left component.now) (scopes state.old) ≡ Some next
        → n ≤ scopes_size next }
{
    an_import_is_one_item();
    what_is_written_only_grows();
    let shape = component.types();
    let ty = TypeEncoder::new(shape).component_ref(alloc, state, &shape.imports, &shape.exports)?;
    let index = state.import_component(alloc, component.name(), &ty)?;
    Ok(index)
}
