//! A caller of `compose_types`.

ghost use Rattle.std.specs.Prelude.{◌≡◌, ◌<◌, ◌∷◌, [], length, IfOk};
ghost use Rattle.comp_format.specs.Definitions as tree;
ghost use Rattle.comp_format.specs.Items.{Import, Ty};
ghost use Rattle.comp_format.specs.declared.types.TypeRef.TheVariants as description;
ghost use Rattle.comp_entity.specs.Entity.{IsInstance, no_entry};
ghost use Rattle.comp_entity.specs.Views.{entity_tree};
ghost use Rattle.comp_encoder.specs.Builder.{entries_of};
ghost use Rattle.comp_encoder.specs.Writing.{Single};

use compose_types::{ComponentBuilder, EncodeError, Entity, Shape, TypeEncoder, TypeState};
use std::alloc::Global;

/// A component that imports an instance without exports under this name, and the index of the instance in it.
pub fn import_empty(
    alloc: Global,
    shape: &Shape,
    name: &str,
    instance: &Entity,
) -> Result<(ComponentBuilder, u32), EncodeError>
    requires name { 0 < length name.now }
    requires empty { entity_tree instance.now ≡ IsInstance no_entry }
    ensures written { IfOk result (λ x. entries_of x.0
        ≡ Single (Ty (tree.Instance tree.none))
        ∷ Single (Import (record { name = name.now; ty = description.Instance 0 }))
        ∷ []) }
    ensures index { IfOk result (λ x. x.1 ≡ 0) }
{
    let mut state = TypeState::new(alloc);
    let ty = TypeEncoder::new(shape).entity(alloc, &mut state, instance)?;
    let index = state.import(alloc, name, instance, &ty)?;
    Ok((state.into_builder(), index))
}
