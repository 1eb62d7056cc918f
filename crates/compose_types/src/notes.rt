//! What entities bring, noted in the innermost scope.

ghost use Rattle.std.specs.Prelude.{◌≡◌, ◌<◌, ◌++◌, ◌∷◌, [], All, length, IfErr, IfOk, OnOk, map, option_to_list};
ghost use Rattle.comp_entity.specs.Places.{leaves_in, leaves_of, names_itself};
ghost use Rattle.comp_entity.specs.Views.{entity_tree, entries_of, named_entities};
ghost use Rattle.compose_writing.specs.Conditions.{KeepsEntries, KeepsForm};
ghost use Rattle.compose_writing.specs.WriteEntities.{note_all};
ghost use Rattle.compose_writing.specs.WriteEntities.{leaf_known, leaves_known};
ghost use Rattle.compose_types.specs.Scopes.{scopes};
ghost use Rattle.compose_types.specs.Views.{mention_of};

use crate::known::{At, Key};
use crate::state::TypeState;
use crate::values::place_of;
use comp_entity::{Entity, TypeShape};
use comp_format::EncodeError;
use std::alloc::Global;
use warg_values::{Sequence, Text};

/// What an entity brings or names as a type.
pub fn key_of(entity: &Entity) -> Option<Key>
    ensures { map mention_of (option_to_list result) ≡ names_itself (entity_tree entity.now) }
{
    match entity {
        Entity::Ty(TypeShape::Resource(name)) => Some(Key::of_resource(*name)),
        Entity::Ty(TypeShape::Value(ty)) => match place_of(ty) {
            Some(place) => Some(Key::of_place(place)),
            None => None,
        },
        _ => None,
    }
}

/// A copy of a path.
fn copy_of(alloc: Global, path: &[Text]) -> Result<Sequence<Text>, EncodeError>
    ensures value { IfOk result (λ copy. copy ≡ path.now) }
    ensures err { IfErr result (λ e. e ≡ EncodeError.Memory) }
{
    let mut copy = Sequence::new(alloc);
    for name in path {
        copy.push(name.try_clone(alloc)?)?;
    }
    Ok(copy)
}

/// A copy of a path, and a name behind it.
fn below(alloc: Global, path: &[Text], name: &Text) -> Result<Sequence<Text>, EncodeError>
    ensures value { IfOk result (λ below. below ≡ path.now ++ name.now ∷ []) }
    ensures err { IfErr result (λ e. e ≡ EncodeError.Memory) }
{
    let mut below = copy_of(alloc, path)?;
    below.push(name.try_clone(alloc)?)?;
    Ok(below)
}

/// Notes what an entity brings that stands at this path of the instance of this index, where no scope knows it.
#[cycle(walking)]
#[tactic(auto, using(crate::proofs::NoteLaws::instance_leaves, crate::proofs::NoteLaws::instance_keeps, crate::proofs::NoteLaws::leaf_alone))]
fn note_leaves(
    alloc: Global,
    state: &mut TypeState,
    index: u32,
    path: &[Text],
    entity: &Entity,
) -> Result<(), EncodeError>
    requires { All (λ name. 0 < length name) path.now × KeepsForm (entity_tree entity.now) }
    ensures noted { OnOk result (scopes state.new
        ≡ note_all (leaves_known index (leaves_of path.now (entity_tree entity.now))) (scopes state.old)) }
    ensures err { IfErr result (λ e. e ≡ EncodeError.Memory) }
{
    match entity {
        Entity::Instance(instance) => {
            note_exports(alloc, state, index, path, &instance.exports)?;
            Ok(())
        }
        Entity::Func(_) | Entity::Component(_) | Entity::Module(_) | Entity::Ty(_) => {
            note_leaf(alloc, state, index, path, entity)?;
            Ok(())
        }
    }
}

/// Notes what an entity brings that is no instance, and stands at this path of the instance of this index.
#[tactic(auto, using(crate::proofs::NoteLaws::leaf_none, crate::proofs::NoteLaws::leaf_some))]
fn note_leaf(
    alloc: Global,
    state: &mut TypeState,
    instance: u32,
    path: &[Text],
    entity: &Entity,
) -> Result<(), EncodeError>
    requires { All (λ name. 0 < length name) path.now }
    ensures noted { OnOk result (scopes state.new
        ≡ note_all (leaf_known instance (path.now, entity_tree entity.now)) (scopes state.old)) }
    ensures err { IfErr result (λ e. e ≡ EncodeError.Memory) }
{
    match key_of(entity) {
        Some(key) => {
            let path = copy_of(alloc, path)?;
            state.note_new(key, At::InInstance { instance, path })?;
            Ok(())
        }
        None => Ok(()),
    }
}

/// Notes what the exports of an instance bring that stands at this path of the instance of this index, where no scope
/// knows it.
#[cycle(walking)]
pub fn note_exports(
    alloc: Global,
    state: &mut TypeState,
    index: u32,
    path: &[Text],
    exports: &[(Text, Entity)],
) -> Result<(), EncodeError>
    requires { All (λ name. 0 < length name) path.now × KeepsEntries (entries_of (named_entities exports.now)) }
    ensures noted { OnOk result (scopes state.new
        ≡ note_all (leaves_known index (leaves_in path.now (entries_of (named_entities exports.now))))
        (scopes state.old)) }
    ensures err { IfErr result (λ e. e ≡ EncodeError.Memory) }
{
    for export in exports {
        let inner = below(alloc, path, &export.0)?;
        note_leaves(alloc, state, index, inner.as_slice(), &export.1)?;
    }
    Ok(())
}
