//! What stands in entities, instances gone into.

ghost use Rattle.std.specs.Prelude.{◌≡◌, ◌++◌, ◌∷◌, [], IfOk};
ghost use Rattle.comp_entity.specs.Views.{entity_tree, entries_of, named_entities};
ghost use Rattle.compose_needs.specs.Leaves.{leaf_of, leaves_among, leaves_at, leaves_from};

use crate::mentions::mentioned;
use comp_entity::Entity;
use compose_left::{Path, Thing};
use std::alloc::Global;
use warg_values::{Memory, Sequence, Text};

/// What stands at a path of an entity.
#[derive(Drop)]
pub struct Leaf {
    /// The path of names to it.
    pub path: Path,
    /// What it names, as a resource or as a type.
    pub named: Option<Thing>,
    /// What it mentions of the scopes around the entity.
    pub mentioned: Sequence<Thing>,
}

/// Adds what stands at a path, which is no instance.
fn push_leaf(
    alloc: Global,
    path: &Path,
    entity: &Entity,
    leaves: &mut Vec<Leaf>,
) -> Result<(), Memory>
    ensures { IfOk result (λ done.
        leaves.new.items ≡ leaves.old.items ++ leaf_of (path.now, entity_tree entity.now) ∷ []) }
{
    let leaf = Leaf {
        path: path.try_clone(alloc)?,
        named: Thing::named_by(entity),
        mentioned: mentioned(alloc, entity)?,
    };
    leaves.push(leaf)?;
    Ok(())
}

/// Adds what stands in an entity at a path.
#[cycle(leaves)]
fn push_leaves(
    alloc: Global,
    path: &Path,
    entity: &Entity,
    leaves: &mut Vec<Leaf>,
) -> Result<(), Memory>
    ensures { IfOk result (λ done.
        leaves.new.items ≡ leaves.old.items ++ leaves_from path.now (entity_tree entity.now)) }
{
    match entity {
        Entity::Instance(instance) => {
            push_inner_leaves(alloc, path, &instance.exports, leaves)?;
            Ok(())
        }
        Entity::Func(_) | Entity::Component(_) | Entity::Module(_) | Entity::Ty(_) => {
            push_leaf(alloc, path, entity, leaves)?;
            Ok(())
        }
    }
}

/// Adds what stands in imports or exports behind a path.
#[cycle(leaves)]
pub fn push_inner_leaves(
    alloc: Global,
    path: &Path,
    entries: &[(Text, Entity)],
    leaves: &mut Vec<Leaf>,
) -> Result<(), Memory>
    ensures { IfOk result (λ done. leaves.new.items
        ≡ leaves.old.items ++ leaves_among path.now (entries_of (named_entities entries.now))) }
{
    for entry in entries {
        let inner = path.below(alloc, &entry.0)?;
        push_leaves(alloc, &inner, &entry.1, leaves)?;
    }
    Ok(())
}

/// What stands in an entity, in order.
pub fn leaves_at(alloc: Global, entity: &Entity) -> Result<Vec<Leaf>, Memory>
    ensures { IfOk result (λ leaves. leaves.items ≡ leaves_at (entity_tree entity.now)) }
{
    let path = Path::new(alloc);
    let mut leaves = Vec::new(alloc);
    push_leaves(alloc, &path, entity, &mut leaves)?;
    Ok(leaves)
}
