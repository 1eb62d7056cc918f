//! Where imports and exports name resources and types.

ghost use Rattle.std.specs.Prelude.{◌≡◌, ◌++◌, IfOk};
ghost use Rattle.comp_entity.specs.Views.{entity_tree, value_tree, entries_of, named_entities};
ghost use Rattle.compose_left.specs.Spots.{resource, named_type, named_by, placed_thing, spots, spots_of, spots_in, inner_spots};

use crate::path::Path;
use comp_entity::{Entity, ResourceNo, TypeNo, TypeShape, ValueShape};
use std::alloc::Global;
use warg_values::{Memory, Text};

/// A resource, or the place that named a type, as it is called where it is mentioned.
#[derive(Clone, Copy, Debug, PartialEq, Eq, PartialOrd, Ord)]
pub struct Thing {
    /// Whether it is the place that named a type, and no resource.
    pub is_type: bool,
    /// How many scopes further out its scope is.
    pub out: usize,
    /// Its number in its scope.
    pub number: usize,
}

impl Thing {
    /// A resource.
    pub fn resource(name: ResourceNo) -> Self
        ensures { result ≡ resource name }
    {
        Thing {
            is_type: false,
            out: name.out(),
            number: name.number(),
        }
    }

    /// The place that named a type.
    pub fn named_type(name: TypeNo) -> Self
        ensures { result ≡ named_type name }
    {
        Thing {
            is_type: true,
            out: name.out(),
            number: name.number(),
        }
    }

    /// The place that named a value type, where one did.
    fn of_value(ty: &ValueShape) -> Option<Self>
        ensures { result ≡ placed_thing (value_tree ty.now) }
    {
        match ty {
            ValueShape::RecordOf(Some(place), _) => Some(Self::named_type(*place)),
            ValueShape::VariantOf(Some(place), _) => Some(Self::named_type(*place)),
            ValueShape::FlagsOf(Some(place), _) => Some(Self::named_type(*place)),
            ValueShape::EnumOf(Some(place), _) => Some(Self::named_type(*place)),
            _ => None,
        }
    }

    /// What an entity names as a type: a resource, or the place that named the value type that it is.
    pub fn named_by(entity: &Entity) -> Option<Self>
        ensures { result ≡ named_by (entity_tree entity.now) }
    {
        match entity {
            Entity::Ty(TypeShape::Resource(name)) => Some(Self::resource(*name)),
            Entity::Ty(TypeShape::Value(ty)) => Self::of_value(ty),
            _ => None,
        }
    }
}

/// A place at which an import or an export names a resource or a type.
#[derive(Debug, Drop)]
pub struct Spot {
    /// The number of the import or export.
    pub number: usize,
    /// Its name.
    pub name: Text,
    /// The path of names in it.
    pub path: Path,
    /// What is named there.
    pub what: Thing,
}

/// Adds the spot of an entity that is no instance, where it has one.
fn push_leaf(
    alloc: Global,
    number: usize,
    name: &Text,
    path: &Path,
    entity: &Entity,
    spots: &mut Vec<Spot>,
) -> Result<(), Memory>
    ensures { IfOk result (λ done.
        spots.new.items ≡ spots.old.items ++ spots_of number name.now path.now (entity_tree entity.now)) }
{
    match Thing::named_by(entity) {
        Some(what) => {
            let spot = Spot {
                number,
                name: name.try_clone(alloc)?,
                path: path.try_clone(alloc)?,
                what,
            };
            spots.push(spot)?;
            Ok(())
        }
        None => Ok(()),
    }
}

/// Adds the spots of an entity that stands at a path of an import or export.
#[cycle(walking)]
pub fn push_spots(
    alloc: Global,
    number: usize,
    name: &Text,
    path: &Path,
    entity: &Entity,
    spots: &mut Vec<Spot>,
) -> Result<(), Memory>
    ensures { IfOk result (λ done.
        spots.new.items ≡ spots.old.items ++ spots_in number name.now path.now (entity_tree entity.now)) }
{
    match entity {
        Entity::Instance(instance) => {
            push_inner_spots(alloc, number, name, path, &instance.exports, spots)?;
            Ok(())
        }
        Entity::Func(_) | Entity::Component(_) | Entity::Module(_) | Entity::Ty(_) => {
            push_leaf(alloc, number, name, path, entity, spots)?;
            Ok(())
        }
    }
}

/// Adds the spots of the exports of an instance that stands at a path of an import or export.
#[cycle(walking)]
fn push_inner_spots(
    alloc: Global,
    number: usize,
    name: &Text,
    path: &Path,
    exports: &[(Text, Entity)],
    spots: &mut Vec<Spot>,
) -> Result<(), Memory>
    ensures { IfOk result (λ done. spots.new.items
        ≡ spots.old.items ++ inner_spots number name.now path.now (entries_of (named_entities exports.now))) }
{
    for export in exports {
        let inner = path.below(alloc, &export.0)?;
        push_spots(alloc, number, name, &inner, &export.1, spots)?;
    }
    Ok(())
}

/// The spots of imports, or of exports, in order.
pub fn spots(alloc: Global, entries: &[(Text, Entity)]) -> Result<Vec<Spot>, Memory>
    ensures { IfOk result (λ found. found.items ≡ spots (named_entities entries.now)) }
{
    let mut found = Vec::new(alloc);
    for (number, entry) in entries.iter().enumerate() {
        push_spots(
            alloc,
            number,
            &entry.0,
            &Path::new(alloc),
            &entry.1,
            &mut found,
        )?;
    }
    Ok(found)
}
