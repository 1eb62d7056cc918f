//! How the resources of an asked entity are called in a given one.

ghost use Rattle.std.specs.Prelude.{◌≡◌};
ghost use Rattle.comp_entity.specs.Comparing.{entity_found, export_stands, exports_stand, outwards, resource_alike};
ghost use Rattle.comp_entity.specs.Fits.{same_name, under, resource_for, stands, type_stands};
ghost use Rattle.comp_entity.specs.Views.{entity_tree, type_tree, entries_of, named_entities};

use crate::entity::{Entity, TypeShape};
use crate::names::ResourceNo;
use comp_format::Text;

/// How the resources of an asked entity are called in the given one.
#[derive(Drop)]
pub enum Naming<'a> {
    /// As in the asked one.
    Same,
    /// A resource for which one of the given entity stands is that one, and others are as in the asked one.
    Standing {
        given: &'a Entity,
        asked: &'a Entity,
    },
    /// The same, for what stands one scope further in.
    Within(&'a Naming<'a>),
}

/// The entity of this name among imports or exports.
pub fn under<'a>(name: &Text, entries: &'a [(Text, Entity)]) -> Option<&'a Entity>
    ensures { under name.now (entries_of (named_entities entries.now)) ≡ entity_found result }
{
    for entry in entries {
        if *name == entry.0 {
            return Some(&entry.1);
        }
    }
    None
}

/// The resource of a given entity that stands for one of the asked entity, where one does.
#[cycle(standing)]
fn standing_for(asked: &Entity, given: &Entity, name: ResourceNo) -> Option<ResourceNo>
    ensures { result ≡ resource_for (stands (entity_tree given.now) (entity_tree asked.now)) name }
{
    match (asked, given) {
        (Entity::Ty(asked), Entity::Ty(given)) => type_standing_for(asked, given, name),
        (Entity::Instance(asked), Entity::Instance(given)) => {
            export_standing_for(&asked.exports, &given.exports, name)
        }
        (Entity::Func(_) | Entity::Component(_) | Entity::Module(_), _) => None,
        _ => None,
    }
}

/// The same for types.
fn type_standing_for(asked: &TypeShape, given: &TypeShape, name: ResourceNo) -> Option<ResourceNo>
    ensures { result ≡ resource_for (type_stands (type_tree given.now) (type_tree asked.now)) name }
{
    match (asked, given) {
        (TypeShape::Resource(asked), TypeShape::Resource(given)) => {
            if same_resource(*asked, name) {
                Some(*given)
            } else {
                None
            }
        }
        (
            TypeShape::Value(_)
            | TypeShape::Func(_)
            | TypeShape::Instance(_)
            | TypeShape::Component(_),
            _,
        ) => None,
        _ => None,
    }
}

/// The same for the exports of instances.
#[cycle(standing)]
fn export_standing_for(
    asked: &[(Text, Entity)],
    given: &[(Text, Entity)],
    name: ResourceNo,
) -> Option<ResourceNo>
    ensures { result ≡ resource_for (exports_stand given.now asked.now) name }
{
    for export in asked {
        let found = standing_under(&export.0, &export.1, given, name);
        if found.is_some() {
            return found;
        }
    }
    None
}

/// The same for one export that is asked for.
#[cycle(standing)]
fn standing_under(
    label: &Text,
    asked: &Entity,
    given: &[(Text, Entity)],
    name: ResourceNo,
) -> Option<ResourceNo>
    ensures { result ≡ resource_for (export_stands given.now label.now asked.now) name }
{
    match under(label, given) {
        Some(found) => standing_for(asked, found, name),
        None => None,
    }
}

/// A resource, as it is called one scope further out. `None` where it is of the innermost scope.
fn further_out(name: ResourceNo) -> Option<ResourceNo>
    ensures { result ≡ outwards name }
{
    let out = name.out().checked_sub(1)?;
    ResourceNo::new(out, name.number())
}

/// Whether two mentions are of one resource.
fn same_resource(a: ResourceNo, b: ResourceNo) -> bool
    ensures { result ≡ same_name a b }
{
    a.out() == b.out() && a.number() == b.number()
}

/// Whether a resource is the one that is asked for.
pub fn resource_equal(naming: &Naming<'_>, given: ResourceNo, asked: ResourceNo) -> bool
    ensures { result ≡ resource_alike naming.now given asked }
{
    match naming {
        Naming::Same => same_resource(given, asked),
        Naming::Standing {
            given: entity,
            asked: other,
        } => { same_resource(given, standing_for(other, entity, asked).unwrap_or(asked)) }
        Naming::Within(outer) => match (further_out(given), further_out(asked)) {
            (None, None) => same_resource(given, asked),
            (Some(given), Some(asked)) => resource_equal(outer, given, asked),
            _ => false,
        },
    }
}
