//! What is looked up in a composition. What is not there has an empty name.

ghost use Rattle.std.specs.Prelude.{◌≡◌, ◌<◌, All, length, IfSome};
ghost use Rattle.comp_entity.specs.Views.{entity_tree};
ghost use Rattle.comp_scope.specs.Spaces.{sort_of};
ghost use Rattle.compose_check.specs.Composition.{composition_tree};
ghost use Rattle.compose_encode.specs.Held.{shape_in};
ghost use Rattle.compose_encode.specs.Parts.{part_of};
ghost use Rattle.compose_image.specs.Instances.{export_of, import_of, shape_of};

use crate::part::Part;
use comp_entity::{Entity, Shape};
use comp_format::{CoreSort, Sort};
use compose_check::Composition;

/// What an entity is.
pub fn sort_of(entity: &Entity) -> Sort
    ensures { result ≡ sort_of (entity_tree entity.now) }
{
    match entity {
        Entity::Func(_) => Sort::Func,
        Entity::Instance(_) => Sort::Instance,
        Entity::Component(_) => Sort::Component,
        Entity::Module(_) => Sort::Core(CoreSort::Module),
        Entity::Ty(_) => Sort::Ty,
    }
}

/// The shape of an instance, where it is there.
pub fn shape_of<'a>(composition: &'a Composition<'_>, instance: usize) -> Option<&'a Shape>
    ensures value { shape_in result ≡ shape_of (composition_tree composition.now) instance }
    ensures named { IfSome result (λ shape. All (λ e. 0 < length e.0) shape.now.exports.items) }
{
    let number = *composition.instances.get(instance)?;
    if number >= composition.components.len() {
        return None;
    }
    let component = composition.components[number];
    Some(component.types())
}

/// The name of an export of an instance, and what it is.
pub fn export_of<'a>(composition: &'a Composition<'_>, part: Part) -> (&'a str, Sort)
    ensures name { result.0.now ≡ (export_of (composition_tree composition.now) (part_of part)).0 }
    ensures sort { result.1 ≡ sort_of (export_of (composition_tree composition.now) (part_of part)).1 }
    ensures named { part.export < length (shape_of (composition_tree composition.now) part.instance).exports
        → 0 < length result.0.now }
{
    match shape_of(composition, part.instance) {
        Some(shape) => match shape.exports.get(part.export) {
            Some(export) => (export.0.as_str(), sort_of(&export.1)),
            None => ("", Sort::Func),
        },
        None => ("", Sort::Func),
    }
}

/// The name of an import of an instance.
pub fn import_name<'a>(composition: &'a Composition<'_>, instance: usize, import: usize) -> &'a str
    ensures { result.now ≡ (import_of (composition_tree composition.now) instance import).0 }
{
    match shape_of(composition, instance) {
        Some(shape) => match shape.imports.get(import) {
            Some(entry) => entry.0.as_str(),
            None => "",
        },
        None => "",
    }
}
