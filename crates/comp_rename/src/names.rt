//! Other names for resources, and for the places that named types.

ghost use Rattle.std.specs.Prelude.{◌≡◌, ℕ, IfOk, IfSome};
ghost use Rattle.comp_entity.specs.Entity.{Name};
ghost use Rattle.comp_entity.specs.Names.{changing, outside, place_by};

use comp_entity::{ResourceNo, TypeNo};
use warg_values::Memory;

/// Other names for the resources of the scopes around a type or an entity, and for the places there that named types.
/// What stands within keeps its names.
pub trait Renaming {
    /// What a resource of a scope around is called then.
    ghost resources: { Self → Name → Name };

    /// What a place of a scope around is called then.
    ghost places: { Self → Name → Name };

    /// What a resource of a scope around is called then. `None` where no number holds that name.
    fn resource(&self, resource: ResourceNo) -> Option<ResourceNo>
        ensures { IfSome result (λ r. r ≡ resources self.now resource) };

    /// What a place of a scope around is called then. `None` where no number holds that name.
    fn place(&self, place: TypeNo) -> Option<TypeNo>
        ensures { IfSome result (λ p. p ≡ places self.now place) };
}

/// What a resource is called then that is mentioned so many scopes deep.
fn outer_resource<R: Renaming>(
    renaming: &R,
    depth: usize,
    resource: ResourceNo,
) -> Option<ResourceNo>
    ensures { IfSome result (λ r. r ≡ outside (R.resources renaming.now) depth resource) }
{
    if resource.out() < depth {
        return Some(resource);
    }
    let around = ResourceNo::new(resource.out() - depth, resource.number())?;
    let renamed = renaming.resource(around)?;
    let out = renamed.out().checked_add(depth)?;
    ResourceNo::new(out, renamed.number())
}

/// What a place is called then that is mentioned so many scopes deep.
fn outer_place<R: Renaming>(renaming: &R, depth: usize, place: TypeNo) -> Option<TypeNo>
    ensures { IfSome result (λ p. p ≡ outside (R.places renaming.now) depth place) }
{
    if place.out() < depth {
        return Some(place);
    }
    let around = TypeNo::new(place.out() - depth, place.number())?;
    let renamed = renaming.place(around)?;
    let out = renamed.out().checked_add(depth)?;
    TypeNo::new(out, renamed.number())
}

/// What a resource is called then that is mentioned so many scopes deep. `Memory` where no number holds that name.
pub fn renamed_resource<R: Renaming>(
    renaming: &R,
    depth: usize,
    resource: ResourceNo,
) -> Result<ResourceNo, Memory>
    ensures { IfOk result (λ r. r ≡ outside (R.resources renaming.now) depth resource) }
{
    match outer_resource(renaming, depth, resource) {
        Some(resource) => Ok(resource),
        None => Err(Memory),
    }
}

/// The place that named a type, as it is called then. `Memory` where no number holds that name.
pub fn renamed_place<R: Renaming>(
    renaming: &R,
    depth: usize,
    place: Option<TypeNo>,
) -> Result<Option<TypeNo>, Memory>
    ensures { IfOk result
        (λ p. p ≡ place_by (changing (R.resources renaming.now) (R.places renaming.now)) depth place) }
{
    match place {
        Some(place) => match outer_place(renaming, depth, place) {
            Some(place) => Ok(Some(place)),
            None => Err(Memory),
        },
        None => Ok(None),
    }
}
