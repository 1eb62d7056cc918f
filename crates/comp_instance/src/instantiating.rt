//! How what a component or a description mentions is called in the scope in which it is instantiated or exported.

ghost use Rattle.std.specs.Prelude.{◌≡◌, ◌+◌, ◌==◌, ◌&&◌, nat_le, IfSome, None, unwrap_or};
ghost use Rattle.comp_entity.specs.Entity.{made};
ghost use Rattle.comp_instance.specs.Renamed.{component_place, component_resource, description_place, description_resource};
ghost use Rattle.comp_fit.specs.Standing.{place_found, resource_found};
ghost use Rattle.comp_scope.specs.Exports.{is_new};
ghost use Rattle.comp_scope.specs.Instances.{or_made};

use comp_entity::{ResourceNo, TypeNo};
use comp_fit::{StandingFor, place_key, resource_key};
use comp_rename::Renaming;
use comp_space::Counts;

/// How what a component mentions is called in the scope in which it is instantiated.
#[derive(Drop)]
pub struct Instantiating {
    /// What the arguments have at the paths of names of the imports.
    pub found: StandingFor,
    /// How many resources and places the scope makes already.
    pub made: Counts,
    /// How many it makes with those that the component makes.
    pub beyond: Counts,
}

/// How what a description of an export mentions is called in the scope of the export.
#[derive(Drop)]
pub struct Describing {
    /// What the item has at the paths of names of what is described.
    pub found: StandingFor,
    /// How many resources and places the scope makes already.
    pub made: Counts,
}

/// The resource of a number behind so many others that a scope makes. `None` where no number holds its name.
fn made_resource(count: usize, number: usize) -> Option<ResourceNo>
    ensures { IfSome result (λ r. r ≡ made (count + number)) }
{
    let number = count.checked_add(number)?;
    ResourceNo::new(0, number)
}

/// The place of a number behind so many others that a scope makes. `None` where no number holds its name.
fn made_place(count: usize, number: usize) -> Option<TypeNo>
    ensures { IfSome result (λ p. p ≡ made (count + number)) }
{
    let number = count.checked_add(number)?;
    TypeNo::new(0, number)
}

/// The resource that stands for one, where one does.
fn standing_resource(found: &StandingFor, resource: ResourceNo) -> Option<ResourceNo>
    ensures { result ≡ resource_found found.now resource }
{
    match found.resources.get(&resource_key(resource)) {
        Some(standing) => Some(*standing),
        None => None,
    }
}

/// The place that stands for one, where one does.
fn standing_place(found: &StandingFor, place: TypeNo) -> Option<TypeNo>
    ensures { result ≡ unwrap_or (place_found found.now place) None }
{
    match found.places.get(&place_key(place)) {
        Some(standing) => *standing,
        None => None,
    }
}

/// The resource that stands for one that imports bring, or the one of a number behind so many others. `None` where no
/// number holds its name.
fn imported_resource(found: &StandingFor, count: usize, resource: ResourceNo) -> Option<ResourceNo>
    ensures { IfSome result
        (λ r. r ≡ unwrap_or (resource_found found.now resource) (made (count + resource.number))) }
{
    match standing_resource(found, resource) {
        Some(standing) => Some(standing),
        None => made_resource(count, resource.number()),
    }
}

/// The place that stands for one that imports bring, or the one of a number behind so many others. `None` where no
/// number holds its name.
fn imported_place(found: &StandingFor, count: usize, place: TypeNo) -> Option<TypeNo>
    ensures { IfSome result (λ p. p ≡ or_made (count + place.number) (place_found found.now place)) }
{
    match standing_place(found, place) {
        Some(standing) => Some(standing),
        None => made_place(count, place.number()),
    }
}

impl Renaming for Instantiating {
    ghost resources = { component_resource };

    ghost places = { component_place };

    fn resource(&self, resource: ResourceNo) -> Option<ResourceNo> {
        let out = resource.out();
        if out == 0 {
            return made_resource(self.made.resources, resource.number());
        }
        if out == 1 {
            return imported_resource(&self.found, self.beyond.resources, resource);
        }
        ResourceNo::new(out - 2, resource.number())
    }

    fn place(&self, place: TypeNo) -> Option<TypeNo> {
        let out = place.out();
        if out == 0 {
            return made_place(self.made.places, place.number());
        }
        if out == 1 {
            return imported_place(&self.found, self.beyond.places, place);
        }
        TypeNo::new(out - 2, place.number())
    }
}

/// Whether a name of the scope so far out is new, where the scope makes so many already.
fn is_new(count: usize, out: usize, number: usize) -> bool
    ensures { result ≡ ((out == 0) && nat_le count number) }
{
    out == 0 && count <= number
}

/// The resource that stands for a new one, or that one where none does.
fn described_resource(found: &StandingFor, resource: ResourceNo) -> ResourceNo
    ensures { result ≡ unwrap_or (resource_found found.now resource) resource }
{
    match standing_resource(found, resource) {
        Some(standing) => standing,
        None => resource,
    }
}

/// The place that stands for a new one, or that one where none does.
fn described_place(found: &StandingFor, place: TypeNo) -> TypeNo
    ensures { result ≡ unwrap_or (unwrap_or (place_found found.now place) None) place }
{
    match standing_place(found, place) {
        Some(standing) => standing,
        None => place,
    }
}

impl Renaming for Describing {
    ghost resources = { description_resource };

    ghost places = { description_place };

    fn resource(&self, resource: ResourceNo) -> Option<ResourceNo> {
        if is_new(self.made.resources, resource.out(), resource.number()) {
            Some(described_resource(&self.found, resource))
        } else {
            Some(resource)
        }
    }

    fn place(&self, place: TypeNo) -> Option<TypeNo> {
        if is_new(self.made.places, place.out(), place.number()) {
            Some(described_place(&self.found, place))
        } else {
            Some(place)
        }
    }
}
