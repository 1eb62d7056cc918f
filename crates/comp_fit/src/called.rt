//! Resources of an asked entity under the names of those that stand for them.

ghost use Rattle.std.specs.Prelude.{◌≡◌, unwrap_or};
ghost use Rattle.comp_fit.specs.Standing.{resource_found};

use crate::standing::{StandingFor, resource_key};
use comp_entity::{ResourceNo, TypeNo};
use comp_rename::Renaming;

/// What an asked entity calls its resources where each has the name of the one that stands for it. Places keep their names.
#[derive(Drop)]
pub struct CalledAsGiven {
    /// What stands for the resources.
    pub found: StandingFor,
}

impl Renaming for CalledAsGiven {
    ghost resources = { λ s n. unwrap_or (resource_found s.found n) n };

    ghost places = { λ s n. n };

    fn resource(&self, resource: ResourceNo) -> Option<ResourceNo> {
        match self.found.resources.get(&resource_key(resource)) {
            Some(found) => Some(*found),
            None => Some(resource),
        }
    }

    fn place(&self, place: TypeNo) -> Option<TypeNo> {
        Some(place)
    }
}
