//! Entities with the numbers of origins in place.

ghost use Rattle.std.specs.Prelude.{◌≡◌, IfOk, IfSome};
ghost use Rattle.comp_entity.specs.Views.{entity_tree};
ghost use Rattle.compose_left.specs.Numbers.{AreOrigins};
ghost use Rattle.compose_left.specs.Origins.{placed};
ghost use Rattle.compose_left.specs.Renaming.{placed_resource, placed_type};
ghost use Rattle.compose_left.specs.Wiring.{HasNoCircle, Wiring};

use crate::copies::entity_in;
use crate::known::Origins;
use crate::origin::Held;
use crate::renaming::{Renaming, number_held};
use crate::spots::Thing;
use comp_entity::{Entity, ResourceNo, TypeNo};
use std::alloc::Global;
use warg_values::Memory;

impl Origins {
    /// An entity of an instance, in which each resource and each place that named a type is the number of its origin. Of
    /// what stands in the imports or exports of the instance's shape, at any depth, two are equal exactly where their
    /// origins are. `Memory` also where a number has no room in a name.
    pub fn place(&self, alloc: Global, at: usize, entity: &Entity) -> Result<Entity, Memory>
        ensures { (w : Wiring) → AreOrigins self.now w → HasNoCircle w
            → IfOk result (λ copy. entity_tree copy ≡ placed w at (entity_tree entity.now)) }
    {
        let renaming = Renaming::Placed { origins: self, at };
        entity_in(alloc, &renaming, 0, entity)
    }

    /// A resource of an instance, called by the number of its origin. `None` where no name holds that number.
    pub fn resource(&self, at: usize, name: ResourceNo) -> Option<ResourceNo>
        ensures { IfSome result (λ called. called ≡ placed_resource self.now at name) }
    {
        let held = Held {
            instance: at,
            thing: Thing::resource(name),
        };
        let number = number_held(self, held).ok()?;
        ResourceNo::new(0, number)
    }

    /// The place that named a type of an instance, called by the number of its origin. `None` where no name holds that
    /// number.
    pub fn type_place(&self, at: usize, name: TypeNo) -> Option<TypeNo>
        ensures { IfSome result (λ called. called ≡ placed_type self.now at name) }
    {
        let held = Held {
            instance: at,
            thing: Thing::named_type(name),
        };
        let number = number_held(self, held).ok()?;
        TypeNo::new(0, number)
    }
}
