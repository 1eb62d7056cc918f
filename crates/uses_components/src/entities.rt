//! A caller of `comp_entity`.

ghost use Rattle.std.specs.Prelude.{◌≡◌, ◌&&◌};
ghost use Rattle.comp_entity.specs.Fits.{equal, fits};
ghost use Rattle.comp_entity.specs.Views.{entity_tree};

use comp_entity::{Entity, equal, fits};

/// Whether an entity can be given for each of two that are asked for, and these are one.
pub fn serves_both(given: &Entity, first: &Entity, second: &Entity) -> bool
    ensures { result
        ≡ (equal (entity_tree first.now) (entity_tree second.now)
        && fits (entity_tree given.now) (entity_tree first.now)) }
{
    equal(first, second) && fits(given, first)
}
