//! How what is new in a description is called.

ghost use Rattle.std.specs.Prelude.{◌≡◌, ◌+◌, IfOk, List};
ghost use Rattle.comp_declare.specs.Naming.{new_names};
ghost use Rattle.comp_scope.specs.Descriptions.{new_brought, new_made, opened};
ghost use Rattle.comp_scope.specs.Spaces.{Spaces};
ghost use Rattle.comp_space.specs.SpaceViews.{ShowsSpaces};
ghost use Rattle.comp_table.specs.Trees.{PlainTree};

use comp_entity::{ResourceNo, TypeNo};
use comp_rename::Renaming;
use comp_space::{Counts, Space};
use warg_values::Memory;

/// How what is new in a description is called: its resource of a number, and its place of a number that names a type.
#[derive(Clone, Copy, Debug)]
pub struct NewNames {
    /// How many scopes further out the scope is of which it is: 0 of what a scope makes, 1 of what its imports bring.
    out: usize,
    /// How many resources, and how many places, the scope has already.
    counts: Counts,
}

impl NewNames {
    /// In the next import of a scope.
    pub fn brought(space: &Space) -> Self
        ensures { (table : List PlainTree) (s : Spaces) → ShowsSpaces table space.now s
            → new_names result ≡ new_brought s }
    {
        NewNames {
            out: 1,
            counts: space.brought,
        }
    }

    /// In the next export of a scope.
    pub fn made(space: &Space) -> Self
        ensures { (table : List PlainTree) (s : Spaces) → ShowsSpaces table space.now s
            → new_names result ≡ new_made s }
    {
        NewNames {
            out: 0,
            counts: space.made,
        }
    }
}

/// The sum of two counts. `Memory` where no number holds it.
pub fn sum(first: usize, second: usize) -> Result<usize, Memory>
    ensures { IfOk result (λ n. n ≡ first + second) }
{
    match first.checked_add(second) {
        Some(sum) => Ok(sum),
        None => Err(Memory),
    }
}

/// The new resource of a number. `Memory` where no number holds its name.
pub fn new_resource(new: &NewNames, number: usize) -> Result<ResourceNo, Memory>
    ensures { IfOk result (λ r. r ≡ (new_names new.now).resource number) }
{
    match ResourceNo::new(new.out, sum(new.counts.resources, number)?) {
        Some(resource) => Ok(resource),
        None => Err(Memory),
    }
}

/// The new place of a number. `Memory` where no number holds its name.
pub fn new_place(new: &NewNames, number: usize) -> Result<TypeNo, Memory>
    ensures { IfOk result (λ p. p ≡ (new_names new.now).place number) }
{
    match TypeNo::new(new.out, sum(new.counts.places, number)?) {
        Some(place) => Ok(place),
        None => Err(Memory),
    }
}

impl Renaming for NewNames {
    ghost resources = { λ new. opened (new_names new).resource };

    ghost places = { λ new. opened (new_names new).place };

    fn resource(&self, resource: ResourceNo) -> Option<ResourceNo> {
        match resource.out().checked_sub(1) {
            Some(out) => ResourceNo::new(out, resource.number()),
            None => new_resource(self, resource.number()).ok(),
        }
    }

    fn place(&self, place: TypeNo) -> Option<TypeNo> {
        match place.out().checked_sub(1) {
            Some(out) => TypeNo::new(out, place.number()),
            None => new_place(self, place.number()).ok(),
        }
    }
}
