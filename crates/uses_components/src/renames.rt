//! A caller of `comp_rename`.

ghost use Rattle.std.specs.Prelude.{◌<◌, length, IfOk};
ghost use Rattle.comp_entity.specs.Entity.{Name};
ghost use Rattle.comp_entity.specs.Names.{changing, deeper};
ghost use Rattle.comp_table.specs.Changes.{tree_by};
ghost use Rattle.comp_table.specs.Trees.{Extends, Stands, tree_at};

use comp_entity::{ResourceNo, TypeNo};
use comp_rename::{Renaming, renamed};
use comp_table::TypeTable;
use std::alloc::Global;
use warg_values::Memory;

/// The names of an outer scope, as they are called so many scopes further in.
#[derive(Clone, Copy, Debug)]
pub struct Deeper {
    /// How many scopes.
    pub scopes: usize,
}

impl Renaming for Deeper {
    ghost resources = { λ d. deeper d.scopes };

    ghost places = { λ d. deeper d.scopes };

    fn resource(&self, resource: ResourceNo) -> Option<ResourceNo> {
        let out = resource.out().checked_add(self.scopes)?;
        ResourceNo::new(out, resource.number())
    }

    fn place(&self, place: TypeNo) -> Option<TypeNo> {
        let out = place.out().checked_add(self.scopes)?;
        TypeNo::new(out, place.number())
    }
}

/// The number of what an outer alias names, so many scopes further in.
pub fn from_outside(
    alloc: Global,
    table: &mut TypeTable,
    scopes: usize,
    number: usize,
) -> Result<usize, Memory>
    requires { number < length table.old }
    ensures kept { Extends table.old table.new }
    ensures number { IfOk result (λ n. Stands table.new n
        (tree_by (changing (deeper scopes) (deeper scopes)) 0 (tree_at table.old number))) }
{
    renamed(table, alloc, &Deeper { scopes }, number)
}
