//! A caller of `comp_instance`.

ghost use Rattle.comp_entity.specs.Bounds.{bounded};
ghost use Rattle.comp_format.specs.declared.types.Canon.TheVariants.{ResourceDrop};
ghost use Rattle.comp_scope.specs.Canons.{with_canon};
ghost use Rattle.comp_scope.specs.Spaces.{Spaces};
ghost use Rattle.comp_space.specs.Faults.{Finds};
ghost use Rattle.comp_space.specs.SpaceViews.{IsSpace, ShowsSpaces};
ghost use Rattle.comp_table.specs.Trees.{Extends};

use comp_format::Canon;
use comp_instance::add_canon;
use comp_space::{ScopeError, Space};
use comp_table::TypeTable;
use std::alloc::Global;

/// Adds the core function that drops handles of the resource of a type.
pub fn add_drop(
    alloc: Global,
    table: &mut TypeTable,
    space: &mut Space,
    ty: u32,
) -> Result<(), ScopeError>
    requires { IsSpace table.old space.old }
    ensures kept { Extends table.old table.new }
    ensures found { (s : Spaces) → ShowsSpaces table.old space.old s
        → Finds (λ u. ShowsSpaces table.new space.new) result (with_canon bounded s (ResourceDrop ty)) }
{
    add_canon(table, alloc, space, &Canon::ResourceDrop(ty))
}
