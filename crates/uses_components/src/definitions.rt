//! A caller of `comp_define`.

ghost use Rattle.std.specs.Prelude.{None, [], true};
ghost use Rattle.comp_entity.specs.Bounds.{bounded};
ghost use Rattle.comp_format.specs.Definitions.{Resource};
ghost use Rattle.comp_scope.specs.Spaces.{no_spaces};
ghost use Rattle.comp_scope.specs.Types.{with_type};
ghost use Rattle.comp_space.specs.Faults.{Finds};
ghost use Rattle.comp_space.specs.SpaceViews.{ShowsSpaces};
ghost use Rattle.comp_table.specs.Trees.{Extends};

use comp_define::add_type;
use comp_format::DefType;
use comp_space::{ScopeError, Space};
use comp_table::TypeTable;
use std::alloc::Global;

/// The index spaces of a component that makes one resource, which nothing destroys.
pub fn made_resource(alloc: Global, table: &mut TypeTable) -> Result<Space, ScopeError>
    ensures kept { Extends table.old table.new }
    ensures found { Finds (ShowsSpaces table.new) result (with_type bounded [] (no_spaces true) (Resource None)) }
{
    let mut space = Space::new(alloc, true);
    let resource = DefType::Resource { destructor: None };
    add_type(table, alloc, &[], &mut space, &resource)?;
    Ok(space)
}
