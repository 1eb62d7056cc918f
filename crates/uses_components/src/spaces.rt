//! A caller of `comp_space`.

ghost use Rattle.std.specs.Prelude.{[], true};
ghost use Rattle.comp_entity.specs.Bounds.{bounded};
ghost use Rattle.comp_format.specs.Definitions.{Defined};
ghost use Rattle.comp_scope.specs.Spaces.{no_spaces};
ghost use Rattle.comp_scope.specs.Types.{with_type};
ghost use Rattle.comp_space.specs.Faults.{Finds};
ghost use Rattle.comp_space.specs.SpaceViews.{ShowsSpaces};
ghost use Rattle.comp_table.specs.Trees.{Extends};

use comp_format::DefinedType;
use comp_space::{ScopeError, Space, add_value_type};
use comp_table::TypeTable;
use std::alloc::Global;

/// The index spaces of a component that defines one type of values.
pub fn one_type(
    alloc: Global,
    table: &mut TypeTable,
    defined: &DefinedType,
) -> Result<Space, ScopeError>
    ensures kept { Extends table.old table.new }
    ensures found { Finds (ShowsSpaces table.new) result
        (with_type bounded [] (no_spaces true) (Defined defined.now)) }
{
    let mut space = Space::new(alloc, true);
    add_value_type(table, alloc, &mut space, defined)?;
    Ok(space)
}
