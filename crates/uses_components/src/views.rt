//! Callers of `comp_view`.

ghost use Rattle.std.specs.Prelude.{◌≡◌, IfOk};
ghost use Rattle.comp_entity.specs.Views.{entity_tree};

use comp_entity::Entity;
use comp_table::TypeTable;
use comp_view::entity_at;
use comp_view::laws::entities_in_memory_lie_there;
use std::alloc::Global;
use warg_values::Memory;

/// An entity, as it comes out of a table that it was put into.
pub fn put_in_and_taken_out(
    alloc: Global,
    table: &mut TypeTable,
    entity: &Entity,
) -> Result<Entity, Memory>
    ensures { IfOk result (λ again. entity_tree again ≡ entity_tree entity.now) }
{
    entities_in_memory_lie_there();
    let number = table.intern(alloc, entity)?;
    let again = entity_at(table, alloc, number)?;
    Ok(again)
}
