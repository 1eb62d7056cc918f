//! What is looked up in instances by number.

ghost use Rattle.std.specs.Prelude.{◌≡◌, ◌<◌, ℕ, List, length, slice_get};
ghost use Rattle.comp_entity.specs.Entity.{Entries, EntityTree, IsInstance};
ghost use Rattle.comp_entity.specs.Names.{Change, entity_by};
ghost use Rattle.comp_fit.specs.Known.{is_instance};
ghost use Rattle.comp_table.specs.Plain.{plain_entity};
ghost use Rattle.comp_table.specs.Trees.{Stands, root, tree_at};
ghost use Rattle.compose_fit.specs.Seen.{IsEntryFound, instance_of};

use comp_fit::entry_at;
use comp_table::{Head, TypeTable};
use warg_values::Text;

/// Whether a number stands for an instance.
pub fn is_instance(table: &TypeTable, number: usize) -> bool
    requires { number < length table.now }
    ensures { result ≡ is_instance (root (tree_at table.now number)) }
{
    match table.head(number) {
        Head::Instance => true,
        _ => false,
    }
}

/// The name and the entity of the export of this place of an instance, where there is one.
pub fn entry_in(table: &TypeTable, instance: usize, place: usize) -> Option<(&Text, usize)>
    requires { (es : Entries) × Stands table.now instance (plain_entity (IsInstance es)) }
    ensures { (c : Change) (es : List (List ℕ × EntityTree))
        → Stands table.now instance (plain_entity (entity_by c 0 (instance_of es)))
        → IsEntryFound table.now c result (slice_get es place) }
{
    let parts = table.parts(instance);
    if place >= parts.len() {
        return None;
    }
    Some(entry_at(table, parts[place]))
}
