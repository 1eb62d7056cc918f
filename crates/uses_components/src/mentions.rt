//! A caller of `comp_mention`.

ghost use Rattle.std.specs.Prelude.{◌≡◌, length, IfOk};
ghost use Rattle.comp_mention.specs.Mentions.{mentions_at, picked_in};
ghost use Rattle.comp_mention.specs.declared.what.What.TheVariants.{Resources};
ghost use Rattle.comp_scope.specs.Closing.{first_mentions};
ghost use Rattle.comp_table.specs.Trees.{IsBelow};

use comp_mention::{What, first_mentioned};
use comp_table::TypeTable;
use indexmap::IndexSet;
use std::alloc::Global;
use warg_values::Memory;

/// The numbers of the resources that a component makes, in the order in which its exports and then its imports, which
/// have these numbers, mention them first.
pub fn made_resources(
    alloc: Global,
    table: &TypeTable,
    entities: &[usize],
) -> Result<IndexSet<usize>, Memory>
    requires { IsBelow (length table.now) entities.now }
    ensures { IfOk result (λ found.
        found.keys ≡ first_mentions (picked_in Resources 0 (mentions_at table.now entities.now))) }
{
    first_mentioned(table, alloc, What::Resources, 0, entities)
}
