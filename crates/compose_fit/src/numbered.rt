//! What components import and export, by number.

ghost use Rattle.std.specs.Prelude.{◌<◌, true, length, map, IfOk, OnOk};
ghost use Rattle.comp_entity.specs.Views.{entity_tree, entries_of, named_entities, shape_tree};
ghost use Rattle.comp_table.specs.declared.head.Head.TheVariants as Head;
ghost use Rattle.comp_table.specs.Plain.{around, plain_entity};
ghost use Rattle.comp_table.specs.Rows.{entry_plain};
ghost use Rattle.comp_table.specs.Shown.{AreShown, IsShown};
ghost use Rattle.comp_table.specs.Trees.{AllStand, Extends, Stands, tree_at};
ghost use Rattle.compose_fit.specs.Seen.{IsNumbered, instance_of};

use comp_entity::{Entity, Shape};
use comp_table::{Head, Numbers, TypeTable};
use std::alloc::Global;
use warg_values::{Memory, Text};

/// What a component imports and exports, by number in a table: the number of an instance of all that it imports, and
/// that of one of all that it exports.
#[derive(Clone, Copy, Debug, PartialEq, Eq)]
pub struct ShapeNumbers {
    /// The number of the instance of what it imports.
    pub imports: usize,
    /// The number of the instance of what it exports.
    pub exports: usize,
}

/// The number of what stands under a name.
fn named_number(
    table: &mut TypeTable,
    alloc: Global,
    name: &Text,
    part: usize,
) -> Result<usize, Memory>
    requires { part < length table.old }
    ensures kept { Extends table.old table.new }
    ensures number { IfOk result
        (λ n. Stands table.new n (around (Head.Entry true name.now) (tree_at table.old part))) }
{
    let head = Head::Entry(true, name.try_clone(alloc)?);
    let parts = Numbers::from_vec(vec![in alloc; part]?);
    table.number_of(alloc, head, parts)
}

/// The numbers of imports or exports.
fn entry_numbers(
    table: &mut TypeTable,
    alloc: Global,
    entries: &[(Text, Entity)],
) -> Result<Vec<usize>, Memory>
    ensures kept { Extends table.old table.new }
    ensures numbers { IfOk result (λ ns. AllStand table.new ns.items (map entry_plain entries.now)) }
    ensures shown { OnOk result (AreShown (entries_of (named_entities entries.now))) }
{
    let mut numbers = Vec::new(alloc);
    for entry in entries {
        let part = table.intern(alloc, &entry.1)?;
        let number = named_number(table, alloc, &entry.0, part.0)?;
        numbers.push(number)?;
    }
    Ok(numbers)
}

/// The number of an instance of imports or exports.
fn instance_number(
    table: &mut TypeTable,
    alloc: Global,
    entries: &[(Text, Entity)],
) -> Result<usize, Memory>
    ensures kept { Extends table.old table.new }
    ensures number { IfOk result (λ n. Stands table.new n (plain_entity (instance_of (named_entities entries.now)))) }
    ensures shown { OnOk result (AreShown (entries_of (named_entities entries.now))) }
{
    let parts = entry_numbers(table, alloc, entries)?;
    let number = table.number_of(alloc, Head::Instance, Numbers::from_vec(parts))?;
    Ok(number)
}

impl ShapeNumbers {
    /// The numbers of what a component of this shape imports and exports, which are put into the table. Whatever the
    /// answer, the numbers given so far keep their meaning.
    pub fn of(table: &mut TypeTable, alloc: Global, shape: &Shape) -> Result<Self, Memory>
        ensures kept { Extends table.old table.new }
        ensures numbers { IfOk result (λ n. IsNumbered table.new n (shape_tree shape.now)) }
    {
        let imports = instance_number(table, alloc, &shape.imports)?;
        let exports = instance_number(table, alloc, &shape.exports)?;
        Ok(ShapeNumbers { imports, exports })
    }
}
