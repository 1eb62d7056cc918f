//! Nodes of a table, by their heads and parts.

ghost use Rattle.std.specs.Prelude.{◌≡◌, ◌<◌, length, map, IfOk};
ghost use Rattle.comp_table.specs.declared.head.Head.TheVariants as Head;
ghost use Rattle.comp_table.specs.Plain.{around, around_two, leaf, under_label};
ghost use Rattle.comp_table.specs.Rows.{label_plain};
ghost use Rattle.comp_table.specs.Trees.{AllStand, Extends, IsBelow, Stands, node_tree, tree, tree_at, trees_of};

use comp_table::{Head, Numbers, TypeTable};
use std::alloc::Global;
use warg_values::{Memory, Text};

/// The number of what has this root and parts of these numbers.
pub fn node(
    table: &mut TypeTable,
    alloc: Global,
    head: Head,
    parts: Vec<usize>,
) -> Result<usize, Memory>
    requires { IsBelow (length table.old) parts.items }
    ensures extends { Extends table.old table.new }
    ensures number { IfOk result (λ n. Stands table.new n (node_tree table.old head parts.items)) }
{
    table.number_of(alloc, head, Numbers::from_vec(parts))
}

/// The number of what has this root and no parts.
pub fn leaf(table: &mut TypeTable, alloc: Global, head: Head) -> Result<usize, Memory>
    ensures extends { Extends table.old table.new }
    ensures number { IfOk result (λ n. Stands table.new n (leaf head)) }
{
    node(table, alloc, head, Vec::new(alloc))
}

/// The number of what has this root and one part.
pub fn around(
    table: &mut TypeTable,
    alloc: Global,
    head: Head,
    part: usize,
) -> Result<usize, Memory>
    requires { part < length table.old }
    ensures extends { Extends table.old table.new }
    ensures number { IfOk result (λ n. Stands table.new n (around head (tree_at table.old part))) }
{
    let parts = vec![in alloc; part]?;
    node(table, alloc, head, parts)
}

/// The number of what has this root and two parts.
pub fn around_two(
    table: &mut TypeTable,
    alloc: Global,
    head: Head,
    first: usize,
    second: usize,
) -> Result<usize, Memory>
    requires first { first < length table.old }
    requires second { second < length table.old }
    ensures extends { Extends table.old table.new }
    ensures number { IfOk result
        (λ n. Stands table.new n (around_two head (tree_at table.old first) (tree_at table.old second))) }
{
    let parts = vec![in alloc; first, second]?;
    node(table, alloc, head, parts)
}

/// The number of what stands below a label.
pub fn under(
    table: &mut TypeTable,
    alloc: Global,
    label: &Text,
    part: usize,
) -> Result<usize, Memory>
    requires { part < length table.old }
    ensures extends { Extends table.old table.new }
    ensures number { IfOk result (λ n. Stands table.new n (under_label label.now (tree_at table.old part))) }
{
    let label = label.try_clone(alloc)?;
    around(table, alloc, Head::Label(label), part)
}

/// The numbers of labels with nothing below them.
fn labels(table: &mut TypeTable, alloc: Global, labels: &[Text]) -> Result<Vec<usize>, Memory>
    ensures extends { Extends table.old table.new }
    ensures numbers { IfOk result (λ ns. AllStand table.new ns.items (map label_plain labels.now)) }
{
    let mut numbers = Vec::new(alloc);
    for label in labels {
        let label = label.try_clone(alloc)?;
        let number = leaf(table, alloc, Head::Label(label))?;
        numbers.push(number)?;
    }
    Ok(numbers)
}

/// The number of what has this root, and labels as its parts.
pub fn labelled(
    table: &mut TypeTable,
    alloc: Global,
    head: Head,
    names: &[Text],
) -> Result<usize, Memory>
    ensures extends { Extends table.old table.new }
    ensures number { IfOk result (λ n. Stands table.new n (tree head (trees_of (map label_plain names.now)))) }
{
    let parts = labels(table, alloc, names)?;
    node(table, alloc, head, parts)
}
