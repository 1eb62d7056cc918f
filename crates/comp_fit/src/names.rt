//! What is looked up in entities by number.

ghost use Rattle.std.specs.Prelude.{◌≡◌, ◌<◌, ◌&&◌, ℕ, Bool, List, length, map, IfOk};
ghost use Rattle.comp_entity.specs.Entity.{Entries};
ghost use Rattle.comp_fit.specs.Known.{AreNames, is_instance};
ghost use Rattle.comp_table.specs.declared.head.Head.TheVariants as Head;
ghost use Rattle.comp_table.specs.Plain.{around, plain_entries};
ghost use Rattle.comp_table.specs.Trees.{PlainTree, IsBelow, Stands, root, tree_at, trees_of};

use crate::pair::Pair;
use comp_table::{Head, TypeTable};
use std::alloc::Global;
use std::collections::BTreeMap;
use warg_values::{Memory, Text};

/// Whether a head is that of an instance.
fn is_instance(head: &Head) -> bool
    ensures { result ≡ is_instance head.now }
{
    match head {
        Head::Instance => true,
        _ => false,
    }
}

/// Whether both numbers stand for instances.
pub fn are_instances(table: &TypeTable, pair: Pair) -> bool
    requires given { pair.given < length table.now }
    requires asked { pair.asked < length table.now }
    ensures { result
        ≡ (is_instance (root (tree_at table.now pair.given)) && is_instance (root (tree_at table.now pair.asked))) }
{
    is_instance(table.head(pair.given)) && is_instance(table.head(pair.asked))
}

/// The name and the entity of the import or the export that a number stands for.
pub fn entry_at(table: &TypeTable, number: usize) -> (&Text, usize)
    requires there { number < length table.now }
    requires entry { (name : List ℕ) × (mark : Bool) × (t : PlainTree)
        × (tree_at table.now number ≡ around (Head.Entry mark name) t) }
    ensures { (name : List ℕ) (mark : Bool) (t : PlainTree)
        → tree_at table.now number ≡ around (Head.Entry mark name) t
        → (result.0.now ≡ name) × Stands table.now result.1 t }
{
    let Head::Entry(_, name) = table.head(number) else {
        unreachable!()
    };
    (name, table.parts(number)[0])
}

/// The number of the first entity under each name.
pub fn names_of(
    table: &TypeTable,
    alloc: Global,
    parts: &[usize],
) -> Result<BTreeMap<Text, usize>, Memory>
    requires below { IsBelow (length table.now) parts.now }
    requires entries { (es : Entries) × (trees_of (map (tree_at table.now) parts.now) ≡ plain_entries es) }
    ensures { IfOk result (λ names. (es : Entries)
        → trees_of (map (tree_at table.now) parts.now) ≡ plain_entries es → AreNames table.now es names) }
{
    let mut names = BTreeMap::new(alloc);
    let mut left = parts.len();
    while left > 0 {
        left -= 1;
        let (name, entity) = entry_at(table, parts[left]);
        names.insert(name.try_clone(alloc)?, entity)?;
    }
    Ok(names)
}
