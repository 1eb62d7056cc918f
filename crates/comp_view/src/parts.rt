//! The parts of what a number stands for, by their kinds.

ghost use Rattle.std.specs.Prelude.{◌≡◌, ◌<◌, ◌∷◌, length, map, IfOk};
ghost use Rattle.comp_table.specs.declared.head.Head.TheVariants as Head;
ghost use Rattle.comp_table.specs.Trees.{below_root, more, none, root, tree_at, trees_of};
ghost use Rattle.comp_view.specs.Kinds.{AreNumbersOf, AreTreesOf, IsLabel, IsNumberOf, Kind, all, first, one, two};

use comp_table::{Head, TypeTable};
use warg_values::{Memory, Text};

/// How many levels more may lie within what lies where so many may.
pub fn inner(levels: usize) -> Result<usize, Memory>
    ensures { IfOk result (λ n. n < levels) }
{
    match levels.checked_sub(1) {
        Some(levels) => Ok(levels),
        None => Err(Memory),
    }
}

/// The number of the only part of what a number stands for.
pub fn only_part(table: &TypeTable, number: usize) -> usize
    requires there { number < length table.now }
    requires one { (k : Kind) × AreTreesOf (one k) (below_root (tree_at table.now number)) }
    ensures part { below_root (tree_at table.now number) ≡ more (tree_at table.now result) none }
    ensures kind { (k : Kind) → AreTreesOf (one k) (below_root (tree_at table.now number))
        → IsNumberOf k table.now result }
{
    let parts = table.parts(number);
    parts[0]
}

/// The numbers of the two parts of what a number stands for.
pub fn two_parts(table: &TypeTable, number: usize) -> (usize, usize)
    requires there { number < length table.now }
    requires two { (k : Kind) × (l : Kind) × AreTreesOf (two k l) (below_root (tree_at table.now number)) }
    ensures parts { below_root (tree_at table.now number)
        ≡ more (tree_at table.now result.0) (more (tree_at table.now result.1) none) }
    ensures kinds { (k l : Kind) → AreTreesOf (two k l) (below_root (tree_at table.now number))
        → IsNumberOf k table.now result.0 × IsNumberOf l table.now result.1 }
{
    let parts = table.parts(number);
    (parts[0], parts[1])
}

/// The numbers of the parts of what a number stands for.
pub fn all_parts(table: &TypeTable, number: usize) -> &[usize]
    requires { number < length table.now }
    ensures parts { trees_of (map (tree_at table.now) result.now) ≡ below_root (tree_at table.now number) }
    ensures kind { (k : Kind) → AreTreesOf (all k) (below_root (tree_at table.now number))
        → AreNumbersOf k table.now result.now }
{
    table.parts(number)
}

/// The number of the first part of what a number stands for, and those of the others.
pub fn first_part(table: &TypeTable, number: usize) -> (usize, &[usize])
    requires there { number < length table.now }
    requires first { (k : Kind) × (l : Kind) × AreTreesOf (first k l) (below_root (tree_at table.now number)) }
    ensures parts { trees_of (map (tree_at table.now) (result.0 ∷ result.1.now))
        ≡ below_root (tree_at table.now number) }
    ensures kinds { (k l : Kind) → AreTreesOf (first k l) (below_root (tree_at table.now number))
        → IsNumberOf k table.now result.0 × AreNumbersOf l table.now result.1.now }
{
    let parts = table.parts(number);
    (parts[0], &parts[1..])
}

/// The label at the root of what a number stands for.
pub fn label_at(table: &TypeTable, number: usize) -> &Text
    requires there { number < length table.now }
    requires label { IsLabel (root (tree_at table.now number)) }
    ensures { Head.Label result.now ≡ root (tree_at table.now number) }
{
    let Head::Label(label) = table.head(number) else {
        unreachable!()
    };
    label
}
