//! Which entities can be given where others are asked for.

ghost use Rattle.std.specs.Prelude.{◌≡◌, ◌<◌, ◌&&◌, ℕ, Bool, true, false, List, length, map, IfOk, OnOk};
ghost use Rattle.std.specs.Option.{option_map_or};
ghost use Rattle.comp_entity.specs.Entity.{Entries, EntityTree};
ghost use Rattle.comp_entity.specs.Fits.{all_fit, fits_loosely, fits_with, same_name, under};
ghost use Rattle.comp_fit.specs.Known.{Answers, AreAnswers, AreNames, IsEntity, IsShownEntity};
ghost use Rattle.comp_fit.specs.Known.{IsLooseEntity, IsLooseShownEntity};
ghost use Rattle.comp_fit.specs.Known.{is_instance, is_module};
ghost use Rattle.comp_fit.specs.Loose.{loose_tree};
ghost use Rattle.comp_table.specs.declared.head.Head.TheVariants as Head;
ghost use Rattle.comp_table.specs.Plain.{around, plain_entity, plain_entries};
ghost use Rattle.comp_table.specs.Shown.{AreShown, IsShown};
ghost use Rattle.comp_table.specs.Trees.{PlainTree, IsBelow, Stands, root, tree_at, trees_of};

use crate::modules::modules_fit;
use crate::names::{are_instances, entry_at, names_of};
use crate::pair::{Pair, inner};
use comp_entity::laws::a_change_keeps_fit;
use comp_table::laws::changed_entities_have_changed_trees;
use comp_table::{Head, TypeNumber, TypeTable};
use std::alloc::Global;
use std::collections::BTreeMap;
use warg_values::{Memory, Text};

/// How many levels deep instances may lie within each other at most.
const LEVELS: usize = 1000;

/// The answers that are known already.
type Known = BTreeMap<Pair, bool>;

/// Whether a head is that of a core module.
fn is_module(head: &Head) -> bool
    ensures { result ≡ is_module head.now }
{
    match head {
        Head::Module => true,
        _ => false,
    }
}

/// Whether both numbers stand for core modules.
fn are_modules(table: &TypeTable, pair: Pair) -> bool
    requires given { pair.given < length table.now }
    requires asked { pair.asked < length table.now }
    ensures { result
        ≡ (is_module (root (tree_at table.now pair.given)) && is_module (root (tree_at table.now pair.asked))) }
{
    is_module(table.head(pair.given)) && is_module(table.head(pair.asked))
}

/// Whether the entity of one number can be given where that of another one is asked for.
#[cycle(fit)]
fn entity_fits(
    table: &TypeTable,
    known: &mut Known,
    alloc: Global,
    levels: usize,
    pair: Pair,
) -> Result<bool, Memory>
    requires given { IsEntity table.now pair.given }
    requires asked { IsShownEntity table.now pair.asked }
    requires known { AreAnswers table.now known.old }
    ensures known { OnOk result (AreAnswers table.now known.new) }
    ensures fits { IfOk result (λ answer. Answers table.now pair answer) }
{
    if are_instances(table, pair) {
        return instance_fits(table, known, alloc, levels, pair);
    }
    if are_modules(table, pair) {
        let answer = modules_fit(table, alloc, pair)?;
        return Ok(answer);
    }
    Ok(table.equal(TypeNumber(pair.given), TypeNumber(pair.asked)))
}

/// Whether the instance of one number can be given where that of another one is asked for.
#[cycle(fit)]
fn instance_fits(
    table: &TypeTable,
    known: &mut Known,
    alloc: Global,
    levels: usize,
    pair: Pair,
) -> Result<bool, Memory>
    requires given { IsEntity table.now pair.given }
    requires asked { IsShownEntity table.now pair.asked }
    requires instances { (is_instance (root (tree_at table.now pair.given))
        && is_instance (root (tree_at table.now pair.asked))) ≡ true }
    requires known { AreAnswers table.now known.old }
    ensures known { OnOk result (AreAnswers table.now known.new) }
    ensures fits { IfOk result (λ answer. Answers table.now pair answer) }
{
    if let Some(answer) = known.get(&pair) {
        return Ok(*answer);
    }
    let levels = inner(levels)?;
    let names = names_of(table, alloc, table.parts(pair.given))?;
    let answer = exports_fit(table, known, alloc, levels, &names, table.parts(pair.asked))?;
    match known.insert(pair, answer) {
        Ok(_) => Ok(answer),
        Err(_) => Err(Memory),
    }
}

/// Whether each export that is asked for is there and fits.
#[cycle(fit)]
fn exports_fit(
    table: &TypeTable,
    known: &mut Known,
    alloc: Global,
    levels: usize,
    names: &BTreeMap<Text, usize>,
    parts: &[usize],
) -> Result<bool, Memory>
    requires below { IsBelow (length table.now) parts.now }
    requires names { (given : Entries) × AreNames table.now given names.now }
    requires asked { (asked : Entries)
        × (trees_of (map (tree_at table.now) parts.now) ≡ plain_entries asked) × AreShown asked }
    requires known { AreAnswers table.now known.old }
    ensures known { OnOk result (AreAnswers table.now known.new) }
    ensures fits { IfOk result (λ answer. (given asked : Entries) → AreNames table.now given names.now
        → trees_of (map (tree_at table.now) parts.now) ≡ plain_entries asked → AreShown asked
        → answer ≡ all_fit same_name given asked) }
{
    for part in parts {
        let fits = export_fits(table, known, alloc, levels, names, *part)?;
        if !fits {
            return Ok(false);
        }
    }
    Ok(true)
}

/// Whether an export that is asked for is there and fits.
#[cycle(fit)]
fn export_fits(
    table: &TypeTable,
    known: &mut Known,
    alloc: Global,
    levels: usize,
    names: &BTreeMap<Text, usize>,
    part: usize,
) -> Result<bool, Memory>
    requires there { part < length table.now }
    requires names { (given : Entries) × AreNames table.now given names.now }
    requires asked { (name : List ℕ) × (mark : Bool) × (asked : EntityTree)
        × (tree_at table.now part ≡ around (Head.Entry mark name) (plain_entity asked)) × IsShown asked }
    requires known { AreAnswers table.now known.old }
    ensures known { OnOk result (AreAnswers table.now known.new) }
    ensures fits { IfOk result (λ answer. (given : Entries) (name : List ℕ) (mark : Bool) (asked : EntityTree)
        → AreNames table.now given names.now
        → tree_at table.now part ≡ around (Head.Entry mark name) (plain_entity asked) → IsShown asked
        → answer ≡ option_map_or (λ e. fits_with same_name e.0 asked) (under name given) false) }
{
    let (name, asked) = entry_at(table, part);
    match names.get(name) {
        Some(found) => {
            let pair = Pair {
                given: *found,
                asked,
            };
            entity_fits(table, known, alloc, levels, pair)
        }
        None => Ok(false),
    }
}

/// Whether the entity of one number can be given where that of another one is asked for, each resource being compared
/// by its name (`Explainer.md`, "Type Checking"). No core module of a component's own, whose type is not known, stands
/// in the second. What is no instance and no core module is compared in no time that grows with its size, and a pair
/// of instances once. `Memory` also where more than a thousand instances lie within each other.
pub fn fits_as_named(
    table: &TypeTable,
    alloc: Global,
    given: TypeNumber,
    asked: TypeNumber,
) -> Result<bool, Memory>
    requires given { IsEntity table.now given.0 }
    requires asked { IsShownEntity table.now asked.0 }
    ensures { IfOk result (λ answer. (x y : EntityTree) → Stands table.now given.0 (plain_entity x)
        → Stands table.now asked.0 (plain_entity y) → IsShown y → answer ≡ fits_with same_name x y) }
{
    let mut known = BTreeMap::new(alloc);
    let pair = Pair {
        given: given.0,
        asked: asked.0,
    };
    let answer = entity_fits(table, &mut known, alloc, LEVELS, pair)?;
    Ok(answer)
}

/// Whether one entity can be given where another one is asked for, all resources being taken as one, by the numbers
/// that `loosened` gives for them. The cost is as for `fits_as_named`.
pub fn fits_loosely(
    table: &TypeTable,
    alloc: Global,
    given: TypeNumber,
    asked: TypeNumber,
) -> Result<bool, Memory>
    requires given { IsLooseEntity table.now given.0 }
    requires asked { IsLooseShownEntity table.now asked.0 }
    ensures { IfOk result (λ answer. (x y : EntityTree) → Stands table.now given.0 (loose_tree (plain_entity x))
        → Stands table.now asked.0 (loose_tree (plain_entity y)) → IsShown y → answer ≡ fits_loosely x y) }
{
    a_change_keeps_fit();
    changed_entities_have_changed_trees();
    let answer = fits_as_named(table, alloc, given, asked)?;
    Ok(answer)
}
