//! What fits an asked entity in other names.

ghost use Rattle.std.specs.Prelude.{◌≡◌, IfOk};
ghost use Rattle.comp_entity.specs.Entity.{EntityTree};
ghost use Rattle.comp_entity.specs.Fits.{fits_with, same_name};
ghost use Rattle.comp_entity.specs.Names.{changing};
ghost use Rattle.comp_fit.specs.Known.{IsEntity};
ghost use Rattle.comp_instance.specs.Renamed.{fitted};
ghost use Rattle.comp_space.specs.Faults.{Finds};
ghost use Rattle.comp_table.specs.Plain.{plain_entity};
ghost use Rattle.comp_table.specs.Trees.{Extends, Stands};

use crate::own_modules::{Within, holds_own_module};
use comp_fit::fits_as_named;
use comp_rename::{Renaming, renamed};
use comp_space::ScopeError;
use comp_table::laws::changed_entities_have_changed_trees;
use comp_table::{TypeNumber, TypeTable};
use std::alloc::Global;
use warg_values::Memory;

/// Whether the entity of one number can be given where that of another one is asked for, each resource being compared
/// by its name (`Explainer.md`, "Type Checking"). Nothing fits what has a core module of a component's own in it.
fn fits(table: &TypeTable, alloc: Global, given: usize, asked: usize) -> Result<bool, Memory>
    requires given { IsEntity table.now given }
    requires asked { IsEntity table.now asked }
    ensures { IfOk result (λ b. (x y : EntityTree) → Stands table.now given (plain_entity x)
        → Stands table.now asked (plain_entity y) → b ≡ fits_with same_name x y) }
{
    if holds_own_module(table, alloc, Within::Everything, asked)? {
        return Ok(false);
    }
    let answer = fits_as_named(table, alloc, TypeNumber(given), TypeNumber(asked))?;
    Ok(answer)
}

/// The number of an asked entity in other names, which a given one fits. Whatever the answer, the numbers given so far
/// keep their meaning.
pub fn fitted<R: Renaming>(
    table: &mut TypeTable,
    alloc: Global,
    renaming: &R,
    given: usize,
    asked: usize,
) -> Result<usize, ScopeError>
    requires given { IsEntity table.old given }
    requires asked { IsEntity table.old asked }
    ensures extends { Extends table.old table.new }
    ensures found { (x y : EntityTree) → Stands table.old given (plain_entity x)
        → Stands table.old asked (plain_entity y)
        → Finds (λ n e. Stands table.new n (plain_entity e)) result
        (fitted (changing (R.resources renaming.now) (R.places renaming.now)) x y) }
{
    changed_entities_have_changed_trees();
    let called = renamed(table, alloc, renaming, asked)?;
    if !fits(table, alloc, given, called)? {
        return Err(ScopeError::DoesNotFit);
    }
    Ok(called)
}
