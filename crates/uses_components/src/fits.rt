//! Callers of `comp_fit`.

ghost use Rattle.std.specs.Prelude.{◌≡◌, IfOk};
ghost use Rattle.comp_entity.specs.Fits.{fits, fits_loosely};
ghost use Rattle.comp_entity.specs.Views.{entity_tree};

use comp_entity::Entity;
use comp_fit::{fits, fits_loosely, loosened};
use comp_table::{TypeNumber, TypeTable};
use std::alloc::Global;
use warg_values::Memory;

/// Whether an entity can be given where another one is asked for, by their numbers in a table.
pub fn can_be_given(
    alloc: Global,
    table: &mut TypeTable,
    given: &Entity,
    asked: &Entity,
) -> Result<bool, Memory>
    ensures { IfOk result (λ answer. answer ≡ fits (entity_tree given.now) (entity_tree asked.now)) }
{
    let given = table.intern(alloc, given)?;
    let asked = table.intern(alloc, asked)?;
    let answer = fits(table, alloc, given, asked)?;
    Ok(answer)
}

/// The same, all resources being taken as one.
pub fn can_be_given_loosely(
    alloc: Global,
    table: &mut TypeTable,
    given: &Entity,
    asked: &Entity,
) -> Result<bool, Memory>
    ensures { IfOk result (λ answer. answer ≡ fits_loosely (entity_tree given.now) (entity_tree asked.now)) }
{
    let given = table.intern(alloc, given)?;
    let asked = table.intern(alloc, asked)?;
    let loose_given = loosened(table, alloc, given.0)?;
    let loose_asked = loosened(table, alloc, asked.0)?;
    let answer = fits_loosely(
        table,
        alloc,
        TypeNumber(loose_given),
        TypeNumber(loose_asked),
    )?;
    Ok(answer)
}
