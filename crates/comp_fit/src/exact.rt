//! Which entities can be given where others are asked for, resources of the asked one being fitted by those of the
//! given one.

ghost use Rattle.std.specs.Prelude.{◌≡◌, IfOk};
ghost use Rattle.comp_entity.specs.Entity.{EntityTree};
ghost use Rattle.comp_entity.specs.Fits.{fits};
ghost use Rattle.comp_fit.specs.Known.{IsEntity, IsShownEntity};
ghost use Rattle.comp_table.specs.Plain.{plain_entity};
ghost use Rattle.comp_table.specs.Shown.{IsShown};
ghost use Rattle.comp_table.specs.Trees.{Extends, Stands};

use crate::called::CalledAsGiven;
use crate::fit::fits_as_named;
use crate::pair::Pair;
use crate::standing::standing_for;
use comp_rename::renamed;
use comp_table::laws::changed_entities_have_changed_trees;
use comp_table::{TypeNumber, TypeTable};
use std::alloc::Global;
use warg_values::Memory;

/// Whether the entity of one number can be given where that of another one is asked for (`Explainer.md`, "Type
/// Checking"). A resource that the asked one is, or itself exports as a type, is fitted by any resource, which then
/// stands for it. No core module of a component's own, whose type is not known, stands in the asked one.
///
/// The asked entity in other names is added to the table. Whatever the answer, the numbers given so far keep their
/// meaning. `Memory` also where more than a thousand types and entities lie within each other.
pub fn fits(
    table: &mut TypeTable,
    alloc: Global,
    given: TypeNumber,
    asked: TypeNumber,
) -> Result<bool, Memory>
    requires given { IsEntity table.old given.0 }
    requires asked { IsShownEntity table.old asked.0 }
    ensures kept { Extends table.old table.new }
    ensures fits { IfOk result (λ answer. (x y : EntityTree) → Stands table.old given.0 (plain_entity x)
        → Stands table.old asked.0 (plain_entity y) → IsShown y → answer ≡ fits x y) }
{
    changed_entities_have_changed_trees();
    let pair = Pair {
        given: given.0,
        asked: asked.0,
    };
    let found = standing_for(table, alloc, pair)?;
    let called = renamed(table, alloc, &CalledAsGiven { found }, asked.0)?;
    let answer = fits_as_named(table, alloc, given, TypeNumber(called))?;
    Ok(answer)
}
