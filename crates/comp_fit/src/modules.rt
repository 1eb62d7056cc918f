//! Which core modules can be given where others are asked for.

ghost use Rattle.std.specs.Prelude.{◌≡◌, IfOk};
ghost use Rattle.comp_entity.specs.declared.module.ModuleShape.{ModuleShape};
ghost use Rattle.comp_entity.specs.Fits.{module_fits};
ghost use Rattle.comp_table.specs.Plain.{plain_module};
ghost use Rattle.comp_table.specs.Trees.{Stands};

use crate::pair::Pair;
use comp_entity::{Entity, fits};
use comp_table::TypeTable;
use comp_table::laws::one_entity;
use comp_view::module_at;
use std::alloc::Global;
use warg_values::Memory;

/// Whether the core module of a number can be given where that of another one is asked for.
pub fn modules_fit(table: &TypeTable, alloc: Global, pair: Pair) -> Result<bool, Memory>
    requires given { (m : ModuleShape) × Stands table.now pair.given (plain_module m) }
    requires asked { (m : ModuleShape) × Stands table.now pair.asked (plain_module m) }
    ensures { IfOk result (λ answer. (given asked : ModuleShape) → Stands table.now pair.given (plain_module given)
        → Stands table.now pair.asked (plain_module asked) → answer ≡ module_fits given asked) }
{
    one_entity();
    let given = Entity::Module(module_at(table, alloc, pair.given)?);
    let asked = Entity::Module(module_at(table, alloc, pair.asked)?);
    Ok(fits(&given, &asked))
}
