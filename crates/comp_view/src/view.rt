//! What the numbers of a table stand for, as it lies in memory.

ghost use Rattle.std.specs.Prelude.{◌≡◌, IfOk};
ghost use Rattle.comp_entity.specs.declared.entity.Entity.{Entity};
ghost use Rattle.comp_entity.specs.Entity.{EntityTree};
ghost use Rattle.comp_entity.specs.Names.{entity_by};
ghost use Rattle.comp_entity.specs.Views.{entity_tree, func_tree};
ghost use Rattle.comp_table.specs.Changes.{tree_by};
ghost use Rattle.comp_table.specs.declared.head.Head.TheVariants as Head;
ghost use Rattle.comp_table.specs.Plain.{plain_entity, plain_func, plain_module};
ghost use Rattle.comp_table.specs.Rows.{entity_plain, type_plain, value_plain};
ghost use Rattle.comp_table.specs.Trees.{Stands, root, tree_at};
ghost use Rattle.comp_view.specs.Kinds.{IsNumberOf, all_named};
ghost use Rattle.comp_view.specs.Kinds as kind;

use crate::entities::{build_entity, build_type};
use crate::modules::build_module;
use crate::values::{build_func, build_value};
use comp_entity::{Entity, FuncShape, ModuleShape, TypeShape, ValueShape};
use comp_table::laws::{changed_entities_have_changed_trees, one_entity};
use comp_table::{TypeNumber, TypeTable};
use std::alloc::Global;
use warg_values::Memory;

/// How many levels deep what is taken out of a table may lie at most.
const LEVELS: usize = 1000;

/// The entity that a number stands for, with all naming bits: in memory no entry is without. `Memory` also where more
/// than a thousand types and entities lie within each other.
pub fn entity_at(table: &TypeTable, alloc: Global, number: TypeNumber) -> Result<Entity, Memory>
    requires { IsNumberOf kind.AnyEntity table.now number.0 }
    ensures tree { IfOk result (λ entity. entity_plain entity ≡ tree_by all_named 0 (tree_at table.now number.0)) }
    ensures entity { IfOk result (λ entity. (e : EntityTree)
        → Stands table.now number.0 (plain_entity e) → entity_tree entity ≡ entity_by all_named 0 e) }
    ensures again { IfOk result (λ entity. (x : Entity)
        → Stands table.now number.0 (entity_plain x) → entity_tree entity ≡ entity_tree x) }
{
    changed_entities_have_changed_trees();
    one_entity();
    let entity = build_entity(table, alloc, LEVELS, number.0)?;
    Ok(entity)
}

/// The type that a number stands for, as `entity_at` gives it for an entity.
pub fn type_at(table: &TypeTable, alloc: Global, number: usize) -> Result<TypeShape, Memory>
    requires { IsNumberOf kind.AnyType table.now number }
    ensures { IfOk result (λ ty. type_plain ty ≡ tree_by all_named 0 (tree_at table.now number)) }
{
    build_type(table, alloc, LEVELS, number)
}

/// The value type that a number stands for. `Memory` also where more than a thousand value types lie within each other.
pub fn value_at(table: &TypeTable, alloc: Global, number: usize) -> Result<ValueShape, Memory>
    requires { IsNumberOf kind.ValueType table.now number }
    ensures { IfOk result (λ value. Stands table.now number (value_plain value)) }
{
    build_value(table, alloc, LEVELS, number)
}

/// The type of functions that a number stands for. `Memory` also where more than a thousand value types lie within each
/// other.
pub fn func_at(table: &TypeTable, alloc: Global, number: usize) -> Result<FuncShape, Memory>
    requires { IsNumberOf kind.FuncType table.now number }
    ensures { IfOk result (λ func. Stands table.now number (plain_func (func_tree func))) }
{
    build_func(table, alloc, LEVELS, number)
}

/// The core module that a number stands for.
pub fn module_at(table: &TypeTable, alloc: Global, number: usize) -> Result<ModuleShape, Memory>
    requires number { IsNumberOf kind.AnyEntity table.now number }
    requires module { root (tree_at table.now number) ≡ Head.Module }
    ensures { IfOk result (λ shape. Stands table.now number (plain_module shape)) }
{
    build_module(table, alloc, number)
}
