//! Types that are no scopes, put into the index spaces of a scope.

ghost use Rattle.std.specs.Prelude.{List, OnErr};
ghost use Rattle.comp_entity.specs.Bounds.{bounded};
ghost use Rattle.comp_format.specs.Definitions as tree;
ghost use Rattle.comp_scope.specs.Spaces.{Spaces};
ghost use Rattle.comp_scope.specs.Types.{with_type};
ghost use Rattle.comp_space.specs.Faults.{Finds};
ghost use Rattle.comp_space.specs.SpaceViews.{IsSpace, ShowsSpaces};
ghost use Rattle.comp_table.specs.Trees.{Extends};

use crate::error::ScopeError;
use crate::space::Space;
use crate::values::{func_of, value_of};
use comp_format::{DefinedType, FuncType};
use comp_table::TypeTable;
use std::alloc::Global;

/// Adds a type of values. Whatever the answer, the numbers given so far keep their meaning; a refusal adds nothing to
/// the scope.
pub fn add_value_type(
    table: &mut TypeTable,
    alloc: Global,
    space: &mut Space,
    defined: &DefinedType,
) -> Result<(), ScopeError>
    requires { IsSpace table.old space.old }
    ensures extends { Extends table.old table.new }
    ensures found { (around : List Spaces) (s : Spaces) → ShowsSpaces table.old space.old s
        → Finds (λ u. ShowsSpaces table.new space.new) result (with_type bounded around s (tree.Defined defined.now)) }
    ensures unchanged { (s : Spaces) → ShowsSpaces table.old space.old s
        → OnErr result (ShowsSpaces table.new space.new s) }
{
    let standing = value_of(table, alloc, &space.types, defined)?;
    space.add(table, standing)
}

/// Adds a type of functions. Whatever the answer, the numbers given so far keep their meaning; a refusal adds nothing
/// to the scope.
pub fn add_func_type(
    table: &mut TypeTable,
    alloc: Global,
    space: &mut Space,
    func: &FuncType,
) -> Result<(), ScopeError>
    requires { IsSpace table.old space.old }
    ensures extends { Extends table.old table.new }
    ensures found { (around : List Spaces) (s : Spaces) → ShowsSpaces table.old space.old s
        → Finds (λ u. ShowsSpaces table.new space.new) result (with_type bounded around s (tree.Func func.now)) }
    ensures unchanged { (s : Spaces) → ShowsSpaces table.old space.old s
        → OnErr result (ShowsSpaces table.new space.new s) }
{
    let standing = func_of(table, alloc, &space.types, func)?;
    space.add(table, standing)
}
