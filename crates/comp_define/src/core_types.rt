//! Core types that scopes define.

ghost use Rattle.std.specs.Prelude.{◌≡◌, IfOk, List, OnErr, OnOk, map};
ghost use Rattle.comp_declare.specs.Outer.{AllShowSpaces, AreSpaces};
ghost use Rattle.comp_define.specs.ScopeTypes.{with_core_type_of};
ghost use Rattle.comp_entity.specs.Bounds.{bounded};
ghost use Rattle.comp_format.specs.Views.{core_tree};
ghost use Rattle.comp_scope.specs.Spaces.{KnownCoreType, Spaces, with_core_type};
ghost use Rattle.comp_space.specs.CoreStandings.{ShowsCore};
ghost use Rattle.comp_space.specs.Faults.{Finds};
ghost use Rattle.comp_space.specs.SpaceViews.{IsSpace, ShowsSpaces};
ghost use Rattle.comp_table.specs.Trees.{Extends, PlainTree};

use comp_format::CoreType;
use comp_space::{CoreStanding, ScopeError, Space, core_type_of};
use comp_table::TypeTable;
use std::alloc::Global;
use warg_values::Memory;

/// The core types of each of some scopes.
fn core_types_of<'a>(alloc: Global, scopes: &'a [&Space]) -> Result<Vec<&'a [CoreStanding]>, Memory>
    ensures { IfOk result (λ all. map (λ s. s.now) all.items ≡ map (λ s. s.now.core_types.items) scopes.now) }
{
    let mut all = Vec::new(alloc);
    for scope in scopes {
        all.push(scope.core_types.as_slice())?;
    }
    Ok(all)
}

/// Puts a core type behind the others. A refusal changes nothing.
fn add_known(space: &mut Space, known: CoreStanding) -> Result<(), Memory>
    ensures added { (table : List PlainTree) (s : Spaces) (t : KnownCoreType)
        → ShowsSpaces table space.old s → ShowsCore table known t
        → OnOk result (ShowsSpaces table space.new (with_core_type s t)) }
    ensures unchanged { (table : List PlainTree) (s : Spaces) → ShowsSpaces table space.old s
        → OnErr result (ShowsSpaces table space.new s) }
{
    space.core_types.push(known)?;
    Ok(())
}

/// Adds a core type (`Explainer.md`, "Core Type Definitions"): `around` are the scopes around, from within. Whatever
/// the answer, the numbers given so far keep their meaning; a refusal adds nothing to the scope.
pub fn add_core_type(
    table: &mut TypeTable,
    alloc: Global,
    around: &[&Space],
    space: &mut Space,
    ty: &CoreType,
) -> Result<(), ScopeError>
    requires own { IsSpace table.old space.old }
    requires around { AreSpaces table.old (map (λ s. s.now) around.now) }
    ensures extends { Extends table.old table.new }
    ensures found { (ss : List Spaces) (s : Spaces)
        → AllShowSpaces table.old (map (λ s. s.now) around.now) ss → ShowsSpaces table.old space.old s
        → Finds (λ u. ShowsSpaces table.new space.new) result (with_core_type_of bounded ss s (core_tree ty.now)) }
    ensures unchanged { (s : Spaces) → ShowsSpaces table.old space.old s
        → OnErr result (ShowsSpaces table.new space.new s) }
{
    let scopes = core_types_of(alloc, around)?;
    let known = core_type_of(table, alloc, &space.core_types, &scopes, ty)?;
    add_known(space, known)?;
    Ok(())
}
