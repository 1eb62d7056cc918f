//! Resource types that components define.

ghost use Rattle.std.specs.Prelude.{◌≡◌, IfOk, List, OnErr};
ghost use Rattle.comp_define.specs.ScopeTypes.{ShowsEntity, next_resource};
ghost use Rattle.comp_entity.specs.Bounds.{bounded};
ghost use Rattle.comp_format.specs.Definitions as tree;
ghost use Rattle.comp_scope.specs.Spaces.{Spaces, counts_sum};
ghost use Rattle.comp_scope.specs.Types.{destroyed, with_type};
ghost use Rattle.comp_space.specs.Faults.{Finds};
ghost use Rattle.comp_space.specs.SpaceViews.{IsSpace, ShowsSpaces, counts};
ghost use Rattle.comp_table.specs.Trees.{Extends, PlainTree};

use comp_entity::ResourceNo;
use comp_space::nodes::leaf;
use comp_space::{Counts, ScopeError, Space, Standing};
use comp_table::{Head, TypeTable};
use std::alloc::Global;
use warg_values::Memory;

/// Whether the core function that destroys a resource is there, where there is to be one.
fn check_destructor(space: &Space, destructor: Option<u32>) -> Result<(), ScopeError>
    ensures { (table : List PlainTree) (s : Spaces) → ShowsSpaces table space.now s
        → Finds (λ u. ShowsSpaces table space.now) result (destroyed s destructor) }
{
    let Some(func) = destructor else {
        return Ok(());
    };
    if func as usize >= space.core.funcs {
        return Err(ScopeError::Index);
    }
    Ok(())
}

/// The number of the resource that a scope makes next.
fn next_resource(table: &mut TypeTable, alloc: Global, space: &Space) -> Result<usize, Memory>
    ensures extends { Extends table.old table.new }
    ensures number { (s : Spaces) → ShowsSpaces table.old space.now s
        → IfOk result (λ n. ShowsEntity table.new n (next_resource s)) }
{
    match ResourceNo::new(0, space.made.resources) {
        Some(resource) => leaf(table, alloc, Head::Resource(resource)),
        None => Err(Memory),
    }
}

/// Counts with one more resource.
fn one_more(made: Counts) -> Result<Counts, Memory>
    ensures { IfOk result (λ c. counts c ≡ counts_sum (counts made) (record { resources = 1; places = 0 })) }
{
    match made.resources.checked_add(1) {
        Some(resources) => Ok(Counts {
            resources,
            places: made.places,
        }),
        None => Err(Memory),
    }
}

/// Adds a resource that the scope makes (`Explainer.md`, "Type Definitions"), with the index of the core function that
/// destroys it, where there is one. Whatever the answer, the numbers given so far keep their meaning; a refusal adds
/// nothing to the scope.
pub fn add_resource(
    table: &mut TypeTable,
    alloc: Global,
    space: &mut Space,
    destructor: Option<u32>,
) -> Result<(), ScopeError>
    requires { IsSpace table.old space.old }
    ensures extends { Extends table.old table.new }
    ensures found { (around : List Spaces) (s : Spaces) → ShowsSpaces table.old space.old s
        → Finds (λ u. ShowsSpaces table.new space.new) result (with_type bounded around s (tree.Resource destructor)) }
    ensures unchanged { (s : Spaces) → ShowsSpaces table.old space.old s
        → OnErr result (ShowsSpaces table.new space.new s) }
{
    check_destructor(&*space, destructor)?;
    let number = next_resource(table, alloc, &*space)?;
    let made = one_more(space.made)?;
    let standing = Standing {
        number,
        named: false,
    };
    space.add(&*table, standing)?;
    space.made = made;
    Ok(())
}
