//! Canonical definitions.

ghost use Rattle.std.specs.Prelude.{◌≡◌, ◌<◌, List, OnErr, OnOk, length};
ghost use Rattle.warg_values.specs.Answers.{Gives};
ghost use Rattle.comp_entity.specs.Bounds.{bounded};
ghost use Rattle.comp_entity.specs.Entity.{EntityTree};
ghost use Rattle.comp_format.specs.declared.types.Canon.TheVariants as Canon;
ghost use Rattle.comp_scope.specs.Canons.{with_canon, with_one_core_func, with_option, with_options};
ghost use Rattle.comp_scope.specs.Spaces.{Spaces};
ghost use Rattle.comp_space.specs.Faults.{Finds, fault_of};
ghost use Rattle.comp_space.specs.Heads.{is_func_type};
ghost use Rattle.comp_space.specs.SpaceViews.{IsSpace, ShowsSpaces};
ghost use Rattle.comp_space.specs.Standings.{Shows};
ghost use Rattle.comp_instance.specs.Lifted.{lifted_at, lifted_of, lifting, lowered_at, with_built_in};
ghost use Rattle.comp_table.specs.Plain.{plain_entity};
ghost use Rattle.comp_table.specs.Trees.{Extends, PlainTree, Stands};

use crate::core_instances::{check_below, one_more};
use comp_format::{Canon, CanonOption};
use comp_space::nodes::around;
use comp_space::{ScopeError, Space, Standing, resource_of, standing_at};
use comp_table::{Head, TypeTable};
use std::alloc::Global;
use warg_values::Memory;

/// Refuses an option with an index that nothing has.
fn check_option(space: &Space, option: CanonOption) -> Result<(), ScopeError>
    ensures { (table : List PlainTree) (s : Spaces) → ShowsSpaces table space.now s
        → Gives fault_of (λ u. s) result (with_option s option) }
{
    match option {
        CanonOption::Encoding(_) => Ok(()),
        CanonOption::Memory(index) => check_below(space.core.memories, index),
        CanonOption::Realloc(index) => check_below(space.core.funcs, index),
        CanonOption::PostReturn(index) => check_below(space.core.funcs, index),
    }
}

/// Refuses options of which one has an index that nothing has.
fn check_options(space: &Space, options: &[CanonOption]) -> Result<(), ScopeError>
    ensures { (table : List PlainTree) (s : Spaces) → ShowsSpaces table space.now s
        → Gives fault_of (λ u. s) result (with_options s options.now) }
{
    for option in options {
        check_option(space, *option)?;
    }
    Ok(())
}

/// Whether a type of functions has this root.
fn is_func_type(head: &Head) -> bool
    ensures { result ≡ is_func_type head.now }
{
    matches!(head, Head::FuncType)
}

/// A function of the type that an index stands for. It has the naming bit where the type has it. Whatever the answer,
/// the numbers given so far keep their meaning.
fn lifted(table: &mut TypeTable, alloc: Global, ty: Standing) -> Result<Standing, ScopeError>
    requires { ty.number < length table.old }
    ensures extends { Extends table.old table.new }
    ensures found { (e : EntityTree) → Stands table.old ty.number (plain_entity e)
        → Finds (Shows plain_entity table.new) result (lifted_of (e, ty.named)) }
{
    if !is_func_type(table.head(ty.number)) {
        return Err(ScopeError::Index);
    }
    let number = around(table, alloc, Head::Func, ty.number)?;
    Ok(Standing {
        number,
        named: ty.named,
    })
}

/// Refuses a core function that is not there, and options of which one has an index that nothing has.
fn check_lifted(space: &Space, func: u32, options: &[CanonOption]) -> Result<(), ScopeError>
    ensures { (table : List PlainTree) (s : Spaces) → ShowsSpaces table space.now s
        → Gives fault_of (λ u. s) result (lifting s func options.now) }
{
    check_below(space.core.funcs, func)?;
    check_options(space, options)
}

/// A function that is lifted: of the type of an index, from the core function of an index. Whatever the answer, the
/// numbers given so far keep their meaning.
fn lifted_at(
    table: &mut TypeTable,
    alloc: Global,
    space: &Space,
    func: u32,
    options: &[CanonOption],
    ty: u32,
) -> Result<Standing, ScopeError>
    requires { IsSpace table.old space.now }
    ensures extends { Extends table.old table.new }
    ensures found { (s : Spaces) → ShowsSpaces table.old space.now s
        → Finds (Shows plain_entity table.new) result (lifted_at s func options.now ty) }
{
    check_lifted(space, func, options)?;
    let ty = standing_at(&space.types, ty)?;
    lifted(table, alloc, ty)
}

/// Counts one core function more. A refusal changes nothing.
fn count_core_func(space: &mut Space) -> Result<(), Memory>
    ensures counted { (table : List PlainTree) (s : Spaces) → ShowsSpaces table space.old s
        → OnOk result (ShowsSpaces table space.new (with_one_core_func s)) }
    ensures unchanged { (table : List PlainTree) (s : Spaces) → ShowsSpaces table space.old s
        → OnErr result (ShowsSpaces table space.new s) }
{
    space.core.funcs = one_more(space.core.funcs)?;
    Ok(())
}

/// Adds a function that is lifted. Whatever the answer, the numbers given so far keep their meaning; a refusal adds
/// nothing to the scope.
fn add_lifted(
    table: &mut TypeTable,
    alloc: Global,
    space: &mut Space,
    func: u32,
    options: &[CanonOption],
    ty: u32,
) -> Result<(), ScopeError>
    requires { IsSpace table.old space.old }
    ensures extends { Extends table.old table.new }
    ensures found { (s : Spaces) → ShowsSpaces table.old space.old s
        → Finds (λ u. ShowsSpaces table.new space.new) result
        (with_canon bounded s (Canon.Lift func options.now ty)) }
    ensures unchanged { (s : Spaces) → ShowsSpaces table.old space.old s
        → OnErr result (ShowsSpaces table.new space.new s) }
{
    let func = lifted_at(table, alloc, &*space, func, options, ty)?;
    space.add(table, func)
}

/// Refuses a function that is not there, and options of which one has an index that nothing has.
fn check_lowered(space: &Space, func: u32, options: &[CanonOption]) -> Result<(), ScopeError>
    ensures { (table : List PlainTree) (s : Spaces) → ShowsSpaces table space.now s
        → Gives fault_of (λ u. s) result (lowered_at s func options.now) }
{
    check_below(space.funcs.len(), func)?;
    check_options(space, options)
}

/// Counts a core function more that is made from the function of an index. A refusal changes nothing.
fn add_lowered(space: &mut Space, func: u32, options: &[CanonOption]) -> Result<(), ScopeError>
    ensures found { (table : List PlainTree) (s : Spaces) → ShowsSpaces table space.old s
        → Finds (λ u. ShowsSpaces table space.new) result (with_canon bounded s (Canon.Lower func options.now)) }
    ensures unchanged { (table : List PlainTree) (s : Spaces) → ShowsSpaces table space.old s
        → OnErr result (ShowsSpaces table space.new s) }
{
    check_lowered(&*space, func, options)?;
    count_core_func(space)?;
    Ok(())
}

/// Counts a core function more that works on the resource of an index. A refusal changes nothing.
fn add_built_in(table: &TypeTable, space: &mut Space, ty: u32) -> Result<(), ScopeError>
    requires { IsSpace table.now space.old }
    ensures found { (s : Spaces) → ShowsSpaces table.now space.old s
        → Finds (λ u. ShowsSpaces table.now space.new) result (with_built_in s ty) }
    ensures unchanged { (s : Spaces) → ShowsSpaces table.now space.old s
        → OnErr result (ShowsSpaces table.now space.new s) }
{
    resource_of(table, &space.types, ty)?;
    count_core_func(space)?;
    Ok(())
}

/// Adds a canonical definition (`Explainer.md`, "Canonical Definitions"): a function that is lifted, or a core
/// function. Of what is lifted and lowered no more is asked than that its indices are there, and that a function is
/// lifted to a type of functions. Whatever the answer, the numbers given so far keep their meaning; a refusal adds
/// nothing to the scope.
pub fn add_canon(
    table: &mut TypeTable,
    alloc: Global,
    space: &mut Space,
    canon: &Canon,
) -> Result<(), ScopeError>
    requires { IsSpace table.old space.old }
    ensures extends { Extends table.old table.new }
    ensures found { (s : Spaces) → ShowsSpaces table.old space.old s
        → Finds (λ u. ShowsSpaces table.new space.new) result (with_canon bounded s canon.now) }
    ensures unchanged { (s : Spaces) → ShowsSpaces table.old space.old s
        → OnErr result (ShowsSpaces table.new space.new s) }
{
    match canon {
        Canon::Lift { func, options, ty } => {
            add_lifted(table, alloc, space, *func, options.as_slice(), *ty)
        }
        Canon::Lower { func, options } => add_lowered(space, *func, options.as_slice()),
        Canon::ResourceNew(ty) => add_built_in(table, space, *ty),
        Canon::ResourceDrop(ty) => add_built_in(table, space, *ty),
        Canon::ResourceRep(ty) => add_built_in(table, space, *ty),
    }
}
