//! Exports of a component.

ghost use Rattle.std.specs.Prelude.{◌≡◌, ◌<◌, false, IfOk, List, OnErr, length};
ghost use Rattle.std.specs.Str.{str_to_ascii_lowercase};
ghost use Rattle.warg_values.specs.Answers.{Gives};
ghost use Rattle.comp_declare.specs.Scopes.{IsScope, ShowsScope};
ghost use Rattle.comp_entity.specs.Bounds.{bounded};
ghost use Rattle.comp_entity.specs.Entity.{EntityTree};
ghost use Rattle.comp_entity.specs.Fits.{stands};
ghost use Rattle.comp_fit.specs.Known.{IsEntity};
ghost use Rattle.comp_instance.specs.Exports.{ShowsDescribing, exported_item, if_typed, plain_item, with_exported};
ghost use Rattle.comp_scope.specs.Descriptions as definitions;
ghost use Rattle.comp_scope.specs.Exports.{exported, exported_as, fitting, plain_export};
ghost use Rattle.comp_scope.specs.Spaces.{Known, Spaces, is_taken};
ghost use Rattle.comp_space.specs.Descriptions.{ShowsDescribed};
ghost use Rattle.comp_space.specs.Faults.{Finds, fault_of};
ghost use Rattle.comp_space.specs.SpaceViews.{IsSpace, ShowsSpaces};
ghost use Rattle.comp_table.specs.Plain.{plain_entity};
ghost use Rattle.comp_table.specs.Trees.{Extends, PlainTree, Stands};

use crate::fitting::fitted;
use crate::instantiating::Describing;
use crate::own_modules::{Within, holds_own_module};
use comp_declare::{NewNames, Scope, add_made, described, described_type, entry, item_at};
use comp_fit::{Pair, standing_for};
use comp_format::{Sort, TypeRef};
use comp_space::{Counts, Described, ScopeError, Space, Standing, sort_at};
use comp_table::TypeTable;
use std::alloc::Global;
use warg_values::{Memory, Text};

/// An export without a description of what is no type: it needs the naming bit.
fn plain_item(item: Standing) -> Result<Described, ScopeError>
    ensures { (table : List PlainTree) (e : EntityTree) → Stands table item.number (plain_entity e)
        → Finds (ShowsDescribed table) result (plain_item (e, item.named)) }
{
    if !item.named {
        return Err(ScopeError::Index);
    }
    Ok(Described {
        standing: item,
        brings: Counts {
            resources: 0,
            places: 0,
        },
    })
}

/// An export without a description, by what it is. Whatever the answer, the numbers given so far keep their meaning.
fn plain_export(
    table: &mut TypeTable,
    alloc: Global,
    space: &Space,
    item: Standing,
) -> Result<Described, ScopeError>
    requires { item.number < length table.old }
    ensures extends { Extends table.old table.new }
    ensures found { (s : Spaces) (e : EntityTree) → ShowsSpaces table.old space.now s
        → Stands table.old item.number (plain_entity e)
        → Finds (ShowsDescribed table.new) result (plain_export s (e, item.named)) }
{
    match sort_at(table, item.number) {
        Sort::Ty => described_type(table, alloc, &NewNames::made(space), item),
        _ => plain_item(item),
    }
}

/// How what a description mentions is called where an item is exported as described.
fn describing(
    table: &TypeTable,
    alloc: Global,
    space: &Space,
    item: usize,
    described: usize,
) -> Result<Describing, Memory>
    requires item { IsEntity table.now item }
    requires described { IsEntity table.now described }
    ensures { IfOk result (λ r. (s : Spaces) (given asked : EntityTree) → ShowsSpaces table.now space.now s
        → Stands table.now item (plain_entity given) → Stands table.now described (plain_entity asked)
        → ShowsDescribing r s (stands given asked)) }
{
    let pair = Pair {
        given: item,
        asked: described,
    };
    let found = standing_for(table, alloc, pair)?;
    Ok(Describing {
        found,
        made: space.made,
    })
}

/// A described entity in the names of the item that is exported, which fits it. Whatever the answer, the numbers given
/// so far keep their meaning.
fn fitting(
    table: &mut TypeTable,
    alloc: Global,
    space: &Space,
    item: Standing,
    described: Described,
) -> Result<Described, ScopeError>
    requires item { IsEntity table.old item.number }
    requires described { IsEntity table.old described.standing.number }
    ensures extends { Extends table.old table.new }
    ensures found { (s : Spaces) (e : EntityTree) (d : definitions.Described) → ShowsSpaces table.old space.now s
        → Stands table.old item.number (plain_entity e) → ShowsDescribed table.old described d
        → Finds (ShowsDescribed table.new) result (fitting s (e, item.named) d) }
{
    let asked = described.standing.number;
    let renaming = describing(table, alloc, space, item.number, asked)?;
    let number = fitted(table, alloc, &renaming, item.number, asked)?;
    Ok(Described {
        standing: Standing {
            number,
            named: described.standing.named,
        },
        brings: described.brings,
    })
}

/// An item as an export, with its description where there is one. Whatever the answer, the numbers given so far keep
/// their meaning.
fn exported_as(
    table: &mut TypeTable,
    alloc: Global,
    space: &Space,
    item: Standing,
    ty: Option<TypeRef>,
) -> Result<Described, ScopeError>
    requires space { IsSpace table.old space.now }
    requires item { IsEntity table.old item.number }
    ensures extends { Extends table.old table.new }
    ensures found { (s : Spaces) (e : EntityTree) → ShowsSpaces table.old space.now s
        → Stands table.old item.number (plain_entity e)
        → Finds (ShowsDescribed table.new) result (exported_as s (e, item.named) ty) }
{
    match ty {
        None => plain_export(table, alloc, space, item),
        Some(ty) => {
            let described = described(table, alloc, space, &NewNames::made(space), ty)?;
            fitting(table, alloc, space, item, described)
        }
    }
}

/// Refuses a core module without a type, and an instance that has one.
fn check_typed(table: &TypeTable, alloc: Global, item: usize) -> Result<(), ScopeError>
    requires { item < length table.now }
    ensures { (e : EntityTree) → Stands table.now item (plain_entity e)
        → Gives fault_of (λ u. u) result (if_typed e tt) }
{
    if holds_own_module(table, alloc, Within::Instances, item)? {
        return Err(ScopeError::Index);
    }
    Ok(())
}

/// The item of a sort and an index as an export, with its description where there is one. Whatever the answer, the
/// numbers given so far keep their meaning.
fn exported_item(
    table: &mut TypeTable,
    alloc: Global,
    space: &Space,
    sort: Sort,
    index: u32,
    ty: Option<TypeRef>,
) -> Result<Described, ScopeError>
    requires { IsSpace table.old space.now }
    ensures extends { Extends table.old table.new }
    ensures found { (s : Spaces) → ShowsSpaces table.old space.now s
        → Finds (ShowsDescribed table.new) result (exported_item s sort index ty) }
{
    let item = item_at(space, sort, index)?;
    check_typed(table, alloc, item.number)?;
    exported_as(table, alloc, space, item, ty)
}

/// Adds what is exported to the exports and to the index spaces of a scope, under a name that is not taken and with the
/// same name in lower case. Whatever the answer, the numbers given so far keep their meaning; a refusal adds nothing to
/// the scope.
fn add_export(
    table: &mut TypeTable,
    alloc: Global,
    scope: &mut Scope,
    name: &Text,
    lower: Text,
    described: Described,
) -> Result<(), ScopeError>
    requires { described.standing.number < length table.old }
    ensures extends { Extends table.old table.new }
    ensures found { (k : Known) (d : definitions.Described) → ShowsScope table.old scope.old k
        → ShowsDescribed table.old described d → is_taken name.now k.exports ≡ false
        → lower ≡ str_to_ascii_lowercase name.now
        → Finds (λ u. ShowsScope table.new scope.new) result (with_exported k name.now d) }
    ensures unchanged { (k : Known) (d : definitions.Described) → ShowsScope table.old scope.old k
        → ShowsDescribed table.old described d → is_taken name.now k.exports ≡ false
        → lower ≡ str_to_ascii_lowercase name.now
        → OnErr result (ShowsScope table.new scope.new k) }
{
    let number = entry(table, alloc, name, described.standing)?;
    scope.exports.push(number, lower)?;
    match add_made(table, &mut scope.space, described) {
        Ok(()) => Ok(()),
        Err(error) => {
            scope.exports.pop();
            Err(error)
        }
    }
}

/// An export of a component (`Explainer.md`, "Import and Export Definitions"): of the item of this sort and index,
/// under a name of its own, with its description where there is one. Whatever the answer, the numbers given so far keep
/// their meaning; a refusal adds nothing to the scope.
pub fn export(
    table: &mut TypeTable,
    alloc: Global,
    scope: &mut Scope,
    name: &Text,
    sort: Sort,
    index: u32,
    ty: Option<TypeRef>,
) -> Result<(), ScopeError>
    requires { IsScope table.old scope.old }
    ensures extends { Extends table.old table.new }
    ensures found { (k : Known) → ShowsScope table.old scope.old k
        → Finds (λ u. ShowsScope table.new scope.new) result
        (exported bounded k (record { name = name.now; sort = sort; index = index; ty = ty })) }
    ensures unchanged { (k : Known) → ShowsScope table.old scope.old k
        → OnErr result (ShowsScope table.new scope.new k) }
{
    let lower = name.to_ascii_lowercase(alloc)?;
    if scope.exports.is_taken(&lower) {
        return Err(ScopeError::Index);
    }
    let described = exported_item(table, alloc, &scope.space, sort, index, ty)?;
    add_export(table, alloc, scope, name, lower, described)
}
