//! The parts of a component: its items, and nested components with their own parts.

ghost use Rattle.std.specs.Prelude.{◌≡◌, ◌+◌, ◌∷◌, [], IfErr, IfOk, List, length, map, true};
ghost use Rattle.comp_declare.specs.Outer.{AllShowSpaces, AreSpaces};
ghost use Rattle.comp_declare.specs.Scopes.{IsScope, ShowsScope};
ghost use Rattle.comp_define.specs.ScopeTypes.{ShowsEntity};
ghost use Rattle.comp_entity.specs.Bounds.{bounded};
ghost use Rattle.comp_format.specs.Items.{item_tree};
ghost use Rattle.comp_parts.specs.Parts.{FaultAt, FindsParts, component_within};
ghost use Rattle.comp_scope.specs.Shape.{Expands, HasParts, Inner, IsPart, Part, Parts, after_part, after_parts};
ghost use Rattle.comp_scope.specs.Spaces.{Known, Spaces, nothing_known};
ghost use Rattle.comp_space.specs.Faults.{Finds};
ghost use Rattle.comp_table.specs.Trees.{Extends};

use crate::error::PartError;
use crate::items::add_item;
use comp_declare::{Scope, scopes_within};
use comp_define::component;
use comp_format::Item;
use comp_instance::export;
use comp_reader::read_items;
use comp_scope::laws::parts_are_items;
use comp_space::{ScopeError, Space, Standing};
use comp_table::TypeTable;
use std::alloc::Global;
use warg_values::Memory;

/// How many scopes may be opened within the outermost.
const LEVELS: usize = 31;

/// Reads the items of a nested component again, which were read with those of the component around it.
fn items_again(alloc: Global, bytes: &[u8]) -> Result<Vec<Item<'_>>, Memory>
    requires { (parts : Parts) × HasParts bytes.now parts }
    ensures { IfOk result (λ items. (parts : Parts) → HasParts bytes.now parts
        → Expands (map item_tree items.items) parts) }
{
    parts_are_items();
    match read_items(alloc, bytes) {
        Ok(items) => Ok(items),
        Err(_) => Err(Memory),
    }
}

/// Adds an item: `around` are the scopes around, from within, and so many scopes more may be opened within this one.
/// Whatever the answer, the numbers given so far keep their meaning.
#[cycle(nesting)]
fn add_part(
    table: &mut TypeTable,
    alloc: Global,
    levels: usize,
    around: &[&Space],
    scope: &mut Scope,
    item: &Item<'_>,
) -> Result<(), ScopeError>
    requires own { IsScope table.old scope.old }
    requires around { AreSpaces table.old (map (λ s. s.now) around.now) }
    requires levels { levels + length around.now ≡ 31 }
    requires part { (p : Part) × IsPart (item_tree item.now) p }
    ensures extends { Extends table.old table.new }
    ensures found { (ss : List Spaces) (k : Known) (p : Part)
        → AllShowSpaces table.old (map (λ s. s.now) around.now) ss → ShowsScope table.old scope.old k
        → IsPart (item_tree item.now) p
        → Finds (λ u. ShowsScope table.new scope.new) result (after_part bounded ss k p) }
{
    match item {
        Item::Import { name, ty } => scope.import(table, alloc, name, *ty),
        Item::Export {
            name,
            sort,
            index,
            ty,
        } => export(table, alloc, scope, name, *sort, *index, *ty),
        Item::Component { bytes } => add_component(table, alloc, levels, around, scope, bytes),
        other => add_item(table, alloc, around, &mut scope.space, other),
    }
}

/// Adds a nested component of these bytes.
#[cycle(nesting)]
fn add_component(
    table: &mut TypeTable,
    alloc: Global,
    levels: usize,
    around: &[&Space],
    scope: &mut Scope,
    bytes: &[u8],
) -> Result<(), ScopeError>
    requires own { IsScope table.old scope.old }
    requires around { AreSpaces table.old (map (λ s. s.now) around.now) }
    requires levels { levels + length around.now ≡ 31 }
    requires parts { (parts : Parts) × HasParts bytes.now parts }
    ensures extends { Extends table.old table.new }
    ensures found { (ss : List Spaces) (k : Known) (parts : Parts)
        → AllShowSpaces table.old (map (λ s. s.now) around.now) ss → ShowsScope table.old scope.old k
        → HasParts bytes.now parts
        → Finds (λ u. ShowsScope table.new scope.new) result (after_part bounded ss k (Inner bytes.now parts)) }
{
    let number = component_within(table, alloc, levels, &scope.space, around, bytes)?;
    scope.space.add(
        table,
        Standing {
            number,
            named: true,
        },
    )
}

/// The number of the component of these bytes, which is nested in a scope within others.
#[cycle(nesting)]
fn component_within(
    table: &mut TypeTable,
    alloc: Global,
    levels: usize,
    own: &Space,
    around: &[&Space],
    bytes: &[u8],
) -> Result<usize, ScopeError>
    requires around { AreSpaces table.old (own.now ∷ map (λ s. s.now) around.now) }
    requires levels { levels + length around.now ≡ 31 }
    requires parts { (parts : Parts) × HasParts bytes.now parts }
    ensures extends { Extends table.old table.new }
    ensures found { (ss : List Spaces) (parts : Parts)
        → AllShowSpaces table.old (own.now ∷ map (λ s. s.now) around.now) ss → HasParts bytes.now parts
        → Finds (ShowsEntity table.new) result (component_within bounded ss parts) }
{
    let Some(levels) = levels.checked_sub(1) else {
        return Err(ScopeError::TooDeep);
    };
    let scopes = scopes_within(alloc, &*own, &*around)?;
    let scope = scope_within(table, alloc, levels, &scopes, bytes)?;
    let number = component(table, alloc, &scope)?;
    Ok(number)
}

/// The scope of the component of these bytes, which is nested in such scopes.
#[cycle(nesting)]
fn scope_within(
    table: &mut TypeTable,
    alloc: Global,
    levels: usize,
    around: &[&Space],
    bytes: &[u8],
) -> Result<Scope, ScopeError>
    requires around { AreSpaces table.old (map (λ s. s.now) around.now) }
    requires levels { levels + length around.now ≡ 31 }
    requires parts { (parts : Parts) × HasParts bytes.now parts }
    ensures extends { Extends table.old table.new }
    ensures found { (ss : List Spaces) (parts : Parts)
        → AllShowSpaces table.old (map (λ s. s.now) around.now) ss → HasParts bytes.now parts
        → Finds (ShowsScope table.new) result (after_parts bounded ss (nothing_known true) parts) }
{
    let items = items_again(alloc, bytes)?;
    scope_of(table, alloc, levels, around, &items)
}

/// The scope of a component of these items, which is nested in such scopes.
#[cycle(nesting)]
fn scope_of(
    table: &mut TypeTable,
    alloc: Global,
    levels: usize,
    around: &[&Space],
    items: &[Item<'_>],
) -> Result<Scope, ScopeError>
    requires around { AreSpaces table.old (map (λ s. s.now) around.now) }
    requires levels { levels + length around.now ≡ 31 }
    requires parts { (parts : Parts) × Expands (map item_tree items.now) parts }
    ensures extends { Extends table.old table.new }
    ensures found { (ss : List Spaces) (parts : Parts)
        → AllShowSpaces table.old (map (λ s. s.now) around.now) ss → Expands (map item_tree items.now) parts
        → Finds (ShowsScope table.new) result (after_parts bounded ss (nothing_known true) parts) }
{
    let mut scope = Scope::new(alloc, true);
    for item in items {
        add_part(table, alloc, levels, around, &mut scope, item)?;
    }
    Ok(scope)
}

/// The scope of a component of these items, which were read from its bytes. Whatever the answer, the numbers given so
/// far keep their meaning. An item has its fault exactly where it is the first that has one, up to want of memory.
/// `Memory` also where more than 200 scopes are open at one place within a nested component: each takes some of the
/// machine's stack where its items are read.
pub fn read_scope(
    table: &mut TypeTable,
    alloc: Global,
    items: &[Item<'_>],
) -> Result<Scope, PartError>
    requires { (parts : Parts) × Expands (map item_tree items.now) parts }
    ensures extends { Extends table.old table.new }
    ensures found { (parts : Parts) → Expands (map item_tree items.now) parts
        → FindsParts (ShowsScope table.new) result (after_parts bounded [] (nothing_known true) parts) }
    ensures first { IfErr result (λ e. (parts : Parts) → Expands (map item_tree items.now) parts
        → FaultAt (nothing_known true) e.item e.error parts) }
{
    let mut scope = Scope::new(alloc, true);
    for (number, item) in items.iter().enumerate() {
        match add_part(table, alloc, LEVELS, &[], &mut scope, item) {
            Ok(()) => {}
            Err(error) => {
                return Err(PartError {
                    item: number,
                    error,
                });
            }
        }
    }
    Ok(scope)
}
