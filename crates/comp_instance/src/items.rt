//! Items under names, as the exports of an instance.

ghost use Rattle.std.specs.Prelude.{◌≡◌, ◌<◌, ◌&&◌, [], IfOk, List, length, map};
ghost use Rattle.comp_entity.specs.Entity.{EntityTree};
ghost use Rattle.comp_instance.specs.Items.{ShowsInstance, ShowsItems, differ, items_of, name_key};
ghost use Rattle.comp_scope.specs.Instances.{given, members};
ghost use Rattle.comp_scope.specs.Spaces.{Spaces, has_bit};
ghost use Rattle.comp_space.specs.Faults.{Finds};
ghost use Rattle.comp_space.specs.Heads.{has_name};
ghost use Rattle.comp_space.specs.SpaceViews.{IsSpace, ShowsSpaces};
ghost use Rattle.comp_table.specs.Plain.{plain_entity};
ghost use Rattle.comp_table.specs.Trees.{Extends, Stands};

use comp_declare::{entry, item_at};
use comp_format::Arg;
use comp_space::nodes::node;
use comp_space::{ScopeError, Space, Standing, both};
use comp_table::{Head, TypeTable};
use indexmap::IndexSet;
use std::alloc::Global;
use warg_values::{Memory, Text};

/// Whether letter case tells names apart.
#[derive(Clone, Copy)]
pub enum LetterCase {
    /// It does.
    Kept,
    /// It is set aside.
    SetAside,
}

/// Items under names.
#[derive(Drop)]
pub struct Items {
    /// The number of each in the table: an entity under its name, with its truth value.
    pub numbers: Vec<usize>,
    /// Whether all of them have the naming bit.
    pub named: bool,
}

/// That by which a name is told apart from others.
fn name_key(alloc: Global, case: LetterCase, name: &Text) -> Result<Text, Memory>
    ensures { IfOk result (λ key. key ≡ name_key case name.now) }
{
    match case {
        LetterCase::Kept => name.try_clone(alloc),
        LetterCase::SetAside => name.to_ascii_lowercase(alloc),
    }
}

/// Whether no two items have one name.
fn names_differ(alloc: Global, case: LetterCase, items: &[Arg]) -> Result<bool, Memory>
    ensures { IfOk result (λ b. b ≡ differ [] (map (λ a. name_key case a.name) items.now)) }
{
    let mut seen = IndexSet::new(alloc);
    for item in items {
        let key = name_key(alloc, case, &item.name)?;
        if seen.contains(&key) {
            return Ok(false);
        }
        seen.insert(key)?;
    }
    Ok(true)
}

/// Whether an entity of this root has the naming bit where its parts have it.
fn has_name(head: &Head) -> bool
    ensures { result ≡ has_name head.now }
{
    !matches!(
        head,
        Head::RecordOf(None) | Head::VariantOf(None) | Head::FlagsOf(None) | Head::EnumOf(None)
    )
}

/// Whether an entity has the naming bit.
fn has_bit(table: &TypeTable, standing: Standing) -> bool
    requires { standing.number < length table.now }
    ensures { (e : EntityTree) → Stands table.now standing.number (plain_entity e)
        → result ≡ has_bit (e, standing.named) }
{
    both(standing.named, has_name(table.head(standing.number)))
}

/// Items of a scope, each under its name, where names may stand twice. Whatever the answer, the numbers given so far
/// keep their meaning.
fn items_of(
    table: &mut TypeTable,
    alloc: Global,
    space: &Space,
    args: &[Arg],
) -> Result<Items, ScopeError>
    requires { IsSpace table.old space.now }
    ensures extends { Extends table.old table.new }
    ensures found { (s : Spaces) → ShowsSpaces table.old space.now s
        → Finds (ShowsItems table.new) result (items_of s args.now) }
{
    let mut numbers = Vec::new(alloc);
    let mut named = true;
    for arg in args {
        let item = item_at(space, arg.sort, arg.index)?;
        named = both(named, has_bit(table, item));
        let number = entry(table, alloc, &arg.name, item)?;
        numbers.push(number)?;
    }
    Ok(Items { numbers, named })
}

/// An instance that exports items of a scope under these names, and whether all of them have the naming bit. Whatever
/// the answer, the numbers given so far keep their meaning.
fn instance_of_items(
    table: &mut TypeTable,
    alloc: Global,
    space: &Space,
    args: &[Arg],
) -> Result<Standing, ScopeError>
    requires { IsSpace table.old space.now }
    ensures extends { Extends table.old table.new }
    ensures found { (s : Spaces) → ShowsSpaces table.old space.now s
        → Finds (ShowsInstance table.new) result (items_of s args.now) }
{
    let Items { numbers, named } = items_of(table, alloc, space, args)?;
    let number = node(table, alloc, Head::Instance, numbers)?;
    Ok(Standing { number, named })
}

/// The arguments of an instance of a component, as the exports of an instance. No name stands twice. Whatever the
/// answer, the numbers given so far keep their meaning.
pub fn arguments(
    table: &mut TypeTable,
    alloc: Global,
    space: &Space,
    args: &[Arg],
) -> Result<Standing, ScopeError>
    requires { IsSpace table.old space.now }
    ensures extends { Extends table.old table.new }
    ensures found { (s : Spaces) → ShowsSpaces table.old space.now s
        → Finds (ShowsInstance table.new) result (given s args.now) }
{
    if !names_differ(alloc, LetterCase::Kept, args)? {
        return Err(ScopeError::Index);
    }
    instance_of_items(table, alloc, space, args)
}

/// An instance that is made of items, and whether all of them have the naming bit. No name stands twice, letter case
/// set aside. Whatever the answer, the numbers given so far keep their meaning.
pub fn members(
    table: &mut TypeTable,
    alloc: Global,
    space: &Space,
    items: &[Arg],
) -> Result<Standing, ScopeError>
    requires { IsSpace table.old space.now }
    ensures extends { Extends table.old table.new }
    ensures found { (s : Spaces) → ShowsSpaces table.old space.now s
        → Finds (ShowsInstance table.new) result (members s [] items.now) }
{
    if !names_differ(alloc, LetterCase::SetAside, items)? {
        return Err(ScopeError::Index);
    }
    instance_of_items(table, alloc, space, items)
}
