//! Instances that a component makes.

ghost use Rattle.std.specs.Prelude.{◌≡◌, ◌<◌, [], IfOk, OnErr, length};
ghost use Rattle.comp_entity.specs.Bounds.{bounded};
ghost use Rattle.comp_entity.specs.Entity.{Entries, EntityTree, IsComponent, IsInstance};
ghost use Rattle.comp_fit.specs.Known.{IsEntity};
ghost use Rattle.comp_format.specs.declared.types.InstanceItem.TheVariants as InstanceItem;
ghost use Rattle.comp_instance.specs.Instances.{AreHalves, AreSides, ShowsInstantiating, ShowsNewCounts, component_instance, instance_at, is_component, sides_in};
ghost use Rattle.comp_scope.specs.Instances.{with_instance};
ghost use Rattle.comp_scope.specs.Spaces.{Spaces};
ghost use Rattle.comp_space.specs.Descriptions.{ShowsDescribed};
ghost use Rattle.comp_space.specs.Faults.{Finds};
ghost use Rattle.comp_space.specs.SpaceViews.{IsSpace, ShowsSpaces};
ghost use Rattle.comp_table.specs.declared.head.Head.TheVariants as Head;
ghost use Rattle.comp_table.specs.Plain.{plain_entity};
ghost use Rattle.comp_table.specs.Trees.{Extends, Stands, below_root, tree, tree_at};

use crate::fitting::fitted;
use crate::instantiating::Instantiating;
use crate::items::{arguments, members};
use comp_declare::{add_made, counts_of, counts_with};
use comp_fit::{Pair, standing_for};
use comp_format::{Arg, InstanceItem};
use comp_mention::laws::trees_mention_as_entities;
use comp_rename::renamed;
use comp_space::nodes::node;
use comp_space::{Counts, Described, ScopeError, Space, Standing, standing_at};
use comp_table::laws::changed_entities_have_changed_trees;
use comp_table::{Head, TypeTable};
use std::alloc::Global;
use warg_values::Memory;

/// The numbers of what a component imports, and of what it exports.
#[derive(Clone, Copy)]
pub struct Sides {
    /// The number of the imports.
    pub imports: usize,
    /// The number of the exports.
    pub exports: usize,
}

/// How many names are new in a scope in which a component is instantiated.
#[derive(Clone, Copy)]
pub struct NewCounts {
    /// How many resources and places the component makes.
    pub makes: Counts,
    /// How many it makes with those that its imports bring.
    pub all: Counts,
}

/// Whether a component has this root.
fn is_component(head: &Head) -> bool
    ensures { result ≡ is_component head.now }
{
    matches!(head, Head::Component)
}

/// The lists of imports and exports of a component.
fn halves(table: &TypeTable, component: usize) -> Sides
    requires { (imports exports : Entries) × Stands table.now component (plain_entity (IsComponent imports exports)) }
    ensures { (imports exports : Entries)
        → Stands table.now component (plain_entity (IsComponent imports exports))
        → AreHalves table.now result (imports, exports) }
{
    let parts = table.parts(component);
    Sides {
        imports: parts[0],
        exports: parts[1],
    }
}

/// A copy of some numbers.
fn copied(alloc: Global, numbers: &[usize]) -> Result<Vec<usize>, Memory>
    ensures { IfOk result (λ copy. copy.items ≡ numbers.now) }
{
    let mut copy = Vec::new(alloc);
    copy.extend_from_slice(numbers)?;
    Ok(copy)
}

/// An instance that exports what a list of imports or exports has.
fn as_instance(table: &mut TypeTable, alloc: Global, entries: usize) -> Result<usize, Memory>
    requires { entries < length table.old }
    ensures extends { Extends table.old table.new }
    ensures number { IfOk result
        (λ n. Stands table.new n (tree Head.Instance (below_root (tree_at table.old entries)))) }
{
    let parts = copied(alloc, table.parts(entries))?;
    node(table, alloc, Head::Instance, parts)
}

/// What a component imports, and what it exports, each as the exports of an instance. Whatever the answer, the numbers
/// given so far keep their meaning.
fn sides_of(table: &mut TypeTable, alloc: Global, component: usize) -> Result<Sides, ScopeError>
    requires { IsEntity table.old component }
    ensures extends { Extends table.old table.new }
    ensures found { (e : EntityTree) → Stands table.old component (plain_entity e)
        → Finds (AreSides table.new) result (sides_in e) }
{
    if !is_component(table.head(component)) {
        return Err(ScopeError::Index);
    }
    let halves = halves(table, component);
    let imports = as_instance(table, alloc, halves.imports)?;
    let exports = as_instance(table, alloc, halves.exports)?;
    Ok(Sides { imports, exports })
}

/// How many names are new where a component is instantiated, by what it mentions.
fn new_counts(table: &TypeTable, alloc: Global, sides: Sides) -> Result<NewCounts, Memory>
    requires { (imports exports : Entries) × AreSides table.now sides (imports, exports) }
    ensures { IfOk result (λ c. (imports exports : Entries) → AreSides table.now sides (imports, exports)
        → ShowsNewCounts c imports exports) }
{
    trees_mention_as_entities();
    let makes = counts_of(table, alloc, 0, &[sides.imports, sides.exports])?;
    let brings = counts_of(table, alloc, 1, &[sides.imports, sides.exports])?;
    let all = counts_with(makes, brings)?;
    Ok(NewCounts { makes, all })
}

/// How what a component mentions is called in a scope in which it is instantiated with these arguments.
fn instantiating(
    table: &TypeTable,
    alloc: Global,
    space: &Space,
    makes: Counts,
    imports: usize,
    arguments: usize,
) -> Result<Instantiating, Memory>
    requires imports { IsEntity table.now imports }
    requires arguments { IsEntity table.now arguments }
    ensures { IfOk result (λ r. (s : Spaces) (given asked : Entries) → ShowsSpaces table.now space.now s
        → Stands table.now arguments (plain_entity (IsInstance given))
        → Stands table.now imports (plain_entity (IsInstance asked))
        → ShowsInstantiating r s makes given asked) }
{
    let pair = Pair {
        given: arguments,
        asked: imports,
    };
    let found = standing_for(table, alloc, pair)?;
    let beyond = counts_with(space.made, makes)?;
    Ok(Instantiating {
        found,
        made: space.made,
        beyond,
    })
}

/// The instance of a component with these arguments, and how many names are new in it. Whatever the answer, the numbers
/// given so far keep their meaning.
fn component_instance(
    table: &mut TypeTable,
    alloc: Global,
    space: &Space,
    sides: Sides,
    arguments: usize,
) -> Result<Described, ScopeError>
    requires space { IsSpace table.old space.now }
    requires sides { (imports exports : Entries) × AreSides table.old sides (imports, exports) }
    requires arguments { (given : Entries) × Stands table.old arguments (plain_entity (IsInstance given)) }
    ensures extends { Extends table.old table.new }
    ensures found { (s : Spaces) (imports exports given : Entries) → ShowsSpaces table.old space.now s
        → AreSides table.old sides (imports, exports)
        → Stands table.old arguments (plain_entity (IsInstance given))
        → Finds (ShowsDescribed table.new) result (component_instance s imports exports given) }
{
    changed_entities_have_changed_trees();
    let counts = new_counts(table, alloc, sides)?;
    let renaming = instantiating(table, alloc, space, counts.makes, sides.imports, arguments)?;
    fitted(table, alloc, &renaming, arguments, sides.imports)?;
    let number = renamed(table, alloc, &renaming, sides.exports)?;
    Ok(Described {
        standing: Standing {
            number,
            named: true,
        },
        brings: counts.all,
    })
}

/// The instance of the component of an index with these arguments, and how many names are new in it. Whatever the
/// answer, the numbers given so far keep their meaning.
fn instance_at(
    table: &mut TypeTable,
    alloc: Global,
    space: &Space,
    component: u32,
    args: &[Arg],
) -> Result<Described, ScopeError>
    requires { IsSpace table.old space.now }
    ensures extends { Extends table.old table.new }
    ensures found { (s : Spaces) → ShowsSpaces table.old space.now s
        → Finds (ShowsDescribed table.new) result (instance_at s component args.now) }
{
    let component = standing_at(&space.components, component)?;
    let arguments = arguments(table, alloc, space, args)?;
    let sides = sides_of(table, alloc, component.number)?;
    component_instance(table, alloc, space, sides, arguments.number)
}

/// Adds the instance of the component of an index with these arguments. Whatever the answer, the numbers given so far
/// keep their meaning; a refusal adds nothing to the scope.
fn add_component_instance(
    table: &mut TypeTable,
    alloc: Global,
    space: &mut Space,
    component: u32,
    args: &[Arg],
) -> Result<(), ScopeError>
    requires { IsSpace table.old space.old }
    ensures extends { Extends table.old table.new }
    ensures found { (s : Spaces) → ShowsSpaces table.old space.old s
        → Finds (λ u. ShowsSpaces table.new space.new) result
        (with_instance bounded s (InstanceItem.Instantiate component args.now)) }
    ensures unchanged { (s : Spaces) → ShowsSpaces table.old space.old s
        → OnErr result (ShowsSpaces table.new space.new s) }
{
    let described = instance_at(table, alloc, &*space, component, args)?;
    add_made(table, space, described)
}

/// Adds an instance that is made of items. Whatever the answer, the numbers given so far keep their meaning; a refusal
/// adds nothing to the scope.
fn add_members(
    table: &mut TypeTable,
    alloc: Global,
    space: &mut Space,
    items: &[Arg],
) -> Result<(), ScopeError>
    requires { IsSpace table.old space.old }
    ensures extends { Extends table.old table.new }
    ensures found { (s : Spaces) → ShowsSpaces table.old space.old s
        → Finds (λ u. ShowsSpaces table.new space.new) result
        (with_instance bounded s (InstanceItem.Exports items.now)) }
    ensures unchanged { (s : Spaces) → ShowsSpaces table.old space.old s
        → OnErr result (ShowsSpaces table.new space.new s) }
{
    let instance = members(table, alloc, &*space, items)?;
    space.add(table, instance)
}

/// Adds an instance (`Explainer.md`, "Instance Definitions"): of a component, whose imports the arguments of their
/// names fit, or of items. Whatever the answer, the numbers given so far keep their meaning; a refusal adds nothing to
/// the scope.
pub fn add_instance(
    table: &mut TypeTable,
    alloc: Global,
    space: &mut Space,
    item: &InstanceItem,
) -> Result<(), ScopeError>
    requires { IsSpace table.old space.old }
    ensures extends { Extends table.old table.new }
    ensures found { (s : Spaces) → ShowsSpaces table.old space.old s
        → Finds (λ u. ShowsSpaces table.new space.new) result (with_instance bounded s item.now) }
    ensures unchanged { (s : Spaces) → ShowsSpaces table.old space.old s
        → OnErr result (ShowsSpaces table.new space.new s) }
{
    match item {
        InstanceItem::Instantiate { component, args } => {
            add_component_instance(table, alloc, space, *component, args.as_slice())
        }
        InstanceItem::Exports(items) => add_members(table, alloc, space, items.as_slice()),
    }
}
