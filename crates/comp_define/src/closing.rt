//! What a scope imports and exports, with what it makes numbered by first mention.

ghost use Rattle.std.specs.Prelude.{◌≡◌, ◌<◌, ℕ, IfOk, List, length, true};
ghost use Rattle.comp_declare.specs.Scopes.{IsScope, ShowsEntries, ShowsScope};
ghost use Rattle.comp_define.specs.Sides.{IsOrderOf, ShowsSides, place_in, plain_side};
ghost use Rattle.comp_entity.specs.Entity as entity;
ghost use Rattle.comp_entity.specs.Names.{changing, entries_by};
ghost use Rattle.comp_entity.specs.Views as views;
ghost use Rattle.comp_mention.specs.Mentions.{picked_in};
ghost use Rattle.comp_scope.specs.Closing.{closed, first_mentions, mentions_in, numbered, renumbered};
ghost use Rattle.comp_scope.specs.Spaces as scope;
ghost use Rattle.comp_scope.specs.Spaces.{Known, entries_in};
ghost use Rattle.comp_table.specs.Plain.{plain_entries};
ghost use Rattle.comp_table.specs.Trees.{Extends, Stands, tree};

use crate::laws::what_stands_in_order_stays;
use crate::orders::is_in_order;
use comp_declare::{Entries, Scope};
use comp_entity::{ResourceNo, TypeNo};
use comp_mention::laws::trees_mention_as_entities;
use comp_mention::{What, first_mentioned};
use comp_rename::{Renaming, renamed};
use comp_space::nodes::node;
use comp_table::laws::changed_entities_have_changed_trees;
use comp_table::{Head, TypeTable};
use indexmap::IndexSet;
use std::alloc::Global;
use warg_values::Memory;

/// What a scope imports and exports, by number: the imports, each under its name, are the parts of one number, and so
/// are the exports.
#[derive(Clone, Copy, Debug, PartialEq, Eq)]
pub struct Sides {
    /// The number of the imports.
    pub imports: usize,
    /// The number of the exports.
    pub exports: usize,
}

/// What a scope makes, each where its exports and imports mention it first.
#[derive(Debug, Drop)]
pub struct FirstMentions {
    /// The numbers of its resources.
    pub resources: IndexSet<usize>,
    /// The numbers of its places that named types.
    pub places: IndexSet<usize>,
}

impl Renaming for FirstMentions {
    ghost resources = { λ order. renumbered order.resources.keys };

    ghost places = { λ order. renumbered order.places.keys };

    fn resource(&self, resource: ResourceNo) -> Option<ResourceNo> {
        if resource.out() == 0 {
            ResourceNo::new(0, place_in(&self.resources, resource.number()))
        } else {
            Some(resource)
        }
    }

    fn place(&self, place: TypeNo) -> Option<TypeNo> {
        if place.out() == 0 {
            TypeNo::new(0, place_in(&self.places, place.number()))
        } else {
            Some(place)
        }
    }
}

/// The place of a number in an order, behind which all others stand.
fn place_in(order: &IndexSet<usize>, number: usize) -> usize
    ensures { result ≡ place_in order.now.keys number }
{
    match order.get_index_of(&number) {
        Some(place) => place,
        None => order.len(),
    }
}

/// The imports and exports of a scope with what it makes numbered by first mention, exports before imports: how two
/// components call the resources of their own makes no difference (`Explainer.md`, "Type Checking"). Whatever the
/// answer, the numbers given so far keep their meaning. `Memory` also where more than a thousand types and entities lie
/// within each other.
pub fn closed(table: &mut TypeTable, alloc: Global, scope: &Scope) -> Result<Sides, Memory>
    requires { IsScope table.old scope.now }
    ensures extends { Extends table.old table.new }
    ensures found { (k : Known) → ShowsScope table.old scope.now k
        → IfOk result (λ sides. ShowsSides table.new sides (closed k)) }
{
    let sides = sides_of(table, alloc, scope)?;
    numbered(table, alloc, sides)
}

/// The number of what has this root, and imports or exports as its parts.
pub fn with_entries(
    table: &mut TypeTable,
    alloc: Global,
    head: Head,
    entries: &Entries,
) -> Result<usize, Memory>
    requires { (es : List (List ℕ × scope.Standing)) × ShowsEntries table.old entries.now es }
    ensures extends { Extends table.old table.new }
    ensures number { (es : List (List ℕ × scope.Standing)) → ShowsEntries table.old entries.now es
        → IfOk result (λ n. Stands table.new n (tree head (plain_entries (entries_in es)))) }
{
    let parts = Vec::from_slice(alloc, entries.numbers())?;
    node(table, alloc, head, parts)
}

/// The imports and exports of a scope, in its own names.
fn sides_of(table: &mut TypeTable, alloc: Global, scope: &Scope) -> Result<Sides, Memory>
    requires { IsScope table.old scope.now }
    ensures extends { Extends table.old table.new }
    ensures found { (k : Known) → ShowsScope table.old scope.now k
        → IfOk result (λ sides. ShowsSides table.new sides
        (record { imports = entries_in k.imports; exports = entries_in k.exports })) }
{
    let imports = with_entries(table, alloc, Head::Entries, &scope.imports)?;
    let exports = with_entries(table, alloc, Head::Entries, &scope.exports)?;
    Ok(Sides { imports, exports })
}

/// The numbers of what imports and exports mention of what their scope makes, each where it is mentioned first, exports
/// first.
fn mentioned(
    table: &TypeTable,
    alloc: Global,
    what: What,
    sides: Sides,
) -> Result<IndexSet<usize>, Memory>
    requires { (s : views.Sides) × ShowsSides table.now sides s }
    ensures { (s : views.Sides) → ShowsSides table.now sides s
        → IfOk result (λ found. found.keys ≡ first_mentions (picked_in what 0 (mentions_in s))) }
{
    trees_mention_as_entities();
    first_mentioned(table, alloc, what, 0, &[sides.exports, sides.imports])
}

/// What the scope of imports and exports makes, each where they mention it first, exports first.
fn first_mentions(table: &TypeTable, alloc: Global, sides: Sides) -> Result<FirstMentions, Memory>
    requires { (s : views.Sides) × ShowsSides table.now sides s }
    ensures { (s : views.Sides) → ShowsSides table.now sides s → IfOk result (λ order. IsOrderOf order s) }
{
    let resources = mentioned(table, alloc, What::Resources, sides)?;
    let places = mentioned(table, alloc, What::Places, sides)?;
    Ok(FirstMentions { resources, places })
}

/// The number of imports or exports, with what their scope makes numbered in this order.
fn renumbered(
    table: &mut TypeTable,
    alloc: Global,
    order: &FirstMentions,
    side: usize,
) -> Result<usize, Memory>
    requires { side < length table.old }
    ensures extends { Extends table.old table.new }
    ensures number { (es : entity.Entries) → Stands table.old side (plain_side es)
        → IfOk result (λ n. Stands table.new n (plain_side
        (entries_by (changing (renumbered order.now.resources.keys) (renumbered order.now.places.keys)) 0 es))) }
{
    changed_entities_have_changed_trees();
    renamed(table, alloc, order, side)
}

/// Imports and exports with what their scope makes numbered in the order in which they mention it first.
fn with_numbers(
    table: &mut TypeTable,
    alloc: Global,
    order: &FirstMentions,
    sides: Sides,
) -> Result<Sides, Memory>
    requires { (s : views.Sides) × ShowsSides table.old sides s }
    ensures extends { Extends table.old table.new }
    ensures found { (s : views.Sides) → IsOrderOf order.now s → ShowsSides table.old sides s
        → IfOk result (λ numbers. ShowsSides table.new numbers (numbered s)) }
{
    let imports = renumbered(table, alloc, order, sides.imports)?;
    let exports = renumbered(table, alloc, order, sides.exports)?;
    Ok(Sides { imports, exports })
}

/// Whether imports and exports with this order of first mention are numbered in it already.
fn is_settled(order: &FirstMentions) -> bool
    ensures { (s : views.Sides) → IsOrderOf order.now s → result ≡ true → numbered s ≡ s }
{
    what_stands_in_order_stays();
    if !is_in_order(&order.resources) {
        return false;
    }
    is_in_order(&order.places)
}

/// Imports and exports with what their scope makes numbered by first mention, exports before imports.
fn numbered(table: &mut TypeTable, alloc: Global, sides: Sides) -> Result<Sides, Memory>
    requires { (s : views.Sides) × ShowsSides table.old sides s }
    ensures extends { Extends table.old table.new }
    ensures found { (s : views.Sides) → ShowsSides table.old sides s
        → IfOk result (λ numbers. ShowsSides table.new numbers (numbered s)) }
{
    let order = first_mentions(&*table, alloc, sides)?;
    if is_settled(&order) {
        return Ok(sides);
    }
    with_numbers(table, alloc, &order, sides)
}
