//! Types and entities by number: each stands once.

ghost use Rattle.std.specs.Prelude.{◌≡◌, ◌<◌, ◌↔◌, ◌+◌, ◌++◌, ◌∷◌, [], List, length, map, IfOk, IsTrue, None, OnOk, max, true};
ghost use Rattle.std.specs.BTreeMap.{get};
ghost use Rattle.comp_table.specs.declared.table.Node.{Node};
ghost use Rattle.comp_table.specs.Facts.{capped, head_depth, head_size, tree_depth, tree_size};
ghost use Rattle.comp_entity.specs.Entity.{EntityTree};
ghost use Rattle.comp_entity.specs.Fits.{equal};
ghost use Rattle.comp_entity.specs.Views.{entity_tree};
ghost use Rattle.comp_table.specs.Changes.{bare_tree};
ghost use Rattle.comp_table.specs.Plain.{plain_entity, plain_module};
ghost use Rattle.comp_table.specs.Rows.{entity_plain, type_plain, value_plain};
ghost use Rattle.comp_table.specs.Shown.{IsShown};
ghost use Rattle.comp_table.specs.Table.{AreBare, AreMeasured, IsBareOf, IsTable, key_cmp, node_key, trees, IsMeasured};
ghost use Rattle.comp_table.specs.Trees.{AllStand, Extends, IsBelow, IsOnce, Stands, below_root, node_tree, root, tree_at, trees_of};

use crate::head::{Head, bare_head, is_bare_head};
use crate::intern::{intern_module, intern_value};
use crate::intern_entity::{intern_entity, intern_type};
use crate::key::{Key, key_of};
use crate::numbers::Numbers;
use comp_entity::{Entity, ModuleShape, TypeShape, ValueShape};
use std::alloc::Global;
use std::collections::BTreeMap;
use std::marker::Model;
use warg_values::Memory;

/// What stands at the root, and the numbers of the parts, which stand in front of it.
#[derive(Drop)]
pub struct Node {
    /// What stands at the root.
    head: Head,
    /// The numbers of the parts.
    parts: Numbers,
    /// How many nodes the whole has, as far as a number goes.
    size: usize,
    /// How deep the deepest value type in it is, as far as a number goes.
    depth: usize,
    /// The number of the same without the places that named types and with all naming bits.
    bare: usize,
}

/// A sum, or the largest number where it is larger.
fn capped_sum(a: usize, b: usize) -> usize
    ensures { result ≡ capped (a + b) }
{
    match a.checked_add(b) {
        Some(sum) => sum,
        None => usize::MAX,
    }
}

/// How many nodes a head counts as.
fn head_size(head: &Head) -> usize
    ensures { result ≡ head_size head.now }
{
    match head {
        Head::Absent
        | Head::Label(_)
        | Head::Entries
        | Head::Entry(_, _)
        | Head::Func
        | Head::CoreValue(_) => 0,
        _ => 1,
    }
}

/// How many levels a head adds to the depth of a value type.
fn head_depth(head: &Head) -> usize
    ensures { result ≡ head_depth head.now }
{
    match head {
        Head::Primitive(_)
        | Head::RecordOf(_)
        | Head::VariantOf(_)
        | Head::FlagsOf(_)
        | Head::EnumOf(_)
        | Head::ListOf
        | Head::TupleOf
        | Head::OptionOf
        | Head::ResultOf
        | Head::Own(_)
        | Head::Borrow(_) => 1,
        _ => 0,
    }
}

/// The greater of two numbers.
fn greater(a: usize, b: usize) -> usize
    ensures { result ≡ max a b }
{
    if a < b { b } else { a }
}

/// The size of a head and parts of these numbers.
fn size_of(nodes: &[Node], head: &Head, parts: &[usize]) -> usize
    requires measured { AreMeasured nodes.now }
    requires below { IsBelow (length nodes.now) parts.now }
    ensures { result ≡ capped (tree_size (node_tree (trees nodes.now) head.now parts.now)) }
{
    let mut size = 0;
    for part in parts {
        size = capped_sum(size, nodes[*part].size);
    }
    capped_sum(head_size(head), size)
}

/// The depth of a head and parts of these numbers.
fn depth_of(nodes: &[Node], head: &Head, parts: &[usize]) -> usize
    requires measured { AreMeasured nodes.now }
    requires below { IsBelow (length nodes.now) parts.now }
    ensures { result ≡ capped (tree_depth (node_tree (trees nodes.now) head.now parts.now)) }
{
    let mut depth = 0;
    for part in parts {
        depth = greater(depth, nodes[*part].depth);
    }
    capped_sum(head_depth(head), depth)
}

/// Drops the last node.
fn drop_last(nodes: &mut Vec<Node>)
    ensures { (front : List Node) (last : Node) → nodes.old.items ≡ front ++ last ∷ []
        → nodes.new.items ≡ front }
{
    let _last = nodes.pop();
}

/// Adds a node that is not there. A refusal changes nothing.
fn add_node(
    nodes: &mut Vec<Node>,
    numbers: &mut BTreeMap<Key, usize>,
    node: Node,
    key: Key,
) -> Result<usize, Memory>
    requires table { IsTable nodes.old.items numbers.old }
    requires below { IsBelow (length nodes.old.items) node.parts }
    requires measured { IsMeasured node.size node.depth
        (node_tree (trees nodes.old.items) node.head node.parts) }
    requires bare { IsBareOf (trees nodes.old.items)
        (node_tree (trees nodes.old.items) node.head node.parts) node.bare }
    requires key { key ≡ node_key node.head node.parts }
    requires absent { get key_cmp numbers.old key ≡ None }
    ensures table { IsTable nodes.new.items numbers.new }
    ensures extends { Extends (trees nodes.old.items) (trees nodes.new.items) }
    ensures number { IfOk result
        (λ n. Stands (trees nodes.new.items) n (node_tree (trees nodes.old.items) node.head node.parts)) }
{
    let number = nodes.len();
    nodes.push(node)?;
    match numbers.insert(key, number) {
        Ok(_) => Ok(number),
        Err(_) => {
            drop_last(nodes);
            Err(Memory)
        }
    }
}

/// Adds the node of this head and of parts of these numbers, which is not there, with this number of its bare tree. A
/// refusal changes nothing.
fn add_measured(
    nodes: &mut Vec<Node>,
    numbers: &mut BTreeMap<Key, usize>,
    head: Head,
    parts: Numbers,
    bare: usize,
    key: Key,
) -> Result<usize, Memory>
    requires table { IsTable nodes.old.items numbers.old }
    requires below { IsBelow (length nodes.old.items) parts }
    requires bare { IsBareOf (trees nodes.old.items) (node_tree (trees nodes.old.items) head parts) bare }
    requires key { key ≡ node_key head parts }
    requires absent { get key_cmp numbers.old key ≡ None }
    ensures table { IsTable nodes.new.items numbers.new }
    ensures extends { Extends (trees nodes.old.items) (trees nodes.new.items) }
    ensures number { IfOk result
        (λ n. Stands (trees nodes.new.items) n (node_tree (trees nodes.old.items) head parts)) }
{
    let size = size_of(nodes, &head, parts.as_slice());
    let depth = depth_of(nodes, &head, parts.as_slice());
    let node = Node {
        head,
        parts,
        size,
        depth,
        bare,
    };
    add_node(nodes, numbers, node, key)
}

/// The number of the node of this head and of parts of these numbers. It is added where it is not there, with this
/// number of its bare tree.
fn place_node(
    nodes: &mut Vec<Node>,
    numbers: &mut BTreeMap<Key, usize>,
    alloc: Global,
    head: Head,
    parts: Numbers,
    bare: usize,
) -> Result<usize, Memory>
    requires table { IsTable nodes.old.items numbers.old }
    requires below { IsBelow (length nodes.old.items) parts }
    requires bare { IsBareOf (trees nodes.old.items) (node_tree (trees nodes.old.items) head parts) bare }
    ensures table { IsTable nodes.new.items numbers.new }
    ensures extends { Extends (trees nodes.old.items) (trees nodes.new.items) }
    ensures number { IfOk result
        (λ n. Stands (trees nodes.new.items) n (node_tree (trees nodes.old.items) head parts)) }
{
    let key = key_of(alloc, &head, &parts)?;
    match numbers.get(&key) {
        Some(number) => Ok(*number),
        None => add_measured(nodes, numbers, head, parts, bare, key),
    }
}

/// The bare numbers of parts.
fn bare_parts(nodes: &[Node], alloc: Global, parts: &[usize]) -> Result<Vec<usize>, Memory>
    requires bare { AreBare nodes.now }
    requires below { IsBelow (length nodes.now) parts.now }
    ensures { IfOk result (λ ns. AllStand (trees nodes.now) ns.items
        (map (λ p. bare_tree (tree_at (trees nodes.now) p)) parts.now)) }
{
    let mut numbers = Vec::new(alloc);
    for part in parts {
        numbers.push(nodes[*part].bare)?;
    }
    Ok(numbers)
}

/// The number of a node without the places that named types and with all naming bits. It is added where it is not
/// there.
fn place_bare(
    nodes: &mut Vec<Node>,
    numbers: &mut BTreeMap<Key, usize>,
    alloc: Global,
    head: &Head,
    parts: &[usize],
) -> Result<usize, Memory>
    requires table { IsTable nodes.old.items numbers.old }
    requires below { IsBelow (length nodes.old.items) parts.now }
    ensures table { IsTable nodes.new.items numbers.new }
    ensures extends { Extends (trees nodes.old.items) (trees nodes.new.items) }
    ensures number { IfOk result (λ n. Stands (trees nodes.new.items) n
        (bare_tree (node_tree (trees nodes.old.items) head.now parts.now))) }
{
    let bare = bare_head(alloc, head)?;
    let bare_parts = bare_parts(nodes, alloc, parts)?;
    let own = nodes.len();
    place_node(
        nodes,
        numbers,
        alloc,
        bare,
        Numbers::from_vec(bare_parts),
        own,
    )
}

/// Whether each part is the number of its own bare tree.
fn are_bare(nodes: &[Node], parts: &[usize]) -> bool
    requires bare { AreBare nodes.now }
    requires below { IsBelow (length nodes.now) parts.now }
    ensures { result ≡ true → AllStand (trees nodes.now) parts.now
        (map (λ p. bare_tree (tree_at (trees nodes.now) p)) parts.now) }
{
    for part in parts {
        if nodes[*part].bare != *part {
            return false;
        }
    }
    true
}

/// Whether a node of this head and of parts of these numbers would be its own bare tree, behind the others.
fn is_bare(nodes: &[Node], head: &Head, parts: &[usize]) -> bool
    requires bare { AreBare nodes.now }
    requires below { IsBelow (length nodes.now) parts.now }
    ensures { result ≡ true → IsBareOf (trees nodes.now)
        (node_tree (trees nodes.now) head.now parts.now) (length nodes.now) }
{
    is_bare_head(head) && are_bare(nodes, parts)
}

/// Adds the node of this head and of parts of these numbers, which is not there, and its bare tree, where that is not
/// there.
fn add(
    nodes: &mut Vec<Node>,
    numbers: &mut BTreeMap<Key, usize>,
    alloc: Global,
    head: Head,
    parts: Numbers,
    key: Key,
) -> Result<usize, Memory>
    requires table { IsTable nodes.old.items numbers.old }
    requires below { IsBelow (length nodes.old.items) parts }
    requires key { key ≡ node_key head parts }
    requires absent { get key_cmp numbers.old key ≡ None }
    ensures table { IsTable nodes.new.items numbers.new }
    ensures extends { Extends (trees nodes.old.items) (trees nodes.new.items) }
    ensures number { IfOk result
        (λ n. Stands (trees nodes.new.items) n (node_tree (trees nodes.old.items) head parts)) }
{
    if is_bare(nodes, &head, parts.as_slice()) {
        // Such a node needs no other one, so it is found and added by one key.
        let own = nodes.len();
        return add_measured(nodes, numbers, head, parts, own, key);
    }
    let bare = place_bare(nodes, numbers, alloc, &head, parts.as_slice())?;
    place_node(nodes, numbers, alloc, head, parts, bare)
}

/// The number of the node of this head and of parts of these numbers. It is added where it is not there, and so is its
/// bare tree.
fn place(
    nodes: &mut Vec<Node>,
    numbers: &mut BTreeMap<Key, usize>,
    alloc: Global,
    head: Head,
    parts: Numbers,
) -> Result<usize, Memory>
    requires table { IsTable nodes.old.items numbers.old }
    requires below { IsBelow (length nodes.old.items) parts }
    ensures table { IsTable nodes.new.items numbers.new }
    ensures extends { Extends (trees nodes.old.items) (trees nodes.new.items) }
    ensures number { IfOk result
        (λ n. Stands (trees nodes.new.items) n (node_tree (trees nodes.old.items) head parts)) }
{
    let key = key_of(alloc, &head, &parts)?;
    if let Some(number) = numbers.get(&key) {
        return Ok(*number);
    }
    add(nodes, numbers, alloc, head, parts, key)
}

/// How many levels deep what is put into a table, or is built from it, may lie at most.
const LEVELS: usize = 1000;

/// The number of an entity in a table.
#[derive(Clone, Copy, Debug, PartialEq, Eq, PartialOrd, Ord, Hash)]
pub struct TypeNumber(pub usize);

/// Types and entities by number.
///
/// A clause sees a table as the list of what its numbers stand for, from 0 on. No tree has two numbers.
#[derive(Drop)]
pub struct TypeTable {
    /// What the numbers stand for, from 0 on.
    nodes: Vec<Node>,
    /// The number of each node, by its key.
    numbers: BTreeMap<Key, usize>,
}

impl Model for TypeTable {
    ghost use Rattle.std.specs.Prelude.{List};
    ghost use Rattle.comp_table.specs.Table.{IsTable, trees};
    ghost use Rattle.std.specs.Coded.{coded_list};
    ghost use Rattle.comp_table.specs.Trees.{PlainTree};
    ghost use Rattle.comp_table.specs.Codes.{tree_code};
    ghost use Rattle.comp_table.specs.contracts.head.Head as head;

    ghost Value = { List PlainTree };

    ghost coded = { coded_list (tree_code head.the_row.coded) };

    ghost view = { λ t. trees t.nodes.items };

    ghost invariant = { λ t. IsTable t.nodes.items t.numbers };
}

impl TypeTable {
    /// A table in which no number stands for anything.
    pub fn new(alloc: Global) -> Self
        ensures { result ≡ [] }
    {
        TypeTable {
            nodes: Vec::new(alloc),
            numbers: BTreeMap::new(alloc),
        }
    }

    /// The number of what has this root and parts of these numbers. It is added where it is not there. Whatever the
    /// answer, the numbers given so far keep their meaning.
    pub fn number_of(&mut self, alloc: Global, head: Head, parts: Numbers) -> Result<usize, Memory>
        requires below { IsBelow (length self.old) parts }
        ensures extends { Extends self.old self.new }
        ensures number { IfOk result (λ n. Stands self.new n (node_tree self.old head parts)) }
        ensures once { IsOnce self.new }
    {
        place(&mut self.nodes, &mut self.numbers, alloc, head, parts)
    }

    /// The number of an entity. It is added where it is not there, and so are its parts. Whatever the answer, the
    /// numbers given so far keep their meaning. `Memory` also where more than a thousand types and entities lie within
    /// each other.
    pub fn intern(&mut self, alloc: Global, entity: &Entity) -> Result<TypeNumber, Memory>
        ensures kept { Extends self.old self.new }
        ensures number { IfOk result (λ n. Stands self.new n.0 (entity_plain entity.now)) }
        ensures shown { OnOk result (IsShown (entity_tree entity.now)) }
    {
        let number = intern_entity(self, alloc, LEVELS, entity)?;
        Ok(TypeNumber(number))
    }

    /// The number of a core module, as `intern` gives it for an entity.
    pub fn intern_module(&mut self, alloc: Global, shape: &ModuleShape) -> Result<usize, Memory>
        ensures kept { Extends self.old self.new }
        ensures number { IfOk result (λ n. Stands self.new n (plain_module shape.now)) }
    {
        intern_module(self, alloc, shape)
    }

    /// The number of a value type, as `intern` gives it for an entity.
    pub fn intern_value(&mut self, alloc: Global, value: &ValueShape) -> Result<usize, Memory>
        ensures kept { Extends self.old self.new }
        ensures number { IfOk result (λ n. Stands self.new n (value_plain value.now)) }
    {
        intern_value(self, alloc, LEVELS, value)
    }

    /// The number of a type, as `intern` gives it for an entity.
    pub fn intern_type(&mut self, alloc: Global, ty: &TypeShape) -> Result<usize, Memory>
        ensures kept { Extends self.old self.new }
        ensures number { IfOk result (λ n. Stands self.new n (type_plain ty.now)) }
    {
        intern_type(self, alloc, LEVELS, ty)
    }

    /// Whether two numbers of this table stand for the same: whether they are one number.
    pub fn is_same(&self, a: usize, b: usize) -> bool
        requires left { a < length self.now }
        requires right { b < length self.now }
        ensures { IsTrue result ↔ (tree_at self.now a ≡ tree_at self.now b) }
    {
        // A look into the table, by which it is known here that no tree has two numbers.
        let _nodes = &self.nodes;
        a == b
    }

    /// What stands at the root of what a number stands for.
    pub fn head(&self, number: usize) -> &Head
        requires { number < length self.now }
        ensures { result.now ≡ root (tree_at self.now number) }
    {
        &self.nodes[number].head
    }

    /// How many nodes what a number stands for has, or the largest number where it has more. This takes no time that
    /// grows with the size.
    pub fn size(&self, number: usize) -> usize
        requires { number < length self.now }
        ensures { result ≡ capped (tree_size (tree_at self.now number)) }
    {
        self.nodes[number].size
    }

    /// How deep the value type is that a number stands for, or how deep the deepest is that stands in what is none, or
    /// the largest number where it is deeper. This takes no time that grows with the size.
    pub fn depth(&self, number: usize) -> usize
        requires { number < length self.now }
        ensures { result ≡ capped (tree_depth (tree_at self.now number)) }
    {
        self.nodes[number].depth
    }

    /// The number of the same without the places that named types and with all naming bits. This takes no time that
    /// grows with the size.
    pub fn bare(&self, number: usize) -> usize
        requires { number < length self.now }
        ensures { Stands self.now result (bare_tree (tree_at self.now number)) }
    {
        self.nodes[number].bare
    }

    /// Whether two entities are equal (`Explainer.md`, "Type Checking"), where no core module of a component's own, whose
    /// type is not known, stands in the second. Which places named types is set aside. This takes no time that grows
    /// with the size.
    pub fn equal(&self, a: TypeNumber, b: TypeNumber) -> bool
        requires left { a.0 < length self.now }
        requires right { b.0 < length self.now }
        ensures bare { IsTrue result ↔ (bare_tree (tree_at self.now a.0) ≡ bare_tree (tree_at self.now b.0)) }
        ensures equal { (x y : EntityTree)
            → Stands self.now a.0 (plain_entity x) → Stands self.now b.0 (plain_entity y) → IsShown y
            → result ≡ equal x y }
    {
        let bare = self.bare(a.0);
        let other = self.bare(b.0);
        self.is_same(bare, other)
    }

    /// The numbers of the parts of what a number stands for. They are smaller.
    pub fn parts(&self, number: usize) -> &[usize]
        requires { number < length self.now }
        ensures parts { trees_of (map (tree_at self.now) result.now)
            ≡ below_root (tree_at self.now number) }
        ensures below { IsBelow number result.now }
    {
        self.nodes[number].parts.as_slice()
    }
}
