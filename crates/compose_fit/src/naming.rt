//! Instances in other names.

ghost use Rattle.std.specs.Prelude.{◌≡◌, ◌<◌, length, slice_index_or, List, IfOk};
ghost use Rattle.comp_entity.specs.Entity.{ShapeTree};
ghost use Rattle.comp_table.specs.Changes.{tree_by};
ghost use Rattle.comp_table.specs.Trees.{Extends, Stands, tree_at};
ghost use Rattle.compose_fit.specs.Seen.{AreInstances, AreSeen, HaveShapes, IsNumbered, IsSeen, changes};

use crate::numbered::ShapeNumbers;
use comp_entity::{ResourceNo, TypeNo};
use comp_fit::loosened;
use comp_rename::{Renaming, renamed};
use comp_table::TypeTable;
use comp_table::laws::changed_entities_have_changed_trees;
use compose_left::Origins;
use std::alloc::Global;
use warg_values::Memory;

/// An instance whose things are called by their origins.
#[derive(Clone, Copy)]
struct Placing<'a> {
    /// Where things come from.
    origins: &'a Origins,
    /// The number of the instance.
    at: usize,
}

impl Renaming for Placing<'_> {
    ghost use Rattle.compose_left.specs.Renaming.{placed_resource, placed_type};

    ghost resources = { λ p. placed_resource p.origins.now p.at };

    ghost places = { λ p. placed_type p.origins.now p.at };

    fn resource(&self, resource: ResourceNo) -> Option<ResourceNo> {
        self.origins.resource(self.at, resource)
    }

    fn place(&self, place: TypeNo) -> Option<TypeNo> {
        self.origins.type_place(self.at, place)
    }
}

/// How the things of instances are called.
#[derive(Clone, Copy)]
pub enum Naming<'a> {
    /// All resources are one, and no place named a type.
    AsOne,
    /// By where they come from.
    InPlace(&'a Origins),
}

/// The number of an entity of an instance in other names.
fn entity_in(
    table: &mut TypeTable,
    alloc: Global,
    naming: Naming<'_>,
    at: usize,
    number: usize,
) -> Result<usize, Memory>
    requires { number < length table.old }
    ensures kept { Extends table.old table.new }
    ensures number { IfOk result (λ n. Stands table.new n (tree_by (changes naming.entry at) 0 (tree_at table.old number))) }
{
    match naming {
        Naming::AsOne => loosened(table, alloc, number),
        Naming::InPlace(origins) => renamed(table, alloc, &Placing { origins, at }, number),
    }
}

/// The numbers of an instance in other names.
fn shape_in(
    table: &mut TypeTable,
    alloc: Global,
    naming: Naming<'_>,
    at: usize,
    numbers: ShapeNumbers,
) -> Result<ShapeNumbers, Memory>
    requires { (s : ShapeTree) × IsNumbered table.old numbers s }
    ensures kept { Extends table.old table.new }
    ensures seen { IfOk result (λ n. (s : ShapeTree) → IsNumbered table.old numbers s
        → IsSeen table.new (changes naming.entry at) n s) }
{
    changed_entities_have_changed_trees();
    let imports = entity_in(table, alloc, naming, at, numbers.imports)?;
    let exports = entity_in(table, alloc, naming, at, numbers.exports)?;
    Ok(ShapeNumbers { imports, exports })
}

/// The numbers of this component.
fn numbers_at(components: &[ShapeNumbers], component: usize) -> ShapeNumbers
    requires { component < length components.now }
    ensures { result ≡ slice_index_or components.now component (record { imports = 0; exports = 0 }) }
{
    components[component]
}

/// The numbers of instances in other names.
pub fn instances_in(
    table: &mut TypeTable,
    alloc: Global,
    naming: Naming<'_>,
    components: &[ShapeNumbers],
    instances: &[usize],
) -> Result<Vec<ShapeNumbers>, Memory>
    requires { HaveShapes table.old components.now instances.now }
    ensures kept { Extends table.old table.new }
    ensures seen { IfOk result (λ seen. (shapes : List ShapeTree)
        → AreInstances table.old components.now instances.now shapes
        → AreSeen table.new (changes naming.entry) 0 seen.items shapes) }
{
    let mut seen = Vec::new(alloc);
    for at in 0..instances.len() {
        let numbers = numbers_at(components, instances[at]);
        seen.push(shape_in(table, alloc, naming, at, numbers)?)?;
    }
    Ok(seen)
}
