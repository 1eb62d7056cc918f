//! Left imports as they are written.

ghost use Rattle.std.specs.Prelude.{◌≡◌, map, IfOk};
ghost use Rattle.compose_order.specs.Known.{left_tree, merged_left};

use comp_entity::Entity;
use compose_agree::Named;
use compose_left::{MergedImport, Spot};
use std::alloc::Global;
use warg_values::{Memory, Text};

/// A left import as it is written: what the instances that need it ask, merged.
#[derive(Drop)]
pub struct LeftImport {
    /// Its name.
    pub name: Text,
    /// What is written for it. Resources and the places that named types are numbers of origins.
    pub entity: Entity,
    /// What those that need it name there as resources and as types, by paths, in the order in which they were merged.
    pub calls: Vec<Spot>,
}

impl Named for LeftImport {
    ghost name = { λ i. i.name };

    fn name(&self) -> &Text {
        &self.name
    }
}

/// A copy of what is named.
fn copied(alloc: Global, spots: &[Spot]) -> Result<Vec<Spot>, Memory>
    ensures { IfOk result (λ copies. copies.items ≡ spots.now) }
{
    let mut copies = Vec::new(alloc);
    for spot in spots {
        copies.push(Spot {
            number: spot.number,
            name: spot.name.try_clone(alloc)?,
            path: spot.path.try_clone(alloc)?,
            what: spot.what,
        })?;
    }
    Ok(copies)
}

/// A merged import as it is written.
fn left_import(alloc: Global, import: MergedImport) -> Result<LeftImport, Memory>
    ensures { IfOk result (λ left. left_tree left ≡ merged_left import) }
{
    let calls = copied(alloc, import.calls())?;
    let (name, entity) = import.into_parts();
    Ok(LeftImport {
        name,
        entity,
        calls,
    })
}

/// Merged imports as they are written.
pub fn left_imports(alloc: Global, list: Vec<MergedImport>) -> Result<Vec<LeftImport>, Memory>
    ensures { IfOk result (λ lefts. map left_tree lefts.items ≡ map merged_left list.items) }
{
    let mut lefts = Vec::with_capacity(alloc, list.len())?;
    for import in list {
        lefts.push(left_import(alloc, import)?)?;
    }
    Ok(lefts)
}
