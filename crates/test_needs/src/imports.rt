//! What is left open in a graph, merged by names.

ghost use Rattle.std.specs.Prelude.{IfOk};
ghost use Rattle.compose_left.specs.Merged.{IsMerged};

use crate::graph::Graph;
use comp_entity::{Entity, Shape};
use compose_left::{MergeError, MergedImport, Origins, Wire};
use std::alloc::Global;
use std::test::Fail;
use warg_values::{Memory, Text};

/// What an instance asks of an import that is left open.
#[derive(Clone, Copy)]
pub struct Need<'a> {
    /// The number of the instance.
    pub at: usize,
    /// The name of the import.
    pub name: &'a Text,
    /// What is asked.
    pub entity: &'a Entity,
}

/// Whether a wire goes into an import.
fn is_wired(wires: &[Wire], target: usize, import: usize) -> bool {
    for wire in wires {
        if wire.target == target && wire.import == import {
            return true;
        }
    }
    false
}

/// Adds what an instance asks.
fn add_needs<'a>(
    needs: &mut Vec<Need<'a>>,
    wires: &[Wire],
    at: usize,
    shape: &'a Shape,
) -> Result<(), Memory> {
    for (number, import) in shape.imports.iter().enumerate() {
        if !is_wired(wires, at, number) {
            needs.push(Need {
                at,
                name: &import.0,
                entity: &import.1,
            })?;
        }
    }
    Ok(())
}

/// What all instances ask, in their order and that of their imports.
fn needs(alloc: Global, graph: &Graph) -> Result<Vec<Need<'_>>, Memory> {
    let mut needs = Vec::new(alloc);
    for (at, shape) in graph.shapes.iter().enumerate() {
        add_needs(&mut needs, &graph.wires, at, shape)?;
    }
    Ok(needs)
}

/// The first of some needs that is of this name.
fn need_of<'n, 'a>(needs: &'n [Need<'a>], name: &Text) -> Option<&'n Need<'a>> {
    for need in needs {
        if need.name == name {
            return Some(need);
        }
    }
    None
}

/// An import that is needed once.
fn needed(alloc: Global, origins: &Origins, need: &Need<'_>) -> Result<MergedImport, Memory>
    ensures { IfOk result (λ import. IsMerged import) }
{
    let name = need.name.try_clone(alloc)?;
    let import = MergedImport::new(alloc, name, origins.place(alloc, need.at, need.entity)?)?;
    Ok(import)
}

/// What a need asks, with the numbers of origins, alone. It stands in a vector, since each way out of a function that
/// holds an entity of its own is proved for each kind of entity.
fn placed(alloc: Global, origins: &Origins, need: &Need<'_>) -> Result<Vec<Entity>, Memory> {
    let mut placed = Vec::new(alloc);
    placed.push(origins.place(alloc, need.at, need.entity)?)?;
    Ok(placed)
}

/// Merges one more need.
fn merge(alloc: Global, import: &mut MergedImport, entities: &[Entity]) -> Result<(), MergeError>
    requires { IsMerged import.old }
{
    match entities {
        [entity] => import.merge(alloc, entity),
        _ => Ok(()),
    }
}

/// What was made, where a merge went well.
fn after<T: Drop>(told: Result<(), MergeError>, made: T) -> Result<T, Fail> {
    match told {
        Ok(()) => Ok(made),
        Err(MergeError::Disagree(_)) => Err(Fail::new("needs do not agree")),
        Err(MergeError::Memory) => Err(Fail::from(Memory)),
    }
}

/// An import that is needed twice.
fn needed_again(
    alloc: Global,
    origins: &Origins,
    need: &Need<'_>,
    later: &Need<'_>,
) -> Result<MergedImport, Fail> {
    let entities = placed(alloc, origins, later)?;
    let mut import = needed(alloc, origins, need)?;
    let told = merge(alloc, &mut import, &entities);
    after(told, import)
}

/// The import of a need, with what is asked later under its name. No row asks for an import three times.
fn import(
    alloc: Global,
    origins: &Origins,
    need: &Need<'_>,
    behind: &[Need<'_>],
) -> Result<MergedImport, Fail> {
    match need_of(behind, need.name) {
        Some(later) => needed_again(alloc, origins, need, later),
        None => {
            let import = needed(alloc, origins, need)?;
            Ok(import)
        }
    }
}

/// What is left open in a graph, merged by names in the order in which they are needed first.
pub fn left_open(
    alloc: Global,
    origins: &Origins,
    graph: &Graph,
) -> Result<Vec<MergedImport>, Fail> {
    let needs = needs(alloc, graph)?;
    let mut list = Vec::new(alloc);
    for place in 0..needs.len() {
        let (before, behind) = needs.split_at(place);
        if let [need, behind @ ..] = behind
            && need_of(before, need.name).is_none()
        {
            list.push(import(alloc, origins, need, behind)?)?;
        }
    }
    Ok(list)
}
