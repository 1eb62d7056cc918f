//! What exports may mention. The rows were worked by hand.

use crate::graph::{Graph, graph_of, origins_of, shape};
use comp_entity::Entity;
use compose_left::Origins;
use compose_needs::{component_needs, export_needs};
use std::alloc::Global;
use std::test::Fail;
use test_check::is_row;
use warg_values::{Memory, Text};

/// Wired instances, and the first export of the last one that mentions a resource which it can't have, or nothing.
const EXPORTS: &[(&str, &str)] = &[
    (">p=x5,o5", ""),
    (">p=o5", "p"),
    (">p=x5 >q=o5", ""),
    (">p=o5 >q=x5", "p"),
    ("m=x1 >p=o1", ""),
    (">p=x5 ; p<0=x1 >q=o1", "q"),
    // a named type is no resource, and what a component hides is its own
    (">p=f5", ""),
    (">p=c0", ""),
];

/// A component, and its first import or export that mentions what it can't have, or nothing.
const COMPONENTS: &[(&str, &str)] = &[
    ("m=x1 >p=o1", ""),
    ("m=o1 >p=x1", "m"),
    (">p=x5,o5 >q=o5", ""),
    (">p=e5 >q=o5", "q"),
    (">p=f5 >q=e5", "p"),
    (">p=x5 >q=c0", "q"),
];

/// The exports of an instance, with the numbers of origins.
fn placed(
    alloc: Global,
    origins: &Origins,
    at: usize,
    exports: &[(Text, Entity)],
) -> Result<Vec<(Text, Entity)>, Memory> {
    let mut placed = Vec::new(alloc);
    for export in exports {
        let name = export.0.try_clone(alloc)?;
        placed.push((name, origins.place(alloc, at, &export.1)?))?;
    }
    Ok(placed)
}

/// A name, or nothing.
fn name_of(alloc: Global, found: &Option<Text>) -> Result<String, Fail> {
    match found {
        Some(name) => Ok(String::from_str(alloc, name.as_str())?),
        None => Ok(String::new(alloc)),
    }
}

/// The first export of the last instance that mentions a resource which it can't have.
fn hidden(alloc: Global, origins: &Origins, graph: &Graph) -> Result<Option<Text>, Memory> {
    match graph.shapes.as_slice() {
        [before @ .., last] => {
            let exports = placed(alloc, origins, before.len(), &last.exports)?;
            export_needs(alloc, origins, &exports)
        }
        [] => Ok(None),
    }
}

/// What is found of the last instance of a row.
fn export(alloc: Global, row: &str) -> Result<String, Fail> {
    let graph = graph_of(alloc, row)?;
    let origins = origins_of(alloc, &graph)?;
    let found = hidden(alloc, &origins, &graph)?;
    name_of(alloc, &found)
}

/// What is found of the component of a row.
fn component(alloc: Global, row: &str) -> Result<String, Fail> {
    let shape = shape(alloc, row)?;
    let found = component_needs(alloc, &shape)?;
    name_of(alloc, &found)
}

/// Fails at the first row of which another export is found.
fn exports_are_found(alloc: Global, rows: &[(&str, &str)]) -> Result<(), Fail> {
    for (row, wanted) in rows {
        let found = export(alloc, row)?;
        is_row(row, found.as_str(), wanted)?;
    }
    Ok(())
}

#[test]
fn an_export_mentions_resources_that_are_left_or_exported(rt: HostRuntime) -> Result<(), Fail> {
    exports_are_found(rt.alloc(), EXPORTS)
}

/// Fails at the first row of which another import or export is found.
fn components_are_found(alloc: Global, rows: &[(&str, &str)]) -> Result<(), Fail> {
    for (row, wanted) in rows {
        let found = component(alloc, row)?;
        is_row(row, found.as_str(), wanted)?;
    }
    Ok(())
}

#[test]
fn a_component_mentions_what_it_brings_or_exports(rt: HostRuntime) -> Result<(), Fail> {
    components_are_found(rt.alloc(), COMPONENTS)
}
