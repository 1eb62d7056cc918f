//! What graphs are encoded as. The bytes were written out by hand from the binary format.

use crate::check::{FUNCTION, THROUGH};
use compose_graph::{
    Component, ComponentId, ComposeError, CompositionGraph, EncodeOptions, InstanceId,
};
use std::alloc::Global;
use std::test::Fail;

/// A component without items.
const EMPTY: &[u8] = b"\0asm\r\0\x01\0";

/// One that imports a component without imports and exports as `b`, and makes an instance of it.
const IMPORTED: &[u8] =
    b"\0asm\r\0\x01\0\x07\x03\x01\x41\0\x0a\x06\x01\0\x01b\x04\0\x05\x04\x01\0\0\0";

/// One that holds a component without items, and makes an instance of it.
const DEFINED: &[u8] = b"\0asm\r\0\x01\0\x04\x08\0asm\r\0\x01\0\x05\x04\x01\0\0\0";

/// One that imports a function as `x`, holds a component that does, and gives the function to an instance of it.
const LEFT_OPEN: &[u8] =
    b"\0asm\r\0\x01\0\x07\x05\x01\x40\0\x01\0\x0a\x06\x01\0\x01x\x01\0\x04\x17\0asm\r\0\x01\0\x07\x05\x01\x40\0\x01\0\x0a\x06\x01\0\x01x\x01\0\x05\x08\x01\0\0\x01\x01x\x01\0";

/// A graph of one component, its name and bytes, of which an instance is made where that is so; whether it is defined;
/// and what is written.
type Written = (&'static str, &'static [u8], bool, bool, &'static [u8]);

const WRITTEN: &[Written] = &[
    ("b", EMPTY, false, false, EMPTY),
    ("b", EMPTY, false, true, EMPTY),
    ("b", EMPTY, true, false, IMPORTED),
    ("b", EMPTY, true, true, DEFINED),
    ("f", FUNCTION, true, true, LEFT_OPEN),
];

/// A graph of one component under a name, of which an instance is made where that is asked.
fn graph(
    alloc: Global,
    name: &str,
    bytes: &'static [u8],
    makes: bool,
) -> Result<CompositionGraph<'static>, Fail> {
    let mut graph = CompositionGraph::new(alloc);
    let _id = graph.add_component(alloc, Component::from_bytes(alloc, name, bytes)?)?;
    if makes {
        let _id = graph.instantiate(ComponentId(0))?;
    }
    Ok(graph)
}

/// Options by which the output is read again.
fn options(define_components: bool, export: Option<InstanceId>) -> EncodeOptions {
    EncodeOptions {
        define_components,
        export,
        validate: true,
    }
}

/// What such a graph is encoded as, or why it is not. No test owns a graph, since the proof of each function that does
/// is dear.
fn encoded(
    alloc: Global,
    (name, bytes, makes): (&str, &'static [u8], bool),
    options: EncodeOptions,
) -> Result<Result<Vec<u8>, ComposeError>, Fail> {
    let graph = graph(alloc, name, bytes, makes)?;
    Ok(graph.encode(alloc, options))
}

/// Fails at the first graph that is not encoded as these bytes.
fn are_written(alloc: Global, rows: &[Written]) -> Result<(), Fail> {
    for (name, bytes, makes, define, want) in rows {
        let found = encoded(alloc, (name, bytes, *makes), options(*define, None))??;
        if found.as_slice() != *want {
            return Err(Fail::new(format_args!("{name} {makes} {define}")));
        }
    }
    Ok(())
}

#[test]
fn encodes_components_that_are_imported_or_defined(rt: HostRuntime) -> Result<(), Fail> {
    are_written(rt.alloc(), WRITTEN)
}

#[test]
fn encodes_exports_of_an_instance(rt: HostRuntime) -> Result<(), Fail> {
    let exporting = options(true, Some(InstanceId(0)));
    let bytes = encoded(rt.alloc(), ("t", THROUGH, true), exporting)??;
    let component = Component::from_bytes(rt.alloc(), "output", &bytes)?;
    match component.export_by_name("y") {
        Some(_found) => Ok(()),
        None => Err(Fail::new("the export is not there")),
    }
}

/// A graph of one component, its name and bytes, and one instance; the instance that is exported; and why the graph is
/// not encoded with its component imported.
type Refused = (&'static str, &'static [u8], Option<usize>, &'static str);

const REFUSED: &[Refused] = &[
    (
        "b",
        EMPTY,
        Some(1),
        "there is no such instance to be exported: make it first, or export another one",
    ),
    (
        "x",
        FUNCTION,
        None,
        "a component and an import are both called `x`: give the component another name, or define it",
    ),
];

/// Fails at the first graph that is encoded, or refused with another text.
fn are_refused(alloc: Global, rows: &[Refused]) -> Result<(), Fail> {
    for (name, bytes, export, want) in rows {
        let exporting = options(false, export.map(InstanceId));
        let Err(error) = encoded(alloc, (name, bytes, true), exporting)? else {
            return Err(Fail::new(format_args!("{name} is encoded")));
        };
        let text = format!(in alloc; "{error}")?;
        if text.as_str() != *want {
            return Err(Fail::new(format_args!("{name}: {text}")));
        }
    }
    Ok(())
}

#[test]
fn refuses_what_can_not_be_encoded(rt: HostRuntime) -> Result<(), Fail> {
    are_refused(rt.alloc(), REFUSED)
}
