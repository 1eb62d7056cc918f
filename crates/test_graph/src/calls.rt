//! The calls of a graph. The bytes were written out by hand from the binary format.

use compose_graph::{
    Component, ComponentId, CompositionGraph, ExportIndex, GraphError, ImportIndex, InstanceId,
};
use std::alloc::Global;
use std::test::Fail;

/// A component that imports nothing and exports nothing.
const EMPTY: &[u8] = b"\0asm\r\0\x01\0";

/// A component that imports an instance of a function `f` as `x`, and exports it as `y`.
const THROUGH: &[u8] =
    b"\0asm\r\0\x01\0\x07\x0e\x01\x42\x02\x01\x40\0\x01\0\x04\0\x01f\x01\0\x0a\x06\x01\0\x01x\x05\0\x0b\x07\x01\0\x01y\x05\0\0";

/// The components of the graph: their names and bytes.
const COMPONENTS: &[(&str, &[u8])] = &[("a", THROUGH), ("b", THROUGH), ("c", EMPTY)];

/// The instances of the graph: the numbers of their components.
const INSTANCES: &[usize] = &[0, 1, 2, 0];

/// One thing that is asked of a graph.
enum Step {
    /// A connection: the source, its export or 9 for the whole instance, the target, and its import.
    Connect(usize, usize, usize, usize),
    /// An instance from which an import of another one, of this place, is taken away.
    Disconnect(usize, usize, usize),
    /// A component of this name.
    Add(&'static str),
    /// An instance of a component.
    Instantiate(usize),
    /// A component that goes.
    RemoveComponent(usize),
    /// An instance that goes.
    RemoveInstance(usize),
    /// Whether there is a component of this number.
    HasComponent(usize),
    /// Whether there is a component of this name.
    HasName(&'static str),
    /// Whether there is a component of an instance of this number.
    HasInstance(usize),
}

/// Connections are refused by the first cause.
const CONNECTIONS: &[(Step, &str)] = &[
    (Step::Connect(0, 9, 0, 9), "SelfConnection"),
    (Step::Connect(8, 9, 8, 9), "SelfConnection"),
    (Step::Connect(8, 9, 7, 9), "NoSource"),
    (Step::Connect(0, 9, 7, 9), "NoTarget"),
    (Step::Connect(0, 9, 2, 0), "BadImportIndex"),
    (Step::Connect(0, 1, 1, 1), "BadImportIndex"),
    (Step::Connect(0, 1, 1, 0), "BadExportIndex"),
    (Step::Connect(0, 9, 1, 0), "NotCompatible"),
    (Step::Connect(2, 9, 1, 0), "NotCompatible"),
    (Step::Connect(0, 0, 1, 0), "done"),
    (Step::Connect(0, 0, 1, 0), "AlreadyConnected"),
    (Step::Connect(3, 1, 1, 0), "AlreadyConnected"),
    (Step::Connect(1, 0, 0, 0), "done"),
];

/// What was disconnected can be connected again, and what is connected otherwise stays so.
const DISCONNECTIONS: &[(Step, &str)] = &[
    (Step::Connect(0, 0, 1, 0), "done"),
    (Step::Disconnect(8, 7, 0), "NoSource"),
    (Step::Disconnect(0, 7, 0), "NoTarget"),
    (Step::Disconnect(3, 1, 0), "done"),
    (Step::Disconnect(0, 1, 1), "done"),
    (Step::Connect(3, 0, 1, 0), "AlreadyConnected"),
    (Step::Disconnect(0, 1, 0), "done"),
    (Step::Connect(3, 0, 1, 0), "done"),
];

/// Connections go with an instance.
const GONE_INSTANCE: &[(Step, &str)] = &[
    (Step::Connect(3, 0, 1, 0), "done"),
    (Step::RemoveInstance(3), "done"),
    (Step::Connect(0, 0, 1, 0), "done"),
];

/// A component goes with its name and its instances.
const GONE_COMPONENT: &[(Step, &str)] = &[
    (Step::RemoveComponent(0), "done"),
    (Step::HasComponent(0), "false"),
    (Step::HasName("a"), "false"),
    (Step::HasInstance(3), "false"),
    (Step::HasComponent(1), "true"),
    (Step::HasName("b"), "true"),
    (Step::HasInstance(1), "true"),
    (Step::Add("a"), "3"),
];

/// No two components have one name, and no number is given twice.
const NUMBERS: &[(Step, &str)] = &[
    (
        Step::Add("a"),
        "a component named `a` is there already: give this one another name, or remove that one",
    ),
    (Step::RemoveInstance(3), "done"),
    (Step::Instantiate(0), "4"),
    (Step::Instantiate(3), "NoComponent"),
];

/// What calls without a number answer.
fn done(alloc: Global, answer: &Result<(), GraphError>) -> Result<String, Fail> {
    match answer {
        Ok(()) => Ok(String::from_str(alloc, "done")?),
        Err(error) => Ok(format!(in alloc; "{error:?}")?),
    }
}

/// The export of a step.
fn export_of(place: usize) -> Option<ExportIndex> {
    if place == 9 {
        None
    } else {
        Some(ExportIndex(place))
    }
}

/// The number under which a component of this name is added, or why it is not.
fn added(alloc: Global, graph: &mut CompositionGraph<'_>, name: &str) -> Result<String, Fail> {
    let component = Component::from_bytes(alloc, name, THROUGH)?;
    match graph.add_component(alloc, component) {
        Ok(id) => Ok(format!(in alloc; "{id}")?),
        Err(error) => Ok(format!(in alloc; "{error}")?),
    }
}

/// The number under which an instance of a component is made, or why it is not.
fn made(alloc: Global, graph: &mut CompositionGraph<'_>, component: usize) -> Result<String, Fail> {
    match graph.instantiate(ComponentId(component)) {
        Ok(id) => Ok(format!(in alloc; "{id}")?),
        Err(error) => Ok(format!(in alloc; "{error:?}")?),
    }
}

/// Whether something is there.
fn is_there(graph: &CompositionGraph<'_>, step: &Step) -> bool {
    match step {
        Step::HasComponent(id) => graph.get_component(ComponentId(*id)).is_some(),
        Step::HasName(name) => graph.get_component_by_name(name).is_some(),
        Step::HasInstance(id) => graph.get_component_of_instance(InstanceId(*id)).is_some(),
        _ => false,
    }
}

/// What a graph answers to a step.
fn answer(alloc: Global, graph: &mut CompositionGraph<'_>, step: &Step) -> Result<String, Fail> {
    match step {
        Step::Connect(source, export, target, import) => {
            let source = InstanceId(*source);
            let target = InstanceId(*target);
            let import = ImportIndex(*import);
            done(
                alloc,
                &graph.connect(alloc, source, export_of(*export), target, import),
            )
        }
        Step::Disconnect(source, target, import) => {
            let source = InstanceId(*source);
            done(
                alloc,
                &graph.disconnect(source, InstanceId(*target), ImportIndex(*import)),
            )
        }
        Step::Add(name) => added(alloc, graph, name),
        Step::Instantiate(component) => made(alloc, graph, *component),
        Step::RemoveComponent(id) => {
            graph.remove_component(ComponentId(*id));
            done(alloc, &Ok(()))
        }
        Step::RemoveInstance(id) => {
            graph.remove_instance(InstanceId(*id));
            done(alloc, &Ok(()))
        }
        _ => Ok(format!(in alloc; "{}", is_there(graph, step))?),
    }
}

/// Fails at the first step that is answered otherwise.
fn are_answered(
    alloc: Global,
    graph: &mut CompositionGraph<'_>,
    steps: &[(Step, &str)],
) -> Result<(), Fail> {
    for (place, (step, want)) in steps.iter().enumerate() {
        let found = answer(alloc, graph, step)?;
        if found.as_str() != *want {
            return Err(Fail::new(format_args!("step {place}: {found}")));
        }
    }
    Ok(())
}

/// A graph of these components and instances.
fn graph(alloc: Global) -> Result<CompositionGraph<'static>, Fail> {
    let mut graph = CompositionGraph::new(alloc);
    for (name, bytes) in COMPONENTS {
        let component = Component::from_bytes(alloc, name, bytes)?;
        let _id = graph.add_component(alloc, component)?;
    }
    for component in INSTANCES {
        let _id = graph.instantiate(ComponentId(*component))?;
    }
    Ok(graph)
}

/// Takes these steps with such a graph. No other function owns one, since the proof of each that does is dear.
fn is_answered(alloc: Global, steps: &[(Step, &str)]) -> Result<(), Fail> {
    let mut graph = graph(alloc)?;
    are_answered(alloc, &mut graph, steps)
}

#[test]
fn connections_are_refused_by_the_first_cause(rt: HostRuntime) -> Result<(), Fail> {
    is_answered(rt.alloc(), CONNECTIONS)
}

#[test]
fn what_was_disconnected_can_be_connected_again(rt: HostRuntime) -> Result<(), Fail> {
    is_answered(rt.alloc(), DISCONNECTIONS)
}

#[test]
fn connections_go_with_an_instance(rt: HostRuntime) -> Result<(), Fail> {
    is_answered(rt.alloc(), GONE_INSTANCE)
}

#[test]
fn a_component_goes_with_its_name_and_its_instances(rt: HostRuntime) -> Result<(), Fail> {
    is_answered(rt.alloc(), GONE_COMPONENT)
}

#[test]
fn no_two_components_have_one_name_and_no_number_is_given_twice(
    rt: HostRuntime,
) -> Result<(), Fail> {
    is_answered(rt.alloc(), NUMBERS)
}
