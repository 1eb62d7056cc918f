//! The command `link ROOT OUT`.

ghost use Rattle.std.specs.Prelude.{◌≡◌, ◌≤◌, ℕ, List, IfOk, IfErr, codes, string_bytes};
ghost use Rattle.comp_entity.specs.Entity.{ShapeTree};
ghost use Rattle.compose_component.specs.Component.{bytes_of, name_of, shape_of};
ghost use Rattle.compose_graph.specs.Encoding.{IsEncoding};
ghost use Rattle.compose_graph.specs.Listed.{graph_of};
ghost use Rattle.compose_graph.specs.declared.error.GraphError.TheVariants.{Memory as no_memory};
ghost use Rattle.warg_program.specs.World.{seen_files};
ghost use Rattle.warg_program.specs.Link.{IsLink, IsLinkCause, IsUnencoded, root_graph, root_options};

use crate::delivery::Made;
use crate::lines::bytes_line;
use crate::stop::{Access, Stop};
use comp_shape::laws::shapes_are_read;
use std::alloc::{AllocError, Global};
use warg_base::{FileError, Files};
use warg_values::Memory;
use wasm_compose::graph::{
    Component, ComposeError, CompositionGraph, EncodeOptions, GraphError, InstanceId,
};
use wasm_compose::{CheckError, ComponentError};

/// Want of memory, which a graph has told.
fn short(_error: GraphError) -> Memory
    requires { _error ≡ no_memory }
{
    Memory
}

/// The graph of one instance of a component.
fn root_graph<'a>(alloc: Global, component: Component<'a>) -> Result<CompositionGraph<'a>, Memory>
    requires { name_of component ≡ codes "root" }
    ensures { IfOk result
        (λ graph. graph_of graph ≡ root_graph (bytes_of component.entry) (shape_of component.entry)) }
{
    let mut graph = CompositionGraph::new(alloc);
    let id = match graph.add_component(alloc, component) {
        Ok(id) => id,
        Err(error) => return Err(short(error)),
    };
    match graph.instantiate(id) {
        Ok(_instance) => Ok(graph),
        Err(error) => Err(short(error)),
    }
}

/// The bytes of a graph of one instance of a component: it is defined, and the instance is exported.
fn encoded<'a>(
    alloc: Global,
    graph: &CompositionGraph<'_>,
    root: &'a str,
    out: &'a str,
) -> Result<Vec<u8>, Stop<'a>>
    requires { (bytes : List ℕ) × (tree : ShapeTree) × (graph_of graph.now ≡ root_graph bytes tree) }
    ensures encoded { (bytes : List ℕ) (tree : ShapeTree) → graph_of graph.now ≡ root_graph bytes tree
        → IfOk result (λ linked. IsEncoding (root_graph bytes tree) root_options linked.items) }
    ensures stopped { (bytes : List ℕ) (tree : ShapeTree) → graph_of graph.now ≡ root_graph bytes tree
        → IfErr result (λ stop. IsUnencoded stop root.now out.now bytes tree) }
{
    let options = EncodeOptions {
        define_components: true,
        export: Some(InstanceId(0)),
        validate: false,
    };
    match graph.encode(alloc, options) {
        Ok(bytes) => Ok(bytes),
        Err(ComposeError::Check(CheckError::Incompatible(why))) => {
            Err(Stop::Incompatible { path: root, why })
        }
        Err(ComposeError::TooLarge(number)) => Err(Stop::TooLarge { path: out, number }),
        Err(ComposeError::Memory) => Err(Stop::Memory),
        // The instance is there, it is given nothing, its component is defined, and the output is not read again.
        Err(ComposeError::NoExportInstance) => unreachable!(),
        Err(ComposeError::Check(CheckError::Cycle(..))) => unreachable!(),
        Err(ComposeError::Check(CheckError::Memory)) => unreachable!(),
        Err(ComposeError::ImportNameClash(_)) => unreachable!(),
        Err(ComposeError::InvalidOutput(_)) => unreachable!(),
    }
}

/// The bytes that link the component at `root`, and the line that tells how many they are and their SHA-256. They are to be
/// written to `out`; this writes nothing.
pub fn linked<'a, F: Files>(
    alloc: Global,
    files: &mut F,
    root: &'a str,
    out: &'a str,
) -> Result<Made, Stop<'a>>
    ensures never_falls { F.faults files.old ≤ F.faults files.new }
    ensures kept { F.told files.new ≡ F.told files.old }
    ensures made { IfOk result (λ made. IsLink root.now
        (seen_files (F.told files.old) (F.faults files.old)) made.bytes.items (string_bytes made.lines)) }
    ensures stopped { IfErr result (λ stop.
        let before = seen_files (F.told files.old) (F.faults files.old) in
        let after = seen_files (F.told files.new) (F.faults files.new) in
        IsLinkCause stop root.now out.now before after) }
{
    let component = match Component::from_file(alloc, files, "root", root) {
        Ok(component) => component,
        Err(ComponentError::File(FileError::Missing)) => return Err(Stop::Missing { path: root }),
        Err(ComponentError::File(FileError::Failed)) => {
            return Err(Stop::Fault(Access::Read(root)));
        }
        Err(ComponentError::BadComponent(error)) => {
            shapes_are_read();
            return Err(Stop::BadComponent { path: root, error });
        }
        Err(ComponentError::Memory) => return Err(Stop::Memory),
        // The name is not empty, and want of memory is `ComponentError::Memory`.
        Err(ComponentError::BadName) => unreachable!(),
        Err(ComponentError::File(FileError::Memory)) => unreachable!(),
    };
    let graph = match root_graph(alloc, component) {
        Ok(graph) => graph,
        Err(Memory) => return Err(Stop::Memory),
    };
    let bytes = match encoded(alloc, &graph, root, out) {
        Ok(bytes) => bytes,
        Err(stop) => return Err(stop),
    };
    match bytes_line(alloc, &bytes) {
        Ok(lines) => Ok(Made { bytes, lines }),
        Err(AllocError) => Err(Stop::Memory),
    }
}
