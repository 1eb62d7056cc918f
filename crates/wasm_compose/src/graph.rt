//! Composition graphs: what `compose_graph` and `compose_component` have, under the path of the Rust crate.

pub use compose_component::{
    Component, ComponentExport, ComponentImport, ExportIndex, Exports, ImportIndex, Imports,
};
pub use compose_graph::{
    ComponentId, ComposeError, CompositionGraph, EncodeOptions, GraphError, InstanceId,
};
