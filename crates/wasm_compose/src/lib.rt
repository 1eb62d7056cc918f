//! Linking components: components, instances of them and the connections between these as a graph, which is encoded as one
//! component; the configuration of a composition; and its composer.
//!
//! The crate hands on what `compose_graph`, `compose_component`, `compose_config` and `compose_files` have, under the paths of
//! the Rust crate.
#![tactic(auto)]

pub mod composer;
pub mod config;
pub mod graph;

pub use compose_check::{CheckError, Why};
pub use compose_component::{
    ComponentError, Entity, FileError, Files, Shape, ShapeError, Sort, Text, TypeRef, read_shape,
};
