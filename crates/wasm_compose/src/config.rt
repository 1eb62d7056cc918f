//! The configuration of a composition: what `compose_config` has, under the path of the Rust crate.

pub use compose_config::{
    Config, Dependency, FromText, Instantiation, InstantiationArg, index_map,
};
