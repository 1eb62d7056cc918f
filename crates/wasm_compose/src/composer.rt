//! Composing from a configuration and files: what `compose_files` has, under the path of the Rust crate.

pub use compose_files::{
    ComponentComposer, ComposerError, ConfigError, ConfigRefusal, FromFile, ROOT_COMPONENT_NAME,
    read_config,
};
