//! Compositions from a configuration and files: the components that a root needs are found among files, and wired.
#![tactic(auto)]

mod arguments;
mod builder;
mod choice;
mod composer;
mod config_error;
mod define;
mod error;
mod find;
mod from_file;
pub mod laws;
mod need;
mod offer;
mod paths;
mod serve;

pub use compose_config::Config;
pub use compose_graph::{ComposeError, GraphError};
pub use composer::{ComponentComposer, ROOT_COMPONENT_NAME};
pub use config_error::{ConfigError, ConfigRefusal};
pub use error::ComposerError;
pub use from_file::{FromFile, read_config};
pub use warg_base::{FileError, Files, Text};
