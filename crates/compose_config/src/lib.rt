//! The configuration of a composition, read from YAML text.
#![tactic(auto)]

mod arguments;
mod config;
mod copy;
mod index;
mod parts;

pub use arguments::{argument_for, stray_argument};
pub use config::Config;
pub use index::{FromText, index_map};
pub use parts::{Dependency, Instantiation, InstantiationArg};
