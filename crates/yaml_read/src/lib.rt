//! Typed values read from YAML text.
#![tactic(auto)]

mod any;
mod bracket;
mod collection;
mod deserializer;
mod error;
mod impls;
mod list;
mod read;
mod same;
mod text;
mod wrapper;

pub use deserializer::YamlDeserializer;
pub use error::DeError;
pub use read::{MapFill, ReadYaml, SeqFill};
pub use text::from_str;
pub use wrapper::YamlNodeWrapper;
pub use yaml_small::Marker;
