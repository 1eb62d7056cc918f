//! Typed values read from YAML text and written as YAML text, with the law that values come back.
//!
//! The reads are those of the crate `yaml_read`; this crate adds the writer and the round trip.
#![tactic(auto)]

mod collection;
mod error;
mod impls;
pub mod laws;
mod level;
mod list;
mod node;
mod round_trip;
mod serializer;
mod text;
mod write;

pub use collection::{MapSerializer, SequenceSerializer};
pub use error::Errors;
pub use round_trip::RoundTrip;
pub use serializer::YamlSerializer;
pub use text::to_string;
pub use write::WriteYaml;
pub use yaml_read::{
    DeError, MapFill, ReadYaml, SeqFill, YamlDeserializer, YamlNodeWrapper, from_str,
};
