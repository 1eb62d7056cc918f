//! One registry in memory, which is proved to be an honest one: its records in one growing list, the checkpoints of it,
//! and what it answers.
#![tactic(auto)]

mod checkpoint;
mod error;
mod growth;
mod hashes;
mod key;
pub mod laws;
mod page;
mod record;
mod registry;

pub use error::{LogsError, ModelError};
pub use growth::Growth;
pub use hashes::RegistryHashes;
pub use key::SigningKey;
pub use page::place_named;
pub use registry::ModelRegistry;
