//! Registries in memory that are a link: what is published to them is answered as registries do, at once and without
//! faults.
#![tactic(auto)]

mod answer;
mod ask;
mod key;
pub mod laws;
mod link;
mod registry;

pub use link::ContentBody;
pub use registry::ModelRegistry;
pub use warg_model::ModelError;
