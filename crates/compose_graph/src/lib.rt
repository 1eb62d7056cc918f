//! Components that are linked: instances of them, and the connections between these.
#![tactic(auto)]

mod components;
mod compose_error;
mod composed;
mod connection;
mod connections;
mod encoding;
mod error;
mod graph;
mod ids;
mod instances;
pub mod laws;
mod loose;
mod options;
mod part;
mod places;

pub use compose_component::{Component, ExportIndex, ImportIndex};
pub use compose_error::ComposeError;
pub use error::GraphError;
pub use graph::CompositionGraph;
pub use ids::{ComponentId, InstanceId};
pub use options::EncodeOptions;
pub use warg_base::Text;
