//! Plans, linked: contents read as components, and the component that a plan makes.
#![tactic(auto)]

mod error;
pub mod laws;
mod link;
mod lock;
mod open;
mod reader;
mod releases;
mod wires;

pub use comp_shape::ShapeError;
pub use compose_check::Why;
pub use error::ComposeError;
pub use link::{Linked, compose_plan, lock_plan};
pub use lock::Lock;
pub use reader::ComponentReader;
