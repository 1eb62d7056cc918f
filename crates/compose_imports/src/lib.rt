//! Imports of compositions, written.
//!
//! The terms are those of the Component Model's `Explainer.md`.
#![tactic(auto)]

mod begun;
mod calls;
mod imported;
pub mod laws;
mod left;

pub use comp_encoder::{ComponentBuilder, EncodeError};
pub use compose_check::Composition;
pub use compose_order::LeftImport;
pub use imported::{Imported, write_imports};
pub use warg_values::{Memory, Text};
