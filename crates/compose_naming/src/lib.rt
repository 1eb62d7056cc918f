//! What left imports are called in when they are written: one number for each named type, and naming bits.
//!
//! The terms are those of the Component Model's `Explainer.md`.
#![tactic(auto)]

mod entities;
pub mod laws;
mod lefts;
mod paths;
mod scopes;
mod settling;
mod values;

pub use compose_order::LeftImport;
pub use lefts::first_without_bit;
pub use settling::{settle, settled};
pub use warg_values::Memory;
