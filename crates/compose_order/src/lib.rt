//! What imports that are left open in a composition need of each other, and the order in which they are written.
//!
//! The terms are those of the Component Model's `Explainer.md`.
#![tactic(auto)]

mod calls;
mod clash;
mod error;
mod known;
pub mod laws;
mod left;
mod needs;
mod order;

pub use error::OrderError;
pub use left::LeftImport;
pub use order::ordered;
