//! What the numbers of a table of types mention: resources, and places that named types, each where it is mentioned first.
//! This is how a component numbers what it makes.
//!
//! The terms are those of the Component Model's `Explainer.md`.
#![tactic(auto)]

mod heads;
pub mod laws;
mod walk;
mod what;

pub use walk::first_mentioned;
pub use what::What;
