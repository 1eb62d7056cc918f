//! Other names for the resources and the places that types and entities mention, over the numbers of a table: what
//! opening a type of instances, an outer alias, an instance of a component and the closing of a component do.
//!
//! The terms are those of the Component Model's `Explainer.md`.
#![tactic(auto)]

mod heads;
mod names;
mod rename;

pub use names::Renaming;
pub use rename::renamed;
