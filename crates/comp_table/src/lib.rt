//! What a WebAssembly component imports and exports, by number: each type and each entity stands once, and shares its
//! parts with others.
//!
//! The terms are those of the Component Model's `Explainer.md`.
#![tactic(auto)]

mod head;
mod intern;
mod intern_entity;
mod key;
pub mod laws;
mod numbers;
mod table;

pub use head::Head;
pub use numbers::Numbers;
pub use table::{TypeNumber, TypeTable};
