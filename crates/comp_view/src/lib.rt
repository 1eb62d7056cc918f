//! Types and entities of WebAssembly components taken out of a table: what a number stands for, as it lies in memory.
//!
//! The terms are those of the Component Model's `Explainer.md`.
#![tactic(auto)]

mod entities;
pub mod laws;
mod modules;
mod parts;
mod values;
mod view;

pub use view::{entity_at, func_at, module_at, type_at, value_at};
