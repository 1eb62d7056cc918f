//! What a WebAssembly component imports and exports, as types with all indices followed, and which of these can be
//! given where another is asked for.
//!
//! The terms are those of the Component Model's `Explainer.md`.
#![tactic(auto)]

mod entity;
mod fit;
pub mod laws;
mod module;
mod modules;
mod names;
mod naming;
mod values;

pub use comp_format::{CoreVal, Limits, Primitive};
pub use entity::{ComponentShape, Entity, FuncShape, InstanceShape, Shape, TypeShape, ValueShape};
pub use fit::{equal, fits};
pub use module::{CoreShape, ModuleShape};
pub use names::{ResourceNo, TypeNo};
