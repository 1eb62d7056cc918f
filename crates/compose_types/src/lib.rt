//! What a WebAssembly component imports and exports, written as types.
//!
//! The terms are those of the Component Model's `Explainer.md`.
#![tactic(auto)]

mod body;
mod encoder;
mod entities;
mod inner;
mod known;
pub mod laws;
mod modules;
mod notes;
mod open;
mod sights;
mod state;
mod values;

pub use body::Scope;
pub use comp_encoder::{ComponentBuilder, EncodeError};
pub use comp_entity::{Entity, ModuleShape, Shape, TypeNo};
pub use comp_format::{ComponentType, InstanceType, ModuleType, TypeRef};
pub use encoder::TypeEncoder;
pub use state::TypeState;
