//! The bytes of compositions.
//!
//! The terms are those of the Component Model's `Explainer.md`.
#![tactic(auto)]

mod agreed;
mod components;
mod encode;
mod exports;
mod instances;
pub mod laws;
mod lookups;
mod output;
mod part;
mod refused;
mod refusing;
mod tables;
mod used;
mod whole;
mod wires;

pub use agreed::encode_agreed;
pub use comp_encoder::EncodeError;
pub use compose_check::Composition;
pub use compose_imports::Imported;
pub use compose_order::LeftImport;
pub use encode::encode_behind;
pub use refused::CompositionError;
pub use refusing::{first_clash, first_hidden};
pub use whole::encode_composition;
