//! What entities mention of the scopes around them, whether it is named there or earlier, and whether exports mention
//! only what can be had.
//!
//! The terms are those of the Component Model's `Explainer.md`.
#![tactic(auto)]

mod exports;
pub mod laws;
mod leaves;
mod mentions;
mod place;
mod tied;
mod values;

pub use exports::{component_needs, export_needs};
pub use leaves::{Leaf, leaves_at};
pub use mentions::mentioned;
pub use place::Place;
pub use tied::{are_tied, entity_holds_tied};
