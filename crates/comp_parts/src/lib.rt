//! The parts of a WebAssembly component read into scopes, with numbers of a table of types in place of trees, and the
//! shape that they give: what the component imports and exports.
//!
//! The terms are those of the Component Model's `Explainer.md`.
#![tactic(auto)]

mod component;
mod error;
mod items;
mod parts;
mod shape;

pub use component::shape_of;
pub use error::{PartError, ShapeError};
pub use parts::read_scope;
pub use shape::shape_at;
