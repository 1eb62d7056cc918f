//! Whether the wires of a composition fit: whether what each gives can be given where it is asked for.
//!
//! The terms are those of the Component Model's `Explainer.md`.
#![tactic(auto)]

mod entries;
mod fit;
pub mod laws;
mod misfit;
mod naming;
mod numbered;
mod wire;

pub use fit::first_misfit;
pub use misfit::{Misfit, Unfit};
pub use numbered::ShapeNumbers;
