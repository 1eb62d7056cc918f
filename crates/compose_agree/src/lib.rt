//! Whether what is left open in a composition agrees, and in which order it is written.
//!
//! The terms are those of the Component Model's `Explainer.md`.
#![tactic(auto)]

pub mod laws;
mod letter_case;
mod order;
mod turns;

pub use letter_case::{CaseClash, Named, case_clash};
pub use order::{Order, order_of};
