//! What a WebAssembly component makes and exports: instances, core instances, canonical definitions and exports, with
//! numbers of a table of types in place of trees.
//!
//! The terms are those of the Component Model's `Explainer.md`.
#![tactic(auto)]

mod canons;
mod core_instances;
mod exports;
mod fitting;
mod instances;
mod instantiating;
mod items;
mod own_modules;

pub use canons::add_canon;
pub use core_instances::add_core_instance;
pub use exports::export;
pub use instances::add_instance;
