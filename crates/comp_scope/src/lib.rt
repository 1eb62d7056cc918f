//! What stands in the scopes of a WebAssembly component: their index spaces, their imports and exports, and so the
//! component's shape.
//!
//! The terms are those of the Component Model's `Explainer.md`. The crate has definitions (`specs`) and their laws, and
//! reads no bytes.
#![tactic(auto)]

pub mod laws;
