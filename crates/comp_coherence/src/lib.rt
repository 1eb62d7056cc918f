//! In the shape of a WebAssembly component one name stands for one type.
//!
//! The terms are those of the Component Model's `Explainer.md`. The crate has a definition (`specs`) and its laws, and
//! reads no bytes.
#![tactic(auto)]

pub mod laws;
