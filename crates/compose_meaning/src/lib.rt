//! What is written for types of WebAssembly components reads back as what was meant: the invariant, and its laws.
//!
//! The terms are those of the Component Model's `Explainer.md`. The crate has definitions (`specs`) and their laws, and
//! writes no bytes.
#![tactic(auto)]

pub mod laws;
