//! The shapes that are read of WebAssembly components are as the laws of compositions ask: whole, well named, and of a
//! form that can be written.
//!
//! The terms are those of the Component Model's `Explainer.md`. The crate has laws, and reads and writes no bytes.
#![tactic(auto)]

pub mod laws;
