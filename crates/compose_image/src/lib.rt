//! What is written for a composition of components, and its link image: definitions and their laws.
//!
//! The terms are those of the Component Model's `Explainer.md`. The crate has definitions (`specs`) and their laws, and
//! writes no bytes.

#![tactic(auto)]

pub mod laws;
