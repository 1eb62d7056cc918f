//! What instances leave open, where it agrees, can be written in its order: the laws.
//!
//! The terms are those of the Component Model's `Explainer.md`. The crate has definitions (`specs`) and their laws, and
//! writes no bytes.
#![tactic(auto)]

pub mod laws;
