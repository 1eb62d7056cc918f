//! That what a component imports and exports has the form that writing asks for.
#![tactic(auto)]

pub mod laws;
