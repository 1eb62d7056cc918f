//! That what can be encoded is encoded, but for its numbers and want of memory.
#![tactic(auto)]

pub mod laws;
