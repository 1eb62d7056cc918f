//! Sessions with honest registries, and the law that they are sessions: their updates prove their logs.
#![tactic(auto)]

pub mod laws;
