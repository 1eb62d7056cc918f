//! Sessions of plans: what a client asks registries for while it looks for a plan, and the plan over the logs that
//! these exchanges prove.
#![tactic(auto)]

pub mod laws;
mod reader;

pub use reader::ContentReader;
