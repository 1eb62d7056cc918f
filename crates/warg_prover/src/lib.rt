//! What a registry, a mirror or a monitor answers with: proofs over a log and over a map, as `warg_proof` judges them.
#![tactic(auto)]

mod fault;
mod hashes;
pub mod laws;
mod map_hashes;
mod needed;
mod nodes;
mod subtree;

pub use fault::ProverFault;
pub use hashes::LogHashes;
pub use map_hashes::MapHashes;
