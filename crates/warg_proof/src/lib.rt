//! Proofs over a registry's log and map: that an entry is in a log, that a log continues an older one, and that a value
//! is in a map.
//!
//! Nothing here assumes that SHA-256 has no collisions. Where a proof could lie, `laws` say that two different byte
//! strings of one hash are computed from it.
#![tactic(auto)]

mod empty_root;
mod fault;
mod hashing;
pub mod laws;
mod leaf;
mod log_bundle;
mod map_bundle;
mod node;
mod ranges;
mod reading;
mod root;
mod verdict;
mod writing;

pub use fault::ProofFault;
pub use hashing::{branch_hash, has_bit, leaf_hash};
pub use leaf::{LogLeaf, MapLeaf};
pub use log_bundle::LogBundle;
pub use map_bundle::{MapBundle, SiblingPath};
pub use node::{Consistency, Inclusion, Node};
pub use root::{hashed_root, log_root};
