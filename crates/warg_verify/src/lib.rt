//! Verifying what registries show by bundles of proofs: that leaves are in a checkpoint's log and map, and that a log
//! continues an older one (RFC 6962, sections 2.1.1 and 2.1.2).
#![tactic(auto)]

mod bundle;
mod consistency;
mod inclusion;

pub use consistency::verify_consistency;
pub use inclusion::verify_inclusion;
