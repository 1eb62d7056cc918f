//! Hashes, the ids of logs, records and keys, and the names of packages.
#![tactic(auto)]

mod hash;
pub mod laws;
mod name;

pub use hash::{AnyHash, KeyId, LogId, RecordId};
pub use name::{NameError, PackageName};
