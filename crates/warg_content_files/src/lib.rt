//! Contents in files, each in one that is named by its digest.
#![tactic(auto)]

pub mod laws;
mod storage;

pub use storage::FileSystemContentStorage;
