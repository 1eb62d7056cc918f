//! The registries of namespaces in a file.
#![tactic(auto)]

pub mod laws;
mod names;
mod storage;

pub use storage::FileSystemNamespaceMapStorage;
