//! What a client keeps of registries and of what is to be published, in files.
#![tactic(auto)]

pub mod laws;
mod paths;
mod storage;

pub use storage::FileSystemRegistryStorage;
