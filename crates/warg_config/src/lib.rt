//! The configuration of a client: where its home registry is and where it keeps what it stores, in a file that is read,
//! written and searched for.
#![tactic(auto)]

mod config;
mod dirs;
mod error;
pub mod laws;
mod paths;
mod reading;
mod writing;

pub use config::Config;
pub use dirs::{Dirs, StoragePaths};
pub use error::ClientConfigError;
