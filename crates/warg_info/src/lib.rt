//! What a client keeps of the logs of registries: their records with places and tokens, and the states that they make.
#![tactic(auto)]

mod error;
pub mod laws;
mod log;
mod operator;
mod package;
mod registry;
mod replay;

pub use error::{ReplayError, TakeError};
pub use log::{KeptRecord, LogInfo};
pub use operator::OperatorInfo;
pub use package::PackageInfo;
