//! The update of a registry: its logs are fetched page by page, and proved by a checkpoint that its operator signed.
#![tactic(auto)]

mod error;
mod inclusion;
pub mod laws;
mod page;
mod settings;
mod showing;
mod signature;
mod stage;
mod step;
mod succession;
mod turn;

pub use error::{AskError, UpdateError};
pub use inclusion::verify_heads;
pub use settings::Settings;
pub use signature::{SignatureError, check_signature};
pub use step::{ProvedInfos, ProvedLogs, UpdateStep};
pub use succession::{Succession, compare};
