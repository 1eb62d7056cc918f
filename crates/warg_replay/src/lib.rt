//! Plans, assembled by a client that has kept nothing: over any link, and over recorded replies.
#![tactic(auto)]

mod anew;
mod replayed;

pub use anew::{Assembled, assemble_anew};
pub use replayed::replay;
pub use warg_client::{ClientError, Lock, Other};
