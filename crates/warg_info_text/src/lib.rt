//! Checkpoints and logs as texts that are kept: JSON that is read and written.
#![tactic(auto)]

mod reading;
mod replay;
mod stored;
mod values;
mod writing;

pub use reading::{read_checkpoint, read_operator, read_package};
pub use writing::{write_checkpoint, write_operator, write_package};
