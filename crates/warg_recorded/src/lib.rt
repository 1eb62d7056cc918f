//! Files of recorded replies and of signatures that were checked.
#![tactic(auto)]

mod read;

pub use read::{FormError, read_checked, read_replies};
