//! The logs of registry operators.

use crate::state;
pub use warg_record::operator::{OperatorEntry, Permission};

/// The state of a registry operator's log.
pub type LogState = state::LogState<OperatorEntry>;
