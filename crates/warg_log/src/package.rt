//! The logs of packages.

use crate::state;
pub use warg_record::package::{PackageEntry, Permission};

/// The state of a package's log.
pub type LogState = state::LogState<PackageEntry>;
