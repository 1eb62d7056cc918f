//! Names of the packages that logs belong to.

use indexmap::IndexMap;
use warg_hash::{LogId, PackageName};

/// The names of the packages that logs belong to, where the registry tells them.
#[derive(Debug, Drop)]
pub struct FetchPackageNamesResponse {
    /// A name for each log that was asked for, where there is one.
    pub packages: IndexMap<LogId, Option<PackageName>>,
}
