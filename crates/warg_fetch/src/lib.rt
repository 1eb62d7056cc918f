//! What a plan needs of registries, fetched: the logs of packages, by updates from what stores hold, and contents, from
//! a store or by a download.
#![tactic(auto)]

mod content;
mod error;
mod fetch;
mod group;
mod keep;
pub mod laws;
mod package;
mod registry;
mod start;

pub use content::fetch_content;
pub use error::{FetchError, LoadError};
pub use group::GroupUpdate;
pub use keep::keep_update;
pub use package::{Fetcher, PackageUpdate, domain_copy};
pub use registry::registry_for;
