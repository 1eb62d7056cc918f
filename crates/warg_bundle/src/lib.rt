//! Components, bundled with the contents of the releases that their imports ask for.
#![tactic(auto)]

mod asked;
mod bundle;
mod error;
mod learning;

pub use bundle::bundle_releases;
pub use error::BundleError;
