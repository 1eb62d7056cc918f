//! The URLs of registries, and the names by which registries are told apart.
#![tactic(auto)]

mod domain;
mod error;
mod label;
mod registry_url;

pub use domain::{HeaderError, RegistryDomain};
pub use error::UrlError;
pub use registry_url::RegistryUrl;
