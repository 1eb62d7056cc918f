//! The requests that calls of registries send. What each call sends stands in `specs/Requests` of `warg_exchange`.
#![tactic(auto)]

mod asker;
mod bodies;
mod headers;
mod paths;
mod plain;
mod upload;

pub use asker::Asker;
pub use plain::{plain_get, well_known_request};
pub use upload::{UploadError, upload_request};
