//! Calls of registries: each sends its requests through a link, and answers what the replies say.
#![tactic(auto)]

mod ask;
mod client;
mod download;
mod error;
mod link;
mod proving;
mod recorded;
mod reply;
mod service;
mod streams;
mod uploads;
mod well_known;

pub use client::Client;
pub use error::{ClientError, Other, ProofError, consistency_error, inclusion_error};
pub use link::Link;
pub use recorded::{RecordedBody, RecordedLink};
pub use reply::{read_checkpoint, read_consistency, read_inclusion, read_logs};
pub use warg_body::{DigestError, LinkError, StreamError, ValidatedStream};
