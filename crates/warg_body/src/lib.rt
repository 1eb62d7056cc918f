//! Bodies of replies as streams, and a stream whose content is checked against its digest while it is read.
#![tactic(auto)]

mod error;
pub mod laws;
mod validated;

pub use error::{DigestError, LinkError, StreamError};
pub use validated::ValidatedStream;
