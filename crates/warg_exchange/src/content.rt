//! Where contents are.

use indexmap::IndexMap;
use warg_hash::AnyHash;
use warg_values::{Sequence, Text};

/// Where a content is.
#[derive(Debug, Drop)]
pub enum ContentSource {
    /// It is got by a request.
    HttpGet {
        /// The text of the content's URL.
        url: Text,
    },
}

/// Where contents are, by their digests.
#[derive(Debug, Drop)]
pub struct ContentSourcesResponse {
    /// The sources of each content, in the order in which they are to be tried.
    pub content_sources: IndexMap<AnyHash, Sequence<ContentSource>>,
}
