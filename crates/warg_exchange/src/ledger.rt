//! Where a registry's log is as a whole.

use warg_values::{Sequence, Text};

/// Where a part of a registry's log is.
#[derive(Debug, Drop)]
pub struct LedgerSource {
    /// The index of the part's first record, counted from 0.
    pub first_registry_index: u64,
    /// The index of the part's last record.
    pub last_registry_index: u64,
    /// The text of the part's URL.
    pub url: Text,
    /// The media type of what is there.
    pub content_type: Text,
}

/// Where a registry's log is, part by part.
#[derive(Debug, Drop)]
pub struct LedgerSourcesResponse {
    /// The name of the hash that the log is made with.
    pub hash_algorithm: Text,
    /// The parts, in order.
    pub sources: Sequence<LedgerSource>,
}
