//! Pages of logs.

use indexmap::IndexMap;
use warg_hash::LogId;
use warg_values::{Sequence, Text};

/// A record as a registry publishes it.
#[derive(Debug, Drop)]
pub struct PublishedRecord {
    /// The record's message, as it was signed.
    pub content_bytes: Sequence<u8>,
    /// The text of the id of the key that signed it.
    pub key_id: Text,
    /// The text of the signature.
    pub signature: Text,
    /// The record's place in the registry's log, counted from 0.
    pub registry_index: u64,
    /// The text by which a later request says that the record is known.
    pub fetch_token: Text,
}

/// Which logs are asked for, and up to where they are known.
#[derive(Debug, Drop)]
pub struct FetchLogsRequest {
    /// The length of the registry's log that the records are to come from, in records.
    pub log_length: u64,
    /// The token of the last record of the operator's log that is known.
    pub operator: Option<Text>,
    /// The packages' logs, each with the token of its last record that is known.
    pub packages: IndexMap<LogId, Option<Text>>,
}

/// A page of logs.
#[derive(Debug, Drop)]
pub struct FetchLogsResponse {
    /// Whether more is to come.
    pub more: bool,
    /// Records of the operator's log, in order.
    pub operator: Sequence<PublishedRecord>,
    /// Records of packages' logs, in order, by the logs' ids.
    pub packages: IndexMap<LogId, Sequence<PublishedRecord>>,
}
