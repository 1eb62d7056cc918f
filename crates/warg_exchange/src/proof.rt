//! Requests for proofs, and what answers them.

use warg_values::Sequence;

/// Which entries are to be proved to be in a registry's log and map.
#[derive(Debug, Drop)]
pub struct InclusionRequest {
    /// The length of the log, in records.
    pub log_length: u64,
    /// The entries' indices, counted from 0.
    pub leafs: Sequence<u64>,
}

/// Proofs that entries are in a registry's log and map.
#[derive(Debug, Drop)]
pub struct InclusionResponse {
    /// The bytes of the bundle of proofs over the log.
    pub log: Sequence<u8>,
    /// The bytes of the bundle of proofs over the map.
    pub map: Sequence<u8>,
}

/// Between which lengths of a registry's log consistency is to be proved.
#[derive(Clone, Copy, Debug, PartialEq, Eq)]
pub struct ConsistencyRequest {
    /// The older length, in records.
    pub from: u64,
    /// The newer length, in records.
    pub to: u64,
}

/// A proof that a registry's log continues an older one.
#[derive(Debug, Drop)]
pub struct ConsistencyResponse {
    /// The bytes of the bundle that holds the proof.
    pub proof: Sequence<u8>,
}
