//! The heads of logs.

use warg_hash::RecordId;
use warg_values::Moment;

/// The last record of a log.
#[derive(Clone, Copy, Debug, PartialEq, Eq)]
pub struct Head {
    /// The record's id.
    pub digest: RecordId,
    /// The record's time.
    pub time: Moment,
}
