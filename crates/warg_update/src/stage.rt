//! How far an update is.

use warg_exchange::Checkpoint;

/// How far an update is: what it asks for next.
#[derive(Clone, Copy, Debug, PartialEq, Eq)]
pub enum Stage {
    /// The latest checkpoint.
    Checkpoint,
    /// A page of the logs.
    Page,
    /// The inclusion of the logs' last records.
    Inclusion,
    /// The consistency with the stored checkpoint.
    Consistency {
        /// What the stored checkpoint says.
        from: Checkpoint,
    },
    /// Nothing: all checks have passed.
    Proved,
    /// Nothing: a reply was refused.
    Refused,
}
