//! What a failed call leaves.

/// What a call of a store in memory that is to fail leaves of the entries that it was to change.
///
/// A call that changes nothing leaves all as it was.
#[derive(Clone, Copy, Debug, PartialEq, Eq)]
pub enum After {
    /// They are as they were.
    Old,
    /// They are as the call was to make them.
    New,
    /// They can't be read. A call that was to take entries away leaves them as they were.
    Unreadable,
}
