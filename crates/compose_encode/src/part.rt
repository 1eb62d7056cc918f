//! Exports of instances.

/// An export of an instance, by the numbers of both.
#[derive(Clone, Copy, Debug, PartialEq, Eq, PartialOrd, Ord)]
pub struct Part {
    /// The instance.
    pub instance: usize,
    /// The number of the export.
    pub export: usize,
}
