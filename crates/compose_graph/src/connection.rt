//! Connections between instances.

/// A connection: an import of an instance is given another instance as a whole, or an export of one.
#[derive(Clone, Copy, Debug, PartialEq, Eq)]
pub struct Connection {
    /// The number of the instance that is given.
    pub source: usize,
    /// The place of the export that is given, where it is not the instance as a whole.
    pub export: Option<usize>,
    /// The number of the instance whose import it is.
    pub target: usize,
    /// The place of the import.
    pub import: usize,
}
