//! What an index stands for.

/// What an index stands for: the number of an entity in a table, and a truth value. That of a value type, or of a type
/// of functions, is whether each of its parts has the naming bit. That of a resource is whether it was imported or
/// exported. That of all else is the naming bit itself (`Explainer.md`, "Import and Export Definitions").
#[derive(Clone, Copy, Debug, PartialEq, Eq)]
pub struct Standing {
    /// The number of the entity in the table.
    pub number: usize,
    /// The truth value.
    pub named: bool,
}
