//! What definitions have for imports.

/// What a definition has for an import: an export that is an instance.
#[derive(Clone, Copy, Debug, PartialEq, Eq)]
pub struct Offer {
    /// The number of the definition's component.
    pub component: usize,
    /// The place of the export among the exports of that.
    pub export: usize,
}
