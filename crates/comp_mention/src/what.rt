//! What is looked for among mentions.

/// What is looked for among mentions.
#[derive(Clone, Copy, Debug, PartialEq, Eq)]
pub enum What {
    /// Resources.
    Resources,
    /// Places that named types.
    Places,
}
