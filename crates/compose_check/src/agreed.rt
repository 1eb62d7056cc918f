//! Compositions that can be written.

use compose_left::Origins;
use compose_order::LeftImport;

/// What is found of a composition that can be written.
#[derive(Drop)]
pub struct Agreed {
    /// The instances in the order in which they are written: of those of which all that they are given is written,
    /// always the one that was made first.
    pub order: Vec<usize>,
    /// What the instances leave open, merged, in the order in which it is written.
    pub lefts: Vec<LeftImport>,
    /// Where the resources and named types of the instances come from.
    pub origins: Origins,
}
