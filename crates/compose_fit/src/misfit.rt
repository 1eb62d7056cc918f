//! Wires that do not fit.

use warg_values::Text;

/// Why what a wire gives does not fit what its import asks for.
#[derive(Debug, Drop)]
pub enum Unfit {
    /// The wire gives an instance as a whole, and the import is none.
    NotInstance,
    /// The export of this name does not: the one that the wire gives, or the first one that is asked for of an instance.
    Export(Text),
}

/// A wire that does not fit.
#[derive(Debug, Drop)]
pub struct Misfit {
    /// The number of the instance into which it goes.
    pub target: usize,
    /// The name of the import into which it goes.
    pub import: Text,
    /// Why it does not fit.
    pub why: Unfit,
}
