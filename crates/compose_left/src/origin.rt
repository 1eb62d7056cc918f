//! Where a resource or a named type comes from.

use crate::path::Path;
use crate::spots::Thing;
use warg_values::Text;

/// Where a resource, or a named type, of an instance comes from.
#[derive(Debug, Drop)]
pub enum Origin {
    /// It is what an import that is left open brings, or names as a type.
    Left {
        /// The name of the import.
        import: Text,
        /// The path of names in it.
        path: Path,
    },
    /// An instance makes it, or names it as a type.
    Made {
        /// The number of the instance.
        instance: usize,
        /// Its number among what the instance makes or names.
        number: usize,
    },
    /// An instance exports it, as a type that nothing names.
    Given {
        /// The number of the instance.
        instance: usize,
        /// The path of names in its exports.
        path: Path,
    },
}

/// A resource, or a named type, of an instance.
#[derive(Clone, Copy, Debug, PartialEq, Eq, PartialOrd, Ord)]
pub struct Held {
    /// The number of the instance.
    pub instance: usize,
    /// What it is called there.
    pub thing: Thing,
}

/// One step along the wires.
#[derive(Debug, Drop)]
pub enum Step {
    /// Here is where it comes from.
    Ends(Origin),
    /// It is this of another instance.
    Goes(Held),
}
