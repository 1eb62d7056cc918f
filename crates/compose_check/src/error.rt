//! Why compositions are refused.

use thiserror::Error;
use warg_values::{Memory, Text};

/// Why what a composition joins, or leaves open, does not go together.
#[derive(Debug, Drop, Error)]
pub enum Why {
    /// An instance as a whole is given to an import, of this name, that is none.
    #[error("the import `{0}` is no instance: give it an export of that sort")]
    NotInstance(Text),
    /// What is given to an import does not fit: the name of the export, or of the first one that is asked for of an
    /// instance, and that of the import.
    #[error("the export `{0}` does not fit the import `{1}`: give it another one, or take another release")]
    Unfit(Text, Text),
    /// What several instances ask under this name can't be one import.
    #[error("what is asked under the name `{0}` differs: connect one of these imports, or take other releases")]
    Disagree(Text),
    /// Two names differ in the case of letters alone: the one that is needed first, and the other.
    #[error("`{0}` and `{1}` differ in the case of letters alone: connect one of them, or give it another name")]
    CaseClash(Text, Text),
    /// The import of this name mentions a type that it can't have there, or a function in it a type of which a part has
    /// no name where it is written.
    #[error("the import `{0}` mentions a type that it can't have there: connect it, or take another release of it")]
    NeedsUnbrought(Text),
    /// The import of this name has no place in an order, since imports need types of each other in a circle.
    #[error("the import `{0}` has no place, since imports need types of each other in a circle: connect one of them")]
    Circle(Text),
    /// The export, or the import or export of a component that is imported, of this name mentions what can't be had.
    #[error("`{0}` mentions a type that can't be had outside: export it too, or leave this export out")]
    ExportNeeds(Text),
}

/// Why a composition is refused.
#[derive(Debug, Drop, Error)]
pub enum CheckError {
    /// Instances are given to each other in a circle: the number of the last one on a circle, and the name of its
    /// component.
    #[error("instance {0}, of the component `{1}`, is given what needs it: take one connection on this way away")]
    Cycle(usize, Text),
    /// What is joined, or left open, does not go together.
    #[error("{0}")]
    Incompatible(Why),
    /// No memory was left.
    #[error("out of memory: free some, or give the program more, and try again")]
    Memory,
}

impl From<Memory> for CheckError {
    ghost use Rattle.std.specs.Prelude.{◌≡◌};
    ghost use Rattle.compose_check.specs.declared.error.CheckError.TheVariants.{Memory};

    ghost from_gives = { λ _ e. e ≡ Memory };

    fn from(_error: Memory) -> CheckError {
        CheckError::Memory
    }
}
