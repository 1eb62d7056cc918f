//! Why left imports do not agree.

use thiserror::Error;
use warg_values::{Memory, Text};

/// Why left imports do not agree.
#[derive(Debug, Drop, Error)]
pub enum MergeError {
    /// Two instances need different things under this name.
    #[error("the import `{0}` is needed as two unequal things: connect one of them, or take releases that agree")]
    Disagree(Text),
    /// No memory was left.
    #[error("out of memory: free some, or give the program more, and try again")]
    Memory,
}

impl From<Memory> for MergeError {
    ghost use Rattle.std.specs.Prelude.{◌≡◌};
    ghost use Rattle.compose_left.specs.declared.error.MergeError.TheVariants.{Memory};

    ghost from_gives = { λ _ e. e ≡ Memory };

    fn from(_error: Memory) -> MergeError {
        MergeError::Memory
    }
}
