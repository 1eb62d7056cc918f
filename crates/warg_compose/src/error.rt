//! Why a plan is not linked.

ghost use Rattle.std.specs.Prelude.{◌≡◌};
ghost use Rattle.warg_compose.specs.declared.error.ComposeError.TheVariants.{Memory as no_memory};

use compose_check::Why;
use thiserror::Error;
use warg_values::{Memory, Text};

/// Why a plan is not linked.
#[derive(Debug, Drop, Error)]
pub enum ComposeError {
    /// The import of this name is left open, and the text disallows imports.
    #[error("`{0}` is left open, and the plan disallows imports: give it an argument, or allow imports")]
    ImportsDisallowed(Text),
    /// What is wired, or left open, does not go together.
    #[error("{0}")]
    Incompatible(Why),
    /// This length, count or index to be written is above 2^32 - 1.
    #[error("{0} is more than a component can count: make the components smaller")]
    TooLarge(u64),
    /// No memory was left.
    #[error("out of memory: free some, or give the program more, and try again")]
    Memory,
}

impl From<Memory> for ComposeError {
    ghost from_gives = { λ _ e. e ≡ no_memory };

    fn from(_error: Memory) -> ComposeError {
        ComposeError::Memory
    }
}
