//! Why a text is no import's name.

ghost use Rattle.std.specs.Prelude.{◌≡◌};
ghost use Rattle.warg_names.specs.declared.error.ImportNameError.TheVariants.{Memory as WantsMemory};

use thiserror::Error;
use warg_values::{Memory, Text};

/// Why a text is no import's name, with the place of the byte at which it stops being one. Places count from the parser's
/// offset.
#[derive(Debug, Drop, Error)]
pub enum ImportNameError {
    /// This mark does not stand at the place.
    #[error("the import name has no `{0}` at byte {1}: write it there")]
    Expected(Text, usize),
    /// No label begins at the place.
    #[error("no label begins at byte {0} of the import name: write lower-case words joined by `-`")]
    NotKebab(usize),
    /// No version begins at the place.
    #[error("no version begins at byte {0} of the import name: write one as `1.2.3`")]
    NotVersion(usize),
    /// The name has ended at the place, and more follows.
    #[error("the import name ends at byte {0}: remove what follows")]
    Trailing(usize),
    /// No memory was left.
    #[error("out of memory: free some, or give the program more, and try again")]
    Memory,
}

impl From<Memory> for ImportNameError {
    ghost from_gives = { λ _ e. e ≡ WantsMemory };

    fn from(_memory: Memory) -> ImportNameError {
        ImportNameError::Memory
    }
}
