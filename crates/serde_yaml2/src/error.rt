//! Why a value was not written.

ghost use Rattle.std.specs.Prelude.{◌≡◌};
ghost use Rattle.serde_yaml2.specs.declared.error.Errors.TheVariants.{Memory};

use std::alloc::AllocError;
use thiserror::Error;
use warg_values::{Memory as OutOfMemory, Text};

/// Why a value was not written.
#[derive(Debug, Drop, PartialEq, Eq, Error)]
pub enum Errors {
    /// Lists and maps are nested more than 64 deep.
    #[error("lists and maps are nested more than 64 deep; nest them less deep")]
    FormArgsError,
    /// A value has a form that is not supported: what it is.
    #[error("{0} are not supported; write them as a text")]
    UnsupportedSerializationError(Text),
    /// No memory was left.
    #[error("out of memory: free some, or give the program more, and try again")]
    Memory,
}

impl From<AllocError> for Errors {
    ghost from_gives = { λ _ e. e ≡ Memory };

    fn from(_error: AllocError) -> Errors {
        Errors::Memory
    }
}

impl From<OutOfMemory> for Errors {
    ghost from_gives = { λ _ e. e ≡ Memory };

    fn from(_error: OutOfMemory) -> Errors {
        Errors::Memory
    }
}
