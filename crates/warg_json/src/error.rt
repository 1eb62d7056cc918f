//! Why a value has no meaning.

ghost use Rattle.std.specs.Prelude.{◌≡◌};
ghost use Rattle.warg_json.specs.declared.error.BodyError.TheVariants.{Memory as WantsMemory};

use std::alloc::{AllocError, AllocFailed};
use thiserror::Error;
use warg_values::{Memory, Text};

/// Why a JSON value is not what was to be read.
#[derive(Debug, Drop, Error)]
pub enum BodyError {
    /// A member is missing, or a value has another form.
    #[error("a member is missing or has another form: check that this is the URL of a registry")]
    Unexpected,
    /// A text that is to name a hash names none.
    #[error("`{0}` is not the text of a hash: check that this is the URL of a registry")]
    NoHash(Text),
    /// No memory was left.
    #[error("out of memory: free some, or give the program more, and try again")]
    Memory,
}

impl From<Memory> for BodyError {
    ghost from_gives = { λ _ e. e ≡ WantsMemory };

    fn from(_memory: Memory) -> BodyError {
        BodyError::Memory
    }
}

impl From<AllocError> for BodyError {
    ghost from_gives = { λ _ e. e ≡ WantsMemory };

    fn from(_error: AllocError) -> BodyError {
        BodyError::Memory
    }
}

impl<T: Drop> From<AllocFailed<T>> for BodyError {
    ghost from_gives = { λ _ e. e ≡ WantsMemory };

    fn from(_error: AllocFailed<T>) -> BodyError {
        BodyError::Memory
    }
}
