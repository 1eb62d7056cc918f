//! Why a component could not be written.

ghost use Rattle.std.specs.Prelude.{◌≡◌};
ghost use Rattle.comp_format.specs.declared.error.EncodeError.TheVariants.{Memory as no_memory};

use std::alloc::{AllocError, AllocFailed};
use thiserror::Error;
use warg_values::Memory;

/// Why a component could not be written.
#[derive(Clone, Copy, Debug, PartialEq, Eq, Error)]
pub enum EncodeError {
    /// This length, count or index to be written, or number of items of one index space, is above 2^32 - 1.
    #[error("{0} is more than a component can count: make the component smaller")]
    TooLarge(u64),
    /// No memory was left.
    #[error("out of memory: free some, or give the program more, and try again")]
    Memory,
}

impl From<AllocError> for EncodeError {
    ghost from_gives = { λ _ e. e ≡ no_memory };

    fn from(_error: AllocError) -> EncodeError {
        EncodeError::Memory
    }
}

impl<T: Drop> From<AllocFailed<T>> for EncodeError {
    ghost from_gives = { λ _ e. e ≡ no_memory };

    fn from(_error: AllocFailed<T>) -> EncodeError {
        EncodeError::Memory
    }
}

impl From<Memory> for EncodeError {
    ghost from_gives = { λ _ e. e ≡ no_memory };

    fn from(_error: Memory) -> EncodeError {
        EncodeError::Memory
    }
}
