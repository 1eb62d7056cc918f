//! Why bytes are no component.

ghost use Rattle.std.specs.Prelude.{◌≡◌};
ghost use Rattle.comp_reader.specs.declared.error.ReadError.TheVariants.{Memory as no_memory};

use std::alloc::{AllocError, AllocFailed};
use thiserror::Error;
use warg_values::Memory;

/// Why bytes could not be read as a component. The number is the place of the fault, in bytes from the start.
#[derive(Clone, Copy, Debug, PartialEq, Eq, Error)]
pub enum ReadError {
    /// No form of the format stands there.
    #[error("the bytes at {0} are no part of a component: check that the file is whole, and a component")]
    Form(usize),
    /// A form stands there that is not carried, as values, start sections and asynchronous functions.
    #[error("the bytes at {0} are of a form that is not supported: leave out what uses it")]
    NotCarried(usize),
    /// No memory was left, or more than 200 scopes were open at one place.
    #[error("out of memory, or more than 200 scopes are open at one place: free some memory, or nest less")]
    Memory,
}

impl From<AllocError> for ReadError {
    ghost from_gives = { λ _ e. e ≡ no_memory };

    fn from(_error: AllocError) -> ReadError {
        ReadError::Memory
    }
}

impl<T: Drop> From<AllocFailed<T>> for ReadError {
    ghost from_gives = { λ _ e. e ≡ no_memory };

    fn from(_error: AllocFailed<T>) -> ReadError {
        ReadError::Memory
    }
}

impl From<Memory> for ReadError {
    ghost from_gives = { λ _ e. e ≡ no_memory };

    fn from(_error: Memory) -> ReadError {
        ReadError::Memory
    }
}
