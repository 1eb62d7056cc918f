//! Why bytes are no record.

ghost use Rattle.std.specs.Prelude.{◌≡◌};
ghost use Rattle.warg_record.specs.declared.error.EnvelopeError.TheVariants.{Memory as WantsMemory};

use std::alloc::{AllocError, AllocFailed};
use thiserror::Error;
use warg_values::Memory;

/// Why an envelope was not read.
#[derive(Clone, Copy, Debug, PartialEq, Eq, Error)]
pub enum EnvelopeError {
    /// The contents, the key id or the signature has not its form.
    #[error("the contents, key id or signature has not the form of a signed record: ask its sender for it again")]
    Form,
    /// No memory was left.
    #[error("out of memory: free some, or give the program more, and try again")]
    Memory,
}

impl From<AllocError> for EnvelopeError {
    ghost from_gives = { λ _ e. e ≡ WantsMemory };

    fn from(_error: AllocError) -> EnvelopeError {
        EnvelopeError::Memory
    }
}

impl<T: Drop> From<AllocFailed<T>> for EnvelopeError {
    ghost from_gives = { λ _ e. e ≡ WantsMemory };

    fn from(_error: AllocFailed<T>) -> EnvelopeError {
        EnvelopeError::Memory
    }
}

impl From<Memory> for EnvelopeError {
    ghost from_gives = { λ _ e. e ≡ WantsMemory };

    fn from(_memory: Memory) -> EnvelopeError {
        EnvelopeError::Memory
    }
}
