//! Why published records are not kept.

ghost use Rattle.std.specs.Prelude.{◌≡◌};
ghost use Rattle.warg_info.specs.Faults.{take_error, replay_error};
ghost use Rattle.warg_info.specs.declared.error.TakeError.TheVariants.{Memory as WantsMemory};

use std::alloc::{AllocError, AllocFailed};
use thiserror::Error;
use warg_log::ValidationError;
use warg_values::Memory;

/// Why a published record is not kept.
#[derive(Debug, Drop, Error)]
pub enum TakeError {
    /// The contents, the key id or the signature has not its form.
    #[error("a published record has not the form of a signed record: tell the registry's operator")]
    BadEnvelope,
    /// The record breaks a rule of its log.
    #[error("{0}")]
    Unlawful(ValidationError),
    /// No memory was left.
    #[error("out of memory: free some, or give the program more, and try again")]
    Memory,
}

impl From<Memory> for TakeError {
    ghost from_gives = { λ _ e. e ≡ WantsMemory };

    fn from(_memory: Memory) -> TakeError {
        TakeError::Memory
    }
}

impl From<AllocError> for TakeError {
    ghost from_gives = { λ _ e. e ≡ WantsMemory };

    fn from(_error: AllocError) -> TakeError {
        TakeError::Memory
    }
}

impl<T: Drop> From<AllocFailed<T>> for TakeError {
    ghost from_gives = { λ _ e. e ≡ WantsMemory };

    fn from(_error: AllocFailed<T>) -> TakeError {
        TakeError::Memory
    }
}

impl From<ValidationError> for TakeError {
    ghost from_gives = { λ e t. t ≡ take_error e };

    fn from(error: ValidationError) -> TakeError {
        match error {
            ValidationError::Memory => TakeError::Memory,
            error => TakeError::Unlawful(error),
        }
    }
}

/// Why stored records make no log.
#[derive(Debug, Drop, Error)]
pub enum ReplayError {
    /// The place of a record is not above that of the one before it.
    #[error("the places of the stored records do not ascend: reset the stored state of this registry")]
    NotAscending,
    /// The contents, the key id or the signature of a record has not its form.
    #[error("a stored record has not the form of a signed record: reset the stored state of this registry")]
    BadEnvelope,
    /// A record breaks a rule of its log.
    #[error("{0}")]
    Unlawful(ValidationError),
    /// No memory was left.
    #[error("out of memory: free some, or give the program more, and try again")]
    Memory,
}

impl From<TakeError> for ReplayError {
    ghost from_gives = { λ e r. r ≡ replay_error e };

    fn from(error: TakeError) -> ReplayError {
        match error {
            TakeError::BadEnvelope => ReplayError::BadEnvelope,
            TakeError::Unlawful(error) => ReplayError::Unlawful(error),
            TakeError::Memory => ReplayError::Memory,
        }
    }
}
