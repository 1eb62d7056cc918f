//! Why a registry refuses.

ghost use Rattle.std.specs.Prelude.{◌≡◌};
ghost use Rattle.warg_model.specs.declared.error.LogsError.TheVariants.{Memory as LogsWantMemory};
ghost use Rattle.warg_model.specs.declared.error.ModelError.TheVariants.{Memory as WantsMemory};

use std::alloc::{AllocError, AllocFailed};
use thiserror::Error;
use warg_hash::LogId;
use warg_values::{Memory, Text};

/// Why a version is not published or yanked, or a registry does not grow.
#[derive(Clone, Copy, Debug, PartialEq, Eq, Error)]
pub enum ModelError {
    /// The version was released before. It may be yanked since.
    #[error("the package has this version already: publish another")]
    ReleaseAgain,
    /// The version was not released, or is yanked.
    #[error("the package has no such version, or it is yanked: yank one that stands")]
    NotReleased,
    /// The version has not the form of SemVer 2.0, as one that was put together of its parts.
    #[error("the version has not the form of SemVer 2.0: publish one that was read from a text")]
    BadVersion,
    /// No memory was left.
    #[error("out of memory: free some, or give the program more, and try again")]
    Memory,
}

impl From<Memory> for ModelError {
    ghost from_gives = { λ _ e. e ≡ WantsMemory };

    fn from(_memory: Memory) -> ModelError {
        ModelError::Memory
    }
}

impl From<AllocError> for ModelError {
    ghost from_gives = { λ _ e. e ≡ WantsMemory };

    fn from(_error: AllocError) -> ModelError {
        ModelError::Memory
    }
}

impl<T: Drop> From<AllocFailed<T>> for ModelError {
    ghost from_gives = { λ _ e. e ≡ WantsMemory };

    fn from(_error: AllocFailed<T>) -> ModelError {
        ModelError::Memory
    }
}

/// Why a registry answers no page of logs.
#[derive(Debug, Drop, Error)]
pub enum LogsError {
    /// The log of this id has no record below the length.
    #[error("there is no log `{0}`: ask for a package that has a release")]
    LogNotFound(LogId),
    /// The token names no record of its log below the length.
    #[error("no record of the log has the token `{0}`: ask for the whole log")]
    FetchTokenNotFound(Text),
    /// No memory was left.
    #[error("out of memory: free some, or give the program more, and try again")]
    Memory,
}

impl From<Memory> for LogsError {
    ghost from_gives = { λ _ e. e ≡ LogsWantMemory };

    fn from(_memory: Memory) -> LogsError {
        LogsError::Memory
    }
}

impl From<AllocError> for LogsError {
    ghost from_gives = { λ _ e. e ≡ LogsWantMemory };

    fn from(_error: AllocError) -> LogsError {
        LogsError::Memory
    }
}

impl<T: Drop> From<AllocFailed<T>> for LogsError {
    ghost from_gives = { λ _ e. e ≡ LogsWantMemory };

    fn from(_error: AllocFailed<T>) -> LogsError {
        LogsError::Memory
    }
}
