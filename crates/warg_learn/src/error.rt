//! Why something is not learnt.

ghost use Rattle.std.specs.Prelude.{◌≡◌};
ghost use Rattle.warg_learn.specs.Refusals.{fetch_refusal, load_refusal};
ghost use Rattle.warg_learn.specs.declared.error.LearnError.TheVariants.{Memory as WantsMemory};

use std::fmt;
use thiserror::Error;
use warg_fetch::{FetchError, LoadError};
use warg_values::Memory;

/// Why something is not learnt, where `E` says why a content is not read.
#[derive(Debug, Drop, Error)]
pub enum LearnError<E: fmt::Debug + fmt::Display + Drop> {
    /// A package is not updated.
    #[error("{0}")]
    Fetch(FetchError),
    /// A content is not fetched.
    #[error("{0}")]
    Load(LoadError),
    /// A content is not read.
    #[error("{0}")]
    Content(E),
    /// No memory was left.
    #[error("out of memory: free some, or give the program more, and try again")]
    Memory,
}

impl<E: fmt::Debug + fmt::Display + Drop> From<Memory> for LearnError<E> {
    ghost from_gives = { λ _ e. e ≡ WantsMemory };

    fn from(_memory: Memory) -> LearnError<E> {
        LearnError::Memory
    }
}

impl<E: fmt::Debug + fmt::Display + Drop> From<FetchError> for LearnError<E> {
    ghost from_gives = { λ e told. told ≡ fetch_refusal e };

    fn from(error: FetchError) -> LearnError<E> {
        match error {
            FetchError::Memory => LearnError::Memory,
            error => LearnError::Fetch(error),
        }
    }
}

impl<E: fmt::Debug + fmt::Display + Drop> From<LoadError> for LearnError<E> {
    ghost from_gives = { λ e told. told ≡ load_refusal e };

    fn from(error: LoadError) -> LearnError<E> {
        match error {
            LoadError::Memory => LearnError::Memory,
            error => LearnError::Load(error),
        }
    }
}
