//! Why a package or a content is not fetched.

ghost use Rattle.std.specs.Prelude.{◌≡◌};
ghost use Rattle.warg_fetch.specs.Refusals.{call_refusal, content_refusal, store_refusal, update_refusal};
ghost use Rattle.warg_fetch.specs.declared.error.FetchError.TheVariants.{Memory as WantsMemory};
ghost use Rattle.warg_fetch.specs.declared.error.LoadError.TheVariants.{Memory as HasNoMemory};

use std::alloc::{AllocError, AllocFailed};
use thiserror::Error;
use warg_api::ClientError;
use warg_session::UpdateRefusal;
use warg_store::StoreError;
use warg_values::Memory;

/// Why a package is not updated.
#[derive(Debug, Drop, Error)]
pub enum FetchError {
    /// A store failed, or what it holds can't be read.
    #[error("{0}")]
    Store(StoreError),
    /// The update proves nothing.
    #[error("{0}")]
    Update(UpdateRefusal),
    /// No memory was left.
    #[error("out of memory: free some, or give the program more, and try again")]
    Memory,
}

impl From<Memory> for FetchError {
    ghost from_gives = { λ _ e. e ≡ WantsMemory };

    fn from(_memory: Memory) -> FetchError {
        FetchError::Memory
    }
}

impl From<AllocError> for FetchError {
    ghost from_gives = { λ _ e. e ≡ WantsMemory };

    fn from(_error: AllocError) -> FetchError {
        FetchError::Memory
    }
}

impl<T: Drop> From<AllocFailed<T>> for FetchError {
    ghost from_gives = { λ _ e. e ≡ WantsMemory };

    fn from(_error: AllocFailed<T>) -> FetchError {
        FetchError::Memory
    }
}

impl From<StoreError> for FetchError {
    ghost from_gives = { λ e told. told ≡ store_refusal e };

    fn from(error: StoreError) -> FetchError {
        match error {
            StoreError::Memory => FetchError::Memory,
            error => FetchError::Store(error),
        }
    }
}

impl From<UpdateRefusal> for FetchError {
    ghost from_gives = { λ e told. told ≡ update_refusal e };

    fn from(error: UpdateRefusal) -> FetchError {
        match error {
            UpdateRefusal::Memory => FetchError::Memory,
            error => FetchError::Update(error),
        }
    }
}

/// Why a content is not fetched.
#[derive(Debug, Drop, Error)]
pub enum LoadError {
    /// The store failed, or a content has another digest than the one that was asked for.
    #[error("{0}")]
    Store(StoreError),
    /// The registry does not say where the content is, or none of its sources gives any bytes.
    #[error("{0}")]
    Call(ClientError),
    /// No memory was left.
    #[error("out of memory: free some, or give the program more, and try again")]
    Memory,
}

impl From<Memory> for LoadError {
    ghost from_gives = { λ _ e. e ≡ HasNoMemory };

    fn from(_memory: Memory) -> LoadError {
        LoadError::Memory
    }
}

impl From<StoreError> for LoadError {
    ghost from_gives = { λ e told. told ≡ content_refusal e };

    fn from(error: StoreError) -> LoadError {
        match error {
            StoreError::Memory => LoadError::Memory,
            error => LoadError::Store(error),
        }
    }
}

impl From<ClientError> for LoadError {
    ghost from_gives = { λ e told. told ≡ call_refusal e };

    fn from(error: ClientError) -> LoadError {
        match error {
            ClientError::Memory => LoadError::Memory,
            error => LoadError::Call(error),
        }
    }
}
