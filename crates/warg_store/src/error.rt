//! Why stores refuse calls.

ghost use Rattle.std.specs.Prelude.{◌≡◌};
ghost use Rattle.warg_store.specs.declared.error.StoreError.TheVariants.{Memory as WantsMemory};

use std::alloc::{AllocError, AllocFailed};
use thiserror::Error;
use warg_hash::AnyHash;
use warg_values::Memory;

/// What an entry of a store is.
#[derive(Clone, Copy, Debug, PartialEq, Eq)]
pub enum EntryKind {
    /// The checkpoint of a registry.
    Checkpoint,
    /// The log of a registry's operator.
    Operator,
    /// The log of a package.
    Package,
    /// What is to be published.
    Publish,
    /// The names of the registries of namespaces.
    Namespaces,
}

/// Why a store did not do what was asked.
#[derive(Clone, Copy, Debug, PartialEq, Eq, Error)]
pub enum StoreError {
    /// The outside failed, and the count of faults rose.
    #[error("the store could not be read or written: check its permissions and the disk")]
    Failed,
    /// An entry of this kind can't be read.
    #[error("an entry of the store can't be read: reset what is stored")]
    Damaged(EntryKind),
    /// A content has not the digest that was asked.
    #[error("a content has the digest {digest} where {expected} was asked: clear the stored contents and try again")]
    IncorrectContent {
        /// The digest that it has.
        digest: AnyHash,
        /// The digest that was asked.
        expected: AnyHash,
    },
    /// No memory was left.
    #[error("out of memory: free some, or give the program more, and try again")]
    Memory,
}

impl From<Memory> for StoreError {
    ghost from_gives = { λ _ e. e ≡ WantsMemory };

    fn from(_memory: Memory) -> StoreError {
        StoreError::Memory
    }
}

impl From<AllocError> for StoreError {
    ghost from_gives = { λ _ e. e ≡ WantsMemory };

    fn from(_error: AllocError) -> StoreError {
        StoreError::Memory
    }
}

impl<T: Drop> From<AllocFailed<T>> for StoreError {
    ghost from_gives = { λ _ e. e ≡ WantsMemory };

    fn from(_error: AllocFailed<T>) -> StoreError {
        StoreError::Memory
    }
}
