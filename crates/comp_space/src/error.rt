//! Why an item has no place in a scope.

ghost use Rattle.std.specs.Prelude.{◌≡◌};
ghost use Rattle.comp_space.specs.declared.error.ScopeError.TheVariants.{Memory as no_memory};

use std::alloc::{AllocError, AllocFailed};
use thiserror::Error;
use warg_values::Memory;

/// Why an item has no place in a scope.
#[derive(Clone, Copy, Debug, PartialEq, Eq, Error)]
pub enum ScopeError {
    /// An index at which nothing of the right sort stands yet, or which may not be named there, or a name that is taken.
    #[error("an item names nothing that is there, or has the name of another one: build the component anew")]
    Index,
    /// An item does not fit where it is put.
    #[error("an item does not fit where it is put: check which components are put together")]
    DoesNotFit,
    /// More scopes are open, or a value type is deeper, than is carried.
    #[error("more than 32 scopes lie in each other, or a value type is more than 100 deep: nest less")]
    TooDeep,
    /// A type or an item has more nodes than are carried.
    #[error("a type or an item has more than a million parts: divide it")]
    TooBig,
    /// No memory was left.
    #[error("out of memory, or more than a thousand types lie in each other: free some memory, or nest less")]
    Memory,
}

impl From<AllocError> for ScopeError {
    ghost from_gives = { λ _ e. e ≡ no_memory };

    fn from(_error: AllocError) -> ScopeError {
        ScopeError::Memory
    }
}

impl<T: Drop> From<AllocFailed<T>> for ScopeError {
    ghost from_gives = { λ _ e. e ≡ no_memory };

    fn from(_error: AllocFailed<T>) -> ScopeError {
        ScopeError::Memory
    }
}

impl From<Memory> for ScopeError {
    ghost from_gives = { λ _ e. e ≡ no_memory };

    fn from(_error: Memory) -> ScopeError {
        ScopeError::Memory
    }
}
