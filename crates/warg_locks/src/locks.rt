//! Locks, as the outside gives them.

ghost use Rattle.std.specs.Prelude.{◌≡◌, ◌≤◌, ℕ, List, Ok, None, IfOk, IfSome, IsErrOf};
ghost use Rattle.warg_values.specs.Faults.{Rose};
ghost use Rattle.warg_locks.specs.declared.locks.LockError.TheVariants.{Memory as no_memory};

use std::alloc::{AllocError, AllocFailed, Global};
use thiserror::Error;
use warg_values::Memory;

/// Why a path could not be locked.
#[derive(Clone, Copy, Debug, PartialEq, Eq, Error)]
pub enum LockError {
    /// The outside failed, and the count of faults rose.
    #[error("the path could not be locked: check its permissions, and that its disk has locks")]
    Failed,
    /// No memory was left.
    #[error("out of memory: free some, or give the program more, and try again")]
    Memory,
}

impl From<AllocError> for LockError {
    ghost from_gives = { λ _ e. e ≡ no_memory };

    fn from(_error: AllocError) -> LockError {
        LockError::Memory
    }
}

impl<T: Drop> From<AllocFailed<T>> for LockError {
    ghost from_gives = { λ _ e. e ≡ no_memory };

    fn from(_error: AllocFailed<T>) -> LockError {
        LockError::Memory
    }
}

impl From<Memory> for LockError {
    ghost from_gives = { λ _ e. e ≡ no_memory };

    fn from(_error: Memory) -> LockError {
        LockError::Memory
    }
}

/// Locks on paths, with `/` between the parts of a path.
///
/// Each has two counts, by which a caller knows that the outside failed, or that somebody else held a path.
pub trait Locks {
    /// What holds a lock. The lock goes when this is dropped.
    type Lock: Drop;

    /// How many calls failed so far.
    ghost faults: { Self → ℕ };

    /// How often a path was met held so far.
    ghost met: { Self → ℕ };

    /// The path that a lock is on.
    ghost locked: { Self.Lock → List ℕ };

    /// Locks the path, unless somebody else holds it: then the answer is `None`.
    fn try_lock(&mut self, alloc: Global, path: &str) -> Result<Option<Self::Lock>, LockError>
        ensures never_falls { faults self.old ≤ faults self.new }
        ensures met_never_falls { met self.old ≤ met self.new }

        ensures on_path { IfOk result (λ found. IfSome found (λ lock. locked lock ≡ path.now)) }
        ensures held { result ≡ Ok None → Rose (met self.old) (met self.new) }
        ensures failed { IsErrOf result LockError.Failed → Rose (faults self.old) (faults self.new) };

    /// Locks the path. The call may wait while somebody else holds it.
    fn lock(&mut self, alloc: Global, path: &str) -> Result<Self::Lock, LockError>
        ensures never_falls { faults self.old ≤ faults self.new }
        ensures met_never_falls { met self.old ≤ met self.new }

        ensures on_path { IfOk result (λ lock. locked lock ≡ path.now) }
        ensures failed { IsErrOf result LockError.Failed → Rose (faults self.old) (faults self.new) };
}
