//! Want of memory.

use std::alloc::{AllocError, AllocFailed};
use thiserror::Error;

/// No memory was left: the one answer that any call which allocates may give, whatever its input.
#[derive(Clone, Copy, Debug, PartialEq, Eq, Error)]
#[error("out of memory: free some, or give the program more, and try again")]
pub struct Memory;

impl From<AllocError> for Memory {
    fn from(_error: AllocError) -> Memory {
        Memory
    }
}

impl<T: Drop> From<AllocFailed<T>> for Memory {
    fn from(_error: AllocFailed<T>) -> Memory {
        Memory
    }
}
