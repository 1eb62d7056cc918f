//! Why a proof is not made.

ghost use Rattle.std.specs.Prelude.{◌≡◌};
ghost use Rattle.warg_prover.specs.declared.fault.ProverFault.TheVariants.{Memory as WantsMemory};

use std::alloc::{AllocError, AllocFailed};
use thiserror::Error;
use warg_values::Memory;

/// Why a proof that was asked for is not made.
#[derive(Clone, Copy, Debug, PartialEq, Eq, Error)]
pub enum ProverFault {
    /// The log is not yet as long as the proof that was asked for.
    #[error("the log has fewer entries than the length that was asked for: ask for a length that it has")]
    LogTooShort,
    /// The index is not below the length, the old length is 0 or past the new one, or the map has no value for a log.
    #[error("the log of this length has no such entry or beginning, or the map no such log: ask for what is there")]
    NoSuchProof,
    /// The bundle would list more than its counts can tell.
    #[error("the bundle would hold 4294967296 values or more of one kind: ask for fewer proofs at a time")]
    TooLarge,
    /// No memory is left.
    #[error("out of memory: free some, or give the program more, and try again")]
    Memory,
}

impl From<Memory> for ProverFault {
    ghost from_gives = { λ _ fault. fault ≡ WantsMemory };

    fn from(_memory: Memory) -> ProverFault {
        ProverFault::Memory
    }
}

impl From<AllocError> for ProverFault {
    ghost from_gives = { λ _ fault. fault ≡ WantsMemory };

    fn from(_error: AllocError) -> ProverFault {
        ProverFault::Memory
    }
}

impl<T: Drop> From<AllocFailed<T>> for ProverFault {
    ghost from_gives = { λ _ fault. fault ≡ WantsMemory };

    fn from(_error: AllocFailed<T>) -> ProverFault {
        ProverFault::Memory
    }
}
