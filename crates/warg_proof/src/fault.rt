//! Why a proof is refused.

ghost use Rattle.std.specs.Prelude.{◌≡◌};
ghost use Rattle.warg_proof.specs.declared.fault.ProofFault.TheVariants.{Memory as WantsMemory};

use std::alloc::{AllocError, AllocFailed};
use thiserror::Error;
use warg_hash::AnyHash;
use warg_values::Memory;

/// Why the bytes of a proof bundle, or a proof in it, are refused.
#[derive(Clone, Copy, Debug, PartialEq, Eq, Error)]
pub enum ProofFault {
    /// The bytes are no proof bundle.
    #[error("the bytes are no proof bundle: ask the registry for the proof again")]
    Form,
    /// The bundle has no proof of that number, or proofs that were not asked for.
    #[error("the bundle does not hold the proofs that were asked for")]
    WrongCount,
    /// The proof is about another leaf than the one asked for, or about one that is not in the log.
    #[error("the proof is about another leaf than the one that was asked for")]
    WrongLeaf,
    /// The proof is about other lengths of the log than those asked for.
    #[error("the proof is about another length of the log than the one that was asked for")]
    WrongLength,
    /// The bundle lacks a hash that the proof needs.
    #[error("the bundle lacks a hash that the proof needs")]
    MissingHash,
    /// The proof gives another root than the one asked for.
    #[error("the proof gives another root than the one that was asked for: do not trust this registry")]
    OtherRoot {
        /// The root that was asked for.
        root: AnyHash,
        /// The root that the proof gives.
        found: AnyHash,
    },
    /// No memory is left.
    #[error("out of memory: free some, or give the program more, and try again")]
    Memory,
}

impl From<Memory> for ProofFault {
    ghost from_gives = { λ _ fault. fault ≡ WantsMemory };

    fn from(_memory: Memory) -> ProofFault {
        ProofFault::Memory
    }
}

impl From<AllocError> for ProofFault {
    ghost from_gives = { λ _ fault. fault ≡ WantsMemory };

    fn from(_error: AllocError) -> ProofFault {
        ProofFault::Memory
    }
}

impl<T: Drop> From<AllocFailed<T>> for ProofFault {
    ghost from_gives = { λ _ fault. fault ≡ WantsMemory };

    fn from(_error: AllocFailed<T>) -> ProofFault {
        ProofFault::Memory
    }
}
