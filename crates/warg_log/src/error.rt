//! Why a record does not continue a log.

ghost use Rattle.std.specs.Prelude.{◌≡◌};
ghost use Rattle.warg_log.specs.declared.error.ValidationError.TheVariants.{Memory as WantsMemory};

use semver::Version;
use std::alloc::{AllocError, AllocFailed};
use thiserror::Error;
use warg_hash::{KeyId, RecordId};
use warg_values::{Memory, Moment, Text};

/// The first rule that a record breaks, with the values that differ.
#[derive(Debug, Drop, Error)]
pub enum ValidationError {
    /// The record's version is not 0.
    #[error("the record has version {version}, and only version 0 is known: update this program")]
    ProtocolVersion {
        version: u64,
    },
    /// The record does not name the head as the one before it.
    #[error("the record names {found:?} as the record before it, and the log's head is {expected:?}: fetch the log again")]
    PreviousRecord {
        expected: Option<RecordId>,
        found: Option<RecordId>,
    },
    /// The record's time is before the head's.
    #[error("the record's time {time} is before the head's, {head}: publish it with a later time")]
    TimeLower {
        head: Moment,
        time: Moment,
    },
    /// The log's first record does not begin with Init.
    #[error("the first record of a log begins with Init, and this one does not: publish Init first")]
    FirstEntryNotInit,
    /// The key is not known; in a log's first record, it is not Init's.
    #[error("the log does not know the key {key_id}: sign with one of its keys")]
    UnknownKey {
        key_id: KeyId,
    },
    /// The verifier does not accept the signature.
    #[error("the signature is not the key {key_id}'s: sign the record again")]
    BadSignature {
        key_id: KeyId,
    },
    /// An Init that does not open the log.
    #[error("Init stands at the beginning of a log alone: leave it out")]
    InitAgain,
    /// Init has another hash algorithm than `sha256`.
    #[error("the hash algorithm is {found}, and only sha256 is known: begin the log with sha256")]
    HashAlgorithm {
        found: Text,
    },
    /// The signer does not hold a permission.
    #[error("the key {key_id} does not hold the permission {permission}: grant it, or sign with another key")]
    Unpermitted {
        key_id: KeyId,
        permission: &'static str,
    },
    /// The version was released before.
    #[error("version {version} was released before: release another")]
    ReleaseAgain {
        version: Version,
    },
    /// A yanked version was not released.
    #[error("version {version} was not released, so it can't be yanked")]
    YankUnreleased {
        version: Version,
    },
    /// A yanked version was yanked before.
    #[error("version {version} was yanked before")]
    YankYanked {
        version: Version,
    },
    /// The namespace was defined or imported before.
    #[error("the namespace {namespace} was defined or imported before: take another")]
    NamespaceTaken {
        namespace: Text,
    },
    /// No memory was left.
    #[error("out of memory: free some, or give the program more, and try again")]
    Memory,
}

impl ValidationError {
    ghost use Rattle.warg_log.specs.Breaches.{wants_memory};

    /// Whether no memory was left.
    pub(crate) fn wants_memory(&self) -> bool
        ensures { result ≡ wants_memory self.now }
    {
        matches!(self, ValidationError::Memory)
    }
}

impl From<Memory> for ValidationError {
    ghost from_gives = { λ _ e. e ≡ WantsMemory };

    fn from(_memory: Memory) -> ValidationError {
        ValidationError::Memory
    }
}

impl From<AllocError> for ValidationError {
    ghost from_gives = { λ _ e. e ≡ WantsMemory };

    fn from(_error: AllocError) -> ValidationError {
        ValidationError::Memory
    }
}

impl<T: Drop> From<AllocFailed<T>> for ValidationError {
    ghost from_gives = { λ _ e. e ≡ WantsMemory };

    fn from(_error: AllocFailed<T>) -> ValidationError {
        ValidationError::Memory
    }
}
