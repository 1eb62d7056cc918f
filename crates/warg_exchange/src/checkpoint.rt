//! Checkpoints of registries.

ghost use Rattle.std.specs.Prelude.{◌≡◌, IfOk};

use std::alloc::Global;
use warg_hash::{AnyHash, KeyId};
use warg_record::Signature;
use warg_values::Memory;

/// The state of a registry: how many records it has, and the roots over them.
#[derive(Clone, Copy, Debug, PartialEq, Eq)]
pub struct Checkpoint {
    /// How many records the registry's log has.
    pub log_length: u64,
    /// The root of the log (RFC 6962, section 2.1).
    pub log_root: AnyHash,
    /// The root of the map from logs to their last records.
    pub map_root: AnyHash,
    /// When it was made, in seconds since the start of 1970 (UTC).
    pub timestamp: u64,
}

/// A checkpoint with the signature of the registry's operator.
#[derive(Debug, Drop)]
pub struct SignedCheckpoint {
    /// What was signed.
    pub contents: Checkpoint,
    /// The id of the key that signed it.
    pub key_id: KeyId,
    /// The signature.
    pub signature: Signature,
}

impl SignedCheckpoint {
    /// An equal checkpoint of its own.
    pub fn try_clone(&self, alloc: Global) -> Result<Self, Memory>
        ensures { IfOk result (λ copy. copy ≡ self.now) }
    {
        Ok(SignedCheckpoint {
            contents: self.contents,
            key_id: self.key_id,
            signature: self.signature.try_clone(alloc)?,
        })
    }
}

/// What a monitor knows of a part of a checkpoint.
#[derive(Clone, Copy, Debug, PartialEq, Eq)]
pub enum VerificationState {
    /// It was not checked yet.
    Unverified,
    /// It was checked, and holds.
    Verified,
    /// It was checked, and does not hold.
    Invalid,
}

/// What a monitor knows of a checkpoint.
#[derive(Clone, Copy, Debug, PartialEq, Eq)]
pub struct CheckpointVerificationResponse {
    /// Whether the checkpoint is one of the registry.
    pub checkpoint: VerificationState,
    /// Whether its signature is one of the registry's operator.
    pub signature: VerificationState,
    /// After how many seconds to ask again, where the monitor says so.
    pub retry_after: Option<u64>,
}
