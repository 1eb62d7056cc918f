//! Checkpoints that a registry has not taken up yet.

use crate::hashes::RegistryHashes;
use warg_exchange::{Checkpoint, SignedCheckpoint};

/// A growth of a registry: the checkpoint of its present list, before the registry has it.
#[derive(Debug, Drop)]
pub struct Growth {
    /// The checkpoints that were made, with this one behind them.
    pub(crate) checkpoints: Vec<Checkpoint>,
    /// The checkpoint, with its signature.
    pub(crate) latest: SignedCheckpoint,
    /// The hashes of the registry's records.
    pub(crate) hashes: RegistryHashes,
}
