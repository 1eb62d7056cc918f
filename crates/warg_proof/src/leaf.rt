//! What stands at the leaves of a registry's log and map.

ghost use Rattle.std.specs.Prelude.{◌≡◌, IfOk};
ghost use Rattle.warg_proof.specs.Leaves.{entry_hash, log_entry, map_value};

use sha2::{Digest, Sha256};
use std::alloc::Global;
use warg_hash::{LogId, RecordId};
use warg_values::Memory;

/// An entry of a registry's log: a record, and the log that it belongs to.
#[derive(Clone, Copy, Debug, PartialEq, Eq)]
pub struct LogLeaf {
    /// The log of the record.
    pub log_id: LogId,
    /// The record.
    pub record_id: RecordId,
}

impl LogLeaf {
    /// The entry's bytes: `WARG-LOG-LEAF-V0:`, the log id's text, `:` and the record id's text.
    pub fn bytes(&self, alloc: Global) -> Result<Vec<u8>, Memory>
        ensures { IfOk result (λ bytes. bytes.items ≡ log_entry self.now.log_id self.now.record_id) }
    {
        let mut bytes = Vec::with_capacity(alloc, 160)?;
        bytes.extend_from_slice(b"WARG-LOG-LEAF-V0:")?;
        bytes.extend_from_slice(&self.log_id.hash().text_bytes())?;
        bytes.extend_from_slice(b":")?;
        bytes.extend_from_slice(&self.record_id.hash().text_bytes())?;
        Ok(bytes)
    }

    /// The hash of the entry's leaf: SHA-256 of a byte 0 and the entry's bytes.
    pub(crate) fn hash(&self) -> [u8; 32]
        ensures { result ≡ entry_hash self.now }
    {
        let mut hasher = Sha256::new();
        hasher.update([0u8]);
        hasher.update("WARG-LOG-LEAF-V0:");
        hasher.update(self.log_id.hash().text_bytes());
        hasher.update(":");
        hasher.update(self.record_id.hash().text_bytes());
        hasher.finalize()
    }
}

/// A value of a registry's map: the last record of a log.
#[derive(Clone, Copy, Debug, PartialEq, Eq)]
pub struct MapLeaf {
    /// The log's last record.
    pub record_id: RecordId,
}

impl MapLeaf {
    /// The value's bytes: `WARG-MAP-LEAF-V0:` and the record id's text.
    pub fn bytes(&self, alloc: Global) -> Result<Vec<u8>, Memory>
        ensures { IfOk result (λ bytes. bytes.items ≡ map_value self.now.record_id) }
    {
        let mut bytes = Vec::with_capacity(alloc, 88)?;
        bytes.extend_from_slice(b"WARG-MAP-LEAF-V0:")?;
        bytes.extend_from_slice(&self.record_id.hash().text_bytes())?;
        Ok(bytes)
    }
}
