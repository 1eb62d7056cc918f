//! What is stored of a log, as its members say.

ghost use Rattle.warg_info_text.specs.StoredTexts.{stored_in};

use serde_json::Value;
use std::alloc::Global;
use warg_exchange::{Checkpoint, PublishedRecord};
use warg_hash::PackageName;
use warg_json::{BodyError, FromBody, optional, required};
use warg_values::{Sequence, Text};

/// What is stored of a log.
#[derive(Debug, Drop)]
pub struct StoredInfo {
    /// The name of the package that has the log, which an operator has not.
    pub name: Option<PackageName>,
    /// The name of the registry, which the home registry has not.
    pub registry: Option<Text>,
    /// The checkpoint under which the log was proved last.
    pub checkpoint: Option<Checkpoint>,
    /// The records, in order.
    pub records: Sequence<PublishedRecord>,
    /// The place of the last record in the registry's log, counted from 0.
    pub head_registry_index: Option<u64>,
    /// The token of the last record.
    pub head_fetch_token: Option<Text>,
}

impl FromBody for StoredInfo {
    ghost use Rattle.warg_info_text.specs.StoredTexts.{Stored};
    ghost use Rattle.warg_info_text.specs.Shown.{stored_view};

    ghost Plain = { Stored };

    ghost plain = { stored_view };

    ghost meaning = { stored_in };

    #[tactic(auto, unfolding(crate::specs::StoredTexts::stored_in))]
    fn from_body(alloc: Global, value: &Value) -> Result<StoredInfo, BodyError> {
        let checkpoint = optional(alloc, "checkpoint", value)?;
        let head_fetch_token = optional(alloc, "headFetchToken", value)?;
        let head_registry_index = optional(alloc, "headRegistryIndex", value)?;
        let name = optional(alloc, "name", value)?;
        let records = required(alloc, "records", value)?;
        let registry = optional(alloc, "registry", value)?;
        Ok(StoredInfo {
            name,
            registry,
            checkpoint,
            records,
            head_registry_index,
            head_fetch_token,
        })
    }
}
