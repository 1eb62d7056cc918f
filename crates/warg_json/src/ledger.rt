//! Where a registry's log is as a whole.

ghost use Rattle.warg_exchange.specs.Replies.{ledger_source_in, ledger_in};

use crate::error::BodyError;
use crate::from_body::FromBody;
use crate::members::required;
use serde_json::Value;
use std::alloc::Global;
use warg_exchange::{LedgerSource, LedgerSourcesResponse};

impl FromBody for LedgerSource {
    ghost use Rattle.warg_exchange.specs.declared.ledger.LedgerSource.{LedgerSource as Source};

    ghost Plain = { Source };

    ghost plain = { λ s. s };

    ghost meaning = { ledger_source_in };

    #[tactic(auto, unfolding(warg_exchange::specs::Replies::ledger_source_in))]
    fn from_body(alloc: Global, value: &Value) -> Result<LedgerSource, BodyError> {
        Ok(LedgerSource {
            first_registry_index: required(alloc, "firstRegistryIndex", value)?,
            last_registry_index: required(alloc, "lastRegistryIndex", value)?,
            url: required(alloc, "url", value)?,
            content_type: required(alloc, "contentType", value)?,
        })
    }
}

impl FromBody for LedgerSourcesResponse {
    ghost use Rattle.warg_exchange.specs.declared.ledger.LedgerSourcesResponse.{LedgerSourcesResponse as Ledger};

    ghost Plain = { Ledger };

    ghost plain = { λ l. l };

    ghost meaning = { ledger_in };

    #[tactic(auto, using(crate::proofs::ListLaws::map_same), unfolding(warg_exchange::specs::Replies::ledger_in))]
    fn from_body(alloc: Global, value: &Value) -> Result<LedgerSourcesResponse, BodyError> {
        Ok(LedgerSourcesResponse {
            hash_algorithm: required(alloc, "hashAlgorithm", value)?,
            sources: required(alloc, "sources", value)?,
        })
    }
}
