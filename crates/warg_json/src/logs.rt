//! Pages of logs.

ghost use Rattle.warg_exchange.specs.Replies.{published_in, page_in};

use crate::error::BodyError;
use crate::from_body::FromBody;
use crate::members::required;
use crate::value::Base64Bytes;
use serde_json::Value;
use std::alloc::Global;
use warg_exchange::{FetchLogsResponse, PublishedRecord};

impl FromBody for PublishedRecord {
    ghost use Rattle.warg_exchange.specs.declared.logs.PublishedRecord.{PublishedRecord as Published};

    ghost Plain = { Published };

    ghost plain = { λ p. p };

    ghost meaning = { published_in };

    #[tactic(auto, unfolding(warg_exchange::specs::Replies::published_in))]
    fn from_body(alloc: Global, value: &Value) -> Result<PublishedRecord, BodyError> {
        let contents: Base64Bytes = required(alloc, "contentBytes", value)?;
        Ok(PublishedRecord {
            content_bytes: contents.bytes,
            key_id: required(alloc, "keyId", value)?,
            signature: required(alloc, "signature", value)?,
            registry_index: required(alloc, "registryIndex", value)?,
            fetch_token: required(alloc, "fetchToken", value)?,
        })
    }
}

impl FromBody for FetchLogsResponse {
    ghost use Rattle.warg_exchange.specs.Views.{Page, page_view};

    ghost Plain = { Page };

    ghost plain = { page_view };

    ghost meaning = { page_in };

    #[tactic(auto, unfolding(warg_exchange::specs::Replies::page_in))]
    fn from_body(alloc: Global, value: &Value) -> Result<FetchLogsResponse, BodyError> {
        let more = required(alloc, "more", value)?;
        let operator = required(alloc, "operator", value)?;
        let packages = required(alloc, "packages", value)?;
        Ok(FetchLogsResponse {
            more,
            operator,
            packages,
        })
    }
}
