//! Records in publishing.

ghost use Rattle.std.specs.Prelude.{ℕ, List, map};
ghost use Rattle.serde_json.specs.View.{view};
ghost use Rattle.warg_exchange.specs.Replies.{endpoint_in, missing_in, record_state_in, reason_in, missing_contents_in, publishing_in};
ghost use Rattle.warg_exchange.specs.Views.{missing_view};
ghost use Rattle.warg_json.specs.Answers.{BodyGives};

use crate::error::BodyError;
use crate::from_body::FromBody;
use crate::members::{member, optional, required};
use crate::value::{expect_word, text_of};
use indexmap::IndexMap;
use serde_json::Value;
use std::alloc::Global;
use warg_exchange::{MissingContent, PackageRecord, PackageRecordState, UploadEndpoint};
use warg_hash::AnyHash;
use warg_values::Text;

impl FromBody for UploadEndpoint {
    ghost use Rattle.warg_exchange.specs.Views.{Endpoint, endpoint_view};

    ghost Plain = { Endpoint };

    ghost plain = { endpoint_view };

    ghost meaning = { endpoint_in };

    #[tactic(auto, unfolding(warg_exchange::specs::Replies::endpoint_in))]
    fn from_body(alloc: Global, value: &Value) -> Result<UploadEndpoint, BodyError> {
        expect_word("http", member("type", value)?)?;
        Ok(UploadEndpoint::Http {
            method: required(alloc, "method", value)?,
            url: required(alloc, "url", value)?,
            headers: required(alloc, "headers", value)?,
        })
    }
}

impl FromBody for MissingContent {
    ghost use Rattle.warg_exchange.specs.Views.{Endpoint};

    ghost Plain = { List Endpoint };

    ghost plain = { missing_view };

    ghost meaning = { missing_in };

    fn from_body(alloc: Global, value: &Value) -> Result<MissingContent, BodyError> {
        Ok(MissingContent {
            upload: required(alloc, "upload", value)?,
        })
    }
}

impl FromBody for PackageRecordState {
    ghost use Rattle.warg_exchange.specs.declared.package.PackageRecordState.{PackageRecordState as State};

    ghost Plain = { State };

    ghost plain = { λ s. s };

    ghost meaning = { record_state_in };

    fn from_body(_alloc: Global, value: &Value) -> Result<PackageRecordState, BodyError> {
        match text_of(value)? {
            "sourcing" => Ok(PackageRecordState::Sourcing),
            "processing" => Ok(PackageRecordState::Processing),
            "published" => Ok(PackageRecordState::Published),
            "rejected" => Ok(PackageRecordState::Rejected),
            _ => Err(BodyError::Unexpected),
        }
    }
}

/// Why a record was refused, which a record that was refused has to say.
fn reason_of(
    alloc: Global,
    state: PackageRecordState,
    value: &Value,
) -> Result<Option<Text>, BodyError>
    ensures { BodyGives (λ reason. reason) result (reason_in state (view value.now)) }
{
    match state {
        PackageRecordState::Rejected => {
            let reason = required(alloc, "reason", value)?;
            Ok(Some(reason))
        }
        PackageRecordState::Sourcing
        | PackageRecordState::Processing
        | PackageRecordState::Published => optional(alloc, "reason", value),
    }
}

/// Where each missing content is to be sent, none where nothing is said.
fn missing_of(alloc: Global, value: &Value) -> Result<IndexMap<AnyHash, MissingContent>, BodyError>
    ensures { BodyGives (λ found. map (λ e. (e.0, missing_view e.1)) found.entries) result
        (missing_contents_in (view value.now)) }
{
    match optional(alloc, "missingContent", value)? {
        Some(found) => Ok(found),
        None => Ok(IndexMap::new(alloc)),
    }
}

impl FromBody for PackageRecord {
    ghost use Rattle.warg_exchange.specs.Views.{Publishing, publishing_view};

    ghost Plain = { Publishing };

    ghost plain = { publishing_view };

    ghost meaning = { publishing_in };

    #[tactic(auto, unfolding(warg_exchange::specs::Replies::publishing_in))]
    fn from_body(alloc: Global, value: &Value) -> Result<PackageRecord, BodyError> {
        let record_id = required(alloc, "recordId", value)?;
        let state = required(alloc, "state", value)?;
        let reason = reason_of(alloc, state, value)?;
        let missing_content = missing_of(alloc, value)?;
        Ok(PackageRecord {
            record_id,
            state,
            reason,
            missing_content,
        })
    }
}
