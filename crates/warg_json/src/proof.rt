//! Bundles of proofs.

ghost use Rattle.warg_exchange.specs.Replies.{bundles_in, proof_in};

use crate::error::BodyError;
use crate::from_body::FromBody;
use crate::members::required;
use crate::value::Base64Bytes;
use serde_json::Value;
use std::alloc::Global;
use warg_exchange::{ConsistencyResponse, InclusionResponse};

impl FromBody for InclusionResponse {
    ghost use Rattle.warg_exchange.specs.declared.proof.InclusionResponse.{InclusionResponse as Bundles};

    ghost Plain = { Bundles };

    ghost plain = { λ b. b };

    ghost meaning = { bundles_in };

    #[tactic(auto, unfolding(warg_exchange::specs::Replies::bundles_in))]
    fn from_body(alloc: Global, value: &Value) -> Result<InclusionResponse, BodyError> {
        let log: Base64Bytes = required(alloc, "log", value)?;
        let map: Base64Bytes = required(alloc, "map", value)?;
        Ok(InclusionResponse {
            log: log.bytes,
            map: map.bytes,
        })
    }
}

impl FromBody for ConsistencyResponse {
    ghost use Rattle.warg_exchange.specs.declared.proof.ConsistencyResponse.{ConsistencyResponse as Bundle};

    ghost Plain = { Bundle };

    ghost plain = { λ b. b };

    ghost meaning = { proof_in };

    #[tactic(auto, unfolding(warg_exchange::specs::Replies::proof_in))]
    fn from_body(alloc: Global, value: &Value) -> Result<ConsistencyResponse, BodyError> {
        let proof: Base64Bytes = required(alloc, "proof", value)?;
        Ok(ConsistencyResponse { proof: proof.bytes })
    }
}
