//! Checkpoints.

ghost use Rattle.warg_exchange.specs.Replies.{contents_in, checkpoint_in, verification_state_in, verification_in};

use crate::error::BodyError;
use crate::from_body::FromBody;
use crate::members::{optional, required};
use crate::value::text_of;
use serde_json::Value;
use std::alloc::Global;
use warg_exchange::{
    Checkpoint, CheckpointVerificationResponse, SignedCheckpoint, VerificationState,
};

impl FromBody for Checkpoint {
    ghost use Rattle.warg_exchange.specs.declared.checkpoint.Checkpoint.{Checkpoint as Contents};

    ghost Plain = { Contents };

    ghost plain = { λ c. c };

    ghost meaning = { contents_in };

    #[tactic(auto, unfolding(warg_exchange::specs::Replies::contents_in))]
    fn from_body(alloc: Global, value: &Value) -> Result<Checkpoint, BodyError> {
        Ok(Checkpoint {
            log_length: required(alloc, "logLength", value)?,
            log_root: required(alloc, "logRoot", value)?,
            map_root: required(alloc, "mapRoot", value)?,
            timestamp: required(alloc, "timestamp", value)?,
        })
    }
}

impl FromBody for SignedCheckpoint {
    ghost use Rattle.warg_exchange.specs.declared.checkpoint.SignedCheckpoint.{SignedCheckpoint as Signed};

    ghost Plain = { Signed };

    ghost plain = { λ c. c };

    ghost meaning = { checkpoint_in };

    #[tactic(auto, unfolding(warg_exchange::specs::Replies::checkpoint_in))]
    fn from_body(alloc: Global, value: &Value) -> Result<SignedCheckpoint, BodyError> {
        Ok(SignedCheckpoint {
            contents: required(alloc, "contents", value)?,
            key_id: required(alloc, "keyId", value)?,
            signature: required(alloc, "signature", value)?,
        })
    }
}

impl FromBody for VerificationState {
    ghost use Rattle.warg_exchange.specs.declared.checkpoint.VerificationState.{VerificationState as State};

    ghost Plain = { State };

    ghost plain = { λ s. s };

    ghost meaning = { verification_state_in };

    fn from_body(_alloc: Global, value: &Value) -> Result<VerificationState, BodyError> {
        match text_of(value)? {
            "unverified" => Ok(VerificationState::Unverified),
            "verified" => Ok(VerificationState::Verified),
            "invalid" => Ok(VerificationState::Invalid),
            _ => Err(BodyError::Unexpected),
        }
    }
}

impl FromBody for CheckpointVerificationResponse {
    ghost use Rattle.warg_exchange.specs.declared.checkpoint.CheckpointVerificationResponse.{CheckpointVerificationResponse as Verification};

    ghost Plain = { Verification };

    ghost plain = { λ v. v };

    ghost meaning = { verification_in };

    #[tactic(auto, unfolding(warg_exchange::specs::Replies::verification_in))]
    fn from_body(
        alloc: Global,
        value: &Value,
    ) -> Result<CheckpointVerificationResponse, BodyError> {
        Ok(CheckpointVerificationResponse {
            checkpoint: required(alloc, "checkpoint", value)?,
            signature: required(alloc, "signature", value)?,
            retry_after: optional(alloc, "retryAfter", value)?,
        })
    }
}
