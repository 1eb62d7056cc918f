//! Errors that registries answer.

ghost use Rattle.serde_json.specs.View.{view};
ghost use Rattle.warg_exchange.specs.Replies.{service_error_of as service_error_of_kind, service_error_in};
ghost use Rattle.warg_json.specs.Answers.{BodyGives};

use crate::error::BodyError;
use crate::from_body::FromBody;
use crate::members::{member, required};
use crate::value::text_of;
use serde_json::Value;
use std::alloc::Global;
use warg_exchange::ServiceError;
use warg_hash::{AnyHash, LogId};

/// The error of a kind that tells about a checkpoint, a log or an entry.
fn service_error_of(alloc: Global, kind: &str, value: &Value) -> Result<ServiceError, BodyError>
    ensures { BodyGives (λ e. e) result (service_error_of_kind kind.now (view value.now)) }
{
    match kind {
        "checkpointNotFound" => Ok(ServiceError::CheckpointNotFound {
            length: required(alloc, "length", value)?,
        }),
        "logNotFound" => {
            let id: AnyHash = required(alloc, "id", value)?;
            Ok(ServiceError::LogNotFound {
                id: LogId::from(id),
            })
        }
        "fetchTokenNotFound" => Ok(ServiceError::FetchTokenNotFound {
            token: required(alloc, "token", value)?,
        }),
        "recordNotFound" => Ok(ServiceError::RecordNotFound {
            id: required(alloc, "id", value)?,
        }),
        "recordNotSourcing" => Ok(ServiceError::RecordNotSourcing),
        "namespaceNotDefined" => Ok(ServiceError::NamespaceNotDefined {
            namespace: required(alloc, "namespace", value)?,
        }),
        "namespaceImported" => Ok(ServiceError::NamespaceImported {
            namespace: required(alloc, "namespace", value)?,
        }),
        "unauthorized" => Ok(ServiceError::Unauthorized {
            message: required(alloc, "message", value)?,
        }),
        "conflictPendingPublish" => Ok(ServiceError::ConflictPendingPublish {
            id: required(alloc, "id", value)?,
        }),
        "rejection" => Ok(ServiceError::Rejection {
            message: required(alloc, "message", value)?,
        }),
        "contentDigestNotFound" => Ok(ServiceError::ContentDigestNotFound {
            digest: required(alloc, "digest", value)?,
        }),
        "leafNotFound" => Ok(ServiceError::LeafNotFound {
            index: required(alloc, "index", value)?,
        }),
        "message" => Ok(ServiceError::Message {
            message: required(alloc, "message", value)?,
        }),
        _ => Err(BodyError::Unexpected),
    }
}

impl FromBody for ServiceError {
    ghost use Rattle.warg_exchange.specs.declared.service.ServiceError.{ServiceError as Answer};

    ghost Plain = { Answer };

    ghost plain = { λ e. e };

    ghost meaning = { service_error_in };

    #[tactic(auto, unfolding(warg_exchange::specs::Replies::service_error_in))]
    fn from_body(alloc: Global, value: &Value) -> Result<ServiceError, BodyError> {
        let kind = text_of(member("type", value)?)?;
        service_error_of(alloc, kind, value)
    }
}
