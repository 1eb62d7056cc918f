//! Errors that registries answer.

use thiserror::Error;
use warg_hash::{AnyHash, LogId, RecordId};
use warg_values::Text;

/// What a registry answers in place of what was asked.
#[derive(Debug, Drop, Error)]
pub enum ServiceError {
    /// The registry has no checkpoint of this length.
    #[error("the registry has no checkpoint of length {length}: ask for its latest one")]
    CheckpointNotFound {
        /// The length, in records.
        length: u64,
    },
    /// The registry has no log of this id.
    #[error("the registry has no log `{id}`: check the package's name and the registry")]
    LogNotFound {
        /// The id.
        id: LogId,
    },
    /// The registry has no record that it calls by this token.
    #[error("the registry does not know the fetch token `{token}`: reset the stored state of this registry")]
    FetchTokenNotFound {
        /// The token.
        token: Text,
    },
    /// The registry has no record of this id.
    #[error("the registry has no record `{id}`")]
    RecordNotFound {
        /// The id.
        id: RecordId,
    },
    /// The record waits for no contents.
    #[error("the record waits for no contents: ask for its state")]
    RecordNotSourcing,
    /// The registry has no such namespace.
    #[error("the registry does not define the namespace `{namespace}`: check the package's name and the registry")]
    NamespaceNotDefined {
        /// The namespace.
        namespace: Text,
    },
    /// The registry takes the namespace from another one.
    #[error("the registry imports the namespace `{namespace}` from another one: publish there")]
    NamespaceImported {
        /// The namespace.
        namespace: Text,
    },
    /// The client is not allowed to do this.
    #[error("the registry does not allow this: {message}")]
    Unauthorized {
        /// What the registry says.
        message: Text,
    },
    /// Another record of the log is still in publishing.
    #[error("the record `{id}` is still in publishing: wait for it, and try again")]
    ConflictPendingPublish {
        /// The other record's id.
        id: RecordId,
    },
    /// The record was refused.
    #[error("the registry refuses the record: {message}")]
    Rejection {
        /// What the registry says.
        message: Text,
    },
    /// The registry has no content of this digest.
    #[error("the registry has no content `{digest}`")]
    ContentDigestNotFound {
        /// The digest.
        digest: AnyHash,
    },
    /// The registry's log has no entry at this index.
    #[error("the registry's log has no entry {index}")]
    LeafNotFound {
        /// The index, counted from 0.
        index: u64,
    },
    /// Anything else.
    #[error("the registry answers: {message}")]
    Message {
        /// What the registry says.
        message: Text,
    },
}

/// What a registry answers to a request for checkpoints, logs and names.
#[derive(Debug, Drop, Error)]
#[error("{error}")]
pub struct FetchError {
    /// The answer.
    pub error: ServiceError,
}

/// What a registry answers to a request that publishes.
#[derive(Debug, Drop, Error)]
#[error("{error}")]
pub struct PackageError {
    /// The answer.
    pub error: ServiceError,
}

/// What a registry answers to a request for the sources of a content.
#[derive(Debug, Drop, Error)]
#[error("{error}")]
pub struct ContentError {
    /// The answer.
    pub error: ServiceError,
}

/// What a monitor answers to a request that verifies.
#[derive(Debug, Drop, Error)]
#[error("{error}")]
pub struct MonitorError {
    /// The answer.
    pub error: ServiceError,
}

/// What a registry answers to a request for the sources of its log.
#[derive(Debug, Drop, Error)]
#[error("{error}")]
pub struct LedgerError {
    /// The answer.
    pub error: ServiceError,
}
