//! What is said between a client and a registry: requests and replies, and the values in their bodies. What a reply
//! means stands in `specs/Replies`, and which request a call sends in `specs/Requests`.
#![tactic(auto)]

mod checkpoint;
mod content;
mod exchange;
mod ledger;
mod logs;
mod names;
mod package;
mod proof;
mod service;

pub use checkpoint::{
    Checkpoint, CheckpointVerificationResponse, SignedCheckpoint, VerificationState,
};
pub use content::{ContentSource, ContentSourcesResponse};
pub use exchange::{Exchange, Method, Reply, Request};
pub use ledger::{LedgerSource, LedgerSourcesResponse};
pub use logs::{FetchLogsRequest, FetchLogsResponse, PublishedRecord};
pub use names::FetchPackageNamesResponse;
pub use package::{
    MissingContent, PackageRecord, PackageRecordState, PublishRecordRequest, UploadEndpoint,
};
pub use proof::{ConsistencyRequest, ConsistencyResponse, InclusionRequest, InclusionResponse};
pub use service::{
    ContentError, FetchError, LedgerError, MonitorError, PackageError, ServiceError,
};
