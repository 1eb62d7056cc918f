//! The publishing of packages' records.

use indexmap::IndexMap;
use warg_hash::{AnyHash, PackageName, RecordId};
use warg_record::{Envelope, PackageEntry, Record};
use warg_values::{Sequence, Text};

/// A record that is to be published.
#[derive(Debug, Drop)]
pub struct PublishRecordRequest {
    /// The package whose log the record continues.
    pub package_name: PackageName,
    /// The signed record.
    pub envelope: Envelope<Record<PackageEntry>>,
}

/// How far the publishing of a record is.
#[derive(Clone, Copy, Debug, PartialEq, Eq)]
pub enum PackageRecordState {
    /// Contents are missing.
    Sourcing,
    /// The registry is at work on it.
    Processing,
    /// It is published.
    Published,
    /// It was refused.
    Rejected,
}

/// Where a content is to be sent.
#[derive(Debug, Drop)]
pub enum UploadEndpoint {
    /// It is sent by a request.
    Http {
        /// The request's method.
        method: Text,
        /// The text of the URL, which may be relative to the registry's.
        url: Text,
        /// The request's headers.
        headers: IndexMap<Text, Text>,
    },
}

/// Where a content that a registry lacks is to be sent.
#[derive(Debug, Drop)]
pub struct MissingContent {
    /// The places, in the order in which they are to be tried.
    pub upload: Sequence<UploadEndpoint>,
}

/// A record in publishing.
#[derive(Debug, Drop)]
pub struct PackageRecord {
    /// The record's id.
    pub record_id: RecordId,
    /// How far its publishing is.
    pub state: PackageRecordState,
    /// Why it was refused, where it was.
    pub reason: Option<Text>,
    /// The contents that are missing, by their digests.
    pub missing_content: IndexMap<AnyHash, MissingContent>,
}
