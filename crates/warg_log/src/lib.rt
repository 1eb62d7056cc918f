//! Lawful logs of signed records, and the choice of a release.
#![tactic(auto)]

mod choice;
mod error;
mod facts;
mod head;
mod judged;
mod keys;
pub mod laws;
mod listed_signer;
mod listed_verifier;
mod namespaces;
pub mod operator;
pub mod package;
mod permissions;
mod release;
mod releases;
mod signer;
mod state;
mod verifier;

pub use error::ValidationError;
pub use head::Head;
pub use judged::JudgedEntry;
pub use listed_signer::ListedSigner;
pub use listed_verifier::ListedVerifier;
pub use namespaces::NamespaceState;
pub use release::Release;
pub use signer::{SignError, Signer};
pub use state::LogState;
pub use verifier::Verifier;
pub use warg_hash::{AnyHash, KeyId, RecordId};
pub use warg_record::{
    Envelope, LogEntry, OperatorEntry, OperatorRecord, PackageEntry, PackageRecord, PublicKey,
    Record, Signature,
};
