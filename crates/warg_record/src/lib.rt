//! Signed records: keys and signatures, records and their entries, and their form as bytes.
#![tactic(auto)]

mod entry;
mod envelope;
mod error;
mod fields;
mod key;
pub mod laws;
pub mod operator;
pub mod package;
mod record;
mod version;
mod wire;
mod writing;

pub use entry::{LogEntry, LogPermission};
pub use envelope::Envelope;
pub use error::EnvelopeError;
pub use key::{PublicKey, Signature};
pub use operator::OperatorEntry;
pub use package::PackageEntry;
pub use record::{OperatorRecord, PackageRecord, Record};
pub use version::is_valid_version;
