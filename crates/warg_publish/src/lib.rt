//! What is to be published of a package, and the signed record that is made of it.
#![tactic(auto)]

mod entry;
mod info;

pub use entry::PublishEntry;
pub use info::PublishInfo;
pub use warg_hash::{AnyHash, KeyId, PackageName, RecordId};
pub use warg_log::{Envelope, PackageEntry, PackageRecord, PublicKey, SignError, Signer};
pub use warg_record::package::Permission;
pub use warg_values::{Memory, Moment};
