//! One entry that is to be published.

ghost use Rattle.std.specs.Prelude.{◌≡◌, IfOk, OnOk};
ghost use Rattle.semver.specs.Identifiers.{parts_of};
ghost use Rattle.warg_hash.specs.Hash.{IsDigest};
ghost use Rattle.warg_record.specs.Key.{IsKeyText};
ghost use Rattle.warg_record.specs.View.{package_entry_view};
ghost use Rattle.warg_publish.specs.Formed.{IsFormed};
ghost use Rattle.warg_publish.specs.Publish.{is_init as is_init_of, record_entry as record_entry_of};
ghost use Rattle.warg_publish.specs.Shown.{entry_view};

use semver::Version;
use std::alloc::Global;
use warg_hash::{AnyHash, KeyId};
use warg_record::package::Permission;
use warg_record::{PackageEntry, PublicKey};
use warg_values::{Memory, Text};

/// The hash algorithm of the logs that are made.
const HASH_ALGORITHM: &str = "sha256";

/// One entry that is to be published.
#[derive(Debug, Drop)]
pub enum PublishEntry {
    /// The package is made: its log's first entry, with the key that signs the record.
    Init,
    /// A version is released, with the digest of its content.
    Release {
        /// The version.
        version: Version,
        /// The digest of its content.
        content: AnyHash,
    },
    /// A released version is no longer to be chosen.
    Yank {
        /// The version.
        version: Version,
    },
    /// A key is given permissions.
    Grant {
        /// The key.
        key: PublicKey,
        /// What it is given.
        permissions: Vec<Permission>,
    },
    /// Permissions are taken from a key.
    Revoke {
        /// The id of the key.
        key_id: KeyId,
        /// What is taken from it.
        permissions: Vec<Permission>,
    },
}

/// A version of its own, equal to this one.
fn copy_of(version: &Version) -> Result<Version, Memory>
    ensures { IfOk result (λ copy. parts_of copy ≡ parts_of version.now) }
{
    Ok(version.clone()?)
}

/// A key has the form that is asked of it.
fn has_form(key: &PublicKey)
    ensures { IsKeyText key.now }
{
    let _text = key.as_str();
}

/// A hash is a digest.
pub fn is_digest(hash: &AnyHash)
    ensures { IsDigest hash.now }
{
    let _bytes = hash.bytes();
}

impl PublishEntry {
    /// Whether the package is made.
    pub(crate) fn is_init(&self) -> bool
        ensures { result ≡ is_init_of (entry_view self.now) }
    {
        matches!(self, PublishEntry::Init)
    }

    /// An equal entry of its own.
    pub fn try_clone(&self, alloc: Global) -> Result<Self, Memory>
        ensures { IfOk result (λ copy. entry_view copy ≡ entry_view self.now) }
    {
        match self {
            PublishEntry::Init => Ok(PublishEntry::Init),
            PublishEntry::Release { version, content } => Ok(PublishEntry::Release {
                version: copy_of(version)?,
                content: *content,
            }),
            PublishEntry::Yank { version } => Ok(PublishEntry::Yank {
                version: copy_of(version)?,
            }),
            PublishEntry::Grant { key, permissions } => Ok(PublishEntry::Grant {
                key: key.try_clone(alloc)?,
                permissions: Vec::from_slice(alloc, permissions.as_slice())?,
            }),
            PublishEntry::Revoke {
                key_id,
                permissions,
            } => Ok(PublishEntry::Revoke {
                key_id: *key_id,
                permissions: Vec::from_slice(alloc, permissions.as_slice())?,
            }),
        }
    }

    /// That its entry of a record has the form of such.
    fn is_formed(&self, signer: &PublicKey)
        ensures { IsFormed signer.now (entry_view self.now) }
    {
        match self {
            PublishEntry::Init => has_form(signer),
            PublishEntry::Release { content, .. } => is_digest(content),
            PublishEntry::Yank { .. } => {}
            PublishEntry::Grant { key, .. } => has_form(key),
            PublishEntry::Revoke { key_id, .. } => is_digest(key_id.hash()),
        }
    }

    /// The entry of a record that this key signs.
    pub(crate) fn into_record_entry(
        self,
        alloc: Global,
        signer: &PublicKey,
    ) -> Result<PackageEntry, Memory>
        ensures entry { IfOk result (λ entry.
            package_entry_view entry ≡ record_entry_of signer.now (entry_view self)) }
        ensures formed { OnOk result (IsFormed signer.now (entry_view self)) }
    {
        self.is_formed(signer);
        match self {
            PublishEntry::Init => Ok(PackageEntry::Init {
                key: signer.try_clone(alloc)?,
                hash_algorithm: Text::copy_of(alloc, HASH_ALGORITHM)?,
            }),
            PublishEntry::Release { version, content } => {
                Ok(PackageEntry::Release { version, content })
            }
            PublishEntry::Yank { version } => Ok(PackageEntry::Yank { version }),
            PublishEntry::Grant { key, permissions } => {
                Ok(PackageEntry::GrantFlat { key, permissions })
            }
            PublishEntry::Revoke {
                key_id,
                permissions,
            } => Ok(PackageEntry::RevokeFlat {
                key_id,
                permissions,
            }),
        }
    }
}
