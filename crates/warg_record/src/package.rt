//! The entries of a package's log.

ghost use Rattle.std.specs.Prelude.{◌≡◌, IfOk};
ghost use Rattle.semver.specs.Identifiers.{parts_of};
ghost use Rattle.warg_record.specs.Record.{Package, Release, Yank, entry_text};
ghost use Rattle.warg_record.specs.Reading as reading;
ghost use Rattle.warg_record.specs.Answer.{GivesOrForm};
ghost use Rattle.warg_record.specs.View.{package_entry_view};

use crate::entry::{LogEntry, LogPermission};
use crate::error::EnvelopeError;
use crate::fields::{
    grant_of, hash_of, init_of, one_field, only_field, revoke_of, two_fields, version_of,
};
use crate::key::PublicKey;
use crate::writing;
use semver::Version;
use std::alloc::Global;
use warg_hash::{AnyHash, KeyId};
use warg_values::{Memory, Text};

/// What a key may do in a package's log.
#[derive(Clone, Copy, Debug, PartialEq, Eq, PartialOrd, Ord, Hash)]
pub enum Permission {
    /// Release versions: `release`.
    Release,
    /// Yank released versions: `yank`.
    Yank,
}

/// One entry of a record in a package's log.
#[derive(Debug, Drop)]
pub enum PackageEntry {
    /// The log's first entry: its first key, which holds every permission, and the hash algorithm.
    Init {
        key: PublicKey,
        hash_algorithm: Text,
    },
    /// A key that is given permissions.
    GrantFlat {
        key: PublicKey,
        permissions: Vec<Permission>,
    },
    /// A key from which permissions are taken.
    RevokeFlat {
        key_id: KeyId,
        permissions: Vec<Permission>,
    },
    /// A released version, with the digest of its content.
    Release {
        version: Version,
        content: AnyHash,
    },
    /// A released version that is no longer to be chosen.
    Yank {
        version: Version,
    },
}

impl LogPermission for Permission {
    ghost use Rattle.warg_record.specs.Record.{Package};
    ghost use Rattle.warg_record.specs.View.{package_permission_text};

    ghost kind = { Package };

    ghost text_of = { package_permission_text };

    fn from_text(text: &str) -> Option<Self> {
        match text {
            "release" => Some(Permission::Release),
            "yank" => Some(Permission::Yank),
            _ => None,
        }
    }

    fn as_str(self) -> &'static str {
        match self {
            Permission::Release => "release",
            Permission::Yank => "yank",
        }
    }
}

impl LogEntry for PackageEntry {
    ghost use Rattle.warg_record.specs.Record.{Package};
    ghost use Rattle.warg_record.specs.View.{package_entry_view};

    ghost kind = { Package };

    ghost plain = { package_entry_view };

    fn read(alloc: Global, bytes: &[u8]) -> Result<Self, EnvelopeError> {
        read_entry(alloc, bytes)
    }

    fn try_clone(&self, alloc: Global) -> Result<Self, Memory> {
        match self {
            PackageEntry::Init {
                key,
                hash_algorithm,
            } => Ok(PackageEntry::Init {
                key: key.try_clone(alloc)?,
                hash_algorithm: hash_algorithm.try_clone(alloc)?,
            }),
            PackageEntry::GrantFlat { key, permissions } => Ok(PackageEntry::GrantFlat {
                key: key.try_clone(alloc)?,
                permissions: Vec::from_slice(alloc, permissions.as_slice())?,
            }),
            PackageEntry::RevokeFlat {
                key_id,
                permissions,
            } => Ok(PackageEntry::RevokeFlat {
                key_id: *key_id,
                permissions: Vec::from_slice(alloc, permissions.as_slice())?,
            }),
            PackageEntry::Release { version, content } => Ok(PackageEntry::Release {
                version: copy_of(version)?,
                content: *content,
            }),
            PackageEntry::Yank { version } => Ok(PackageEntry::Yank {
                version: copy_of(version)?,
            }),
        }
    }

    fn message(&self, alloc: Global) -> Result<Vec<u8>, Memory> {
        match self {
            PackageEntry::Init {
                key,
                hash_algorithm,
            } => writing::init_message(alloc, key, hash_algorithm.as_str()),
            PackageEntry::GrantFlat { key, permissions } => {
                writing::grant_message(alloc, key, permissions)
            }
            PackageEntry::RevokeFlat {
                key_id,
                permissions,
            } => writing::revoke_message(alloc, key_id, permissions),
            PackageEntry::Release { version, content } => release_message(alloc, version, content),
            PackageEntry::Yank { version } => yank_message(alloc, version),
        }
    }
}

/// The entry that a message is, as it is read from left to right.
#[tactic(auto, unfolding(crate::specs::Reading::entry_at))]
fn read_entry(alloc: Global, bytes: &[u8]) -> Result<PackageEntry, EnvelopeError>
    ensures { GivesOrForm package_entry_view result (reading.entry_at Package bytes.now) }
{
    let (key, bytes) = only_field(bytes)?;
    match key {
        10 => {
            let (key, hash_algorithm) = init_of(alloc, bytes)?;
            Ok(PackageEntry::Init {
                key,
                hash_algorithm,
            })
        }
        18 => {
            let (key, permissions) = grant_of(alloc, bytes)?;
            Ok(PackageEntry::GrantFlat { key, permissions })
        }
        26 => {
            let (key_id, permissions) = revoke_of(alloc, bytes)?;
            Ok(PackageEntry::RevokeFlat {
                key_id,
                permissions,
            })
        }
        34 => release_of(alloc, bytes),
        42 => yank_of(alloc, bytes),
        _ => Err(EnvelopeError::Form),
    }
}

/// A version of its own, equal to this one.
fn copy_of(version: &Version) -> Result<Version, Memory>
    ensures { IfOk result (λ copy. parts_of copy ≡ parts_of version.now) }
{
    Ok(version.clone()?)
}

/// A released version, and the digest of its content.
#[tactic(auto, unfolding(crate::specs::Reading::release_of))]
fn release_of(alloc: Global, bytes: &[u8]) -> Result<PackageEntry, EnvelopeError>
    ensures { GivesOrForm package_entry_view result (reading.release_of bytes.now) }
{
    let (version, content) = two_fields(bytes)?;
    let version = version_of(alloc, version)?;
    let content = hash_of(alloc, content)?;
    Ok(PackageEntry::Release { version, content })
}

/// A version to be yanked.
#[tactic(auto, unfolding(crate::specs::Reading::yank_of))]
fn yank_of(alloc: Global, bytes: &[u8]) -> Result<PackageEntry, EnvelopeError>
    ensures { GivesOrForm package_entry_view result (reading.yank_of bytes.now) }
{
    let version = one_field(bytes)?;
    let version = version_of(alloc, version)?;
    Ok(PackageEntry::Yank { version })
}

/// The message of an entry that releases a version.
fn release_message(alloc: Global, version: &Version, content: &AnyHash) -> Result<Vec<u8>, Memory>
    ensures { IfOk result (λ message. message.items ≡ entry_text (Release (parts_of version.now) content.now)) }
{
    let version = format!(in alloc; "{version}")?;
    let body = writing::two_fields(alloc, version.as_bytes(), content.text_bytes().as_slice())?;
    writing::message_of(alloc, 4, &body)
}

/// The message of an entry that yanks a version.
fn yank_message(alloc: Global, version: &Version) -> Result<Vec<u8>, Memory>
    ensures { IfOk result (λ message. message.items ≡ entry_text (Yank (parts_of version.now))) }
{
    let version = format!(in alloc; "{version}")?;
    let body = writing::message_of(alloc, 1, version.as_bytes())?;
    writing::message_of(alloc, 5, &body)
}
