//! What is stored of what is to be published.

ghost use Rattle.std.specs.Prelude.{◌≡◌, IfOk, IsUtf8, codes, map};
ghost use Rattle.serde_json.specs.View.{view};
ghost use Rattle.semver.specs.Identifiers.{parts_of};
ghost use Rattle.warg_record.specs.View.{package_permission_text};
ghost use Rattle.warg_exchange.specs.Body.{member_as, text_in};
ghost use Rattle.warg_json.specs.Answers.{BodyGives};
ghost use Rattle.warg_publish.specs.Shown.{entry_view};
ghost use Rattle.warg_publish_text.specs.PublishText.{entry_of as entry_of_kind, grant_in, permissions_in, release_in, revoke_in, version_in, yank_in};

use semver::Version;
use serde_json::Value;
use std::alloc::{AllocError, Global};
use warg_hash::NameError;
use warg_json::{BodyError, FromBody, member, optional, required};
use warg_publish::{Permission, PublicKey, PublishEntry, PublishInfo};
use warg_record::LogPermission;
use warg_record::laws::key_texts_are_tested;
use warg_values::{Memory, Sequence};

/// A key that is stored.
#[derive(Debug, Drop)]
pub struct StoredKey {
    /// The key.
    pub key: PublicKey,
}

/// A permission that is stored.
#[derive(Debug, Drop)]
pub struct StoredPermission {
    /// The permission.
    pub permission: Permission,
}

/// A version that is stored.
#[derive(Debug, Drop)]
pub struct StoredVersion {
    /// The version.
    pub version: Version,
}

/// An entry that is stored.
#[derive(Debug, Drop)]
pub struct StoredEntry {
    /// The entry.
    pub entry: PublishEntry,
}

/// What is stored.
#[derive(Debug, Drop)]
pub struct StoredInfo {
    /// What is to be published.
    pub info: PublishInfo,
}

/// The text that a value is.
fn text_of(value: &Value) -> Result<&str, BodyError>
    ensures meant { BodyGives (λ t. t.now) result (text_in (view value.now)) }
    ensures utf8 { IfOk result (λ t. IsUtf8 t.now) }
{
    match value.as_str() {
        Some(text) => Ok(text),
        None => Err(BodyError::Unexpected),
    }
}

impl FromBody for StoredKey {
    ghost use Rattle.std.specs.Prelude.{ℕ, List};
    ghost use Rattle.warg_record.specs.Key.{is_key_text};
    ghost use Rattle.warg_exchange.specs.Body.{formed_in};

    ghost Plain = { List ℕ };

    ghost plain = { λ s. s.key };

    ghost meaning = { formed_in is_key_text };

    fn from_body(alloc: Global, value: &Value) -> Result<StoredKey, BodyError> {
        key_texts_are_tested();
        let text = text_of(value)?;
        match PublicKey::new(alloc, text) {
            Ok(key) => Ok(StoredKey { key }),
            Err(NameError::Form) => Err(BodyError::Unexpected),
            Err(NameError::Memory) => Err(BodyError::Memory),
        }
    }
}

impl FromBody for StoredPermission {
    ghost use Rattle.std.specs.Prelude.{ℕ, List};
    ghost use Rattle.warg_publish_text.specs.PublishText.{permission_in};

    ghost Plain = { List ℕ };

    ghost plain = { λ s. package_permission_text s.permission };

    ghost meaning = { permission_in };

    fn from_body(_alloc: Global, value: &Value) -> Result<StoredPermission, BodyError> {
        let text = text_of(value)?;
        match Permission::from_text(text) {
            Some(permission) => Ok(StoredPermission { permission }),
            None => Err(BodyError::Unexpected),
        }
    }
}

impl FromBody for StoredVersion {
    ghost use Rattle.semver.specs.Parse.{Parts};

    ghost Plain = { Parts };

    ghost plain = { λ s. parts_of s.version };

    ghost meaning = { version_in };

    fn from_body(alloc: Global, value: &Value) -> Result<StoredVersion, BodyError> {
        let text = text_of(value)?;
        match Version::parse(alloc, text) {
            Ok(version) => Ok(StoredVersion { version }),
            Err(error) if error == semver::Error::from(AllocError) => Err(BodyError::Memory),
            Err(_) => Err(BodyError::Unexpected),
        }
    }
}

/// Permissions that were stored, in order.
fn permissions_of(
    alloc: Global,
    stored: Sequence<StoredPermission>,
) -> Result<Vec<Permission>, Memory>
    ensures { IfOk result (λ ps. map package_permission_text ps.items
        ≡ map (λ s. package_permission_text s.permission) stored) }
{
    let mut permissions = Vec::new(alloc);
    for stored in stored.into_vec() {
        permissions.push(stored.permission)?;
    }
    Ok(permissions)
}

/// One permission or more, which a member has.
fn some_permissions(alloc: Global, value: &Value) -> Result<Vec<Permission>, BodyError>
    ensures { BodyGives (λ ps. map package_permission_text ps.items) result
        (member_as (codes "permissions") permissions_in (view value.now)) }
{
    let stored: Sequence<StoredPermission> = required(alloc, "permissions", value)?;
    if stored.is_empty() {
        return Err(BodyError::Unexpected);
    }
    Ok(permissions_of(alloc, stored)?)
}

/// A version that is released.
#[tactic(auto, unfolding(crate::specs::PublishText::release_in))]
fn release_of(alloc: Global, value: &Value) -> Result<PublishEntry, BodyError>
    ensures { BodyGives entry_view result (release_in (view value.now)) }
{
    let content = required(alloc, "content", value)?;
    let stored: StoredVersion = required(alloc, "version", value)?;
    Ok(PublishEntry::Release {
        version: stored.version,
        content,
    })
}

/// A version that is no longer to be chosen.
#[tactic(auto, unfolding(crate::specs::PublishText::yank_in))]
fn yank_of(alloc: Global, value: &Value) -> Result<PublishEntry, BodyError>
    ensures { BodyGives entry_view result (yank_in (view value.now)) }
{
    let stored: StoredVersion = required(alloc, "version", value)?;
    Ok(PublishEntry::Yank {
        version: stored.version,
    })
}

/// A key that is given permissions.
#[tactic(auto, unfolding(crate::specs::PublishText::grant_in))]
fn grant_of(alloc: Global, value: &Value) -> Result<PublishEntry, BodyError>
    ensures { BodyGives entry_view result (grant_in (view value.now)) }
{
    let stored: StoredKey = required(alloc, "key", value)?;
    let permissions = some_permissions(alloc, value)?;
    Ok(PublishEntry::Grant {
        key: stored.key,
        permissions,
    })
}

/// A key from which permissions are taken.
#[tactic(auto, unfolding(crate::specs::PublishText::revoke_in))]
fn revoke_of(alloc: Global, value: &Value) -> Result<PublishEntry, BodyError>
    ensures { BodyGives entry_view result (revoke_in (view value.now)) }
{
    let key_id = required(alloc, "keyId", value)?;
    let permissions = some_permissions(alloc, value)?;
    Ok(PublishEntry::Revoke {
        key_id,
        permissions,
    })
}

/// An entry of a kind.
fn entry_of(alloc: Global, kind: &str, value: &Value) -> Result<PublishEntry, BodyError>
    ensures { BodyGives entry_view result (entry_of_kind kind.now (view value.now)) }
{
    match kind {
        "init" => Ok(PublishEntry::Init),
        "release" => release_of(alloc, value),
        "yank" => yank_of(alloc, value),
        "grant" => grant_of(alloc, value),
        "revoke" => revoke_of(alloc, value),
        _ => Err(BodyError::Unexpected),
    }
}

impl FromBody for StoredEntry {
    ghost use Rattle.warg_publish.specs.Publish.{PlainPublishEntry};
    ghost use Rattle.warg_publish_text.specs.PublishText.{entry_in};

    ghost Plain = { PlainPublishEntry };

    ghost plain = { λ s. entry_view s.entry };

    ghost meaning = { entry_in };

    #[tactic(auto, unfolding(crate::specs::PublishText::entry_in))]
    fn from_body(alloc: Global, value: &Value) -> Result<StoredEntry, BodyError> {
        let kind = text_of(member("type", value)?)?;
        let entry = entry_of(alloc, kind, value)?;
        Ok(StoredEntry { entry })
    }
}

/// Entries that were stored, in order.
fn entries_of(alloc: Global, stored: Sequence<StoredEntry>) -> Result<Vec<PublishEntry>, Memory>
    ensures { IfOk result (λ es. map entry_view es.items ≡ map (λ s. entry_view s.entry) stored) }
{
    let mut entries = Vec::new(alloc);
    for stored in stored.into_vec() {
        entries.push(stored.entry)?;
    }
    Ok(entries)
}

impl FromBody for StoredInfo {
    ghost use Rattle.warg_publish.specs.Publish.{PlainPublishInfo};
    ghost use Rattle.warg_publish.specs.Shown.{info_view};
    ghost use Rattle.warg_publish_text.specs.PublishText.{publish_in};

    ghost Plain = { PlainPublishInfo };

    ghost plain = { λ s. info_view s.info };

    ghost meaning = { publish_in };

    #[tactic(auto, unfolding(crate::specs::PublishText::publish_in))]
    fn from_body(alloc: Global, value: &Value) -> Result<StoredInfo, BodyError> {
        let stored: Sequence<StoredEntry> = required(alloc, "entries", value)?;
        let entries = entries_of(alloc, stored)?;
        let head = optional(alloc, "head", value)?;
        let name = required(alloc, "name", value)?;
        let info = PublishInfo {
            name,
            head,
            entries,
        };
        Ok(StoredInfo { info })
    }
}
