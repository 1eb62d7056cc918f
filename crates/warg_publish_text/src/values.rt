//! The JSON of what is to be published.

ghost use Rattle.std.specs.Prelude.{◌≡◌, IfOk, IfSome, OnOk, true, map, option_copied};
ghost use Rattle.std.specs.List.{AllByRecursion};
ghost use Rattle.semver.specs.Identifiers.{parts_of};
ghost use Rattle.serde_json.specs.Data.{array};
ghost use Rattle.serde_json.specs.View.{view, items_of};
ghost use Rattle.warg_hash.specs.Name.{is_package_name};
ghost use Rattle.warg_record.specs.Key.{is_key_text};
ghost use Rattle.warg_record.specs.View.{package_permission_text};
ghost use Rattle.warg_publish.specs.Publish.{Release, Yank, Grant, Revoke};
ghost use Rattle.warg_publish.specs.Shown.{entry_view, info_view};
ghost use Rattle.warg_publish_text.specs.PublishText.{entry_data, info_data, permissions_data, publish_data};
ghost use Rattle.warg_publish_text.specs.ReadsBack.{NamesItself, ReadsBack};

use semver::Version;
use serde_json::{Value, json};
use std::alloc::Global;
use warg_hash::{AnyHash, KeyId, PackageName, RecordId};
use warg_publish::{Permission, PublicKey, PublishEntry, PublishInfo};
use warg_record::LogPermission;
use warg_record::laws::key_texts_are_tested;
use warg_values::Memory;

/// A hash's text names the hash.
fn names_itself(hash: &AnyHash)
    ensures { NamesItself hash.now }
{
    let _bytes = hash.bytes();
}

/// The text of a record's id names it.
fn head_names_itself(head: Option<&RecordId>)
    ensures { IfSome (option_copied head.entry) NamesItself }
{
    if let Some(head) = head {
        names_itself(head.hash());
    }
}

/// A key has the form that is asked of it.
fn has_form(key: &PublicKey)
    ensures { is_key_text key.now ≡ true }
{
    key_texts_are_tested();
    let _text = key.as_str();
}

/// A package's name has the form that is asked of it.
fn is_name(name: &PackageName)
    ensures { is_package_name name.now ≡ true }
{
    let _text = name.as_str();
}

/// An entry that can be published is read back.
fn reads_back(entry: &PublishEntry)
    ensures { ReadsBack (entry_view entry.now) }
{
    match entry {
        PublishEntry::Init => {}
        PublishEntry::Yank { .. } => {}
        PublishEntry::Release { content, .. } => names_itself(content),
        PublishEntry::Grant { key, .. } => has_form(key),
        PublishEntry::Revoke { key_id, .. } => names_itself(key_id.hash()),
    }
}

/// The JSON of permissions, in order.
fn permissions_value(alloc: Global, permissions: &[Permission]) -> Result<Value, Memory>
    ensures { IfOk result (λ v. view v ≡ permissions_data (map package_permission_text permissions.now)) }
{
    let mut values = Vec::new(alloc);
    for permission in permissions {
        values.push(Value::String(String::from_str(alloc, permission.as_str())?))?;
    }
    Ok(Value::Array(values))
}

/// The JSON of a version that is released.
fn release_value(alloc: Global, version: &Version, content: &AnyHash) -> Result<Value, Memory>
    ensures { IfOk result (λ v. view v ≡ entry_data (Release (parts_of version.now) content.now)) }
{
    let content = content.text(alloc)?;
    let version = format!(in alloc; "{version}")?;
    Ok(
        json!(in alloc; {"content": content.as_str(), "type": "release", "version": version.as_str()})?,
    )
}

/// The JSON of a version that is no longer to be chosen.
fn yank_value(alloc: Global, version: &Version) -> Result<Value, Memory>
    ensures { IfOk result (λ v. view v ≡ entry_data (Yank (parts_of version.now))) }
{
    let version = format!(in alloc; "{version}")?;
    Ok(json!(in alloc; {"type": "yank", "version": version.as_str()})?)
}

/// The JSON of a key that is given permissions.
fn grant_value(alloc: Global, key: &PublicKey, permissions: &[Permission]) -> Result<Value, Memory>
    ensures { IfOk result (λ v. view v
        ≡ entry_data (Grant key.now (map package_permission_text permissions.now))) }
{
    let permissions = permissions_value(alloc, permissions)?;
    Ok(json!(in alloc; {"key": key.as_str(), "permissions": permissions, "type": "grant"})?)
}

/// The JSON of a key from which permissions are taken.
fn revoke_value(alloc: Global, key_id: &KeyId, permissions: &[Permission]) -> Result<Value, Memory>
    ensures { IfOk result (λ v. view v
        ≡ entry_data (Revoke key_id.now (map package_permission_text permissions.now))) }
{
    let permissions = permissions_value(alloc, permissions)?;
    let key_id = key_id.text(alloc)?;
    Ok(json!(in alloc; {"keyId": key_id.as_str(), "permissions": permissions, "type": "revoke"})?)
}

/// The JSON of an entry.
fn entry_value(alloc: Global, entry: &PublishEntry) -> Result<Value, Memory>
    ensures data { IfOk result (λ v. view v ≡ entry_data (entry_view entry.now)) }
    ensures reads { OnOk result (ReadsBack (entry_view entry.now)) }
{
    reads_back(entry);
    match entry {
        PublishEntry::Init => Ok(json!(in alloc; {"type": "init"})?),
        PublishEntry::Release { version, content } => release_value(alloc, version, content),
        PublishEntry::Yank { version } => yank_value(alloc, version),
        PublishEntry::Grant { key, permissions } => {
            grant_value(alloc, key, permissions.as_slice())
        }
        PublishEntry::Revoke {
            key_id,
            permissions,
        } => revoke_value(alloc, key_id, permissions.as_slice()),
    }
}

/// The JSON of entries, in order.
fn entries_value(alloc: Global, entries: &[PublishEntry]) -> Result<Value, Memory>
    ensures data { IfOk result (λ v. view v ≡ array (items_of (map entry_data (map entry_view entries.now)))) }
    ensures reads { OnOk result (AllByRecursion ReadsBack (map entry_view entries.now)) }
{
    let mut values = Vec::new(alloc);
    for entry in entries {
        let value = entry_value(alloc, entry)?;
        values.push(value)?;
    }
    Ok(Value::Array(values))
}

/// The JSON of what is to be published, by its members.
fn info_object(
    alloc: Global,
    entries: Value,
    head: Option<&RecordId>,
    name: &PackageName,
) -> Result<Value, Memory>
    ensures { IfOk result (λ v. view v
        ≡ info_data (view entries) (option_copied head.entry) name.now) }
{
    let Some(head) = head else {
        return Ok(json!(in alloc; {"entries": entries, "name": name.as_str()})?);
    };
    let head = head.text(alloc)?;
    Ok(json!(in alloc; {"entries": entries, "head": head.as_str(), "name": name.as_str()})?)
}

/// The JSON of what is to be published.
pub fn info_value(alloc: Global, info: &PublishInfo) -> Result<Value, Memory>
    ensures data { IfOk result (λ v. view v ≡ publish_data (info_view info.now)) }
    ensures entries { OnOk result (AllByRecursion ReadsBack (info_view info.now).entries) }
    ensures head { OnOk result (IfSome (info_view info.now).head NamesItself) }
    ensures name { OnOk result (is_package_name (info_view info.now).name ≡ true) }
{
    head_names_itself(info.head.as_ref());
    is_name(&info.name);
    let entries = entries_value(alloc, info.entries.as_slice())?;
    info_object(alloc, entries, info.head.as_ref(), &info.name)
}
