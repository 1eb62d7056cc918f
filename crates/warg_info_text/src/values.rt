//! The JSON of checkpoints and logs.

ghost use Rattle.std.specs.Prelude.{◌≡◌, IfOk, IfSome, OnOk, Ok, Some, true, map, option_copied, option_map};
ghost use Rattle.std.specs.List.{AllByRecursion};
ghost use Rattle.serde_json.specs.Data.{array, string};
ghost use Rattle.serde_json.specs.View.{view, items_of, members_view};
ghost use Rattle.warg_exchange.specs.Replies.{contents_in, checkpoint_in};
ghost use Rattle.warg_exchange.specs.Requests.{contents_data, checkpoint_data, whole_number};
ghost use Rattle.warg_hash.specs.Hash.{digest_of, hash_text};
ghost use Rattle.warg_info.specs.Info.{kept_of, kept_view};
ghost use Rattle.warg_record.specs.Key.{is_key_text};
ghost use Rattle.warg_info_text.specs.StoredTexts.{record_data, kept_data, info_data};
ghost use Rattle.warg_info_text.specs.Writable.{IsWritable, IsWritableName, put_optional};

use base64::engine::general_purpose::STANDARD;
use serde_json::{Map, Value, json};
use std::alloc::Global;
use warg_exchange::{Checkpoint, SignedCheckpoint};
use warg_hash::{AnyHash, PackageName};
use warg_info::{KeptRecord, LogInfo};
use warg_log::JudgedEntry;
use warg_record::Signature;
use warg_record::laws::key_texts_are_tested;
use warg_url::RegistryDomain;
use warg_values::{Memory, Text};

/// A hash's text names the hash.
fn names_itself(hash: &AnyHash)
    ensures { digest_of (hash_text hash.now) ≡ Some hash.now }
{
    let _bytes = hash.bytes();
}

/// A signature has the form that is asked of it.
fn has_form(signature: &Signature)
    ensures { is_key_text signature.now ≡ true }
{
    key_texts_are_tested();
    let _text = signature.as_str();
}

/// The JSON of a checkpoint, by its members.
fn contents_object(alloc: Global, contents: &Checkpoint) -> Result<Value, Memory>
    ensures { IfOk result (λ v. view v ≡ contents_data contents.now) }
{
    let log_root = contents.log_root.text(alloc)?;
    let map_root = contents.map_root.text(alloc)?;
    Ok(json!(in alloc; {
            "logLength": contents.log_length,
            "logRoot": log_root.as_str(),
            "mapRoot": map_root.as_str(),
            "timestamp": contents.timestamp,
        })?)
}

/// The JSON of a checkpoint.
fn contents_value(alloc: Global, contents: &Checkpoint) -> Result<Value, Memory>
    ensures data { IfOk result (λ v. view v ≡ contents_data contents.now) }
    ensures reads { contents_in (contents_data contents.now) ≡ Ok contents.now }
{
    names_itself(&contents.log_root);
    names_itself(&contents.map_root);
    contents_object(alloc, contents)
}

/// The JSON of a signed checkpoint, by its members.
fn checkpoint_object(
    alloc: Global,
    contents: Value,
    checkpoint: &SignedCheckpoint,
) -> Result<Value, Memory>
    ensures { IfOk result (λ v. view contents ≡ contents_data checkpoint.now.contents
        → view v ≡ checkpoint_data checkpoint.now) }
{
    let key_id = checkpoint.key_id.text(alloc)?;
    Ok(
        json!(in alloc; {"contents": contents, "keyId": key_id.as_str(), "signature": checkpoint.signature.as_str()})?,
    )
}

/// The JSON of a signed checkpoint.
pub fn checkpoint_value(alloc: Global, checkpoint: &SignedCheckpoint) -> Result<Value, Memory>
    ensures data { IfOk result (λ v. view v ≡ checkpoint_data checkpoint.now) }
    ensures reads { OnOk result (checkpoint_in (checkpoint_data checkpoint.now) ≡ Ok checkpoint.now) }
{
    names_itself(checkpoint.key_id.hash());
    has_form(&checkpoint.signature);
    let contents = contents_value(alloc, &checkpoint.contents)?;
    checkpoint_object(alloc, contents, checkpoint)
}

/// The JSON of a record, by its members: its message in base64, and the texts of its key's id and of its signature.
fn record_object(
    alloc: Global,
    contents: &str,
    key_id: &str,
    signature: &str,
    fetch_token: &Text,
    registry_index: u64,
) -> Result<Value, Memory>
    ensures { IfOk result (λ v. view v
        ≡ record_data contents.now key_id.now signature.now fetch_token.now registry_index) }
{
    Ok(json!(in alloc; {
            "contentBytes": contents,
            "fetchToken": fetch_token.as_str(),
            "keyId": key_id,
            "registryIndex": registry_index,
            "signature": signature,
        })?)
}

/// The JSON of a record.
fn record_value<E: JudgedEntry>(alloc: Global, kept: &KeptRecord<E>) -> Result<Value, Memory>
    ensures data { IfOk result (λ v. view v ≡ kept_data (kept_view E.plain kept.now)) }
    ensures writable { OnOk result (IsWritable (kept_view E.plain kept.now)) }
{
    let contents = STANDARD.encode(alloc, kept.envelope.contents.as_slice())?;
    let key_id = kept.envelope.key_id.hash().text(alloc)?;
    record_object(
        alloc,
        contents.as_str(),
        key_id.as_str(),
        kept.envelope.signature.as_str(),
        &kept.fetch_token,
        kept.registry_index,
    )
}

/// The JSON of records, in order.
fn records_value<E: JudgedEntry>(alloc: Global, records: &[KeptRecord<E>]) -> Result<Value, Memory>
    ensures data { IfOk result (λ v. view v
        ≡ array (items_of (map kept_data (map (kept_view E.plain) records.now)))) }
    ensures writable { OnOk result (AllByRecursion IsWritable (map (kept_view E.plain) records.now)) }
{
    let mut values = Vec::new(alloc);
    for kept in records {
        let value = record_value(alloc, kept)?;
        values.push(value)?;
    }
    Ok(Value::Array(values))
}

/// Adds a member, where there is a value.
fn put_member(
    alloc: Global,
    members: &mut Map<String, Value>,
    name: &str,
    value: Option<Value>,
) -> Result<(), Memory>
    ensures { OnOk result (members_view members.new.entries
        ≡ put_optional name.now (option_map view value) (members_view members.old.entries)) }
{
    if let Some(value) = value {
        serde_json::put(members, alloc, name, value)?;
    }
    Ok(())
}

/// The JSON of a text that may be missing.
fn text_value(alloc: Global, text: Option<&str>) -> Result<Option<Value>, Memory>
    ensures { IfOk result (λ o. option_map view o ≡ option_map string (option_copied text.entry)) }
{
    match text {
        Some(text) => Ok(Some(Value::String(String::from_str(alloc, text)?))),
        None => Ok(None),
    }
}

/// The JSON of a registry's name that may be missing.
fn registry_value(alloc: Global, registry: Option<&RegistryDomain>) -> Result<Option<Value>, Memory>
    ensures { IfOk result (λ o. option_map view o ≡ option_map string (option_copied registry.entry)) }
{
    match registry {
        Some(registry) => text_value(alloc, Some(registry.as_str())),
        None => Ok(None),
    }
}

/// The JSON of a package's name that may be missing.
fn name_value(alloc: Global, name: Option<&PackageName>) -> Result<Option<Value>, Memory>
    ensures data { IfOk result (λ o. option_map view o ≡ option_map string (option_copied name.entry)) }
    ensures writable { OnOk result (IfSome (option_copied name.entry) IsWritableName) }
{
    match name {
        Some(name) => text_value(alloc, Some(name.as_str())),
        None => Ok(None),
    }
}

/// The JSON of a token that may be missing.
fn token_value(alloc: Global, token: Option<&Text>) -> Result<Option<Value>, Memory>
    ensures { IfOk result (λ o. option_map view o ≡ option_map string (option_copied token.entry)) }
{
    match token {
        Some(token) => text_value(alloc, Some(token.as_str())),
        None => Ok(None),
    }
}

/// The JSON of a number that may be missing.
fn number_value(number: Option<u64>) -> Option<Value>
    ensures { option_map view result ≡ option_map whole_number number }
{
    match number {
        Some(number) => Some(Value::from(number)),
        None => None,
    }
}

/// The JSON of a checkpoint that may be missing.
fn proved_value(alloc: Global, checkpoint: Option<&Checkpoint>) -> Result<Option<Value>, Memory>
    ensures data { IfOk result (λ o. option_map view o ≡ option_map contents_data (option_copied checkpoint.entry)) }
    ensures reads { OnOk result (IfSome (option_copied checkpoint.entry) (λ c. contents_in (contents_data c) ≡ Ok c)) }
{
    match checkpoint {
        Some(checkpoint) => Ok(Some(contents_value(alloc, checkpoint)?)),
        None => Ok(None),
    }
}

/// The JSON of what is kept of a log: of a package's where there is a name, else of an operator's. A member goes before
/// those that are there, since its name is less than theirs.
pub fn info_value<E: JudgedEntry>(
    alloc: Global,
    name: Option<&PackageName>,
    registry: Option<&RegistryDomain>,
    checkpoint: Option<&Checkpoint>,
    log: &LogInfo<E>,
) -> Result<Value, Memory>
    ensures data { IfOk result (λ v. view v ≡ info_data (option_copied name.entry) (record {
      registry = option_copied registry.entry;
      checkpoint = option_copied checkpoint.entry;
      log = kept_of E.plain log.now;
    })) }
    ensures name { OnOk result (IfSome (option_copied name.entry) IsWritableName) }
    ensures reads { OnOk result (IfSome (option_copied checkpoint.entry) (λ c. contents_in (contents_data c) ≡ Ok c)) }
    ensures writable { OnOk result (AllByRecursion IsWritable (kept_of E.plain log.now)) }
{
    let mut members = Map::new(alloc);
    put_member(
        alloc,
        &mut members,
        "registry",
        registry_value(alloc, registry)?,
    )?;
    let records = records_value(alloc, log.records())?;
    put_member(alloc, &mut members, "records", Some(records))?;
    put_member(alloc, &mut members, "name", name_value(alloc, name)?)?;
    put_member(
        alloc,
        &mut members,
        "headRegistryIndex",
        number_value(log.head_registry_index()),
    )?;
    put_member(
        alloc,
        &mut members,
        "headFetchToken",
        token_value(alloc, log.head_fetch_token())?,
    )?;
    put_member(
        alloc,
        &mut members,
        "checkpoint",
        proved_value(alloc, checkpoint)?,
    )?;
    Ok(Value::Object(members))
}
