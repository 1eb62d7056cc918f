//! Configurations written as bytes.

ghost use Rattle.std.specs.Prelude.{◌≡◌, IfOk, OnOk, Some, bytes_eq, option_map};
ghost use Rattle.std.specs.List.{IsDistinct};
ghost use Rattle.serde_json.specs.View.{view, members_view};
ghost use Rattle.warg_config.specs.Answers.{put_given};
ghost use Rattle.warg_config.specs.Paths.{relative_to};
ghost use Rattle.warg_config.specs.Settings.{flag_data, keys_data, settings_data, settings_of_bytes, settings_text, text_data, with_paths};
ghost use Rattle.warg_config.specs.Shown.{settings_of};

use crate::config::Config;
use crate::paths::relative;
use indexmap::IndexSet;
use serde_json::{Map, Value};
use std::alloc::Global;
use warg_values::{Memory, Text};

/// Adds a member, where there is a value.
fn put_member(
    alloc: Global,
    members: &mut Map<String, Value>,
    name: &str,
    value: Option<Value>,
) -> Result<(), Memory>
    ensures { OnOk result (members_view members.new.entries
        ≡ put_given name.now (option_map view value) (members_view members.old.entries)) }
{
    if let Some(value) = value {
        serde_json::put(members, alloc, name, value)?;
    }
    Ok(())
}

/// The JSON of a text that may be missing.
fn text_value(alloc: Global, text: &Option<Text>) -> Result<Option<Value>, Memory>
    ensures { IfOk result (λ value. option_map view value ≡ text_data text.now) }
{
    match text {
        Some(text) => Ok(Some(Value::String(String::from_str(alloc, text.as_str())?))),
        None => Ok(None),
    }
}

/// The JSON of a path that may be missing, in a file of a folder.
fn path_value(alloc: Global, folder: &str, path: &Option<Text>) -> Result<Option<Value>, Memory>
    ensures { IfOk result (λ value. option_map view value
        ≡ text_data (option_map (relative_to folder.now) path.now)) }
{
    match path {
        Some(path) => {
            let text = relative(alloc, folder, path.as_str())?;
            Ok(Some(Value::String(text.into_string())))
        }
        None => Ok(None),
    }
}

/// The JSON of a flag.
fn flag_value(flag: bool) -> Option<Value>
    ensures { option_map view result ≡ flag_data flag }
{
    Some(Value::Bool(flag))
}

/// The JSON of keys, which are left out where there are none. No two of them are equal.
fn keys_value(alloc: Global, keys: &IndexSet<Text>) -> Result<Option<Value>, Memory>
    ensures value { IfOk result (λ value. option_map view value ≡ keys_data keys.now.keys) }
    ensures distinct { IsDistinct bytes_eq keys.now.keys }
{
    // The length tells that no two are equal, too.
    if keys.len() == 0 {
        return Ok(None);
    }
    let mut values = Vec::new(alloc);
    for key in keys {
        values.push(Value::String(String::from_str(alloc, key.as_str())?))?;
    }
    Ok(Some(Value::Array(values)))
}

/// Adds a text, where there is one.
fn put_text(
    alloc: Global,
    members: &mut Map<String, Value>,
    name: &str,
    text: &Option<Text>,
) -> Result<(), Memory>
    ensures { OnOk result (members_view members.new.entries
        ≡ put_given name.now (text_data text.now) (members_view members.old.entries)) }
{
    let value = text_value(alloc, text)?;
    put_member(alloc, members, name, value)?;
    Ok(())
}

/// Adds a path, where there is one, as it is written in a file of a folder.
fn put_path(
    alloc: Global,
    members: &mut Map<String, Value>,
    name: &str,
    folder: &str,
    path: &Option<Text>,
) -> Result<(), Memory>
    ensures { OnOk result (members_view members.new.entries
        ≡ put_given name.now (text_data (option_map (relative_to folder.now) path.now))
        (members_view members.old.entries)) }
{
    let value = path_value(alloc, folder, path)?;
    put_member(alloc, members, name, value)?;
    Ok(())
}

/// Adds a flag.
fn put_flag(
    alloc: Global,
    members: &mut Map<String, Value>,
    name: &str,
    flag: bool,
) -> Result<(), Memory>
    ensures { OnOk result (members_view members.new.entries
        ≡ put_given name.now (flag_data flag) (members_view members.old.entries)) }
{
    put_member(alloc, members, name, flag_value(flag))?;
    Ok(())
}

/// The JSON of a configuration in a file of a folder. A member goes before those that are there, since its name is less
/// than theirs.
fn config_value(alloc: Global, config: &Config, folder: &str) -> Result<Value, Memory>
    ensures value { IfOk result (λ value. view value
        ≡ settings_data (with_paths (relative_to folder.now) (settings_of config.now))) }
    ensures distinct { OnOk result (IsDistinct bytes_eq config.now.keys.keys) }
{
    let keys = keys_value(alloc, &config.keys)?;
    let no_accept = config.disable_auto_accept_federation_hints;
    let mut members = Map::new(alloc);
    put_path(
        alloc,
        &mut members,
        "registriesDir",
        folder,
        &config.registries_dir,
    )?;
    put_path(
        alloc,
        &mut members,
        "namespaceMapPath",
        folder,
        &config.namespace_map_path,
    )?;
    put_member(alloc, &mut members, "keys", keys)?;
    put_text(
        alloc,
        &mut members,
        "keyringBackend",
        &config.keyring_backend,
    )?;
    put_flag(alloc, &mut members, "keyringAuth", config.keyring_auth)?;
    put_flag(
        alloc,
        &mut members,
        "ignoreFederationHints",
        config.ignore_federation_hints,
    )?;
    put_text(alloc, &mut members, "homeUrl", &config.home_url)?;
    put_flag(
        alloc,
        &mut members,
        "disableInteractive",
        config.disable_interactive,
    )?;
    put_flag(
        alloc,
        &mut members,
        "disableAutoPackageInit",
        config.disable_auto_package_init,
    )?;
    put_flag(
        alloc,
        &mut members,
        "disableAutoAcceptFederationHints",
        no_accept,
    )?;
    put_path(
        alloc,
        &mut members,
        "contentDir",
        folder,
        &config.content_dir,
    )?;
    Ok(Value::Object(members))
}

/// The text of a configuration in a file of a folder. It reads back.
pub fn write_config(alloc: Global, config: &Config, folder: &str) -> Result<Vec<u8>, Memory>
    ensures text { IfOk result (λ text. text.items
        ≡ settings_text (with_paths (relative_to folder.now) (settings_of config.now))) }
    ensures reads { OnOk result (settings_of_bytes
        (settings_text (with_paths (relative_to folder.now) (settings_of config.now)))
        ≡ Some (with_paths (relative_to folder.now) (settings_of config.now))) }
{
    let value = config_value(alloc, config, folder)?;
    Ok(value.to_vec_pretty(alloc)?)
}
