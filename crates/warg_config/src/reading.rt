//! Configurations read from bytes.

ghost use Rattle.std.specs.Prelude.{◌≡◌, codes};
ghost use Rattle.serde_json.specs.Find.{get};
ghost use Rattle.serde_json.specs.View.{view, items_view};
ghost use Rattle.warg_config.specs.Answers.{Gives};
ghost use Rattle.warg_config.specs.Settings.{text_in, flag_in, distinct_texts, keys_in, object_settings, settings_in, meaning_of};
ghost use Rattle.warg_config.specs.Shown.{settings_of};
ghost use Rattle.warg_config.specs.declared.reading.ReadError.TheVariants.{Memory as no_memory};

use crate::config::Config;
use indexmap::IndexSet;
use serde_json::Value;
use std::alloc::{AllocError, AllocFailed, Global};
use warg_values::{Memory, Text};

/// Why bytes are not read as a configuration.
#[derive(Clone, Copy, Debug)]
pub enum ReadError {
    /// They are not the JSON of one.
    Form,
    /// No memory was left.
    Memory,
}

impl From<Memory> for ReadError {
    ghost from_gives = { λ _ e. e ≡ no_memory };

    fn from(_memory: Memory) -> ReadError {
        ReadError::Memory
    }
}

impl From<AllocError> for ReadError {
    ghost from_gives = { λ _ e. e ≡ no_memory };

    fn from(_error: AllocError) -> ReadError {
        ReadError::Memory
    }
}

impl<T: Drop> From<AllocFailed<T>> for ReadError {
    ghost from_gives = { λ _ e. e ≡ no_memory };

    fn from(_error: AllocFailed<T>) -> ReadError {
        ReadError::Memory
    }
}

/// A text of an object, which may be missing or null.
fn text_of(alloc: Global, object: &Value, name: &str) -> Result<Option<Text>, ReadError>
    ensures { Gives (λ text. text) result (text_in (get name.now (view object.now))) }
{
    let Some(member) = object.get(name) else {
        return Ok(None);
    };
    if member.is_null() {
        return Ok(None);
    }
    match member.as_str() {
        Some(text) => Ok(Some(Text::copy_of(alloc, text)?)),
        None => Err(ReadError::Form),
    }
}

/// A flag of an object, which is false where it is missing.
fn flag_of(object: &Value, name: &str) -> Result<bool, ReadError>
    ensures { Gives (λ flag. flag) result (flag_in (get name.now (view object.now))) }
{
    let Some(member) = object.get(name) else {
        return Ok(false);
    };
    match member.as_bool() {
        Some(flag) => Ok(flag),
        None => Err(ReadError::Form),
    }
}

/// The texts that values are, each of them once.
fn texts_of(alloc: Global, values: &[Value]) -> Result<IndexSet<Text>, ReadError>
    ensures { Gives (λ texts. texts.keys) result (distinct_texts (items_view values.now)) }
{
    let mut texts = IndexSet::new(alloc);
    for value in values {
        let Some(text) = value.as_str() else {
            return Err(ReadError::Form);
        };
        texts.insert(Text::copy_of(alloc, text)?)?;
    }
    Ok(texts)
}

/// The keys of an object, which are none where they are missing.
fn keys_of(alloc: Global, object: &Value) -> Result<IndexSet<Text>, ReadError>
    ensures { Gives (λ keys. keys.keys) result (keys_in (get (codes "keys") (view object.now))) }
{
    let Some(member) = object.get("keys") else {
        return Ok(IndexSet::new(alloc));
    };
    match member.as_array() {
        Some(values) => texts_of(alloc, values.as_slice()),
        None => Err(ReadError::Form),
    }
}

/// The configuration that an object is.
#[tactic(auto, unfolding(crate::specs::Settings::object_settings))]
fn config_of_object(alloc: Global, object: &Value) -> Result<Config, ReadError>
    ensures { Gives settings_of result (object_settings (view object.now)) }
{
    let home_url = text_of(alloc, object, "homeUrl")?;
    let registries_dir = text_of(alloc, object, "registriesDir")?;
    let content_dir = text_of(alloc, object, "contentDir")?;
    let namespace_map_path = text_of(alloc, object, "namespaceMapPath")?;
    let keyring_backend = text_of(alloc, object, "keyringBackend")?;
    let keys = keys_of(alloc, object)?;
    let keyring_auth = flag_of(object, "keyringAuth")?;
    let ignore_federation_hints = flag_of(object, "ignoreFederationHints")?;
    let disable_auto_accept_federation_hints = flag_of(object, "disableAutoAcceptFederationHints")?;
    let disable_auto_package_init = flag_of(object, "disableAutoPackageInit")?;
    let disable_interactive = flag_of(object, "disableInteractive")?;
    Ok(Config {
        home_url,
        registries_dir,
        content_dir,
        namespace_map_path,
        keyring_backend,
        keys,
        keyring_auth,
        ignore_federation_hints,
        disable_auto_accept_federation_hints,
        disable_auto_package_init,
        disable_interactive,
    })
}

/// The configuration that JSON is.
fn config_of(alloc: Global, value: &Value) -> Result<Config, ReadError>
    ensures { Gives settings_of result (settings_in (view value.now)) }
{
    if !value.is_object() {
        return Err(ReadError::Form);
    }
    config_of_object(alloc, value)
}

/// The configuration that bytes are.
pub fn read_config(alloc: Global, bytes: &[u8]) -> Result<Config, ReadError>
    ensures { Gives settings_of result (meaning_of bytes.now) }
{
    match Value::from_slice(alloc, bytes) {
        Ok(value) => config_of(alloc, &value),
        Err(e) => {
            if e.is_memory() {
                Err(ReadError::Memory)
            } else {
                Err(ReadError::Form)
            }
        }
    }
}
