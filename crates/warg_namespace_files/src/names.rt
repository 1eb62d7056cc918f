//! Names of registries read from the bytes of a file, and written.

ghost use Rattle.std.specs.Prelude.{◌≡◌, ◌++◌, ◌∷◌, [], IfOk, OnOk, true, bytes_eq, option_map};
ghost use Rattle.std.specs.List.{IsDistinct};
ghost use Rattle.std.specs.Map.{keys_of};
ghost use Rattle.std.specs.Str.{is_utf8};
ghost use Rattle.indexmap.specs.IndexMap.{insert_all, insert_entry};
ghost use Rattle.json.specs.Token.{key, string};
ghost use Rattle.json.specs.Value.{value_view, members_view};
ghost use Rattle.warg_namespace_files.specs.NamespaceFile.{names_in, names_text, object_texts, texts_of};

use indexmap::IndexMap;
use json::{Error, Scratch, Value, Writer};
use std::alloc::Global;
use warg_url::RegistryDomain;
use warg_values::{Memory, Text};

/// Adds the registry of a namespace to names.
pub fn add_name(
    alloc: Global,
    names: &mut IndexMap<Text, RegistryDomain>,
    namespace: &str,
    registry: &str,
) -> Result<(), Memory>
    ensures { OnOk result (names.new.entries ≡ insert_entry bytes_eq names.old.entries namespace.now registry.now) }
{
    let namespace = Text::copy_of(alloc, namespace)?;
    let registry = RegistryDomain::new(Text::copy_of(alloc, registry)?);
    names.insert(namespace, registry)?;
    Ok(())
}

/// The names that an object's members are, and none where one of them is no text.
fn member_names(
    alloc: Global,
    members: &Vec<(&str, Value<'_>)>,
) -> Result<Option<IndexMap<Text, RegistryDomain>>, Memory>
    ensures { IfOk result (λ o. option_map (λ names. names.entries) o
        ≡ option_map (insert_all bytes_eq []) (texts_of (members_view members.now.items))) }
{
    let mut names = IndexMap::new(alloc);
    for member in members {
        let Some(registry) = member.1.as_str() else {
            return Ok(None);
        };
        add_name(alloc, &mut names, member.0, registry)?;
    }
    Ok(Some(names))
}

/// The names that a value is, and none where it is no object of texts.
fn value_names(
    alloc: Global,
    value: &Value<'_>,
) -> Result<Option<IndexMap<Text, RegistryDomain>>, Memory>
    ensures { IfOk result (λ o. option_map (λ names. names.entries) o
        ≡ option_map (insert_all bytes_eq []) (object_texts (value_view value.now))) }
{
    match value {
        Value::Object(members) => member_names(alloc, members),
        _ => Ok(None),
    }
}

/// The names that bytes have, and none where they have none.
pub fn read_names(
    alloc: Global,
    bytes: &[u8],
) -> Result<Option<IndexMap<Text, RegistryDomain>>, Memory>
    ensures { IfOk result (λ o. option_map (λ names. names.entries) o ≡ names_in bytes.now) }
{
    let mut scratch = Scratch::new(alloc);
    match Value::from_slice(alloc, bytes, &mut scratch) {
        Ok(value) => value_names(alloc, &value),
        Err(Error::Invalid) => Ok(None),
        Err(_) => Err(Memory),
    }
}

/// Writes a namespace and the name of its registry.
fn write_name(writer: &mut Writer, namespace: &str, registry: &str) -> Result<(), Memory>
    ensures tokens { OnOk result (writer.new.tokens
        ≡ writer.old.tokens ++ key namespace.now ∷ string registry.now ∷ []) }
    ensures before { writer.new.before ≡ writer.old.before }
{
    writer.key(namespace)?;
    writer.string(registry)?;
    Ok(())
}

/// The text of a file with these names, of which no two are of one namespace.
pub fn write_names(alloc: Global, names: &IndexMap<Text, RegistryDomain>) -> Result<Vec<u8>, Memory>
    ensures text { IfOk result (λ text. text.items ≡ names_text names.now.entries) }
    ensures utf8 { OnOk result (is_utf8 (names_text names.now.entries) ≡ true) }
    ensures distinct { OnOk result (IsDistinct bytes_eq (keys_of names.now.entries)) }
{
    let mut writer = Writer::new(Vec::new(alloc));
    writer.begin_object()?;
    for (namespace, registry) in names {
        write_name(&mut writer, namespace.as_str(), registry.as_str())?;
    }
    writer.end_object()?;
    Ok(writer.into_inner())
}
