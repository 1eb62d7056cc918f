//! Objects as maps.

ghost use Rattle.std.specs.Prelude.{ℕ, List, [], map, Ok};
ghost use Rattle.serde_json.specs.View.{view, members_view};
ghost use Rattle.warg_exchange.specs.Body.{each_member, digest_in_text, hashed_in, named_in, text_in};
ghost use Rattle.warg_json.specs.Answers.{BodyGives};

use crate::error::BodyError;
use crate::from_body::FromBody;
use crate::value::hash_of_text;
use indexmap::IndexMap;
use serde_json::{Map, Value};
use std::alloc::Global;
use warg_hash::{AnyHash, LogId};
use warg_values::Text;

/// What each member of an object is read as, by the hash that its name is the text of.
fn each_hashed<T: FromBody>(
    alloc: Global,
    members: &Map<String, Value>,
) -> Result<IndexMap<AnyHash, T>, BodyError>
    ensures { BodyGives (λ found. map (λ e. (e.0, T.plain e.1)) found.entries) result
        (each_member digest_in_text T.meaning [] (members_view members.now.entries)) }
{
    let mut found = IndexMap::new(alloc);
    for (name, value) in members {
        let hash = hash_of_text(alloc, name.as_str())?;
        let item = T::from_body(alloc, value)?;
        found.insert(hash, item)?;
    }
    Ok(found)
}

impl<T: FromBody> FromBody for IndexMap<AnyHash, T> {
    ghost Plain = { List (List ℕ × T.Plain) };

    ghost plain = { λ found. map (λ e. (e.0, T.plain e.1)) found.entries };

    ghost meaning = { hashed_in T.meaning };

    fn from_body(alloc: Global, value: &Value) -> Result<IndexMap<AnyHash, T>, BodyError> {
        match value.as_object() {
            Some(members) => each_hashed(alloc, members),
            None => Err(BodyError::Unexpected),
        }
    }
}

/// What each member of an object is read as, by the log whose id its name is the text of.
fn each_log<T: FromBody>(
    alloc: Global,
    members: &Map<String, Value>,
) -> Result<IndexMap<LogId, T>, BodyError>
    ensures { BodyGives (λ found. map (λ e. (e.0, T.plain e.1)) found.entries) result
        (each_member digest_in_text T.meaning [] (members_view members.now.entries)) }
{
    let mut found = IndexMap::new(alloc);
    for (name, value) in members {
        let hash = hash_of_text(alloc, name.as_str())?;
        let item = T::from_body(alloc, value)?;
        found.insert(LogId::from(hash), item)?;
    }
    Ok(found)
}

impl<T: FromBody> FromBody for IndexMap<LogId, T> {
    ghost Plain = { List (List ℕ × T.Plain) };

    ghost plain = { λ found. map (λ e. (e.0, T.plain e.1)) found.entries };

    ghost meaning = { hashed_in T.meaning };

    fn from_body(alloc: Global, value: &Value) -> Result<IndexMap<LogId, T>, BodyError> {
        match value.as_object() {
            Some(members) => each_log(alloc, members),
            None => Err(BodyError::Unexpected),
        }
    }
}

/// The texts that the members of an object are.
fn each_text(alloc: Global, members: &Map<String, Value>) -> Result<IndexMap<Text, Text>, BodyError>
    ensures { BodyGives (λ found. found.entries) result
        (each_member Ok text_in [] (members_view members.now.entries)) }
{
    let mut found = IndexMap::new(alloc);
    for (name, value) in members {
        let key = Text::copy_of(alloc, name.as_str())?;
        let text = Text::from_body(alloc, value)?;
        found.insert(key, text)?;
    }
    Ok(found)
}

impl FromBody for IndexMap<Text, Text> {
    ghost Plain = { List (List ℕ × List ℕ) };

    ghost plain = { λ found. found.entries };

    ghost meaning = { named_in text_in };

    fn from_body(alloc: Global, value: &Value) -> Result<IndexMap<Text, Text>, BodyError> {
        match value.as_object() {
            Some(members) => each_text(alloc, members),
            None => Err(BodyError::Unexpected),
        }
    }
}
