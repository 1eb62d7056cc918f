//! Texts that values are written as, worked out by hand.

use indexmap::IndexMap;
use serde_yaml2::{
    Errors, ReadYaml, WriteYaml, YamlNodeWrapper, YamlSerializer, from_str, to_string,
};
use std::alloc::Global;
use std::test::Fail;
use test_check::{holds, is_row, is_text};
use warg_values::Text;

/// The type that a text is read as, and whose value is written.
#[derive(Clone, Copy)]
enum Kind {
    /// `Vec<u8>`
    Bytes,
    /// `Vec<Vec<u8>>`
    Lists,
    /// `(u64, i64, ())`
    Triple,
    /// `Text`
    Text,
    /// `char`
    Character,
    /// `IndexMap<Text, Option<bool>>`
    Map,
    /// `YamlNodeWrapper`
    Any,
}

/// What is written for a value.
fn written<T: WriteYaml>(alloc: Global, value: &T) -> Result<String, Fail> {
    Ok(to_string(alloc, value)?)
}

/// What is written for the value that a text is read as.
fn rewritten<T: ReadYaml + WriteYaml>(alloc: Global, text: &str) -> Result<String, Fail> {
    let value = from_str::<T>(alloc, text)?;
    written(alloc, &value)
}

/// The same of a kind.
fn rewritten_as(alloc: Global, kind: Kind, text: &str) -> Result<String, Fail> {
    match kind {
        Kind::Bytes => rewritten::<Vec<u8>>(alloc, text),
        Kind::Lists => rewritten::<Vec<Vec<u8>>>(alloc, text),
        Kind::Triple => rewritten::<(u64, i64, ())>(alloc, text),
        Kind::Text => rewritten::<Text>(alloc, text),
        Kind::Character => rewritten::<char>(alloc, text),
        Kind::Map => rewritten::<IndexMap<Text, Option<bool>>>(alloc, text),
        Kind::Any => rewritten::<YamlNodeWrapper>(alloc, text),
    }
}

/// Fails at the first text whose value is written otherwise.
fn are_written(alloc: Global, table: &[(Kind, &str, &str)]) -> Result<(), Fail> {
    for (kind, text, want) in table {
        is_row(text, &rewritten_as(alloc, *kind, text)?, want)?;
    }
    Ok(())
}

#[test]
fn lists_maps_and_texts_are_written(rt: HostRuntime) -> Result<(), Fail> {
    are_written(rt.alloc(), WRITTEN)?;
    is_text(&written(rt.alloc(), &'-')?, "'-'")
}

/// A variant's name in front of a number, of nothing, or of an empty list.
#[derive(Clone, Copy)]
enum Variant {
    /// In front of 7.
    Number,
    /// In front of nothing.
    Unit,
    /// In front of an empty list.
    Empty,
}

/// Writes a variant.
fn write_variant(ser: &mut YamlSerializer, variant: Variant) -> Result<(), Errors> {
    match variant {
        Variant::Number => ser.write_newtype_variant("C", &7u8),
        Variant::Unit => ser.write_unit_variant("A"),
        Variant::Empty => ser.write_empty_variant("B"),
    }
}

/// Fails where something else is written for a variant behind a text.
fn is_behind(alloc: Global, front: &str, variant: Variant, want: &str) -> Result<(), Fail> {
    let mut ser = YamlSerializer::new(String::from_str(alloc, front)?);
    write_variant(&mut ser, variant)?;
    is_text(&ser.into_string(), want)
}

#[test]
fn variants_stand_behind_what_was_written(rt: HostRuntime) -> Result<(), Fail> {
    let alloc = rt.alloc();
    is_behind(alloc, "", Variant::Empty, "B: []")?;
    is_behind(alloc, "", Variant::Unit, "A: ~")?;
    is_behind(
        alloc,
        "# a variant\n",
        Variant::Number,
        "# a variant\nC:\n  7",
    )
}

/// Whether an answer is that bytes are refused.
fn are_bytes(answer: &Result<(), Errors>) -> bool {
    match answer {
        Err(Errors::UnsupportedSerializationError(found)) => found.as_str() == "bytes",
        _ => false,
    }
}

/// Whether bytes are refused.
fn refuses_bytes(alloc: Global, ser: &mut YamlSerializer) -> bool {
    are_bytes(&ser.write_bytes(alloc, b"a"))
}

#[test]
fn bytes_are_refused_and_write_nothing(rt: HostRuntime) -> Result<(), Fail> {
    let mut ser = YamlSerializer::new(String::new(rt.alloc()));
    holds(refuses_bytes(rt.alloc(), &mut ser), "bytes are refused")?;
    is_text(&ser.into_string(), "")
}

/// Texts, and what is written for the values that they are read as.
const WRITTEN: &[(Kind, &str, &str)] = &[
    (Kind::Bytes, "[1, 2, 3]", "- \n  1\n- \n  2\n- \n  3\n"),
    (Kind::Lists, "[[1]]", "- \n  - \n   1\n  \n"),
    (Kind::Triple, "[1, -2, ~]", "- \n  1\n- \n  -2\n- \n  ~\n"),
    (Kind::Text, "Hello 'world", "'Hello ''world'"),
    (Kind::Text, "\"First\\nSecond\"", "|-\n  First\n  Second"),
    (Kind::Text, "\"First\\n\"", "\"First\\n\""),
    (Kind::Character, "x", "x"),
    (Kind::Map, "{}", "{}"),
    (Kind::Map, "{b: true, a: ~}", "'b':\n  true\n'a':\n  ~\n"),
    (Kind::Any, "[]", "[]"),
    (
        Kind::Any,
        "[-7, x, true, {b: [], a: ~}]",
        "- \n  -7\n- \n  'x'\n- \n  true\n- \n  'b':\n   []\n  'a':\n   ~\n  \n",
    ),
];
