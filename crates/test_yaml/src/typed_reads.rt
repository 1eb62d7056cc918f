//! Reads of whole texts, and their errors, as `Debug` prints them.

use indexmap::IndexMap;
use std::alloc::Global;
use std::fmt::Debug;
use std::test::Fail;
use test_check::{holds, is_row, is_text};
use warg_values::Text;
use yaml_read::{DeError, ReadYaml, YamlDeserializer, YamlNodeWrapper, from_str};
use yaml_small::Yaml;

/// The type that a text is read as.
#[derive(Clone, Copy)]
enum Kind {
    /// `bool`
    Truth,
    /// `char`
    Character,
    /// `u8`
    U8,
    /// `u16`
    U16,
    /// `u32`
    U32,
    /// `u64`
    U64,
    /// `i8`
    I8,
    /// `i16`
    I16,
    /// `i32`
    I32,
    /// `i64`
    I64,
    /// `Text`
    Text,
    /// `String`
    Owned,
    /// `()`
    Unit,
    /// `Vec<u8>`
    Bytes,
    /// `Vec<bool>`
    Truths,
    /// `(u8, bool)`
    Pair,
    /// `(u8, u8, u8)`
    Triple,
    /// `Option<u8>`
    Optional,
    /// `Vec<Option<u8>>`
    Options,
    /// `IndexMap<Text, u8>`
    Map,
    /// `YamlNodeWrapper`
    Any,
}

/// What an answer is, as `Debug` prints it.
fn debug_text<T: Debug>(alloc: Global, answer: &Result<T, DeError>) -> Result<String, Fail> {
    match answer {
        Ok(value) => Ok(format!(in alloc; "{value:?}")?),
        Err(error) => Ok(format!(in alloc; "{error:?}")?),
    }
}

/// What a text is read as, or why it is not read. It holds the answer alone, which is dropped here, since each way out
/// of a function that holds an error is proved for each kind of error.
fn shown<T: ReadYaml + Debug>(alloc: Global, text: &str) -> Result<String, Fail> {
    debug_text(alloc, &from_str::<T>(alloc, text))
}

/// The same of a number.
fn shown_number(alloc: Global, kind: Kind, text: &str) -> Result<String, Fail> {
    match kind {
        Kind::U8 => shown::<u8>(alloc, text),
        Kind::U16 => shown::<u16>(alloc, text),
        Kind::U32 => shown::<u32>(alloc, text),
        Kind::U64 => shown::<u64>(alloc, text),
        Kind::I8 => shown::<i8>(alloc, text),
        Kind::I16 => shown::<i16>(alloc, text),
        Kind::I32 => shown::<i32>(alloc, text),
        _ => shown::<i64>(alloc, text),
    }
}

/// The same of any kind.
fn shown_as(alloc: Global, kind: Kind, text: &str) -> Result<String, Fail> {
    match kind {
        Kind::Truth => shown::<bool>(alloc, text),
        Kind::Character => shown::<char>(alloc, text),
        Kind::Text => shown::<Text>(alloc, text),
        Kind::Owned => shown::<String>(alloc, text),
        Kind::Unit => shown::<()>(alloc, text),
        Kind::Bytes => shown::<Vec<u8>>(alloc, text),
        Kind::Truths => shown::<Vec<bool>>(alloc, text),
        Kind::Pair => shown::<(u8, bool)>(alloc, text),
        Kind::Triple => shown::<(u8, u8, u8)>(alloc, text),
        Kind::Optional => shown::<Option<u8>>(alloc, text),
        Kind::Options => shown::<Vec<Option<u8>>>(alloc, text),
        Kind::Map => shown::<IndexMap<Text, u8>>(alloc, text),
        Kind::Any => shown::<YamlNodeWrapper>(alloc, text),
        number => shown_number(alloc, number, text),
    }
}

/// Fails at the first text that is read as something else.
fn are_read(alloc: Global, table: &[(Kind, &str, &str)]) -> Result<(), Fail> {
    for (kind, text, want) in table {
        is_row(text, &shown_as(alloc, *kind, text)?, want)?;
    }
    Ok(())
}

#[test]
fn numbers_are_read_up_to_their_limits(rt: HostRuntime) -> Result<(), Fail> {
    are_read(rt.alloc(), NUMBERS)
}

#[test]
fn scalars_are_read(rt: HostRuntime) -> Result<(), Fail> {
    are_read(rt.alloc(), SCALARS)
}

#[test]
fn lists_and_maps_are_read(rt: HostRuntime) -> Result<(), Fail> {
    are_read(rt.alloc(), COLLECTIONS)
}

#[test]
fn errors_say_what_stands_where(rt: HostRuntime) -> Result<(), Fail> {
    are_read(rt.alloc(), ERRORS)
}

/// The value of any kind in a text.
fn value(alloc: Global, text: &str) -> Result<Yaml, Fail> {
    Ok(from_str::<YamlNodeWrapper>(alloc, text)?.get())
}

/// Fails where the value in a text is another one than the truth value `true`.
fn is_true(alloc: Global, text: &str) -> Result<(), Fail> {
    holds(
        value(alloc, text)? == Yaml::Boolean(true),
        "the value is true",
    )
}

#[test]
fn a_value_of_any_kind_is_taken_out(rt: HostRuntime) -> Result<(), Fail> {
    is_true(rt.alloc(), "true")
}

/// What `finish` answered, as `Debug` prints it.
fn answer_text(alloc: Global, answer: &Result<(), DeError>) -> Result<String, Fail> {
    Ok(format!(in alloc; "{answer:?}")?)
}

/// What `finish` answers, as `Debug` prints it. It holds the answer alone, which is dropped here.
fn finished(alloc: Global, de: &mut YamlDeserializer<'_>) -> Result<String, Fail> {
    answer_text(alloc, &de.finish(alloc))
}

/// Whether the next event is a scalar.
fn is_scalar(alloc: Global, de: &mut YamlDeserializer<'_>) -> Result<bool, Fail> {
    Ok(de.at_scalar(alloc)?)
}

/// Fails where `finish` answers something else to a list, or lent values and the next event are otherwise then.
fn is_refused(alloc: Global, de: &mut YamlDeserializer<'_>, want: &str) -> Result<(), Fail> {
    let finished = finished(alloc, de)?;
    let lent = lends_nothing(de);
    let scalar = is_scalar(alloc, de)?;
    is_text(&format!(in alloc; "{finished} {lent} {scalar}")?, want)
}

/// Whether a deserializer answers `Unsupported` wherever a lent value is asked for.
fn lends_nothing(de: &mut YamlDeserializer<'_>) -> bool {
    let text = matches!(de.read_str(), Err(DeError::Unsupported));
    let bytes = matches!(de.read_bytes(), Err(DeError::Unsupported));
    let owned = matches!(de.read_byte_buf(), Err(DeError::Unsupported));
    text && bytes && owned
}

#[test]
fn what_follows_the_value_is_no_end(rt: HostRuntime) -> Result<(), Fail> {
    let mut de = YamlDeserializer::from_str(rt.alloc(), "# c\n- a\n")?;
    is_refused(
        rt.alloc(),
        &mut de,
        "Err(NotEnded(Marker { line: 2, col: 0, index: 4 })) true false",
    )
}

/// Passes over a value, and takes the end.
fn pass_over(alloc: Global, de: &mut YamlDeserializer<'_>) -> Result<(), DeError> {
    de.read_ignored(alloc)?;
    de.finish(alloc)
}

#[test]
fn a_value_is_passed_over(rt: HostRuntime) -> Result<(), Fail> {
    let text = "a: [1.5, {b: c}]\nd: |\n  e\n";
    let mut de = YamlDeserializer::from_str(rt.alloc(), text)?;
    pass_over(rt.alloc(), &mut de)?;
    Ok(())
}

/// Numbers at their limits and past them.
const NUMBERS: &[(Kind, &str, &str)] = &[
    (Kind::U8, "255", "255"),
    (Kind::U16, "65535", "65535"),
    (Kind::U32, "4294967295", "4294967295"),
    (Kind::U64, "+18446744073709551615", "18446744073709551615"),
    (Kind::I8, "-128", "-128"),
    (Kind::I16, "-32768", "-32768"),
    (Kind::I32, "-2147483648", "-2147483648"),
    (Kind::I64, "-9223372036854775808", "-9223372036854775808"),
    (Kind::U8, "256", "ParseNumber(Text { text: \"256\" })"),
    (Kind::U8, "-0", "ParseNumber(Text { text: \"-0\" })"),
    (Kind::U16, "65536", "ParseNumber(Text { text: \"65536\" })"),
    (
        Kind::I16,
        "-32769",
        "ParseNumber(Text { text: \"-32769\" })",
    ),
    (
        Kind::U8,
        "'12'",
        "UnexpectedEvent(Text { text: \"a plain number\" }, \
Scalar(Text { text: \"12\" }, SingleQuoted), Marker { line: 1, col: 0, index: 0 })",
    ),
    (
        Kind::U8,
        "1\n...\n2",
        "Scan(NotCarried(Marker { line: 3, col: 0, index: 6 }))",
    ),
];

/// Other scalars, in several styles.
const SCALARS: &[(Kind, &str, &str)] = &[
    (Kind::Truth, "true\n", "true"),
    (Kind::Character, "x", "'x'"),
    (Kind::Text, "'12'", "Text { text: \"12\" }"),
    (Kind::Owned, "|-\n  First\n  Second", "\"First\\nSecond\""),
    (Kind::Unit, "~", "()"),
    (Kind::Unit, "", "()"),
    (Kind::Any, "'12'", "YamlNodeWrapper { node: Integer(12) }"),
    (
        Kind::Any,
        "1.5",
        "RealForm(Marker { line: 1, col: 0, index: 0 })",
    ),
    (
        Kind::Truth,
        "yes",
        "UnexpectedScalar(Text { text: \"`true` or `false`\" }, Text { text: \"yes\" }, \
Marker { line: 1, col: 0, index: 0 })",
    ),
    (
        Kind::Truth,
        "'true'",
        "UnexpectedEvent(Text { text: \"a plain scalar\" }, \
Scalar(Text { text: \"true\" }, SingleQuoted), Marker { line: 1, col: 0, index: 0 })",
    ),
    (
        Kind::Character,
        "é",
        "UnexpectedScalar(Text { text: \"one character of ASCII\" }, Text { text: \"é\" }, \
Marker { line: 1, col: 0, index: 0 })",
    ),
];

/// Lists, maps and values that may be missing. A map keeps the last value of a key at its first place.
const COLLECTIONS: &[(Kind, &str, &str)] = &[
    (Kind::Optional, "null", "None"),
    (Kind::Optional, "7", "Some(7)"),
    (Kind::Bytes, "- \n  1\n- \n  2\n- \n  3\n", "[1, 2, 3]"),
    (Kind::Pair, "[1, true]", "(1, true)"),
    (Kind::Triple, "[1, 2, 3]", "(1, 2, 3)"),
    (
        Kind::Options,
        "[1,~,3,null]",
        "[Some(1), None, Some(3), None]",
    ),
    (
        Kind::Map,
        "b: 1\na: 2\nb: 3\n",
        "{Text { text: \"b\" }: 3, Text { text: \"a\" }: 2}",
    ),
    (
        Kind::Any,
        "- b: 1\n  a: ~\n  b: true\n- x y\n",
        "YamlNodeWrapper { node: Array(YamlList { items: [Hash(YamlPairs { pairs: \
[(Text { text: \"b\" }, Boolean(true)), (Text { text: \"a\" }, Null)] }), Text(Text { text: \"x y\" })] }) }",
    ),
];

/// Errors with their places, each of a text in which other characters stand in front.
const ERRORS: &[(Kind, &str, &str)] = &[
    (
        Kind::Truths,
        "- true\n- é\n",
        "UnexpectedScalar(Text { text: \"`true` or `false`\" }, Text { text: \"é\" }, \
Marker { line: 2, col: 2, index: 9 })",
    ),
    (
        Kind::Truths,
        "- true\n-  [a]\n",
        "UnexpectedEvent(Text { text: \"a plain scalar\" }, SequenceStart, \
Marker { line: 2, col: 3, index: 10 })",
    ),
    (
        Kind::Truths,
        "- true\n- ]\n",
        "Scan(Form(Marker { line: 2, col: 2, index: 9 }))",
    ),
    (
        Kind::Truths,
        "- true\n- &a true\n",
        "Scan(NotCarried(Marker { line: 2, col: 2, index: 9 }))",
    ),
    (
        Kind::Any,
        "é: a\nb: 1.5\n",
        "RealForm(Marker { line: 2, col: 3, index: 8 })",
    ),
    (
        Kind::Pair,
        "[1 ]",
        "UnexpectedEvent(Text { text: \"a plain scalar\" }, SequenceEnd, \
Marker { line: 1, col: 3, index: 3 })",
    ),
    (
        Kind::Map,
        "a: 1\n---\nb: 2\n",
        "Scan(NotCarried(Marker { line: 2, col: 0, index: 5 }))",
    ),
    (
        Kind::U8,
        "&a 1",
        "Scan(NotCarried(Marker { line: 1, col: 0, index: 0 }))",
    ),
    (
        Kind::Bytes,
        "[1",
        "Scan(Form(Marker { line: 1, col: 2, index: 2 }))",
    ),
];
