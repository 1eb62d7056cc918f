//! What people read: places, events and errors as texts.

use compose_config::Config;
use serde_yaml2::Errors;
use std::alloc::Global;
use std::fmt::Write;
use std::test::Fail;
use test_check::{is_row, is_text};
use warg_values::Text;
use yaml_read::{DeError, YamlNodeWrapper, from_str};
use yaml_small::{Event, Marker, Parser, ScanError};

/// A text of its own.
fn text_of(alloc: Global, text: &str) -> Result<Text, Fail> {
    Ok(Text::copy_of(alloc, text)?)
}

/// Fails where a place is another text.
fn is_place(alloc: Global, line: u64, col: u64, want: &str) -> Result<(), Fail> {
    let marker = Marker {
        line,
        col,
        index: 0,
    };
    is_text(&format!(in alloc; "{marker}")?, want)
}

#[test]
fn places_count_lines_and_columns_from_one(rt: HostRuntime) -> Result<(), Fail> {
    is_place(rt.alloc(), 3, 4, "line 3, column 5")?;
    is_place(rt.alloc(), 1, 0, "line 1, column 1")
}

/// Adds what the parser told, an event in a line. Whether more may come.
fn push_told(out: &mut String, told: &Result<(Event, Marker), ScanError>) -> Result<bool, Fail> {
    match told {
        Ok((event, _)) => {
            write!(out, "{event}\n")?;
            Ok(*event != Event::StreamEnd)
        }
        Err(error) => {
            write!(out, "{error}")?;
            Ok(false)
        }
    }
}

/// Adds what the parser tells next. Whether more may come.
fn push_next(alloc: Global, out: &mut String, parser: &mut Parser<'_>) -> Result<bool, Fail> {
    push_told(out, &parser.next_token(alloc))
}

/// What a text emits, each event in a line, or the error at last.
fn told(alloc: Global, text: &str) -> Result<String, Fail> {
    let mut out = String::new(alloc);
    let mut parser = Parser::new(alloc, text);
    for _ in 0..u64::MAX {
        if !push_next(alloc, &mut out, &mut parser)? {
            break;
        }
    }
    Ok(out)
}

#[test]
fn events_are_named(rt: HostRuntime) -> Result<(), Fail> {
    is_text(&told(rt.alloc(), "- {a b: []}")?, NAMED)
}

/// Fails at the first text whose last line is not this error.
fn are_refused(alloc: Global, table: &[(&str, &str)]) -> Result<(), Fail> {
    for (text, want) in table {
        let found = told(alloc, text)?;
        if !found.as_str().ends_with(*want) {
            return Err(Fail::new(format_args!("{text:?}: {found}")));
        }
    }
    Ok(())
}

#[test]
fn errors_of_texts_say_where_and_what_to_do(rt: HostRuntime) -> Result<(), Fail> {
    are_refused(rt.alloc(), REFUSED)
}

/// What a text is read as.
#[derive(Clone, Copy)]
enum Kind {
    /// A list of two truth values.
    Pair,
    /// A number of eight bits.
    Byte,
    /// A value of any kind.
    Value,
    /// A configuration.
    Plan,
    /// Nothing: the error that this number stands for.
    Other(usize),
}

/// An error that no text gives.
fn error_at(number: usize) -> DeError {
    match number {
        0 => DeError::Unsupported,
        1 => DeError::NotEnded(Marker {
            line: 2,
            col: 0,
            index: 4,
        }),
        _ => DeError::Memory,
    }
}

/// Why a text is not read.
fn error_of(alloc: Global, kind: Kind, text: &str) -> Option<DeError> {
    match kind {
        Kind::Pair => from_str::<(bool, bool)>(alloc, text).err(),
        Kind::Byte => from_str::<u8>(alloc, text).err(),
        Kind::Value => from_str::<YamlNodeWrapper>(alloc, text).err(),
        Kind::Plan => Config::from_text(alloc, text).err(),
        Kind::Other(number) => Some(error_at(number)),
    }
}

/// An error as a text.
fn error_text(alloc: Global, error: &Option<DeError>) -> Result<String, Fail> {
    match error {
        Some(error) => Ok(format!(in alloc; "{error}")?),
        None => Ok(String::from_str(alloc, "read")?),
    }
}

/// Why a text is not read, as a text. It holds the error alone, which is dropped here, since each way out of a function
/// that holds an error is proved for each kind of error.
fn read_error(alloc: Global, kind: Kind, text: &str) -> Result<String, Fail> {
    error_text(alloc, &error_of(alloc, kind, text))
}

/// Fails at the first text whose error prints otherwise.
fn are_not_read(alloc: Global, table: &[(Kind, &str, &str)]) -> Result<(), Fail> {
    for (kind, text, want) in table {
        is_row(text, &read_error(alloc, *kind, text)?, want)?;
    }
    Ok(())
}

#[test]
fn errors_of_reads_say_where_and_what_to_do(rt: HostRuntime) -> Result<(), Fail> {
    are_not_read(rt.alloc(), READ)
}

/// An error of a write: that of depth, or that of bytes.
fn error_of_write(alloc: Global, deep: bool) -> Result<Errors, Fail> {
    if deep {
        return Ok(Errors::FormArgsError);
    }
    Ok(Errors::UnsupportedSerializationError(text_of(alloc, "bytes")?))
}

/// Fails where an error of a write is another text.
fn is_write_error(alloc: Global, deep: bool, want: &str) -> Result<(), Fail> {
    let error = error_of_write(alloc, deep)?;
    is_text(&format!(in alloc; "{error}")?, want)
}

#[test]
fn errors_of_writes_say_what_to_do(rt: HostRuntime) -> Result<(), Fail> {
    let deep = "lists and maps are nested more than 64 deep; nest them less deep";
    is_write_error(rt.alloc(), true, deep)?;
    let bytes = "bytes are not supported; write them as a text";
    is_write_error(rt.alloc(), false, bytes)
}

/// The events of a list of a map, whose one value is an empty list, each as it is printed.
const NAMED: &str = "\
the start of the text
the start of the document
a list
a map
the scalar `a b`
a list
the end of a list
the end of a map
the end of a list
the end of the document
the end of the text
";

/// Texts that are no document, and their errors. The last is one of 65 opening brackets.
const REFUSED: &[(&str, &str)] = &[
    (
        "- a\n- ]",
        "the text is not well-formed YAML at line 2, column 3; correct it there",
    ),
    (
        "a: &b c",
        "the form of YAML at line 1, column 4 is not supported; write it in another way",
    ),
    (
        "[[[[[[[[[[[[[[[[[[[[[[[[[[[[[[[[[[[[[[[[[[[[[[[[[[[[[[[[[[[[[[[[[",
        "lists and maps are nested more than 64 deep at line 1, column 65; nest them less deep",
    ),
];

/// Texts that are not read, and their errors.
const READ: &[(Kind, &str, &str)] = &[
    (
        Kind::Pair,
        "[true,\n yes]",
        "expected `true` or `false`, and `yes` stands at line 2, column 2; correct it",
    ),
    (
        Kind::Pair,
        "[true,\n []]",
        "expected a plain scalar, and a list stands at line 2, column 2; correct it",
    ),
    (
        Kind::Pair,
        "[true,\n &a true]",
        "the form of YAML at line 2, column 2 is not supported; write it in another way",
    ),
    (
        Kind::Byte,
        "256",
        "`256` is no number that fits here; correct it",
    ),
    (
        Kind::Value,
        "- 1\n- 1.5",
        "the real number at line 2, column 3 is not supported; write an integer",
    ),
    (
        Kind::Plan,
        "colour: 1",
        "there is no field `colour`; correct its name or remove it",
    ),
    (
        Kind::Plan,
        "dependencies: {a: {}}",
        "the field `path` is missing; add it",
    ),
    (
        Kind::Other(0),
        "",
        "this kind of value is not supported; read an owned text",
    ),
    (
        Kind::Other(1),
        "",
        "the text continues behind the value at line 2, column 1; remove what stands there",
    ),
    (
        Kind::Other(2),
        "",
        "out of memory: free some, or give the program more, and try again",
    ),
];
