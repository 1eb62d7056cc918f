//! Texts whose written form was written out by hand, and what the parser reads of them.

use std::alloc::Global;
use std::test::Fail;
use test_check::{holds, is_row};
use yaml_small::{Event, Parser, Style};
use yaml_text::{push_indentation, push_key, push_text};

/// What is written.
#[derive(Clone, Copy)]
enum Form {
    /// A text, at this level.
    Value(usize),
    /// A key.
    Key,
    /// The indentation of this level.
    Indentation(usize),
}

/// The written form of a text.
fn written(alloc: Global, form: Form, text: &str) -> Result<String, Fail> {
    let mut out = String::new(alloc);
    match form {
        Form::Value(level) => push_text(&mut out, level, text)?,
        Form::Key => push_key(&mut out, text)?,
        Form::Indentation(level) => push_indentation(&mut out, level)?,
    }
    Ok(out)
}

/// Fails at the first text that is written otherwise.
fn are_written(alloc: Global, table: &[(Form, &str, &str)]) -> Result<(), Fail> {
    for (form, text, want) in table {
        is_row(text, &written(alloc, *form, text)?, want)?;
    }
    Ok(())
}

#[test]
fn texts_are_quoted(rt: HostRuntime) -> Result<(), Fail> {
    are_written(rt.alloc(), QUOTED)
}

#[test]
fn texts_of_lines_are_blocks_where_a_block_can_hold_them(rt: HostRuntime) -> Result<(), Fail> {
    are_written(rt.alloc(), LINES)
}

/// Whether an event is a scalar of this text and style.
fn is_scalar(event: &Event, text: &str, style: Style) -> bool {
    match event {
        Event::Scalar(found, how) => found.as_str() == text && *how == style,
        _ => false,
    }
}

/// Passes an event.
fn pass(alloc: Global, parser: &mut Parser<'_>) -> Result<(), Fail> {
    parser.next_token(alloc)?;
    Ok(())
}

/// Whether the next event is a scalar of this text and style.
fn has_scalar(
    alloc: Global,
    parser: &mut Parser<'_>,
    text: &str,
    style: Style,
) -> Result<bool, Fail> {
    let (event, _) = parser.next_token(alloc)?;
    Ok(is_scalar(&event, text, style))
}

/// Whether the document ends.
fn is_end(alloc: Global, parser: &mut Parser<'_>) -> Result<bool, Fail> {
    let (event, _) = parser.next_token(alloc)?;
    Ok(event == Event::DocumentEnd)
}

/// Fails where a document is something else than one scalar of this text and style.
fn is_document(alloc: Global, document: &str, text: &str, style: Style) -> Result<(), Fail> {
    let mut parser = Parser::new(alloc, document);
    pass(alloc, &mut parser)?;
    pass(alloc, &mut parser)?;
    holds(has_scalar(alloc, &mut parser, text, style)?, document)?;
    holds(is_end(alloc, &mut parser)?, document)
}

/// Fails at the first text that comes back otherwise.
fn come_back(alloc: Global, table: &[(&str, Style)]) -> Result<(), Fail> {
    for (text, style) in table {
        let document = written(alloc, Form::Value(0), text)?;
        is_document(alloc, &document, text, *style)?;
    }
    Ok(())
}

#[test]
fn what_is_written_reads_back(rt: HostRuntime) -> Result<(), Fail> {
    come_back(rt.alloc(), RETURNED)
}

/// Texts in single quotes, which are doubled, and in double quotes, in which some characters have names.
const QUOTED: &[(Form, &str, &str)] = &[
    (Form::Value(0), "Hello", "'Hello'"),
    (Form::Value(0), "Hello 'world", "'Hello ''world'"),
    (Form::Value(3), "", "''"),
    (Form::Value(0), "a \"b\" \\ é", "'a \"b\" \\ é'"),
    (Form::Key, "it's", "'it''s'"),
    (Form::Value(0), "First\n", "\"First\\n\""),
    (Form::Value(0), "a\tb\r\n", "\"a\\tb\\r\\n\""),
    (
        Form::Value(0),
        "\u{0}\u{1b}\u{7f}\u{85}",
        "\"\\x00\\x1B\\x7F\\x85\"",
    ),
    (
        Form::Value(0),
        "\u{2028}\u{2029}\u{feff}",
        "\"\\u2028\\u2029\\uFEFF\"",
    ),
    (Form::Value(0), "\"\t\\'é\u{a0}", "\"\\\"\\t\\\\'é\u{a0}\""),
];

/// Texts of lines: blocks, keys, which are never blocks, and lines that no block can hold. An indentation is one
/// space more than its level, but for that of level 0.
const LINES: &[(Form, &str, &str)] = &[
    (Form::Value(0), "First\nSecond", "|-\n  First\n  Second"),
    (
        Form::Value(2),
        "a\n\n  b\n'c'",
        "|-\n    a\n    \n      b\n    'c'",
    ),
    (Form::Key, "First\nSecond", "\"First\\nSecond\""),
    (Form::Value(0), " a\nb", "\" a\\nb\""),
    (Form::Value(0), "\na", "\"\\na\""),
    (Form::Value(0), "a\n ", "\"a\\n \""),
    (Form::Value(0), "a\n\tb", "\"a\\n\\tb\""),
    (Form::Indentation(0), "level 0", ""),
    (Form::Indentation(1), "level 1", "  "),
    (Form::Indentation(2), "level 2", "   "),
];

/// Texts, and the styles in which they are written.
const RETURNED: &[(&str, Style)] = &[
    ("", Style::SingleQuoted),
    ("it's # no comment: here", Style::SingleQuoted),
    ("\"\\\u{0}\t\u{9f}\u{2028}\u{feff}é", Style::DoubleQuoted),
    ("First\n", Style::DoubleQuoted),
    ("First\n\n   third \n# fourth", Style::Literal),
];
