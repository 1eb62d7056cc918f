//! Events, the styles of scalars, and places in a text.

ghost use Rattle.std.specs.Prelude.{Some};
ghost use Rattle.yaml_small.specs.Printed.{event_text, marker_text};

use std::fmt;
use warg_values::Text;

/// How a scalar is written (YAML 1.2.2, chapters 7 and 8).
#[derive(Clone, Copy, Debug, PartialEq, Eq)]
pub enum Style {
    /// `a`
    Plain,
    /// `'a'`
    SingleQuoted,
    /// `"a"`
    DoubleQuoted,
    /// A block behind `|`.
    Literal,
    /// A block behind `>`.
    Folded,
}

/// What a parser emits of a document (YAML 1.2.2, section 3.1.1).
#[derive(Debug, Drop, PartialEq, Eq)]
pub enum Event {
    /// The text's start.
    StreamStart,
    /// The text's end. Asked again, it comes again.
    StreamEnd,
    /// The document's first content, or its `---`.
    DocumentStart,
    /// The end of the document's node, or its `...`.
    DocumentEnd,
    /// A list; its entries follow, and then its end.
    SequenceStart,
    /// The end of a list.
    SequenceEnd,
    /// A map; its keys follow, each with its value behind it, and then its end.
    MappingStart,
    /// The end of a map.
    MappingEnd,
    /// A scalar's text and style. A node that is missing is the plain scalar `~`.
    Scalar(Text, Style),
}

impl fmt::Display for Event {
    ghost output = { λ event. Some (event_text event) };

    fn fmt<W: fmt::Write>(&self, f: &mut fmt::Formatter<W>) -> fmt::Result {
        match self {
            Event::StreamStart => f.write_str("the start of the text"),
            Event::StreamEnd => f.write_str("the end of the text"),
            Event::DocumentStart => f.write_str("the start of the document"),
            Event::DocumentEnd => f.write_str("the end of the document"),
            Event::SequenceStart => f.write_str("a list"),
            Event::SequenceEnd => f.write_str("the end of a list"),
            Event::MappingStart => f.write_str("a map"),
            Event::MappingEnd => f.write_str("the end of a map"),
            Event::Scalar(text, _) => write!(f, "the scalar `{text}`"),
        }
    }
}

/// A place in a text: its line, counted from 1, its column in characters, counted from 0, and how many
/// characters stand before it. A byte order mark at the text's start counts in `index` alone.
#[derive(Clone, Copy, Debug, PartialEq, Eq)]
pub struct Marker {
    /// The line, from 1.
    pub line: u64,
    /// The column in characters, from 0.
    pub col: u64,
    /// The characters before it, from 0.
    pub index: u64,
}

/// For people: columns count from 1.
impl fmt::Display for Marker {
    ghost output = { λ marker. Some (marker_text marker) };

    fn fmt<W: fmt::Write>(&self, f: &mut fmt::Formatter<W>) -> fmt::Result {
        let line = self.line;
        let column = self.col.saturating_add(1);
        write!(f, "line {line}, column {column}")
    }
}

impl Marker {
    /// The text's start.
    pub const START: Marker = Marker {
        line: 1,
        col: 0,
        index: 0,
    };

    /// The place behind the rest of a line, or a part of it.
    pub(crate) fn after(self, line: &[u8]) -> Marker {
        let count = characters(line);
        Marker {
            line: self.line,
            col: self.col.saturating_add(count),
            index: self.index.saturating_add(count),
        }
    }

    /// The place behind bytes that may hold line ends.
    pub(crate) fn after_lines(self, text: &[u8]) -> Marker {
        let mut place = self;
        for byte in text {
            place = place.after_byte(*byte);
        }
        place
    }

    /// The place behind a byte, which may be a line feed.
    fn after_byte(self, byte: u8) -> Marker {
        if byte == b'\n' {
            return Marker {
                line: self.line.saturating_add(1),
                col: 0,
                index: self.index.saturating_add(1),
            };
        }
        self.after(&[byte])
    }
}

/// How many characters begin in bytes of UTF-8.
pub fn characters(bytes: &[u8]) -> u64 {
    let mut count = 0u64;
    for byte in bytes {
        if *byte & 0xc0 != 0x80 {
            count = count.saturating_add(1);
        }
    }
    count
}
