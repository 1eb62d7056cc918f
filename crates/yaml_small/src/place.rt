//! A place in a text.

ghost use Rattle.std.specs.Prelude.{◌+◌, ◌<◌, ◌^◌, length};

use crate::event::Marker;

/// A place in a text: the rest of its line, the column in bytes where that begins, and the text of the lines
/// behind it.
///
/// The columns that decide anything stand behind ASCII alone, where bytes are characters.
#[derive(Clone, Copy, Debug)]
pub struct Place<'a> {
    /// The column, in bytes from 0.
    pub col: usize,
    /// The rest of the line.
    pub line: &'a [u8],
    /// The text of the lines behind it, where there are any.
    pub later: Option<&'a [u8]>,
    /// The place for people, in lines and characters.
    pub mark: Marker,
    /// How many characters of the text stand before the next line.
    pub below: u64,
    ghost fits: { col + length line.now < 2 ^ 64 },
}
