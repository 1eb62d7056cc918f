//! Where a text stops being an import's name: the longest text of each form is taken from left to right, and the next mark
//! must follow it.

ghost use Rattle.std.specs.Prelude.{◌≤◌, length};

use crate::error::ImportNameError;
use std::alloc::Global;
use warg_values::{Memory, Text};

/// What is wanted where a name stops being one.
#[derive(Clone, Copy, Debug)]
enum Wanted {
    /// A mark.
    Mark(&'static str),
    /// A label: lower-case words joined by hyphens.
    Label,
    /// A version.
    Version,
    /// The name's end.
    End,
}

/// What is wanted, and the text that stands there in its place.
#[derive(Clone, Copy, Debug)]
pub struct Fault<'a> {
    /// What is wanted.
    wanted: Wanted,
    /// The text from there on.
    rest: &'a [u8],
}

impl<'a> Fault<'a> {
    /// The error that tells the fault of a text, of which places count from an offset.
    pub fn error(
        self,
        alloc: Global,
        text: &str,
        offset: usize,
    ) -> Result<ImportNameError, Memory> {
        let reached = text.len().saturating_sub(self.rest.len());
        let place = offset.saturating_add(reached);
        Ok(match self.wanted {
            Wanted::Mark(mark) => ImportNameError::Expected(Text::copy_of(alloc, mark)?, place),
            Wanted::Label => ImportNameError::NotKebab(place),
            Wanted::Version => ImportNameError::NotVersion(place),
            Wanted::End => ImportNameError::Trailing(place),
        })
    }
}

/// The fault of a text that is no import's name.
pub fn name_fault(text: &str) -> Fault<'_> {
    fault_after(after_name(text.as_bytes()))
}

/// The fault of a text that is no inside of `unlocked-dep=<>`.
pub fn dependency_fault(text: &str) -> Fault<'_> {
    fault_after(after_dependency(text.as_bytes()))
}

/// The fault that was found; where there was none, more follows than the name.
fn fault_after<'a>(read: Result<&'a [u8], Fault<'a>>) -> Fault<'a> {
    match read {
        Ok(rest) => Fault {
            wanted: Wanted::End,
            rest,
        },
        Err(fault) => fault,
    }
}

/// The text after a mark.
fn after_mark<'a>(text: &'a [u8], mark: &'static str) -> Result<&'a [u8], Fault<'a>> {
    match text.strip_prefix(mark.as_bytes()) {
        Some(rest) => Ok(rest),
        None => Err(Fault {
            wanted: Wanted::Mark(mark),
            rest: text,
        }),
    }
}

/// Whether a text begins with a mark.
fn begins(text: &[u8], mark: &str) -> bool {
    text.starts_with(mark.as_bytes())
}

/// The text after the longest label at its front.
fn after_label(text: &[u8]) -> Result<&[u8], Fault<'_>> {
    let length = label_len(text);
    if length == 0 {
        return Err(Fault {
            wanted: Wanted::Label,
            rest: text,
        });
    }
    Ok(&text[length..])
}

/// How many bytes the longest label at the front of a text has; 0 where there is none.
fn label_len(text: &[u8]) -> usize
    ensures { result ≤ length text.now }
{
    for i in 0..text.len() {
        let is_inside = match text[i] {
            b'a'..=b'z' => true,
            b'0'..=b'9' => i > 0,
            b'-' => i > 0 && begins_word(&text[i + 1..]),
            _ => false,
        };
        if !is_inside {
            return i;
        }
    }
    text.len()
}

/// Whether a word begins a text.
fn begins_word(text: &[u8]) -> bool {
    match text {
        [first, ..] => first.is_ascii_lowercase(),
        [] => false,
    }
}

/// The text after the longest version at its front.
fn after_version(text: &[u8]) -> Result<&[u8], Fault<'_>> {
    match version_rest(text) {
        Some(rest) => Ok(rest),
        None => Err(Fault {
            wanted: Wanted::Version,
            rest: text,
        }),
    }
}

/// The text after the longest version at its front, if there is one.
fn version_rest(text: &[u8]) -> Option<&[u8]> {
    let rest = after_dot(after_number(text)?)?;
    let rest = after_dot(after_number(rest)?)?;
    let rest = after_number(rest)?;
    let rest = after_identifiers(rest, b'-');
    Some(after_identifiers(rest, b'+'))
}

/// The text after a dot.
fn after_dot(text: &[u8]) -> Option<&[u8]> {
    text.strip_prefix(b".".as_slice())
}

/// The text after the longest number at its front that has no leading zero and is below 2^64.
fn after_number(text: &[u8]) -> Option<&[u8]> {
    let length = number_len(text);
    if length == 0 {
        return None;
    }
    Some(&text[length..])
}

/// How many digits that number has; 0 where there is none.
fn number_len(text: &[u8]) -> usize
    ensures { result ≤ length text.now }
{
    let mut value = 0u64;
    for i in 0..text.len() {
        let digit = text[i];
        if !digit.is_ascii_digit() || (i > 0 && value == 0) {
            return i;
        }
        let Some(longer) = with_digit(value, digit) else {
            return i;
        };
        value = longer;
    }
    text.len()
}

/// A number with one more digit, if it is below 2^64.
fn with_digit(value: u64, digit: u8) -> Option<u64> {
    let tens = value.checked_mul(10)?;
    tens.checked_add(u64::from(digit.wrapping_sub(b'0')))
}

/// The text after a mark and the longest identifiers behind it; the text itself where these are not there.
fn after_identifiers(text: &[u8], mark: u8) -> &[u8] {
    let [first, rest @ ..] = text else {
        return text;
    };
    let length = identifiers_len(rest, mark == b'-');
    if *first != mark || length == 0 {
        return text;
    }
    &rest[length..]
}

/// How many bytes the longest identifiers at the front of a text have, with dots between them; 0 where there are none.
///
/// An identifier of a pre-release is no number with a leading zero.
fn identifiers_len(text: &[u8], is_pre_release: bool) -> usize
    ensures { result ≤ length text.now }
{
    let mut taken = 0;
    let mut part = 0;
    let mut is_number = true;
    for i in 0..text.len() {
        let byte = text[i];
        if byte == b'.' && taken == i && part < i {
            part = i + 1;
            is_number = true;
        } else if byte.is_ascii_alphanumeric() || byte == b'-' {
            is_number = is_number && byte.is_ascii_digit();
            let is_padded = is_number && i > part && text[part] == b'0';
            if !(is_pre_release && is_padded) {
                taken = i + 1;
            }
        } else {
            return taken;
        }
    }
    taken
}

/// The text after a package's name.
fn after_package(text: &[u8]) -> Result<&[u8], Fault<'_>> {
    let rest = after_label(text)?;
    let rest = after_mark(rest, ":")?;
    after_label(rest)
}

/// The text after a package's name and a requirement.
fn after_dependency(text: &[u8]) -> Result<&[u8], Fault<'_>> {
    let rest = after_package(text)?;
    match rest {
        [b'@', b'*', rest @ ..] => Ok(rest),
        [b'@', rest @ ..] => {
            let rest = after_mark(rest, "{")?;
            let rest = after_bounds(rest)?;
            after_mark(rest, "}")
        }
        _ => Ok(rest),
    }
}

/// The text after one bound, or after a lower and an upper one.
fn after_bounds(text: &[u8]) -> Result<&[u8], Fault<'_>> {
    if begins(text, "<") {
        return after_version(after_mark(text, "<")?);
    }
    let rest = after_version(after_mark(text, ">=")?)?;
    match rest {
        [b' ', rest @ ..] => after_version(after_mark(rest, "<")?),
        _ => Ok(rest),
    }
}

/// The text after a locked package.
fn after_release(text: &[u8]) -> Result<&[u8], Fault<'_>> {
    let rest = after_package(text)?;
    match rest {
        [b'@', rest @ ..] => after_version(rest),
        _ => Ok(rest),
    }
}

/// The text after an integrity, and the text itself where it begins with none.
fn after_integrity(text: &[u8]) -> Result<&[u8], Fault<'_>> {
    let Some(rest) = text.strip_prefix(b",integrity=<".as_slice()) else {
        return Ok(text);
    };
    match rest.iter().position(|b| *b == b'>') {
        Some(0) => Ok(text),
        Some(place) => Ok(&rest[place + 1..]),
        None => after_mark(&rest[rest.len()..], ">"),
    }
}

/// The text after an interface's name.
fn after_interface(text: &[u8]) -> Result<&[u8], Fault<'_>> {
    match text.iter().position(|b| *b == b'@') {
        Some(place) => after_version(&text[place + 1..]),
        None => after_label(text),
    }
}

/// The text after an import's name.
fn after_name(text: &[u8]) -> Result<&[u8], Fault<'_>> {
    if begins(text, "unlocked-dep=") {
        let rest = after_mark(after_mark(text, "unlocked-dep=")?, "<")?;
        return after_mark(after_dependency(rest)?, ">");
    }
    if begins(text, "locked-dep=") {
        let rest = after_mark(after_mark(text, "locked-dep=")?, "<")?;
        return after_integrity(after_mark(after_release(rest)?, ">")?);
    }
    after_interface(text)
}
