//! Texts, keys and indentation, put behind an output.

ghost use Rattle.std.specs.Prelude.{◌≡◌, false, ◌++◌, ◌/◌, ◌%◌, ◌<◌, OnOk, OnErr, replicate, string_bytes};
ghost use Rattle.std.specs.List.{flat_map};
ghost use Rattle.std.specs.Str.{chars};
ghost use Rattle.yaml_text.specs.Output.{HoldsFront, Writes};
ghost use Rattle.yaml_text.specs.Texts as spec;

use crate::style::{is_block, is_double, is_escaped};
use warg_values::Memory;

/// Writes a text that is no key behind the output, at a level (YAML 1.2.2, sections 7.3 and 8.1.2).
///
/// It is a block behind `|-` where it holds a line feed and no other character that is written as an escape, its
/// first line begins with a character that is no space, and its last line holds one. Else it stands in quotes, as
/// a key does. Want of memory leaves a front of the text behind the output.
#[tactic(auto, unfolding(crate::specs::Texts::text_at))]
pub fn push_text(out: &mut String, level: usize, text: &str) -> Result<(), Memory>
    ensures ok { OnOk result (string_bytes out.new ≡ string_bytes out.old ++ spec.text_at level text.now) }
    ensures err { OnErr result (HoldsFront (string_bytes out.old) (spec.text_at level text.now) (string_bytes out.new)) }
{
    if is_block(text) {
        push_block(out, level, text)
    } else {
        push_key(out, text)
    }
}

/// Writes a key in quotes behind the output (YAML 1.2.2, sections 7.3.1 and 7.3.2).
///
/// The quotes are double where it holds a character that is written as an escape: U+0000 to 001F, U+007F to 009F,
/// U+2028, U+2029 or U+FEFF. Want of memory leaves a front of the text behind the output.
#[tactic(auto, unfolding(crate::specs::Texts::quoted))]
pub fn push_key(out: &mut String, key: &str) -> Result<(), Memory>
    ensures ok { OnOk result (string_bytes out.new ≡ string_bytes out.old ++ spec.quoted key.now) }
    ensures err { OnErr result (HoldsFront (string_bytes out.old) (spec.quoted key.now) (string_bytes out.new)) }
{
    push_quoted(out, is_double(key), key)
}

/// Writes the indentation of a level behind the output: nothing at level 0, and one space more than the level at
/// another. Want of memory leaves a front of it there.
pub fn push_indentation(out: &mut String, level: usize) -> Result<(), Memory>
    ensures ok { OnOk result (string_bytes out.new ≡ string_bytes out.old ++ spec.indentation level) }
    ensures err { OnErr result (HoldsFront (string_bytes out.old) (spec.indentation level) (string_bytes out.new)) }
{
    if level == 0 {
        return Ok(());
    }
    out.push(' ')?;
    push_spaces(out, level)
}

/// So many spaces.
#[tactic(auto, using(crate::proofs::Fronts::front_spaces))]
fn push_spaces(out: &mut String, count: usize) -> Result<(), Memory>
    ensures { Writes result (string_bytes out.old) (replicate count 32) (string_bytes out.new) }
{
    for _i in 0..count {
        out.push(' ')?;
    }
    Ok(())
}

/// A block's head and its lines.
fn push_block(out: &mut String, level: usize, text: &str) -> Result<(), Memory>
    requires { spec.has_other_escape text.now ≡ false }
    ensures { Writes result (string_bytes out.old) (spec.block level text.now) (string_bytes out.new) }
{
    out.push_str("|-")?;
    push_line_start(out, level)?;
    push_block_chars(out, level, text)
}

/// A line feed, and the indentation of a block's line.
fn push_line_start(out: &mut String, level: usize) -> Result<(), Memory>
    ensures { Writes result (string_bytes out.old) (spec.block_indent level) (string_bytes out.new) }
{
    out.push_str("\n  ")?;
    push_spaces(out, level)
}

/// The characters of a block, where a line feed begins the next line.
fn push_block_chars(out: &mut String, level: usize, text: &str) -> Result<(), Memory>
    ensures { Writes result (string_bytes out.old) (flat_map (spec.block_char level) (chars text.now)) (string_bytes out.new) }
{
    for c in text.chars() {
        push_block_char(out, level, c)?;
    }
    Ok(())
}

/// A character of a block.
fn push_block_char(out: &mut String, level: usize, c: char) -> Result<(), Memory>
    ensures { Writes result (string_bytes out.old) (spec.block_char level c) (string_bytes out.new) }
{
    if c == '\n' {
        push_line_start(out, level)
    } else {
        Ok(out.push(c)?)
    }
}

/// A text in quotes, which are double or single.
fn push_quoted(out: &mut String, double: bool, text: &str) -> Result<(), Memory>
    ensures { Writes result (string_bytes out.old) (spec.quoted_in double text.now) (string_bytes out.new) }
{
    let quote = if double { '"' } else { '\'' };
    out.push(quote)?;
    push_quoted_chars(out, double, text)?;
    Ok(out.push(quote)?)
}

/// The characters of a text, between its quotes.
fn push_quoted_chars(out: &mut String, double: bool, text: &str) -> Result<(), Memory>
    ensures { Writes result (string_bytes out.old) (flat_map (spec.quoted_char double) (chars text.now))
        (string_bytes out.new) }
{
    for c in text.chars() {
        push_quoted_char(out, double, c)?;
    }
    Ok(())
}

/// A character between quotes.
fn push_quoted_char(out: &mut String, double: bool, c: char) -> Result<(), Memory>
    ensures { Writes result (string_bytes out.old) (spec.quoted_char double c) (string_bytes out.new) }
{
    if double {
        push_double_char(out, c)
    } else {
        push_single_char(out, c)
    }
}

/// A character within single quotes.
fn push_single_char(out: &mut String, c: char) -> Result<(), Memory>
    ensures { Writes result (string_bytes out.old) (spec.single_char c) (string_bytes out.new) }
{
    if c == '\'' {
        Ok(out.push_str("''")?)
    } else {
        Ok(out.push(c)?)
    }
}

/// A character within double quotes.
fn push_double_char(out: &mut String, c: char) -> Result<(), Memory>
    ensures { Writes result (string_bytes out.old) (spec.double_char c) (string_bytes out.new) }
{
    if c == '"' {
        Ok(out.push_str("\\\"")?)
    } else if c == '\\' {
        Ok(out.push_str("\\\\")?)
    } else if is_escaped(c) {
        push_escape(out, c)
    } else {
        Ok(out.push(c)?)
    }
}

/// A character as an escape.
fn push_escape(out: &mut String, c: char) -> Result<(), Memory>
    requires { c < 0x1_0000 }
    ensures { Writes result (string_bytes out.old) (spec.escape c) (string_bytes out.new) }
{
    let code = c as u32;
    match c {
        '\n' => Ok(out.push_str("\\n")?),
        '\r' => Ok(out.push_str("\\r")?),
        '\t' => Ok(out.push_str("\\t")?),
        _ if code < 0x100 => {
            out.push_str("\\x")?;
            push_hex_pair(out, code)
        }
        _ => {
            out.push_str("\\u")?;
            push_hex_pairs(out, code)
        }
    }
}

/// Two bytes as four hex digits, the higher byte first.
fn push_hex_pairs(out: &mut String, code: u32) -> Result<(), Memory>
    requires { code < 0x1_0000 }
    ensures { Writes result (string_bytes out.old) (spec.hex_pair (code / 0x100) ++ spec.hex_pair (code % 0x100))
        (string_bytes out.new) }
{
    push_hex_pair(out, code / 0x100)?;
    push_hex_pair(out, code % 0x100)
}

/// A byte as two hex digits.
fn push_hex_pair(out: &mut String, byte: u32) -> Result<(), Memory>
    requires { byte < 0x100 }
    ensures { Writes result (string_bytes out.old) (spec.hex_pair byte) (string_bytes out.new) }
{
    out.push(hex_digit(byte / 16))?;
    Ok(out.push(hex_digit(byte % 16))?)
}

/// A hex digit in upper case.
fn hex_digit(digit: u32) -> char
    requires { digit < 16 }
    ensures { result ≡ spec.hex_digit digit }
{
    if digit < 10 {
        char::from(b'0' + digit as u8)
    } else {
        char::from(b'A' - 10 + digit as u8)
    }
}
