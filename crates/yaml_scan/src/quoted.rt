//! Quoted scalars of one line (YAML 1.2.2, sections 7.3.1, 7.3.2 and 5.7).

ghost use Rattle.std.specs.Prelude.{◌≡◌, ℕ, List, ◌++◌, IfOk, IfErr, OnOk, encode_utf8};
ghost use Rattle.yaml_scan.specs.Quoted as quoted;
ghost use Rattle.yaml_scan.specs.QuotedScan as spec;
ghost use Rattle.yaml_scan.specs.Turns as turns;
ghost use Rattle.yaml_scan.specs.Finds as finds;

use crate::bytes::{is_control, is_control_at};
use std::alloc::{AllocError, AllocFailed, Global};

/// A quoted scalar that was found: its text, and the rest of the line behind its closing quote.
#[derive(Debug, Drop)]
pub struct Quoted<'a> {
    /// The text, in bytes.
    pub text: Vec<u8>,
    /// The rest of the line behind the closing quote.
    pub rest: &'a [u8],
}

/// Why no quoted scalar was found.
#[derive(Clone, Copy, Debug, PartialEq, Eq)]
pub enum QuoteError {
    /// The line ends before the scalar does.
    Open,
    /// A character or an escape that is not allowed; the number says how many bytes of the line are left there.
    Bad(usize),
    /// No memory was left.
    Memory,
}

impl From<AllocError> for QuoteError {
    ghost use Rattle.yaml_scan.specs.declared.quoted.QuoteError.TheVariants.{Memory};

    ghost from_gives = { λ _ e. e ≡ Memory };

    fn from(_error: AllocError) -> QuoteError {
        QuoteError::Memory
    }
}

impl<T: Drop> From<AllocFailed<T>> for QuoteError {
    ghost use Rattle.yaml_scan.specs.declared.quoted.QuoteError.TheVariants.{Memory};

    ghost from_gives = { λ _ e. e ≡ Memory };

    fn from(_error: AllocFailed<T>) -> QuoteError {
        QuoteError::Memory
    }
}

/// The single-quoted scalar behind an opening quote. Two quotes in it are one.
#[tactic(auto, using(crate::proofs::Quotes::single_is_found))]
pub fn single_quoted(alloc: Global, line: &[u8]) -> Result<Quoted<'_>, QuoteError>
    ensures found { IfOk result (λ q. quoted.SingleQuoted line.now q.text.items q.rest.now) }
    ensures each { (text rest : List ℕ) → quoted.SingleQuoted line.now text rest
        → IfErr result (λ e. e ≡ QuoteError.Memory) }
    ensures scanned { finds.Finds result (spec.single_at line.now) }
{
    single_scan(alloc, line)
}

/// The same, byte by byte.
fn single_scan(alloc: Global, line: &[u8]) -> Result<Quoted<'_>, QuoteError>
    ensures { finds.Finds result (spec.single_at line.now) }
{
    let mut text = Vec::new(alloc);
    let mut rest = line;
    'scalar: while let [byte, behind @ ..] = rest {
        if *byte != b'\'' {
            if is_control(rest) {
                return Err(QuoteError::Bad(rest.len()));
            }
            text.push(*byte)?;
            rest = behind;
            continue;
        }
        let [b'\'', after @ ..] = behind else {
            return Ok(Quoted { text, rest: behind });
        };
        text.push(b'\'')?;
        rest = after;
    }
    Err(QuoteError::Open)
}

/// The double-quoted scalar behind an opening quote, with its escapes as the characters that they stand for.
#[tactic(auto, using(crate::proofs::Quotes::double_is_found))]
pub fn double_quoted(alloc: Global, line: &[u8]) -> Result<Quoted<'_>, QuoteError>
    ensures found { IfOk result (λ q. quoted.DoubleQuoted line.now q.text.items q.rest.now) }
    ensures each { (text rest : List ℕ) → quoted.DoubleQuoted line.now text rest
        → IfErr result (λ e. e ≡ QuoteError.Memory) }
    ensures scanned { finds.Finds result (spec.double_quoted_at line.now) }
{
    double_scan(alloc, line)
}

/// Where in a double-quoted scalar a byte stands.
#[derive(Clone, Copy, Debug)]
enum Inside {
    /// In the text.
    Text,
    /// Behind a backslash.
    Backslash,
    /// Where so many hex digits more are wanted, behind those that make this number.
    Hex(u8, u32),
}

/// The same, byte by byte.
fn double_scan(alloc: Global, line: &[u8]) -> Result<Quoted<'_>, QuoteError>
    ensures { finds.Finds result (spec.double_quoted_at line.now) }
{
    let mut text = Vec::new(alloc);
    let mut inside = Inside::Text;
    let mut begun = line.len();
    let mut rest = line;
    'scalar: while let [byte, behind @ ..] = rest {
        if closes(inside, *byte) {
            return Ok(Quoted { text, rest: behind });
        }
        if let Inside::Text = inside {
            begun = rest.len();
        }
        let Some(next) = turn(&mut text, inside, *byte, behind)? else {
            return Err(QuoteError::Bad(begun));
        };
        inside = next;
        rest = behind;
    }
    Err(cut_off(inside, begun))
}

/// Whether a byte is the closing quote.
fn closes(inside: Inside, byte: u8) -> bool
    ensures { result ≡ spec.closes (turns.standing inside) byte }
{
    match inside {
        Inside::Text => byte == b'"',
        Inside::Backslash => false,
        Inside::Hex(_, _) => false,
    }
}

/// Why a scalar that its line cuts off is none.
fn cut_off(inside: Inside, begun: usize) -> QuoteError
    ensures { finds.Explains result (spec.cut_off (turns.standing inside)) }
{
    match inside {
        Inside::Text => QuoteError::Open,
        Inside::Backslash => QuoteError::Open,
        Inside::Hex(_, _) => QuoteError::Bad(begun),
    }
}

/// Adds what a byte stands for to the text, and says where the next one stands; None where the byte is not
/// allowed.
fn turn(
    text: &mut Vec<u8>,
    inside: Inside,
    byte: u8,
    behind: &[u8],
) -> Result<Option<Inside>, AllocError>
    ensures next { IfOk result
        (λ o. turns.next_standing o ≡ spec.next_of (spec.turn_at (turns.standing inside) byte behind.now)) }
    ensures text { OnOk result
        (text.new.items ≡ text.old.items ++ spec.text_of (spec.turn_at (turns.standing inside) byte behind.now)) }
{
    match inside {
        Inside::Text => text_turn(text, byte, behind),
        Inside::Backslash => escape_turn(text, byte),
        Inside::Hex(wanted, value) => hex_turn(text, wanted, value, byte),
    }
}

/// The same for a byte in the text.
fn text_turn(text: &mut Vec<u8>, byte: u8, behind: &[u8]) -> Result<Option<Inside>, AllocError>
    ensures next { IfOk result (λ o. turns.next_standing o ≡ spec.next_of (spec.text_turn byte behind.now)) }
    ensures text { OnOk result (text.new.items ≡ text.old.items ++ spec.text_of (spec.text_turn byte behind.now)) }
{
    if byte == b'\\' {
        return Ok(Some(Inside::Backslash));
    }
    if is_control_at(byte, behind) {
        return Ok(None);
    }
    text.push(byte)?;
    Ok(Some(Inside::Text))
}

/// The same behind a backslash.
fn escape_turn(text: &mut Vec<u8>, byte: u8) -> Result<Option<Inside>, AllocError>
    ensures next { IfOk result
        (λ o. turns.next_standing o
        ≡ spec.next_of (spec.escape_turn (quoted.digits_wanted byte) (quoted.escaped byte))) }
    ensures text { OnOk result
        (text.new.items
        ≡ text.old.items ++ spec.text_of (spec.escape_turn (quoted.digits_wanted byte) (quoted.escaped byte))) }
{
    if let Some(wanted) = digits_wanted(byte) {
        return Ok(Some(Inside::Hex(wanted, 0)));
    }
    let Some(character) = escaped(byte) else {
        return Ok(None);
    };
    push_character(text, character)?;
    Ok(Some(Inside::Text))
}

/// The same where hex digits are wanted.
fn hex_turn(
    text: &mut Vec<u8>,
    wanted: u8,
    value: u32,
    byte: u8,
) -> Result<Option<Inside>, AllocError>
    ensures next { IfOk result (λ o. turns.next_standing o ≡ spec.next_of (spec.digit_turn wanted value byte)) }
    ensures text { OnOk result (text.new.items ≡ text.old.items ++ spec.text_of (spec.digit_turn wanted value byte)) }
{
    let Some(digit) = char::from(byte).to_digit(16) else {
        return Ok(None);
    };
    let value = 16 * u64::from(value) + u64::from(digit);
    if value >= 0x110000 {
        return Ok(None);
    }
    let value = value as u32;
    if wanted != 1 {
        return Ok(Some(Inside::Hex(wanted.saturating_sub(1), value)));
    }
    let Some(character) = char::from_u32(value) else {
        return Ok(None);
    };
    push_character(text, character)?;
    Ok(Some(Inside::Text))
}

/// Adds a character's bytes.
fn push_character(text: &mut Vec<u8>, character: char) -> Result<(), AllocError>
    ensures { OnOk result (text.new.items ≡ text.old.items ++ encode_utf8 character) }
{
    let mut buffer = [0u8; 4];
    text.extend_from_slice(character.encode_utf8(&mut buffer).as_bytes())?;
    Ok(())
}

/// How many hex digits a letter behind a backslash wants.
fn digits_wanted(byte: u8) -> Option<u8>
    ensures { result ≡ quoted.digits_wanted byte }
{
    match byte {
        b'x' => Some(2),
        b'u' => Some(4),
        b'U' => Some(8),
        _ => None,
    }
}

/// The character that a byte behind a backslash stands for.
fn escaped(byte: u8) -> Option<char>
    ensures { result ≡ quoted.escaped byte }
{
    match byte {
        b'0' => Some('\0'),
        b'a' => Some('\x07'),
        b'b' => Some('\x08'),
        b't' => Some('\t'),
        b'n' => Some('\n'),
        b'v' => Some('\x0b'),
        b'f' => Some('\x0c'),
        b'r' => Some('\r'),
        b'e' => Some('\x1b'),
        b' ' => Some(' '),
        b'"' => Some('"'),
        b'/' => Some('/'),
        b'\\' => Some('\\'),
        b'N' => Some('\u{85}'),
        b'_' => Some('\u{a0}'),
        b'L' => Some('\u{2028}'),
        b'P' => Some('\u{2029}'),
        _ => None,
    }
}
