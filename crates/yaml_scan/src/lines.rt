//! Lines (YAML 1.2.2, sections 5.4, 6.1 and 6.6).

ghost use Rattle.std.specs.Prelude.{◌≡◌, ◌∷◌, ◌≤◌, ◌<◌, length, option_copied, IfSome};
ghost use Rattle.yaml_scan.specs.Lines as spec;

use crate::bytes::{ends_mark, is_clean, is_white, whites};
use memchr::memchr;

/// The first line of a text, and what stands behind its end, which is a line feed or a carriage return and a
/// line feed. The last line has no end.
pub fn cut_line(text: &[u8]) -> (&[u8], Option<&[u8]>)
    ensures lines { spec.lines_of text.now ≡ result.0.now ∷ spec.lines_behind (option_copied result.1) }
    ensures shorter { IfSome result.1 (λ later. length later.now < length text.now) }
    ensures within { length result.0.now ≤ length text.now }
{
    match memchr(b'\n', text) {
        Some(at) => (without_return(&text[..at]), Some(&text[at + 1..])),
        None => (text, None),
    }
}

/// A line without the carriage return before its line feed.
#[tactic(auto, using(crate::proofs::Loops::without_returns))]
fn without_return(line: &[u8]) -> &[u8]
    ensures front { result.now ≡ spec.without_return line.now }
    ensures within { length result.now ≤ length line.now }
{
    match line {
        [front @ .., b'\r'] => front,
        _ => line,
    }
}

/// Whether the rest of a line is nothing, or a comment without control characters.
fn is_over(rest: &[u8]) -> bool
    ensures { result ≡ spec.is_over rest.now }
{
    match rest {
        [] => true,
        [first, comment @ ..] => *first == b'#' && is_clean(comment),
    }
}

/// Whether a line is of white space, or has a comment alone.
pub fn is_passed(line: &[u8]) -> bool
    ensures { result ≡ spec.is_passed line.now }
{
    is_over(&line[whites(line)..])
}

/// Whether the rest of a line has nothing more: a comment stands behind white space.
pub fn ends(line: &[u8]) -> bool
    ensures { result ≡ spec.ends line.now }
{
    match line {
        [] => true,
        [first, ..] => is_white(*first) && is_passed(line),
    }
}

/// Whether a line is of white space.
pub fn is_white_line(line: &[u8]) -> bool
    ensures { result ≡ spec.is_white_line line.now }
{
    whites(line) == line.len()
}

/// Whether a line has a comment alone, whatever the comment holds.
pub fn is_comment_line(line: &[u8]) -> bool
    ensures { result ≡ spec.is_comment_line line.now }
{
    match &line[whites(line)..] {
        [] => false,
        [first, ..] => *first == b'#',
    }
}

/// Whether the first line that is not of white space is there, and has more than a comment.
pub fn text_follows(later: Option<&[u8]>) -> bool
    ensures { result ≡ spec.text_follows (spec.lines_behind (option_copied later.entry)) }
{
    let mut rest = later;
    while let Some(text) = rest {
        let (line, behind) = cut_line(text);
        if !is_white_line(line) {
            return !is_comment_line(line);
        }
        rest = behind;
    }
    false
}

/// Whether a line begins with `---` as a mark: before white space, a control character or the line's end.
pub fn is_dashes(line: &[u8]) -> bool
    ensures { result ≡ spec.is_dashes line.now }
{
    line.starts_with(b"---") && ends_mark(&line[3..])
}

/// Whether a line begins with `...` as a mark: before white space, a control character or the line's end.
pub fn is_dots(line: &[u8]) -> bool
    ensures { result ≡ spec.is_dots line.now }
{
    line.starts_with(b"...") && ends_mark(&line[3..])
}
