//! Walks from place to place.
//!
//! A step looks at most at the line's next three bytes and at the next content's column.

ghost use Rattle.std.specs.Prelude.{◌≡◌, ◌≤◌, ◌<◌, ◌∷◌, length, option_copied, IfSome};
ghost use Rattle.yaml_scan.specs.Lines.{lines_of, lines_behind};
ghost use Rattle.yaml_small.specs.Places as spec;
ghost use Rattle.yaml_small.specs.Answers.{place_at};

use crate::event::{Marker, characters};
use crate::place::Place;
use yaml_scan::{cut_line, ends, is_dashes, is_deeper, is_dots, is_gap, is_passed, spaces, whites};

/// The place so many bytes further on in the line.
pub fn past(place: Place<'_>, count: usize) -> Place<'_>
    requires { count ≤ length place.line.now }
    ensures { place_at result ≡ spec.past count (place_at place.entry) }
{
    let (front, line) = place.line.split_at(count);
    Place {
        col: place.col + count,
        line,
        later: place.later,
        mark: place.mark.after(front),
        below: place.below,
    }
}

/// The place behind white space.
pub fn over(place: Place<'_>) -> Place<'_>
    ensures { place_at result ≡ spec.over (place_at place.entry) }
{
    past(place, whites(place.line))
}

/// The start of a text's first line.
pub fn line_start(text: &[u8], mark: Marker) -> Place<'_>
    ensures col { result.col ≡ 0 }
    ensures lines { lines_of text.now ≡ result.line.now ∷ lines_behind (option_copied result.later) }
    ensures shorter { IfSome result.later (λ later. length later.now < length text.now) }
{
    let (line, later) = cut_line(text);
    let left = match later {
        Some(later) => later.len(),
        None => 0,
    };
    let cut = &text[..text.len().saturating_sub(left)];
    Place {
        col: 0,
        line,
        later,
        mark,
        below: mark.index.saturating_add(characters(cut)),
    }
}

/// Where the next line begins, or the text's end.
pub fn mark_below(place: Place<'_>) -> Marker {
    match place.later {
        None => place.mark.after(place.line),
        Some(_) => Marker {
            line: place.mark.line.saturating_add(1),
            col: 0,
            index: place.below,
        },
    }
}

/// The first place with content in lines that begin at a mark, or the text's end.
#[tactic(auto, unfolding(crate::specs::Places::next_at))]
pub fn content_in(later: Option<&[u8]>, mark: Marker) -> Place<'_>
    ensures { place_at result ≡ spec.next_at (lines_behind (option_copied later.entry)) }
{
    let mut rest = later;
    let mut mark = mark;
    while let Some(text) = rest {
        let place = line_start(text, mark);
        if !is_passed(place.line) {
            return past(place, spaces(place.line));
        }
        mark = mark_below(place);
        rest = place.later;
    }
    Place {
        col: 0,
        line: &[],
        later: None,
        mark,
        below: mark.index,
    }
}

/// The next content behind a place's line.
pub fn next_content(place: Place<'_>) -> Place<'_>
    ensures { place_at result ≡ spec.next_at (lines_behind (option_copied place.entry.later)) }
{
    content_in(place.later, mark_below(place))
}

/// The next token within a flow.
#[tactic(auto, unfolding(crate::specs::Places::flow_next))]
pub fn flow_next(place: Place<'_>) -> Place<'_>
    ensures { place_at result ≡ spec.flow_next (place_at place.entry) }
{
    if ends(place.line) {
        over(next_content(place))
    } else {
        over(place)
    }
}

/// Whether a line begins with a byte.
pub fn begins(byte: u8, line: &[u8]) -> bool
    ensures { result ≡ spec.begins byte line.now }
{
    match line {
        [] => false,
        [first, ..] => *first == byte,
    }
}

/// Whether the text ends here.
pub fn is_end(place: Place<'_>) -> bool
    ensures { result ≡ spec.is_end (place_at place.entry) }
{
    match place.line {
        [] => true,
        [_, ..] => false,
    }
}

/// Whether the mark of a document's start stands here.
pub fn at_dashes(place: Place<'_>) -> bool
    ensures { result ≡ spec.at_dashes (place_at place.entry) }
{
    place.col == 0 && is_dashes(place.line)
}

/// Whether the mark of a document's end stands here.
pub fn at_dots(place: Place<'_>) -> bool
    ensures { result ≡ spec.at_dots (place_at place.entry) }
{
    place.col == 0 && is_dots(place.line)
}

/// Whether either mark stands here.
pub fn at_mark(place: Place<'_>) -> bool
    ensures { result ≡ spec.at_mark (place_at place.entry) }
{
    at_dashes(place) || at_dots(place)
}

/// Whether the document's content is over here.
pub fn is_outside(place: Place<'_>) -> bool
    ensures { result ≡ spec.is_outside (place_at place.entry) }
{
    is_end(place) || at_mark(place)
}

/// Whether content that is deeper than the parent's column stands here.
pub fn is_within(parent: Option<usize>, place: Place<'_>) -> bool
    ensures { result ≡ spec.is_within parent (place_at place.entry) }
{
    is_deeper(parent, place.col) && !is_outside(place)
}

/// Whether a line begins with a dash that is a mark.
pub fn is_dash(line: &[u8]) -> bool
    ensures { result ≡ spec.is_dash line.now }
{
    match line {
        [] => false,
        [first, rest @ ..] => *first == b'-' && is_gap(rest),
    }
}

/// Whether a line begins with a colon that is a mark.
pub fn is_colon(line: &[u8]) -> bool
    ensures { result ≡ spec.is_colon line.now }
{
    match line {
        [] => false,
        [first, rest @ ..] => *first == b':' && is_gap(rest),
    }
}

/// Whether a dash of a list at a column stands here.
pub fn at_dash(col: usize, place: Place<'_>) -> bool
    ensures { result ≡ spec.at_dash col (place_at place.entry) }
{
    place.col == col && is_dash(place.line)
}

/// Whether a list at a column ends here.
pub fn list_ends(col: usize, place: Place<'_>) -> bool
    ensures { result ≡ spec.list_ends col (place_at place.entry) }
{
    !at_dash(col, place) && place.col <= col
}

/// Whether a map at a column ends here.
pub fn map_ends(col: usize, place: Place<'_>) -> bool
    ensures { result ≡ spec.map_ends col (place_at place.entry) }
{
    place.col < col || is_outside(place)
}
