//! Scalars where they stand: on one line, as keys, and as blocks (YAML 1.2.2, sections 7.3, 7.4.2 and 8.1).

ghost use Rattle.std.specs.Prelude.{◌≡◌, true, false, option_copied, option_map, IfOk, IfErr};
ghost use Rattle.yaml_scan.specs.Lines.{lines_behind};
ghost use Rattle.yaml_small.specs.Scalars as spec;
ghost use Rattle.yaml_small.specs.Answers.{place_at, ScanGives};
ghost use Rattle.yaml_small.specs.ScalarTokens.{content_bytes, scalar_token_view, if_read, FoundIn, FailsAs};

use crate::cursor::{
    at_dashes, at_dots, at_mark, begins, content_in, is_colon, is_end, mark_below, over, past,
};
use crate::error::ScanError;
use crate::event::{Event, Marker, Style};
use crate::place::Place;
use std::alloc::Global;
use warg_values::Text;
use yaml_scan::{
    Block, BlockError, Head, QuoteError, Quoted, begins_plain, block_indent, block_scalar,
    double_quoted, ends, is_comment_line, is_control, is_gap, is_white_line, plain_len,
    single_quoted, text_follows,
};

/// The text of a scalar: a part of the line, or bytes of its own.
#[derive(Debug, Drop)]
pub enum Content<'a> {
    /// A part of the line.
    Lent(&'a [u8]),
    /// Bytes of its own.
    Owned(Vec<u8>),
}

/// A scalar, and the place behind it.
#[derive(Debug, Drop)]
pub struct ScalarToken<'a> {
    /// The text.
    pub content: Content<'a>,
    /// How it is written.
    pub style: Style,
    /// The place behind it.
    pub end: Place<'a>,
}

/// The event of a scalar.
pub fn scalar_event(alloc: Global, content: Content<'_>, style: Style) -> Result<Event, ScanError>
    ensures value { IfOk result (λ e. e ≡ Event.Scalar (content_bytes content.entry) style) }
    ensures only { IfErr result (λ e. e ≡ ScanError.Memory) }
{
    let bytes = match content {
        Content::Lent(bytes) => Vec::from_slice(alloc, bytes)?,
        Content::Owned(bytes) => bytes,
    };
    Ok(Event::Scalar(text_of(bytes)?, style))
}

/// The text of bytes that were cut from a text at marks: they are UTF-8, so the error stays out.
fn text_of(bytes: Vec<u8>) -> Result<Text, ScanError>
    ensures value { IfOk result (λ text. text ≡ bytes.items) }
    ensures only { IfErr result (λ e. e ≡ ScanError.Memory) }
{
    match String::from_utf8(bytes) {
        Ok(text) => Ok(Text::new(text)),
        Err(_) => Err(ScanError::Memory),
    }
}

/// Whether a plain scalar may begin here.
fn begins_at(flow: bool, place: Place<'_>) -> bool
    ensures { result ≡ spec.begins_at flow (place_at place.entry) }
{
    !at_mark(place) && begins_plain(flow, place.line)
}

/// Whether a tab indents more than a comment.
pub fn is_tabbed(line: &[u8]) -> bool
    ensures { result ≡ spec.is_tabbed line.now }
{
    begins(b'\t', line) && !is_comment_line(line)
}

/// Where a fault stands: at the first control character of a comment, else at the place.
pub fn fault_mark(place: Place<'_>) -> Marker {
    if !is_comment_line(place.line) {
        return place.mark;
    }
    for at in 0..place.line.len() {
        if is_control(&place.line[at..]) {
            return place.mark.after(&place.line[..at]);
        }
    }
    place.mark
}

/// Whether an anchor, an alias, a tag, a `? ` or a tab stands where a node would start.
fn is_not_carried(line: &[u8]) -> bool
    ensures { result ≡ spec.is_not_carried line.now }
{
    match line {
        [] => false,
        [first, rest @ ..] => {
            *first == b'&'
                || *first == b'*'
                || *first == b'!'
                || is_tabbed(line)
                || (*first == b'?' && is_gap(rest))
        }
    }
}

/// Why no node starts here.
fn start_error(place: Place<'_>) -> ScanError
    ensures { FailsAs result (spec.start_fault (place_at place.entry)) }
{
    if is_end(place) {
        return ScanError::Form(place.mark);
    }
    if at_dashes(place) {
        return ScanError::NotCarried(place.mark);
    }
    if at_dots(place) {
        return ScanError::Form(place.mark);
    }
    if is_not_carried(place.line) {
        return ScanError::NotCarried(place.mark);
    }
    ScanError::Form(fault_mark(place))
}

/// A plain scalar.
#[tactic(auto, unfolding(crate::specs::Scalars::plain_at))]
fn plain_of(flow: bool, place: Place<'_>) -> Result<ScalarToken<'_>, ScanError>
    ensures { ScanGives scalar_token_view result (spec.plain_at flow (place_at place.entry)) }
{
    if !begins_at(flow, place) {
        return Err(start_error(place));
    }
    let len = plain_len(flow, place.line);
    let (text, _) = place.line.split_at(len);
    Ok(ScalarToken {
        content: Content::Lent(text),
        style: Style::Plain,
        end: past(place, len),
    })
}

/// A quoted scalar, of what was found behind its opening quote.
#[tactic(auto, unfolding(crate::specs::Scalars::quoted_at))]
fn quoted_of<'a>(
    style: Style,
    place: Place<'a>,
    found: Result<Quoted<'a>, QuoteError>,
) -> Result<ScalarToken<'a>, ScanError>
    ensures { FoundIn style (place_at place.entry) found.entry result }
{
    match found {
        Ok(quoted) => {
            let Quoted { text, rest } = quoted;
            let len = place.line.len().saturating_sub(rest.len());
            Ok(ScalarToken {
                content: Content::Owned(text),
                style,
                end: past(place, len),
            })
        }
        Err(QuoteError::Open) => Err(open_error(place)),
        Err(QuoteError::Bad(left)) => Err(ScanError::Form(mark_left(place, left))),
        Err(QuoteError::Memory) => Err(ScanError::Memory),
    }
}

/// Why a quoted scalar that its line cuts off does not go on: not in another line.
#[tactic(auto, using(crate::specs::ScanLaws::lines_open))]
fn open_error(place: Place<'_>) -> ScanError
    ensures { FailsAs result (spec.open_fault (lines_behind (option_copied place.entry.later))) }
{
    let mark = place.mark.after(place.line);
    match place.later {
        None => ScanError::Form(mark),
        Some(_) => ScanError::NotCarried(mark),
    }
}

/// Where so many bytes of a line are left.
fn mark_left(place: Place<'_>, left: usize) -> Marker {
    let len = place.line.len().saturating_sub(left);
    place.mark.after(&place.line[..len])
}

/// A plain or quoted scalar.
#[tactic(auto, unfolding(crate::specs::Scalars::scalar_token_at))]
pub fn scalar_token_of(
    alloc: Global,
    flow: bool,
    place: Place<'_>,
) -> Result<ScalarToken<'_>, ScanError>
    ensures { ScanGives scalar_token_view result (spec.scalar_token_at flow (place_at place.entry)) }
{
    if begins(b'\'', place.line) {
        return quoted_of(
            Style::SingleQuoted,
            place,
            single_quoted(alloc, &place.line[1..]),
        );
    }
    if begins(b'"', place.line) {
        return quoted_of(
            Style::DoubleQuoted,
            place,
            double_quoted(alloc, &place.line[1..]),
        );
    }
    plain_of(flow, place)
}

/// The plain or quoted scalar that stands here outside of a flow, where one does.
pub fn scalar_if_any(alloc: Global, place: Place<'_>) -> Result<Option<ScalarToken<'_>>, ScanError>
    ensures value { IfOk result
        (λ o. option_map scalar_token_view o ≡ if_read (spec.scalar_token_at false (place_at place.entry))) }
    ensures only { IfErr result (λ e. e ≡ ScanError.Memory) }
{
    match scalar_token_of(alloc, false, place) {
        Ok(scalar_token) => Ok(Some(scalar_token)),
        Err(ScanError::Memory) => Err(ScanError::Memory),
        Err(ScanError::Form(_)) => Ok(None),
        Err(ScanError::NotCarried(_)) => Ok(None),
        Err(ScanError::TooDeep(_)) => Ok(None),
    }
}

/// A key of a block map, and the place behind its colon.
#[tactic(auto, unfolding(crate::specs::Scalars::key_at))]
pub fn key_of(alloc: Global, place: Place<'_>) -> Result<ScalarToken<'_>, ScanError>
    ensures { ScanGives scalar_token_view result (spec.key_at (place_at place.entry)) }
{
    let scalar_token = scalar_token_of(alloc, false, place)?;
    let ScalarToken {
        content,
        style,
        end,
    } = scalar_token;
    let end = over(end);
    if !is_colon(end.line) {
        return Err(ScanError::Form(fault_mark(end)));
    }
    Ok(ScalarToken {
        content,
        style,
        end: past(end, 1),
    })
}

/// Whether a key of a block map stands here.
pub fn is_key(alloc: Global, place: Place<'_>) -> Result<bool, ScanError>
    ensures value { IfOk result (λ holds. holds ≡ spec.is_key (place_at place.entry)) }
    ensures only { IfErr result (λ e. e ≡ ScanError.Memory) }
{
    match key_of(alloc, place) {
        Ok(_) => Ok(true),
        Err(ScanError::Memory) => Err(ScanError::Memory),
        Err(ScanError::Form(_)) => Ok(false),
        Err(ScanError::NotCarried(_)) => Ok(false),
        Err(ScanError::TooDeep(_)) => Ok(false),
    }
}

/// Whether a line begins with a block scalar's head.
pub fn begins_block(line: &[u8]) -> bool
    ensures { result ≡ spec.begins_block line.now }
{
    begins(b'|', line) || begins(b'>', line)
}

/// Whether an indentation indicator or a plus stands here.
fn is_indicator(line: &[u8]) -> bool
    ensures { result ≡ spec.is_indicator line.now }
{
    match line {
        [] => false,
        [first, ..] => (b'0' <= *first && *first <= b'9') || *first == b'+',
    }
}

/// The style of a block scalar.
fn folded_style(folded: bool) -> Style
    ensures { result ≡ spec.folded_style folded }
{
    if folded {
        Style::Folded
    } else {
        Style::Literal
    }
}

/// The lines of a block scalar, of an indentation that they may lack.
fn gathered<'a>(
    alloc: Global,
    head: Head,
    indent: Option<usize>,
    place: Place<'a>,
) -> Result<ScalarToken<'a>, ScanError>
    ensures { ScanGives scalar_token_view result
        (spec.gathered head.folded head.strip indent (lines_behind (option_copied place.entry.later))) }
{
    let style = folded_style(head.folded);
    let Some(indent) = indent else {
        return Ok(ScalarToken {
            content: Content::Owned(Vec::new(alloc)),
            style,
            end: content_in(place.later, mark_below(place)),
        });
    };
    match block_scalar(alloc, head, indent, place.later) {
        Ok(block) => {
            let Block { text, later } = block;
            Ok(ScalarToken {
                content: Content::Owned(text),
                style,
                end: content_in(later, mark_behind(place, later)),
            })
        }
        Err(BlockError::Bad(left)) => Err(ScanError::Form(mark_lines_left(place, left))),
        Err(BlockError::Memory) => Err(ScanError::Memory),
    }
}

/// Where lines begin that stand further behind a place.
fn mark_behind(place: Place<'_>, later: Option<&[u8]>) -> Marker {
    let left = match later {
        None => 0,
        Some(later) => later.len(),
    };
    mark_lines_left(place, left)
}

/// Where so many bytes of the lines behind a place are left.
fn mark_lines_left(place: Place<'_>, left: usize) -> Marker {
    let mark = mark_below(place);
    match place.later {
        None => mark,
        Some(later) => mark.after_lines(&later[..later.len().saturating_sub(left)]),
    }
}

/// A block scalar behind its head's bar and dash.
fn headed(
    alloc: Global,
    head: Head,
    parent: Option<usize>,
    place: Place<'_>,
) -> Result<ScalarToken<'_>, ScanError>
    ensures { ScanGives scalar_token_view result
        (spec.headed head.folded head.strip parent place.entry.line.now
        (lines_behind (option_copied place.entry.later))) }
{
    if !ends(place.line) {
        let behind = over(place);
        return Err(if is_indicator(place.line) {
            ScanError::NotCarried(behind.mark)
        } else {
            ScanError::Form(fault_mark(behind))
        });
    }
    gathered(alloc, head, block_indent(parent, place.later), place)
}

/// A block scalar under a parent's column, and the content behind its lines.
#[tactic(auto, unfolding(crate::specs::Scalars::block_at))]
pub fn block_of(
    alloc: Global,
    parent: Option<usize>,
    place: Place<'_>,
) -> Result<ScalarToken<'_>, ScanError>
    requires { spec.begins_block place.line.now ≡ true }
    ensures { ScanGives scalar_token_view result (spec.block_at parent (place_at place.entry)) }
{
    let folded = begins(b'>', place.line);
    let behind = past(place, 1);
    let strip = begins(b'-', behind.line);
    let head = Head { folded, strip };
    if strip {
        headed(alloc, head, parent, past(behind, 1))
    } else {
        headed(alloc, head, parent, behind)
    }
}

/// Whether a scalar would go on in the next line: it is plain, and text follows it there.
pub fn continues_below(style: Style, place: Place<'_>) -> bool
    ensures { result ≡ spec.continues_below style (place_at place.entry) }
{
    is_plain(style) && (is_white_line(place.line) && text_follows(place.later))
}

/// Whether a style is the plain one.
pub fn is_plain(style: Style) -> bool
    ensures { result ≡ spec.is_plain style }
{
    match style {
        Style::Plain => true,
        Style::SingleQuoted | Style::DoubleQuoted | Style::Literal | Style::Folded => false,
    }
}
