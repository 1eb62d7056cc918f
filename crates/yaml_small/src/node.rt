//! The first event of a node (YAML 1.2.2, chapters 7 and 8).

ghost use Rattle.std.specs.Prelude.{◌≡◌, ◌≤◌, length, IfErr, IfOk};
ghost use Rattle.yaml_small.specs.Step as spec;
ghost use Rattle.yaml_small.specs.Answers.{place_at, ScanGives};
ghost use Rattle.yaml_small.specs.ScalarTokens.{scalar_token_view};
ghost use Rattle.yaml_small.specs.Steps.{step_view, key_or_scalar};

use crate::cursor::{at_dash, begins, is_colon, is_dash, is_within, next_content, over, past};
use crate::error::ScanError;
use crate::event::{Event, Marker};
use crate::place::Place;
use crate::scalar::{
    ScalarToken, begins_block, block_of, continues_below, is_key, scalar_event, scalar_if_any,
    scalar_token_of,
};
use crate::state::{Change, Frame, Mode};
use std::alloc::Global;
use warg_values::Text;
use yaml_scan::{ends, spaces, whites};

/// An event and its mark; where the next step begins, and what it looks for there; and what becomes of the open
/// lists and maps.
#[derive(Debug, Drop)]
pub struct Step<'a> {
    /// The event.
    pub event: Event,
    /// Where it stands.
    pub mark: Marker,
    /// Where the next step begins.
    pub place: Place<'a>,
    /// What that step looks for.
    pub mode: Mode,
    /// What becomes of the open lists and maps.
    pub change: Change,
}

/// How deep lists and maps may be nested.
const MAX_DEPTH: usize = 64;

/// The start of a list or map, which the open ones leave room for or not.
#[tactic(auto, unfolding(crate::specs::Step::opened))]
fn opened<'a>(
    depth: usize,
    event: Event,
    mark: Marker,
    place: Place<'a>,
    mode: Mode,
    frame: Frame,
) -> Result<Step<'a>, ScanError>
    ensures { ScanGives step_view result (spec.opened depth event (place_at place.entry) mode frame) }
{
    if depth >= MAX_DEPTH {
        return Err(ScanError::TooDeep(mark));
    }
    Ok(Step {
        event,
        mark,
        place,
        mode,
        change: Change::Push(frame),
    })
}

/// The start of a block list at a dash.
#[tactic(auto, unfolding(crate::specs::Step::list_start))]
fn list_start(depth: usize, place: Place<'_>) -> Result<Step<'_>, ScanError>
    requires { 1 ≤ length place.line.now }
    ensures { ScanGives step_view result (spec.list_start depth (place_at place.entry)) }
{
    let col = place.col;
    opened(
        depth,
        Event::SequenceStart,
        place.mark,
        past(place, 1),
        Mode::Item(col),
        Frame::InList(col),
    )
}

/// The start of a block map at its first key.
#[tactic(auto, unfolding(crate::specs::Step::map_start))]
fn map_start(depth: usize, place: Place<'_>) -> Result<Step<'_>, ScanError>
    ensures { ScanGives step_view result (spec.map_start depth (place_at place.entry)) }
{
    opened(
        depth,
        Event::MappingStart,
        place.mark,
        place,
        Mode::Key,
        Frame::InMap(place.col),
    )
}

/// A step to the place behind a node on one line: in a flow more stands on the line, else nothing does.
#[tactic(auto, unfolding(crate::specs::Step::settled))]
pub fn settled(
    flow: bool,
    continues: bool,
    event: Event,
    mark: Marker,
    change: Change,
    place: Place<'_>,
) -> Step<'_>
    ensures { step_view result ≡ spec.settled flow continues event change (place_at place.entry) }
{
    if flow {
        return Step {
            event,
            mark,
            place,
            mode: Mode::Done { continues },
            change,
        };
    }
    let over_line = ends(place.line);
    Step {
        event,
        mark,
        place: if over_line {
            next_content(place)
        } else {
            over(place)
        },
        mode: if over_line {
            Mode::Done { continues }
        } else {
            Mode::Trailing
        },
        change,
    }
}

/// A node on one line, or a block scalar.
#[tactic(auto, unfolding(crate::specs::Step::inline_at))]
pub fn inline_of(
    alloc: Global,
    flow: bool,
    depth: usize,
    parent: Option<usize>,
    place: Place<'_>,
) -> Result<Step<'_>, ScanError>
    ensures { ScanGives step_view result (spec.inline_at flow depth parent (place_at place.entry)) }
{
    if begins(b'[', place.line) {
        return opened(
            depth,
            Event::SequenceStart,
            place.mark,
            past(place, 1),
            Mode::Open,
            Frame::InSeq(flow),
        );
    }
    if begins(b'{', place.line) {
        return opened(
            depth,
            Event::MappingStart,
            place.mark,
            past(place, 1),
            Mode::Open,
            Frame::InPairs(flow),
        );
    }
    if !flow && begins_block(place.line) {
        let scalar_token = block_of(alloc, parent, place)?;
        return block_step(alloc, place.mark, scalar_token);
    }
    let scalar_token = scalar_token_of(alloc, flow, place)?;
    scalar_token_step(alloc, flow, place.mark, scalar_token)
}

/// The step of a scalar on one line.
fn scalar_token_step<'a>(
    alloc: Global,
    flow: bool,
    mark: Marker,
    scalar_token: ScalarToken<'a>,
) -> Result<Step<'a>, ScanError>
    ensures value { IfOk result
        (λ step. step_view step ≡ spec.scalar_token_transition flow (scalar_token_view scalar_token.entry)) }
    ensures only { IfErr result (λ e. e ≡ ScanError.Memory) }
{
    let ScalarToken {
        content,
        style,
        end,
    } = scalar_token;
    let event = scalar_event(alloc, content, style)?;
    Ok(settled(
        flow,
        continues_below(style, end),
        event,
        mark,
        Change::Keep,
        end,
    ))
}

/// The step of a block scalar.
fn block_step<'a>(
    alloc: Global,
    mark: Marker,
    scalar_token: ScalarToken<'a>,
) -> Result<Step<'a>, ScanError>
    ensures value { IfOk result
        (λ step. step_view step ≡ spec.block_transition (scalar_token_view scalar_token.entry)) }
    ensures only { IfErr result (λ e. e ≡ ScanError.Memory) }
{
    let ScalarToken {
        content,
        style,
        end,
    } = scalar_token;
    let event = scalar_event(alloc, content, style)?;
    Ok(Step {
        event,
        mark,
        place: end,
        mode: Mode::Done { continues: false },
        change: Change::Keep,
    })
}

/// The step of a node that is missing.
pub fn missing_step(alloc: Global, mark: Marker, place: Place<'_>) -> Result<Step<'_>, ScanError>
    ensures value { IfOk result (λ step. step_view step ≡ spec.missing_transition (place_at place.entry)) }
    ensures only { IfErr result (λ e. e ≡ ScanError.Memory) }
{
    let text = Text::copy_of(alloc, "~")?;
    Ok(Step {
        event: Event::Scalar(text, crate::event::Style::Plain),
        mark,
        place,
        mode: Mode::Done { continues: false },
        change: Change::Keep,
    })
}

/// A node under a parent's column, where its line's content begins.
pub fn node_of(
    alloc: Global,
    depth: usize,
    parent: Option<usize>,
    place: Place<'_>,
) -> Result<Step<'_>, ScanError>
    ensures { ScanGives step_view result (spec.node_at depth parent (place_at place.entry)) }
{
    if is_dash(place.line) {
        return list_start(depth, place);
    }
    match scalar_if_any(alloc, place)? {
        Some(scalar_token) => key_or_scalar(alloc, depth, place, scalar_token),
        None => inline_of(alloc, false, depth, parent, place),
    }
}

/// The map whose first key is this scalar, or the scalar's own step. It is scanned once for both.
fn key_or_scalar<'a>(
    alloc: Global,
    depth: usize,
    place: Place<'a>,
    scalar_token: ScalarToken<'a>,
) -> Result<Step<'a>, ScanError>
    ensures { ScanGives step_view result
        (key_or_scalar depth (place_at place.entry) (scalar_token_view scalar_token.entry)) }
{
    if is_colon(over(scalar_token.end).line) {
        return map_start(depth, place);
    }
    scalar_token_step(alloc, false, place.mark, scalar_token)
}

/// A node on deeper lines, or none; `mark` is where a missing one would stand.
#[tactic(auto, unfolding(crate::specs::Step::below))]
fn below(
    alloc: Global,
    depth: usize,
    parent: Option<usize>,
    mark: Marker,
    place: Place<'_>,
) -> Result<Step<'_>, ScanError>
    ensures { ScanGives step_view result (spec.below depth parent (place_at place.entry)) }
{
    if is_within(parent, place) {
        return node_of(alloc, depth, parent, place);
    }
    missing_step(alloc, mark, place)
}

/// What stands behind a dash and white space with a tab, which gives no list or map its column; `mark` is the
/// tab's.
#[tactic(auto, unfolding(crate::specs::Step::tabbed))]
fn tabbed(
    alloc: Global,
    depth: usize,
    col: usize,
    mark: Marker,
    place: Place<'_>,
) -> Result<Step<'_>, ScanError>
    ensures { ScanGives step_view result (spec.tabbed depth col (place_at place.entry)) }
{
    if is_dash(place.line) {
        return Err(ScanError::NotCarried(mark));
    }
    if is_key(alloc, place)? {
        return Err(ScanError::NotCarried(mark));
    }
    inline_of(alloc, false, depth, Some(col), place)
}

/// The entry of a block list behind its dash.
#[tactic(auto, unfolding(crate::specs::Step::item_at))]
pub fn item_of(
    alloc: Global,
    depth: usize,
    col: usize,
    place: Place<'_>,
) -> Result<Step<'_>, ScanError>
    ensures { ScanGives step_view result (spec.item_at depth col (place_at place.entry)) }
{
    if ends(place.line) {
        return below(alloc, depth, Some(col), place.mark, next_content(place));
    }
    let count = spaces(place.line);
    if count == whites(place.line) {
        return node_of(alloc, depth, Some(col), over(place));
    }
    tabbed(alloc, depth, col, past(place, count).mark, over(place))
}

/// What stands below a key, also a list at the key's column.
#[tactic(auto, unfolding(crate::specs::Step::under))]
fn under(
    alloc: Global,
    depth: usize,
    col: usize,
    mark: Marker,
    place: Place<'_>,
) -> Result<Step<'_>, ScanError>
    ensures { ScanGives step_view result (spec.under depth col (place_at place.entry)) }
{
    if at_dash(col, place) {
        return list_start(depth, place);
    }
    below(alloc, depth, Some(col), mark, place)
}

/// The value of a block map behind its key's colon.
#[tactic(auto, unfolding(crate::specs::Step::value_at))]
pub fn value_of(
    alloc: Global,
    depth: usize,
    col: usize,
    place: Place<'_>,
) -> Result<Step<'_>, ScanError>
    ensures { ScanGives step_view result (spec.value_at depth col (place_at place.entry)) }
{
    if ends(place.line) {
        return under(alloc, depth, col, place.mark, next_content(place));
    }
    inline_of(alloc, false, depth, Some(col), over(place))
}

/// The document's node behind three dashes, from which spaces alone part it.
#[tactic(auto, unfolding(crate::specs::Step::explicit_at))]
pub fn explicit_of(alloc: Global, depth: usize, place: Place<'_>) -> Result<Step<'_>, ScanError>
    ensures { ScanGives step_view result (spec.explicit_at depth (place_at place.entry)) }
{
    if ends(place.line) {
        return below(alloc, depth, None, place.mark, next_content(place));
    }
    let count = spaces(place.line);
    if count != whites(place.line) {
        return Err(ScanError::NotCarried(past(place, count).mark));
    }
    inline_of(alloc, false, depth, None, over(place))
}
