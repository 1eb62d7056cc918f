//! What stands behind a node: further entries of the list or map around it, its end, or the document's (YAML
//! 1.2.2, section 8.2 and chapter 9).

ghost use Rattle.std.specs.Prelude.{◌≡◌, ◌≤◌, length};
ghost use Rattle.yaml_small.specs.Step as spec;
ghost use Rattle.yaml_small.specs.Answers.{place_at, ScanGives};
ghost use Rattle.yaml_small.specs.ScalarTokens.{FailsAs};
ghost use Rattle.yaml_small.specs.Steps.{step_view};

use crate::cursor::{
    at_dash, at_dashes, at_dots, begins, flow_next, is_end, list_ends, map_ends, next_content,
    over, past,
};
use crate::error::ScanError;
use crate::event::{Event, Marker};
use crate::flow::{after_key_of, open_of, pairs_done, seq_done};
use crate::node::{Step, explicit_of, item_of, node_of, value_of};
use crate::place::Place;
use crate::scalar::{ScalarToken, fault_mark, is_tabbed, key_of, scalar_event};
use crate::state::{Change, Frame, Mode};
use std::alloc::Global;
use yaml_scan::{ends, is_comment_line};

/// A step that changes nothing of the open lists and maps.
fn plain_step(event: Event, mark: Marker, place: Place<'_>, mode: Mode) -> Step<'_>
    ensures { step_view result ≡ spec.transition event (place_at place.entry) mode Change.Keep }
{
    Step {
        event,
        mark,
        place,
        mode,
        change: Change::Keep,
    }
}

/// The end of a block list or map, before the next content.
fn block_end(event: Event, place: Place<'_>) -> Step<'_>
    ensures { step_view result ≡ spec.block_end event (place_at place.entry) }
{
    Step {
        event,
        mark: place.mark,
        place,
        mode: Mode::Done { continues: false },
        change: Change::Pop,
    }
}

/// Why a line does not belong where it stands.
fn line_error(continues: bool, place: Place<'_>) -> ScanError
    ensures { FailsAs result (spec.line_fault continues (place_at place.entry)) }
{
    if is_tabbed(place.line) || continues {
        ScanError::NotCarried(place.mark)
    } else {
        ScanError::Form(fault_mark(place))
    }
}

/// A key of a block map.
#[tactic(auto, unfolding(crate::specs::Step::key_step))]
fn key_step(alloc: Global, place: Place<'_>) -> Result<Step<'_>, ScanError>
    ensures { ScanGives step_view result (spec.key_step (place_at place.entry)) }
{
    let scalar_token = key_of(alloc, place)?;
    let ScalarToken {
        content,
        style,
        end,
    } = scalar_token;
    let event = scalar_event(alloc, content, style)?;
    Ok(plain_step(event, place.mark, end, Mode::Value(place.col)))
}

/// What stands behind an entry of a block list.
#[tactic(auto, unfolding(crate::specs::Step::list_done))]
fn list_done(
    alloc: Global,
    depth: usize,
    col: usize,
    continues: bool,
    place: Place<'_>,
) -> Result<Step<'_>, ScanError>
    ensures { ScanGives step_view result (spec.list_done depth col continues (place_at place.entry)) }
{
    if list_ends(col, place) {
        return Ok(block_end(Event::SequenceEnd, place));
    }
    if at_dash(col, place) {
        return item_of(alloc, depth, col, past(place, 1));
    }
    Err(line_error(continues, place))
}

/// What stands behind a value of a block map.
#[tactic(auto, unfolding(crate::specs::Step::map_done))]
fn map_done(
    alloc: Global,
    col: usize,
    continues: bool,
    place: Place<'_>,
) -> Result<Step<'_>, ScanError>
    ensures { ScanGives step_view result (spec.map_done col continues (place_at place.entry)) }
{
    if map_ends(col, place) {
        return Ok(block_end(Event::MappingEnd, place));
    }
    if place.col == col {
        return key_step(alloc, place);
    }
    Err(line_error(continues, place))
}

/// The mark of the document's end.
#[tactic(auto, unfolding(crate::specs::Step::dots_end))]
fn dots_end(place: Place<'_>) -> Result<Step<'_>, ScanError>
    requires { 3 ≤ length place.line.now }
    ensures { ScanGives step_view result (spec.dots_end (place_at place.entry)) }
{
    let behind = past(place, 3);
    if !ends(behind.line) {
        return Err(ScanError::Form(fault_mark(over(behind))));
    }
    Ok(plain_step(
        Event::DocumentEnd,
        place.mark,
        next_content(place),
        Mode::Last,
    ))
}

/// What stands behind the document's node.
#[tactic(auto, unfolding(crate::specs::Step::root_done))]
fn root_done(continues: bool, place: Place<'_>) -> Result<Step<'_>, ScanError>
    ensures { ScanGives step_view result (spec.root_done continues (place_at place.entry)) }
{
    if is_end(place) {
        return Ok(plain_step(Event::DocumentEnd, place.mark, place, Mode::Last));
    }
    if at_dots(place) {
        return dots_end(place);
    }
    if at_dashes(place) {
        return Err(ScanError::NotCarried(place.mark));
    }
    Err(line_error(continues, place))
}

/// What stands behind a node.
#[tactic(auto, unfolding(crate::specs::Step::done_at))]
fn done_of(
    alloc: Global,
    depth: usize,
    continues: bool,
    frame: Option<Frame>,
    place: Place<'_>,
) -> Result<Step<'_>, ScanError>
    ensures { ScanGives step_view result (spec.done_at depth continues frame (place_at place.entry)) }
{
    match frame {
        None => root_done(continues, place),
        Some(Frame::InList(col)) => list_done(alloc, depth, col, continues, place),
        Some(Frame::InMap(col)) => map_done(alloc, col, continues, place),
        Some(Frame::InSeq(inner)) => seq_done(alloc, inner, depth, continues, flow_next(place)),
        Some(Frame::InPairs(inner)) => pairs_done(alloc, inner, continues, flow_next(place)),
    }
}

/// The document's start, or the stream's end.
#[tactic(auto, unfolding(crate::specs::Step::document_at))]
fn document_of(place: Place<'_>) -> Result<Step<'_>, ScanError>
    ensures { ScanGives step_view result (spec.document_at (place_at place.entry)) }
{
    if is_end(place) {
        return Ok(plain_step(Event::StreamEnd, place.mark, place, Mode::Ended));
    }
    if at_dashes(place) {
        return Ok(plain_step(
            Event::DocumentStart,
            place.mark,
            past(place, 3),
            Mode::Root(true),
        ));
    }
    if begins(b'%', place.line) {
        return Err(ScanError::NotCarried(place.mark));
    }
    Ok(plain_step(Event::DocumentStart, place.mark, place, Mode::Root(false)))
}

/// The stream's end behind the document.
#[tactic(auto, unfolding(crate::specs::Step::last_at))]
fn last_of(place: Place<'_>) -> Result<Step<'_>, ScanError>
    ensures { ScanGives step_view result (spec.last_at (place_at place.entry)) }
{
    if is_end(place) {
        return Ok(plain_step(Event::StreamEnd, place.mark, place, Mode::Ended));
    }
    if at_dots(place) || is_comment_line(place.line) {
        return Err(ScanError::Form(fault_mark(place)));
    }
    Err(ScanError::NotCarried(place.mark))
}

/// One step: what is looked for, the innermost open list or map, how many are open, and the place.
#[tactic(auto, unfolding(crate::specs::Step::step_at))]
pub fn step_of(
    alloc: Global,
    mode: Mode,
    frame: Option<Frame>,
    depth: usize,
    place: Place<'_>,
) -> Result<Step<'_>, ScanError>
    ensures { ScanGives step_view result (spec.step_at mode frame depth (place_at place.entry)) }
{
    match mode {
        Mode::Begin => Ok(plain_step(Event::StreamStart, Marker::START, place, Mode::Document)),
        Mode::Document => document_of(place),
        Mode::Root(true) => explicit_of(alloc, depth, place),
        Mode::Root(false) => node_of(alloc, depth, None, place),
        Mode::Item(col) => item_of(alloc, depth, col, place),
        Mode::Key => key_step(alloc, place),
        Mode::Value(col) => value_of(alloc, depth, col, place),
        Mode::Open => open_of(alloc, depth, frame, place),
        Mode::AfterKey {
            is_quoted,
            continues,
        } => after_key_of(alloc, depth, is_quoted, continues, place),
        Mode::Done { continues } => done_of(alloc, depth, continues, frame, place),
        Mode::Trailing => Err(ScanError::Form(fault_mark(place))),
        Mode::Last => last_of(place),
        Mode::Ended => Ok(plain_step(Event::StreamEnd, place.mark, place, Mode::Ended)),
    }
}
