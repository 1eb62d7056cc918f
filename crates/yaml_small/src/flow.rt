//! Flow lists and maps (YAML 1.2.2, section 7.4).

ghost use Rattle.std.specs.Prelude.{◌≡◌, ◌≤◌, true, length, IfErr, IfOk};
ghost use Rattle.yaml_scan.specs.Plain as plain;
ghost use Rattle.yaml_small.specs.Grammar as grammar;
ghost use Rattle.yaml_small.specs.Step as spec;
ghost use Rattle.yaml_small.specs.Answers.{place_at, ScanGives};
ghost use Rattle.yaml_small.specs.ScalarTokens.{FailsAs, scalar_token_view};
ghost use Rattle.yaml_small.specs.Steps.{step_view};

use crate::cursor::{at_dashes, at_dots, begins, flow_next, is_end, past};
use crate::error::ScanError;
use crate::event::{Event, Marker};
use crate::node::{Step, inline_of, missing_step, settled};
use crate::place::Place;
use crate::scalar::{
    ScalarToken, continues_below, fault_mark, is_plain, scalar_event, scalar_token_of,
};
use crate::state::{Change, Frame, Mode};
use std::alloc::Global;
use yaml_scan::{begins_flow_mark, is_gap};

/// Whether a comma or the closing brace stands here, before which a value is missing.
fn closes_value(line: &[u8]) -> bool
    ensures { result ≡ grammar.closes_value line.now }
{
    begins(b',', line) || begins(b'}', line)
}

/// Whether the colon behind a key stands here.
fn is_flow_colon(is_quoted: bool, line: &[u8]) -> bool
    ensures { result ≡ grammar.is_flow_colon is_quoted line.now }
{
    begins(b':', line) && (is_quoted || parts(&line[1..]))
}

/// Whether what follows makes a colon in a flow a mark.
fn parts(line: &[u8]) -> bool
    ensures { result ≡ plain.parts true line.now }
{
    is_gap(line) || begins_flow_mark(line)
}

/// The end of a flow list or map at its closing bracket.
fn closed(event: Event, inner: bool, place: Place<'_>) -> Step<'_>
    requires { 1 ≤ length place.line.now }
    ensures { step_view result ≡ spec.closed event inner (place_at place.entry) }
{
    settled(inner, false, event, place.mark, Change::Pop, past(place, 1))
}

/// An entry of a flow list, or the list's end.
#[tactic(auto, unfolding(crate::specs::Step::seq_entry))]
fn seq_entry(
    alloc: Global,
    inner: bool,
    depth: usize,
    place: Place<'_>,
) -> Result<Step<'_>, ScanError>
    ensures { ScanGives step_view result (spec.seq_entry inner depth (place_at place.entry)) }
{
    if begins(b']', place.line) {
        return Ok(closed(Event::SequenceEnd, inner, place));
    }
    inline_of(alloc, true, depth, None, place)
}

/// A key of a flow map, or the map's end.
#[tactic(auto, unfolding(crate::specs::Step::pairs_entry))]
fn pairs_entry(alloc: Global, inner: bool, place: Place<'_>) -> Result<Step<'_>, ScanError>
    ensures { ScanGives step_view result (spec.pairs_entry inner (place_at place.entry)) }
{
    if begins(b'}', place.line) {
        return Ok(closed(Event::MappingEnd, inner, place));
    }
    let scalar_token = scalar_token_of(alloc, true, place)?;
    key_step(alloc, place.mark, scalar_token)
}

/// The step of a key of a flow map.
fn key_step<'a>(
    alloc: Global,
    mark: Marker,
    scalar_token: ScalarToken<'a>,
) -> Result<Step<'a>, ScanError>
    ensures value { IfOk result (λ step. step_view step ≡ spec.flow_key (scalar_token_view scalar_token.entry)) }
    ensures only { IfErr result (λ e. e ≡ ScanError.Memory) }
{
    let ScalarToken {
        content,
        style,
        end,
    } = scalar_token;
    let event = scalar_event(alloc, content, style)?;
    Ok(Step {
        event,
        mark,
        place: end,
        mode: Mode::AfterKey {
            is_quoted: !is_plain(style),
            continues: continues_below(style, end),
        },
        change: Change::Keep,
    })
}

/// What stands behind an opening bracket.
#[tactic(auto, unfolding(crate::specs::Step::open_at))]
pub fn open_of(
    alloc: Global,
    depth: usize,
    frame: Option<Frame>,
    place: Place<'_>,
) -> Result<Step<'_>, ScanError>
    ensures { ScanGives step_view result (spec.open_at depth frame (place_at place.entry)) }
{
    match frame {
        None => Err(ScanError::Form(place.mark)),
        Some(Frame::InList(_)) => Err(ScanError::Form(place.mark)),
        Some(Frame::InMap(_)) => Err(ScanError::Form(place.mark)),
        Some(Frame::InSeq(inner)) => seq_entry(alloc, inner, depth, flow_next(place)),
        Some(Frame::InPairs(inner)) => pairs_entry(alloc, inner, flow_next(place)),
    }
}

/// Why a flow does not go on here.
fn flow_error(continues: bool, place: Place<'_>) -> ScanError
    ensures { FailsAs result (spec.flow_fault continues (place_at place.entry)) }
{
    if is_end(place) {
        return ScanError::Form(place.mark);
    }
    if at_dashes(place) {
        return ScanError::NotCarried(place.mark);
    }
    if at_dots(place) {
        return ScanError::Form(place.mark);
    }
    if continues && !begins_flow_mark(place.line) {
        return ScanError::NotCarried(place.mark);
    }
    ScanError::Form(fault_mark(place))
}

/// The value of a flow map behind its key's colon.
#[tactic(auto, unfolding(crate::specs::Step::flow_value))]
fn flow_value(alloc: Global, depth: usize, place: Place<'_>) -> Result<Step<'_>, ScanError>
    ensures { ScanGives step_view result (spec.flow_value depth (place_at place.entry)) }
{
    let token = flow_next(place);
    if closes_value(token.line) {
        return missing_step(alloc, place.mark, place);
    }
    inline_of(alloc, true, depth, None, token)
}

/// What stands behind a key of a flow map.
#[tactic(auto, unfolding(crate::specs::Step::after_key_at))]
pub fn after_key_of(
    alloc: Global,
    depth: usize,
    is_quoted: bool,
    continues: bool,
    place: Place<'_>,
) -> Result<Step<'_>, ScanError>
    ensures { ScanGives step_view result (spec.after_key_at depth is_quoted continues (place_at place.entry)) }
{
    let token = flow_next(place);
    if is_flow_colon(is_quoted, token.line) {
        return flow_value(alloc, depth, past(token, 1));
    }
    if closes_value(token.line) {
        return missing_step(alloc, place.mark, place);
    }
    Err(flow_error(continues, token))
}

/// Why a flow list does not go on here.
fn seq_error(continues: bool, place: Place<'_>) -> ScanError
    ensures { FailsAs result (spec.seq_fault continues (place_at place.entry)) }
{
    if begins(b':', place.line) {
        return ScanError::NotCarried(place.mark);
    }
    flow_error(continues, place)
}

/// What stands behind an entry of a flow list.
#[tactic(auto, unfolding(crate::specs::Step::seq_done))]
pub fn seq_done(
    alloc: Global,
    inner: bool,
    depth: usize,
    continues: bool,
    place: Place<'_>,
) -> Result<Step<'_>, ScanError>
    ensures { ScanGives step_view result (spec.seq_done inner depth continues (place_at place.entry)) }
{
    if begins(b',', place.line) {
        return seq_entry(alloc, inner, depth, flow_next(past(place, 1)));
    }
    if begins(b']', place.line) {
        return Ok(closed(Event::SequenceEnd, inner, place));
    }
    Err(seq_error(continues, place))
}

/// What stands behind a value of a flow map.
#[tactic(auto, unfolding(crate::specs::Step::pairs_done))]
pub fn pairs_done(
    alloc: Global,
    inner: bool,
    continues: bool,
    place: Place<'_>,
) -> Result<Step<'_>, ScanError>
    ensures { ScanGives step_view result (spec.pairs_done inner continues (place_at place.entry)) }
{
    if begins(b',', place.line) {
        return pairs_entry(alloc, inner, flow_next(past(place, 1)));
    }
    if begins(b'}', place.line) {
        return Ok(closed(Event::MappingEnd, inner, place));
    }
    Err(flow_error(continues, place))
}
