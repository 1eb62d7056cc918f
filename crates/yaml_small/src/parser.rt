//! The parser.

ghost use Rattle.std.specs.Prelude.{◌≡◌, OnErr};
ghost use Rattle.yaml_small.specs.Stream as spec;
ghost use Rattle.yaml_small.specs.Answers.{state_of, ScanGives, event_of};

use crate::collection::step_of;
use crate::cursor::content_in;
use crate::error::ScanError;
use crate::event::{Event, Marker};
use crate::place::Place;
use crate::state::{Change, Frame, Mode};
use std::alloc::Global;

/// A parser of one text, which it emits event by event. It keeps no copy of the text, and of the text's
/// structure only the lists and maps that are open.
#[derive(Debug, Drop)]
pub struct Parser<'a> {
    mode: Mode,
    frames: Vec<Frame>,
    place: Place<'a>,
}

impl<'a> Parser<'a> {
    /// A parser at a text's start. A byte order mark there is passed over.
    pub fn new(alloc: Global, text: &'a str) -> Parser<'a>
        ensures { state_of result ≡ spec.start text.now }
    {
        let bytes = text.as_bytes();
        let (bytes, mark) = if bytes.starts_with(b"\xef\xbb\xbf") {
            (
                &bytes[3..],
                Marker {
                    line: 1,
                    col: 0,
                    index: 1,
                },
            )
        } else {
            (bytes, Marker::START)
        };
        Parser {
            mode: Mode::Begin,
            frames: Vec::new(alloc),
            place: content_in(Some(bytes), mark),
        }
    }

    /// The next event and where it stands, or why no carried document goes on; the parser stays where it is.
    #[tactic(auto, unfolding(crate::specs::Stream::next))]
    pub fn peek(&self, alloc: Global) -> Result<(Event, Marker), ScanError>
        ensures { ScanGives (λ emitted. emitted.0) result (event_of (spec.next (state_of self.now))) }
    {
        let frame = self.frames.as_slice().last().copied();
        let step = step_of(alloc, self.mode, frame, self.frames.len(), self.place)?;
        Ok((step.event, step.mark))
    }

    /// The next event and where it stands, which the parser passes, or why no carried document goes on.
    ///
    /// Behind the stream's end comes the stream's end again, and behind an error the same error: a refused call
    /// leaves the parser where it was.
    #[tactic(auto, unfolding(crate::specs::Stream::next))]
    pub fn next_token(&mut self, alloc: Global) -> Result<(Event, Marker), ScanError>
        ensures emitted { ScanGives (λ emitted. (emitted.0, state_of self.new)) result (spec.next (state_of self.old)) }
        ensures err { OnErr result (state_of self.new ≡ state_of self.old) }
    {
        let frame = self.frames.as_slice().last().copied();
        let step = step_of(alloc, self.mode, frame, self.frames.len(), self.place)?;
        match step.change {
            Change::Keep => {}
            Change::Push(frame) => self.frames.push(frame)?,
            Change::Pop => {
                let _ = self.frames.pop();
            }
        }
        self.mode = step.mode;
        self.place = step.place;
        Ok((step.event, step.mark))
    }
}
