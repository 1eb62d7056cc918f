//! A link over recorded replies.

ghost use Rattle.std.specs.Prelude.{◌≡◌, ◌≤◌, ◌++◌, ◌∷◌, ◌⊎◌, [], ℕ, List, Some, None, IfOk, IsErrOf, reverse};
ghost use Rattle.warg_values.specs.Faults.{Rose};
ghost use Rattle.futures.specs.Runs.{LeadsIf, Ends};
ghost use Rattle.warg_api.specs.Streams.{IsPiece, IsRecordedOpening};
ghost use Rattle.warg_api.specs.Link.{Asked, Recorded, IsRecordedStep, answered, unanswered};

use crate::link::Link;
use bytes::Bytes;
use futures::Stream;
use futures::task::{Context, Poll};
use std::alloc::Global;
use std::marker::Model;
use warg_body::LinkError;
use warg_exchange::{Reply, Request};
use warg_values::Sequence;

/// A link that gives recorded replies in order, whatever is asked, and fails once they are used up.
#[derive(Debug, Drop)]
pub struct RecordedLink {
    /// The replies that are left, the last one first.
    left: Vec<Reply>,
    /// What was asked, in order.
    asked: Vec<Request>,
    /// How often no reply was left.
    faults: u64,
}

impl Model for RecordedLink {
    ghost use Rattle.std.specs.Prelude.{reverse};
    ghost use Rattle.warg_api.specs.Link.{Recorded};

    ghost Value = { Recorded };

    ghost view = { λ l. record { left = reverse l.left.items; asked = l.asked.items; faults = l.faults } };
}

impl RecordedLink {
    /// A link over these replies.
    pub fn new(alloc: Global, replies: Vec<Reply>) -> Self
        ensures { result ≡ record { left = replies.items; asked = []; faults = 0 } }
    {
        let mut left = replies;
        left.reverse();
        RecordedLink {
            left,
            asked: Vec::new(alloc),
            faults: 0,
        }
    }
}

/// The body of a recorded reply, which comes as one piece.
///
/// A clause sees it as the piece that is still to come.
#[derive(Debug, Drop)]
pub struct RecordedBody {
    left: Option<Sequence<u8>>,
}

impl Model for RecordedBody {
    ghost use Rattle.std.specs.Prelude.{ℕ, List, Option};

    ghost Value = { Option (List ℕ) };

    ghost view = { λ b. b.left };
}

impl Stream for RecordedBody {
    type Item = Result<Bytes, LinkError>;

    ghost yields = { λ body. LeadsIf body IsPiece Ends };

    fn poll_next(&mut self, _cx: &mut Context<'_>) -> Poll<Option<Result<Bytes, LinkError>>> {
        match self.left.take() {
            Some(bytes) => match Bytes::from_vec(bytes.into_vec()) {
                Ok(piece) => Poll::Ready(Some(Ok(piece))),
                Err(_) => Poll::Ready(Some(Err(LinkError::Memory))),
            },
            None => Poll::Ready(None),
        }
    }
}

impl Link for RecordedLink {
    type Body = RecordedBody;

    ghost Told = { Recorded };

    ghost told = { λ l. l };

    ghost Steps = { IsRecordedStep };

    ghost Opens = { IsRecordedOpening };

    ghost faults = { λ l. l.faults };

    fn exchange(&mut self, alloc: Global, request: &Request) -> Result<Reply, LinkError> {
        let Ok(request) = request.try_clone(alloc) else {
            return Err(LinkError::Memory);
        };
        if self.asked.push(request).is_err() {
            return Err(LinkError::Memory);
        }
        match self.left.pop() {
            Some(reply) => Ok(reply),
            None => {
                self.faults = self.faults.saturating_add(1);
                Err(LinkError::Failed)
            }
        }
    }

    fn open_body(
        &mut self,
        alloc: Global,
        request: &Request,
    ) -> Result<(u16, RecordedBody), LinkError> {
        let reply = self.exchange(alloc, request)?;
        let body = RecordedBody {
            left: Some(reply.body),
        };
        Ok((reply.status, body))
    }
}
