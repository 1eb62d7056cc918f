//! Contents as streams, with the judgement of their digests at the end.

use crate::replies::HASH;
use bytes::Bytes;
use futures::Stream;
use futures::task::{Context, Doorbell, Poll, Solo};
use std::alloc::Global;
use std::test::Fail;
use test_check::is_text;
use warg_api::{LinkError, StreamError, ValidatedStream};
use warg_hash::AnyHash;

/// A body that comes in these pieces.
#[derive(Drop)]
struct Pieces {
    /// The pieces.
    pieces: &'static [&'static str],
    /// How many of them came.
    came: usize,
}

impl Stream for Pieces {
    type Item = Result<Bytes, LinkError>;

    ghost yields = { λ _ _ _. Unit {0} };

    fn poll_next(&mut self, _cx: &mut Context<'_>) -> Poll<Option<Result<Bytes, LinkError>>> {
        match self.pieces.get(self.came) {
            Some(piece) => {
                self.came = self.came.saturating_add(1);
                Poll::Ready(Some(Ok(Bytes::from_static(piece.as_bytes()))))
            }
            None => Poll::Ready(None),
        }
    }
}

/// Bodies of the content `abc`, and what comes from a stream of them in four polls.
const BODIES: &[(&[&str], &str)] = &[
    (&["ab", "c"], "piece of 2, piece of 1, end, end, "),
    (&["ab"], "piece of 2, wrong digest, end, end, "),
];

/// What a poll gives, in words.
fn polled(stream: &mut ValidatedStream<Pieces>, cx: &mut Context<'_>) -> &'static str {
    match stream.poll_next(cx) {
        Poll::Ready(Some(Ok(bytes))) if bytes.len() == 2 => "piece of 2, ",
        Poll::Ready(Some(Ok(_))) => "piece of 1, ",
        Poll::Ready(Some(Err(StreamError::Digest(_)))) => "wrong digest, ",
        Poll::Ready(Some(Err(_))) => "failed, ",
        Poll::Ready(None) => "end, ",
        Poll::Pending => "pending, ",
    }
}

/// Adds what four polls of a stream give.
fn push_polls(
    found: &mut String,
    stream: &mut ValidatedStream<Pieces>,
    solo: &Solo,
) -> Result<(), Fail> {
    for _ in 0..4 {
        let mut cx = solo.begin();
        let words = polled(stream, &mut cx);
        cx.cancel();
        found.push_str(words)?;
    }
    Ok(())
}

/// What comes from a stream of these pieces in four polls.
fn polls(alloc: Global, pieces: &'static [&'static str], solo: &Solo) -> Result<String, Fail> {
    let digest = AnyHash::from_text(alloc, HASH)?;
    let mut found = String::new(alloc);
    let mut stream = ValidatedStream::new(Pieces { pieces, came: 0 }, digest);
    push_polls(&mut found, &mut stream, solo)?;
    Ok(found)
}

/// Fails at the first body from which something else comes.
fn are_polled(
    alloc: Global,
    rows: &[(&'static [&'static str], &str)],
    solo: &Solo,
) -> Result<(), Fail> {
    for (pieces, expected) in rows {
        is_text(&polls(alloc, pieces, solo)?, expected)?;
    }
    Ok(())
}

#[test]
fn a_content_of_another_digest_adds_one_error(rt: HostRuntime) -> Result<(), Fail> {
    let solo = Solo::new(&rt, Doorbell::spinning())?;
    are_polled(rt.alloc(), BODIES, &solo)
}
