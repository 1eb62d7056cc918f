//! A stream of a content that is checked against its digest.

ghost use Rattle.std.specs.Prelude.{◌≡◌, ℕ, List, Option, None, [], false};
ghost use Rattle.sha2.specs.Hashers.{Holds256};
ghost use Rattle.warg_body.specs.Validated.{CheckedPiece, Follows, Validates};

use crate::error::{DigestError, LinkError, StreamError};
use bytes::Bytes;
use futures::Stream;
use futures::task::{Context, Poll};
use sha2::{Digest, Sha256};
use warg_hash::AnyHash;

/// A content as it comes from its source, in pieces, and at the end the judgement of its SHA-256.
///
/// It gives the source's pieces in order, and passes the source's errors on. At the source's end a wrong digest of all
/// bytes adds one `StreamError::Digest`. Then it has ended. A poll takes no memory of its own, and is pending only where
/// its source's poll is.
#[derive(Drop)]
pub struct ValidatedStream<S> {
    /// Where the pieces come from.
    source: S,
    /// The digest of the pieces that came.
    hasher: Sha256,
    /// The digest that was asked for.
    expected: AnyHash,
    /// Whether the source has ended.
    is_ended: bool,
}

impl<S: Stream<Item = Result<Bytes, LinkError>>> ValidatedStream<S> {
    /// The stream of a content from its first byte on, which is to have this digest.
    pub fn new(source: S, expected: AnyHash) -> Self
        requires { S.can_poll source }
        ensures gives { (xs : List CheckedPiece)
            → (last : Option CheckedPiece)
            → ⟦<ValidatedStream<S> as Stream>⟧.yields result xs last
            → Validates (S.yields source) expected [] false xs last }
        ensures pollable { ⟦<ValidatedStream<S> as Stream>⟧.can_poll result }
    {
        ValidatedStream {
            source,
            hasher: Sha256::new(),
            expected,
            is_ended: false,
        }
    }

    /// Nothing more where the digest is the right one, else the error.
    fn judged(&mut self) -> Option<Result<Bytes, StreamError>>
        ensures judged { (m : List ℕ) → Holds256 self.old.hasher m → Follows self.old.expected m None result }
        ensures fresh { Holds256 self.new.hasher [] }
        ensures ended { self.new.is_ended ≡ self.old.is_ended }
    {
        let computed = AnyHash::from_digest(self.hasher.finalize_reset());
        if computed == self.expected {
            return None;
        }
        Some(Err(StreamError::Digest(DigestError {
            expected: self.expected,
            computed,
        })))
    }
}

impl<S: Stream<Item = Result<Bytes, LinkError>>> Stream for ValidatedStream<S> {
    type Item = Result<Bytes, StreamError>;

    ghost can_poll = { λ v. v.is_ended ≡ false → S.can_poll v.source };

    ghost needs = { λ v. S.needs v.source };

    ghost yields = { λ v xs last. (m : List ℕ) → Holds256 v.hasher m
        → Validates (S.yields v.source) v.expected m v.is_ended xs last };

    fn poll_next(&mut self, cx: &mut Context<'_>) -> Poll<Option<Result<Bytes, StreamError>>> {
        if self.is_ended {
            return Poll::Ready(None);
        }
        match self.source.poll_next(cx) {
            Poll::Pending => Poll::Pending,
            Poll::Ready(Some(Ok(bytes))) => {
                self.hasher.update(bytes.as_slice());
                Poll::Ready(Some(Ok(bytes)))
            }
            Poll::Ready(Some(Err(error))) => Poll::Ready(Some(Err(StreamError::from(error)))),
            Poll::Ready(None) => {
                self.is_ended = true;
                Poll::Ready(self.judged())
            }
        }
    }
}
