//! Callers of `warg_body`.

ghost use Rattle.std.specs.Prelude.{◌≡◌, List, ℕ, None, Ok, map, IfOk};
ghost use Rattle.std.specs.List.{flat_map};
ghost use Rattle.sha2.specs.Sha256.{sha256};

use bytes::Bytes;
use futures::Stream;
use futures::task::{Context, Poll};
use std::alloc::Global;
use warg_body::{LinkError, StreamError, ValidatedStream, laws};
use warg_hash::AnyHash;

/// All pieces of a stream, one behind the other. A stream whose next piece is still to come is `Failed`.
fn joined<S: Stream<Item = Result<Bytes, StreamError>>>(
    alloc: Global,
    stream: S,
    cx: &mut Context<'_>,
) -> Result<Vec<u8>, StreamError>
    requires { S.can_poll stream }
    ensures { IfOk result
        (λ content. (pieces : List (List ℕ)) × (content.items ≡ flat_map (λ p. p) pieces)
        × S.yields stream (map Ok pieces) None) }
{
    let mut rest = stream;
    let mut content = Vec::new(alloc);
    for _ in 0..u64::MAX {
        match rest.poll_next(cx) {
            Poll::Ready(Some(Ok(bytes))) => {
                if content.extend_from_slice(bytes.as_slice()).is_err() {
                    return Err(StreamError::Memory);
                }
            }
            Poll::Ready(Some(Err(error))) => return Err(error),
            Poll::Ready(None) => return Ok(content),
            Poll::Pending => return Err(StreamError::Failed),
        }
    }
    Err(StreamError::Failed)
}

/// A content that is at hand, read whole. It has the digest that was asked for.
pub fn whole_content<S: Stream<Item = Result<Bytes, LinkError>>>(
    alloc: Global,
    source: S,
    digest: AnyHash,
    cx: &mut Context<'_>,
) -> Result<Vec<u8>, StreamError>
    requires { S.can_poll source }
    ensures { IfOk result (λ content. sha256 content.items ≡ digest) }
{
    laws::a_content_without_errors_has_its_digest(&source);
    let stream = ValidatedStream::new(source, digest);
    let content = joined(alloc, stream, cx)?;
    Ok(content)
}
