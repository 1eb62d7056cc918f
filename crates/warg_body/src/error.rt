//! Why a body ends before its content is read whole.

use thiserror::Error;
use warg_hash::AnyHash;

/// Why a link gave no reply, or no further piece of a body.
#[derive(Clone, Copy, Debug, PartialEq, Eq, Error)]
pub enum LinkError {
    /// The link failed.
    #[error("the link to the registry failed: try again")]
    Failed,
    /// Want of memory.
    #[error("out of memory")]
    Memory,
}

/// A content that has another digest than the one that was asked for.
#[derive(Clone, Copy, Debug, PartialEq, Eq, Error)]
#[error("the content has the digest {computed}, and {expected} was asked for: take it from another source")]
pub struct DigestError {
    /// The digest that was asked for.
    pub expected: AnyHash,
    /// The digest of what came.
    pub computed: AnyHash,
}

/// Why a content is not read to its end.
#[derive(Clone, Copy, Debug, PartialEq, Eq, Error)]
pub enum StreamError {
    /// The link failed.
    #[error("the link to the registry failed: try again")]
    Failed,
    /// The content ended, and its digest is wrong.
    #[error("{0}")]
    Digest(DigestError),
    /// Want of memory.
    #[error("out of memory")]
    Memory,
}

impl From<LinkError> for StreamError {
    ghost use Rattle.std.specs.Prelude.{◌≡◌};
    ghost use Rattle.warg_body.specs.Validated.{passed_error};

    ghost from_gives = { λ error passed. passed ≡ passed_error error };

    fn from(error: LinkError) -> StreamError {
        match error {
            LinkError::Failed => StreamError::Failed,
            LinkError::Memory => StreamError::Memory,
        }
    }
}
