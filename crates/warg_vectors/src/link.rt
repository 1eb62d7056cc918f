//! Registries as a link.

use crate::registry::ModelRegistry;
use bytes::Bytes;
use futures::Stream;
use futures::task::{Context, Poll};
use std::alloc::Global;
use std::marker::Model;
use warg_api::{Link, LinkError};
use warg_exchange::{Reply, Request};
use warg_values::Sequence;

/// The body of a reply, which comes as one piece.
///
/// A clause sees it as the piece that is still to come.
#[derive(Debug, Drop)]
pub struct ContentBody {
    /// The piece that is still to come.
    left: Option<Sequence<u8>>,
}

impl Model for ContentBody {
    ghost use Rattle.std.specs.Prelude.{ℕ, List, Option};

    ghost Value = { Option (List ℕ) };

    ghost view = { λ b. b.left };
}

impl Stream for ContentBody {
    ghost use Rattle.futures.specs.Runs.{LeadsIf, Ends};
    ghost use Rattle.warg_api.specs.Streams.{IsPiece};

    type Item = Result<Bytes, LinkError>;

    ghost yields = { λ body. LeadsIf body IsPiece Ends };

    fn poll_next(&mut self, _cx: &mut Context<'_>) -> Poll<Option<Result<Bytes, LinkError>>> {
        match self.left.take() {
            Some(bytes) => match Bytes::from_vec(bytes.into_vec()) {
                Ok(piece) => Poll::Ready(Some(Ok(piece))),
                Err(_) => Poll::Ready(Some(Err(LinkError::Memory))),
            },
            None => Poll::Ready(None),
        }
    }
}

impl Link for ModelRegistry {
    ghost use Rattle.warg_vectors.specs.declared.registry.ModelRegistry.{ModelRegistry as Registries};
    ghost use Rattle.warg_vectors.specs.Steps.{IsStep, IsOpening};

    type Body = ContentBody;

    ghost Told = { Registries };

    ghost told = { λ registries. registries };

    ghost Steps = { IsStep };

    ghost Opens = { IsOpening };

    ghost faults = { λ registries. 0 };

    fn exchange(&mut self, alloc: Global, request: &Request) -> Result<Reply, LinkError> {
        match self.answer(alloc, request) {
            Ok(reply) => Ok(reply),
            Err(_) => Err(LinkError::Memory),
        }
    }

    fn open_body(
        &mut self,
        alloc: Global,
        request: &Request,
    ) -> Result<(u16, ContentBody), LinkError> {
        let reply = self.exchange(alloc, request)?;
        let body = ContentBody {
            left: Some(reply.body),
        };
        Ok((reply.status, body))
    }
}
