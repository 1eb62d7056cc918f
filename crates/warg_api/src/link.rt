//! Links to registries.

ghost use Rattle.std.specs.Prelude.{◌≡◌, ◌≤◌, ◌⊎◌, ℕ, Option, Some, None, IfOk, IsErrOf};
ghost use Rattle.warg_exchange.specs.declared.exchange.Request.{Request as Sent};
ghost use Rattle.warg_values.specs.Faults.{Rose};
ghost use Rattle.warg_api.specs.Link.{Asked, answered, unanswered};

use bytes::Bytes;
use futures::Stream;
use std::alloc::Global;
use warg_body::LinkError;
use warg_exchange::{Reply, Request};

/// What requests are sent through.
///
/// A link tells how it comes from one state to the next by what it was asked. One over a network
/// tells nothing: any step may be one of its own.
pub trait Link: Drop {
    /// The body of a reply, in pieces as they come.
    type Body: Stream<Item = Result<Bytes, LinkError>>;

    /// What is known of the link.
    ghost Told: { Type 0 };

    ghost told: { Self → Told };

    /// By a request, with its reply where one came, the link may go from one state to another.
    ghost Steps: { Told → Asked → Told → Type 0 };

    /// By a request, with the status and the body of its reply, the link may go from one state to another.
    ghost Opens: { Told → Sent → ℕ → Self.Body → Told → Type 0 };

    /// How many calls failed so far.
    ghost faults: { Self → ℕ };

    /// The reply to a request.
    fn exchange(&mut self, alloc: Global, request: &Request) -> Result<Reply, LinkError>
        ensures never_falls { faults self.old ≤ faults self.new }
        ensures replied { IfOk result (λ reply. Steps (told self.old) (answered request.now reply) (told self.new)) }
        ensures failed { IsErrOf result LinkError.Failed
            → Rose (faults self.old) (faults self.new)
            × Steps (told self.old) (unanswered request.now) (told self.new) }
        ensures memory { IsErrOf result LinkError.Memory
            → (told self.new ≡ told self.old)
            ⊎ ((reply : Reply) × Steps (told self.old) (answered request.now reply) (told self.new)) };

    /// The status of the reply to a request, and the reply's body as it comes.
    fn open_body(
        &mut self,
        alloc: Global,
        request: &Request,
    ) -> Result<(u16, Self::Body), LinkError>
        ensures never_falls { faults self.old ≤ faults self.new }
        ensures opened { IfOk result (λ reply. Opens (told self.old) request.now reply.0 reply.1 (told self.new)) }
        ensures pollable { IfOk result (λ reply. Self.Body.Stream.can_poll reply.1) }
        ensures failed { IsErrOf result LinkError.Failed
            → Rose (faults self.old) (faults self.new)
            × Steps (told self.old) (unanswered request.now) (told self.new) }
        ensures memory { IsErrOf result LinkError.Memory
            → (told self.new ≡ told self.old)
            ⊎ ((reply : Reply) × Steps (told self.old) (answered request.now reply) (told self.new)) };
}
