//! A link that keeps what is said through it.

ghost use Rattle.std.specs.Prelude.{◌≡◌, ◌≤◌, ◌<◌, ◌⊎◌, [], Some, true, length, IfOk, IsErrOf, slice_get};
ghost use Rattle.warg_values.specs.Faults.{Rose};
ghost use Rattle.warg_exchange.specs.declared.exchange.Reply.{Reply as Replied};
ghost use Rattle.warg_api.specs.Link.{answered, unanswered};
ghost use Rattle.warg_session.specs.Recording.{Transcript, IsKept, IsLost, IsRecorded, IsOpened, exchange, link_of, transcript};

use std::alloc::Global;
use warg_api::{Link, LinkError};
use warg_exchange::{Exchange, Reply, Request};
use warg_values::Memory;

/// A link that passes requests on to another link, and keeps each exchange.
///
/// A request is copied, and room for its exchange is made, before it is sent: so each reply that comes is kept, also
/// where a copy of it for the caller finds no memory. Where the other link itself finds none, a reply of its own may be
/// lost, and `is_whole` says so from then on. The bodies of replies that are read piece by piece are not kept.
#[derive(Drop)]
pub struct Recording<L> {
    /// The link that requests are passed on to.
    link: L,
    /// The exchanges, in order.
    exchanges: Vec<Exchange>,
    /// Whether no reply was lost.
    is_whole: bool,
}

impl<L: Link> Recording<L> {
    /// A link that passes requests on to this one, and keeps nothing yet.
    pub fn new(alloc: Global, link: L) -> Self
        ensures { transcript L.told result ≡ record { link = L.told link; exchanges = []; is_whole = true } }
    {
        Recording {
            link,
            exchanges: Vec::new(alloc),
            is_whole: true,
        }
    }

    /// The exchanges that are kept, in order.
    pub fn exchanges(&self) -> &[Exchange]
        ensures { result.now ≡ (transcript L.told self.now).exchanges }
    {
        self.exchanges.as_slice()
    }

    /// Whether no reply was lost since this link was made.
    pub fn is_whole(&self) -> bool
        ensures { result ≡ (transcript L.told self.now).is_whole }
    {
        self.is_whole
    }

    /// The link that requests are passed on to.
    pub fn into_link(self) -> L
        ensures { L.told result ≡ (transcript L.told self).link }
    {
        self.link
    }

    /// Sends a request, and gives the place of its exchange among those that are kept.
    pub fn send(&mut self, alloc: Global, request: Request) -> Result<usize, LinkError>
        ensures never_falls { L.faults (link_of self.old) ≤ L.faults (link_of self.new) }
        ensures replied { IfOk result (λ place. (reply : Replied)
            × (slice_get (transcript L.told self.new).exchanges place ≡ Some (exchange request reply))
            × IsKept L.Steps (transcript L.told self.old) (answered request reply) (transcript L.told self.new)) }
        ensures within { IfOk result (λ place. place < length (transcript L.told self.new).exchanges) }
        ensures failed { IsErrOf result LinkError.Failed → Rose (L.faults (link_of self.old)) (L.faults (link_of self.new))
            × IsKept L.Steps (transcript L.told self.old) (unanswered request) (transcript L.told self.new) }
        ensures memory { IsErrOf result LinkError.Memory → (transcript L.told self.new ≡ transcript L.told self.old)
            ⊎ IsLost (transcript L.told self.old) (transcript L.told self.new) }
    {
        if self.exchanges.reserve(1).is_err() {
            return Err(LinkError::Memory);
        }
        let place = self.exchanges.len();
        match self.link.exchange(alloc, &request) {
            Ok(reply) => {
                self.exchanges.push(Exchange { request, reply }).unwrap();
                Ok(place)
            }
            Err(LinkError::Failed) => Err(LinkError::Failed),
            Err(LinkError::Memory) => {
                self.is_whole = false;
                Err(LinkError::Memory)
            }
        }
    }
}

impl<L: Link> Link for Recording<L> {
    type Body = L::Body;

    ghost Told = { Transcript L.Told };

    ghost told = { transcript L.told };

    ghost Steps = { IsRecorded L.Steps };

    ghost Opens = { IsOpened L.Opens };

    ghost faults = { λ r. L.faults r.link };

    fn exchange(&mut self, alloc: Global, request: &Request) -> Result<Reply, LinkError> {
        let Ok(request) = request.try_clone(alloc) else {
            return Err(LinkError::Memory);
        };
        let place = match self.send(alloc, request) {
            Ok(place) => place,
            Err(error) => return Err(error),
        };
        match self.exchanges[place].reply.try_clone(alloc) {
            Ok(reply) => Ok(reply),
            Err(Memory) => Err(LinkError::Memory),
        }
    }

    fn open_body(&mut self, alloc: Global, request: &Request) -> Result<(u16, L::Body), LinkError> {
        match self.link.open_body(alloc, request) {
            Ok(reply) => Ok(reply),
            Err(LinkError::Failed) => Err(LinkError::Failed),
            Err(LinkError::Memory) => {
                self.is_whole = false;
                Err(LinkError::Memory)
            }
        }
    }
}
