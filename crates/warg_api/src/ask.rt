//! Sending one request, and reading its reply.

ghost use Rattle.std.specs.Prelude.{◌≡◌, ◌≤◌, Ok, Err, IfOk, IfErr};
ghost use Rattle.warg_exchange.specs.declared.exchange.Request.{Request as Sent};
ghost use Rattle.warg_exchange.specs.Requests.{Asker};
ghost use Rattle.warg_request.specs.Asking.{CanAsk};
ghost use Rattle.warg_url.specs.declared.domain.HeaderError.TheVariants.{BadHeader as IsBadHeader};
ghost use Rattle.warg_values.specs.Faults.{Rose};
ghost use Rattle.warg_exchange.specs.Replies.{says};
ghost use Rattle.warg_api.specs.Calls.{Asks, IsAskFault, IsCallFault};
ghost use Rattle.warg_api.specs.declared.error.ClientError.TheVariants.{LinkFault as Faulted};

use crate::error::{ClientError, Other};
use crate::link::Link;
use crate::reply::read_as;
use crate::service::Service;
use std::alloc::Global;
use warg_body::LinkError;
use warg_exchange::Request;
use warg_json::FromBody;
use warg_url::HeaderError;

/// Sends a request, and reads what its reply says.
fn ask<L: Link, T: FromBody, S: Service>(
    alloc: Global,
    link: &mut L,
    request: &Request,
) -> Result<T, ClientError>
    ensures never_falls { L.faults link.old ≤ L.faults link.new }
    ensures ok { IfOk result (λ value. Asks L.Steps (L.told link.old) request.now (L.told link.new)
        (λ reply. says T.meaning reply ≡ Ok (T.plain value))) }
    ensures err { IfErr result (λ e.
        IsAskFault S.told e L.Steps (L.told link.old) request.now (L.told link.new) T.meaning) }
    ensures link_fault { (result ≡ Err Faulted) → Rose (L.faults link.old) (L.faults link.new) }
{
    let reply = match link.exchange(alloc, request) {
        Ok(reply) => reply,
        Err(LinkError::Failed) => return Err(ClientError::LinkFault),
        Err(LinkError::Memory) => return Err(ClientError::Memory),
    };
    read_as::<T, S>(alloc, &reply)
}

/// Sends the request of a call, where it could be built, and reads what its reply says.
pub fn call<L: Link, T: FromBody, S: Service>(
    alloc: Global,
    link: &mut L,
    request: Result<Request, HeaderError>,
) -> Result<T, ClientError>
    ensures never_falls { L.faults link.old ≤ L.faults link.new }
    ensures ok { (asked : Sent) → IfOk request (λ r. r ≡ asked)
        → IfOk result (λ value. Asks L.Steps (L.told link.old) asked (L.told link.new)
        (λ reply. says T.meaning reply ≡ Ok (T.plain value))) }
    ensures err { (a : Asker) (asked : Sent) → IfOk request (λ r. r ≡ asked)
        → ((request ≡ Err IsBadHeader) → CanAsk a → ⊥)
        → IfErr result (λ e. IsCallFault a S.told e L.Steps (L.told link.old) asked (L.told link.new) T.meaning) }
    ensures link_fault { (result ≡ Err Faulted) → Rose (L.faults link.old) (L.faults link.new) }
{
    let request = match request {
        Ok(request) => request,
        Err(HeaderError::BadHeader) => return Err(ClientError::Other(Other::BadHeader)),
        Err(HeaderError::Memory) => return Err(ClientError::Memory),
    };
    match ask::<L, T, S>(alloc, link, &request) {
        Ok(value) => Ok(value),
        Err(error) => Err(error),
    }
}
