//! A caller of `warg_exchange`.

ghost use Rattle.std.specs.Prelude.{◌≡◌, IfOk};

use std::alloc::Global;
use warg_exchange::{Exchange, Request};
use warg_values::Memory;

/// What was asked in an exchange, to be asked once more.
pub fn asked_again(alloc: Global, exchange: &Exchange) -> Result<Request, Memory>
    ensures { IfOk result (λ request. request ≡ exchange.now.request) }
{
    exchange.request.try_clone(alloc)
}
