//! A caller of `warg_request`.

ghost use Rattle.std.specs.Prelude.{◌≡◌, IfOk, None};
ghost use Rattle.url.specs.Parts.{serialize};
ghost use Rattle.warg_exchange.specs.Requests.{checkpoint_request};

use std::alloc::Global;
use warg_exchange::Request;
use warg_request::Asker;
use warg_url::{HeaderError, RegistryUrl};
use warg_values::Text;

/// The request for the latest checkpoint of the registry at a URL, by somebody with this token.
pub fn latest_checkpoint_request<'a>(
    alloc: Global,
    url: &'a RegistryUrl,
    token: &'a Option<Text>,
) -> Result<Request, HeaderError>
    ensures { IfOk result (λ request.
        request ≡ checkpoint_request (record { base = serialize url.now; token = token.now; registry = None })) }
{
    let asker = Asker {
        url,
        token,
        registry: None,
    };
    asker.checkpoint_request(alloc)
}
