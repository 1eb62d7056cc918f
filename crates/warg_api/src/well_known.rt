//! The configuration at a registry's well-known place (RFC 8615).

ghost use Rattle.std.specs.Prelude.{◌≡◌, ◌≤◌, ◌⊎◌, Ok, Err, Some, IfOk, IfErr};
ghost use Rattle.url.specs.Parts.{serialize};
ghost use Rattle.warg_url.specs.Label.{label};
ghost use Rattle.warg_values.specs.Faults.{Rose};
ghost use Rattle.warg_exchange.specs.declared.exchange.Reply.{Reply as Replied};
ghost use Rattle.warg_exchange.specs.Replies.{well_known_says};
ghost use Rattle.warg_exchange.specs.Requests.{well_known_request as well_known_request_of};
ghost use Rattle.warg_api.specs.Calls.{Asks};
ghost use Rattle.warg_api.specs.Uploads.{Gives, IsNoConfig, IsConfigFault};
ghost use Rattle.warg_api.specs.declared.error.ClientError.TheVariants.{InvalidWellKnownConfig as IsInvalid, LinkFault as Faulted, Memory as WantsMemory};

use crate::client::Client;
use crate::error::ClientError;
use crate::link::Link;
use std::alloc::Global;
use warg_body::LinkError;
use warg_exchange::Reply;
use warg_json::{BodyError, read_well_known};
use warg_request::well_known_request;
use warg_url::RegistryUrl;
use warg_values::Memory;

/// The error where the configuration of the registry at a URL has another form.
fn invalid(alloc: Global, url: &RegistryUrl) -> ClientError
    ensures { (result ≡ IsInvalid (label url.now)) ⊎ (result ≡ WantsMemory) }
{
    match url.safe_label(alloc) {
        Ok(name) => ClientError::InvalidWellKnownConfig(name),
        Err(Memory) => ClientError::Memory,
    }
}

impl Client {
    /// The URL that a reply to the request for the configuration gives, where it gives one.
    fn configured(&self, alloc: Global, reply: &Reply) -> Result<Option<RegistryUrl>, ClientError>
        ensures ok { IfOk result (Gives (well_known_says reply.now)) }
        ensures err { IfErr result (λ e. IsNoConfig self.now.url e reply.now) }
    {
        let text = match read_well_known(alloc, reply) {
            Ok(Some(text)) => text,
            Ok(None) => return Ok(None),
            Err(BodyError::Memory) => return Err(ClientError::Memory),
            Err(BodyError::Unexpected | BodyError::NoHash(_)) => return Err(invalid(
                alloc, &self.url,
            )),
        };
        match RegistryUrl::new(alloc, text.as_str()) {
            Ok(url) => Ok(Some(url)),
            Err(error) => Err(ClientError::from(error)),
        }
    }

    /// The URL of the registry that the configuration at the client's URL gives, where it gives one.
    ///
    /// The reply's content type plays no part, and a reply that is no success gives no URL. A success of another form is
    /// `InvalidWellKnownConfig`, with the label of the client's URL. A URL that `RegistryUrl::new` refuses is
    /// `Other(BadUrl)`.
    pub fn well_known_config<L: Link>(
        &self,
        alloc: Global,
        link: &mut L,
    ) -> Result<Option<RegistryUrl>, ClientError>
        ensures never_falls { L.faults link.old ≤ L.faults link.new }
        ensures ok { IfOk result (λ url. Asks L.Steps (L.told link.old)
            (well_known_request_of (serialize self.now.url)) (L.told link.new)
            (λ reply. Gives (well_known_says reply) url)) }
        ensures err { IfErr result (λ e. IsConfigFault self.now.url e L.Steps (L.told link.old)
            (well_known_request_of (serialize self.now.url)) (L.told link.new)) }
        ensures link_fault { (result ≡ Err Faulted) → Rose (L.faults link.old) (L.faults link.new) }
    {
        let Ok(request) = well_known_request(alloc, &self.url) else {
            return Err(ClientError::Memory);
        };
        match link.exchange(alloc, &request) {
            Ok(reply) => self.configured(alloc, &reply),
            Err(LinkError::Failed) => Err(ClientError::LinkFault),
            Err(LinkError::Memory) => Err(ClientError::Memory),
        }
    }
}
