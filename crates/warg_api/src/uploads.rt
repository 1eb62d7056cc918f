//! Contents that are sent to the places that a registry names.

ghost use Rattle.std.specs.Prelude.{◌≡◌, ◌≤◌, true, Err, IfOk, IfErr, OnOk};
ghost use Rattle.warg_values.specs.Faults.{Rose};
ghost use Rattle.warg_exchange.specs.declared.exchange.Request.{Request as Sent};
ghost use Rattle.warg_exchange.specs.Replies.{is_success as is_success_of};
ghost use Rattle.warg_api.specs.Calls.{Asks};
ghost use Rattle.warg_api.specs.Uploads.{upload, Sends, IsUnsendable, IsUnacknowledged, IsUntaken, IsUploadFailure};
ghost use Rattle.warg_api.specs.declared.error.ClientError.TheVariants.{LinkFault as Faulted};

use crate::client::Client;
use crate::error::ClientError;
use crate::link::Link;
use crate::reply::UNEXPECTED;
use indexmap::IndexMap;
use std::alloc::Global;
use warg_body::LinkError;
use warg_exchange::{PackageError, Reply, Request};
use warg_json::{BodyError, is_success, refusal_of};
use warg_request::{UploadError, upload_request};
use warg_url::RegistryUrl;
use warg_values::Text;

/// The request that sends a content to a place that a registry names, whose text is read with the registry's URL as its
/// base.
fn request_of(
    alloc: Global,
    base: &RegistryUrl,
    method: &str,
    url: &str,
    headers: &IndexMap<Text, Text>,
    content: &[u8],
) -> Result<Request, ClientError>
    ensures ok { IfOk result (λ request. Sends base.now (record {
      method = method.now;
      url = url.now;
      headers = headers.now.entries;
      content = content.now;
    }) request) }
    ensures err { IfErr result (λ e. IsUnsendable base.now (record {
      method = method.now;
      url = url.now;
      headers = headers.now.entries;
      content = content.now;
    }) e) }
{
    let url = base.join(alloc, url)?;
    match upload_request(alloc, method, url, headers, content) {
        Ok(request) => Ok(request),
        Err(UploadError::Method(method)) => Err(ClientError::InvalidHttpMethod(method)),
        Err(UploadError::Header(name, value)) => Err(ClientError::InvalidHttpHeader(name, value)),
        Err(UploadError::Memory) => Err(ClientError::Memory),
    }
}

/// That a reply is a success, whatever its body is.
fn acknowledged(alloc: Global, reply: &Reply) -> Result<(), ClientError>
    ensures ok { OnOk result (is_success_of reply.now.status ≡ true) }
    ensures err { IfErr result (λ e. IsUnacknowledged e reply.now) }
{
    if is_success(reply.status) {
        return Ok(());
    }
    match refusal_of(alloc, reply) {
        Ok(error) => Err(ClientError::Package(PackageError { error })),
        Err(BodyError::Memory) => Err(ClientError::Memory),
        Err(BodyError::NoHash(text)) => Err(ClientError::Hash(text)),
        Err(BodyError::Unexpected) => Err(ClientError::UnexpectedResponse {
            status: reply.status,
            message: UNEXPECTED,
        }),
    }
}

/// Sends a request, whose reply has to be a success.
fn send<L: Link>(alloc: Global, link: &mut L, request: &Request) -> Result<(), ClientError>
    ensures never_falls { L.faults link.old ≤ L.faults link.new }
    ensures ok { OnOk result (Asks L.Steps (L.told link.old) request.now (L.told link.new)
        (λ reply. is_success_of reply.status ≡ true)) }
    ensures err { IfErr result (λ e. IsUntaken e L.Steps (L.told link.old) request.now (L.told link.new)) }
    ensures link_fault { (result ≡ Err Faulted) → Rose (L.faults link.old) (L.faults link.new) }
{
    match link.exchange(alloc, request) {
        Ok(reply) => acknowledged(alloc, &reply),
        Err(LinkError::Failed) => Err(ClientError::LinkFault),
        Err(LinkError::Memory) => Err(ClientError::Memory),
    }
}

impl Client {
    /// Sends a content to a place that a registry names, by a method and with headers that it names.
    ///
    /// The place's text is read with the registry's URL as its base (the URL Standard, section 4.4), and the place is sent
    /// these headers alone. A text that is no URL is `Other(BadUrl)`, a method other than `POST` and `PUT` is
    /// `InvalidHttpMethod`, and the first header that is neither `authorization` nor `content-type`, or has no value of a
    /// header, is `InvalidHttpHeader`; then nothing is sent. What is answered in place of a success is `Package`.
    pub fn upload_content<L: Link>(
        &self,
        alloc: Global,
        link: &mut L,
        method: &str,
        url: &str,
        headers: &IndexMap<Text, Text>,
        content: &[u8],
    ) -> Result<(), ClientError>
        ensures never_falls { L.faults link.old ≤ L.faults link.new }
        ensures ok { OnOk result ((request : Sent)
            × Sends self.now.url (record {
              method = method.now;
              url = url.now;
              headers = headers.now.entries;
              content = content.now;
            }) request
            × Asks L.Steps (L.told link.old) request (L.told link.new) (λ reply. is_success_of reply.status ≡ true)) }
        ensures err { IfErr result (λ e. IsUploadFailure self.now.url (record {
          method = method.now;
          url = url.now;
          headers = headers.now.entries;
          content = content.now;
        }) e L.Steps (L.told link.old) (L.told link.new)) }
        ensures link_fault { (result ≡ Err Faulted) → Rose (L.faults link.old) (L.faults link.new) }
    {
        let request = request_of(alloc, &self.url, method, url, headers, content)?;
        send(alloc, link, &request)
    }
}
