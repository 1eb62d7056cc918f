//! Contents that are loaded as streams.

ghost use Rattle.std.specs.Prelude.{◌≡◌, ◌≤◌, ◌⊎◌, [], false, true, Err, None, Some, Option, List, IfOk, IfErr, IfSome, option_copied};
ghost use Rattle.warg_values.specs.Faults.{Rose};
ghost use Rattle.warg_body.specs.Validated.{CheckedPiece, Validates};
ghost use Rattle.warg_body.specs.declared.error.LinkError.TheVariants.{Failed as HasFailed, Memory as WantsMemory};
ghost use Rattle.warg_exchange.specs.declared.exchange.Reply.{Reply as Replied};
ghost use Rattle.warg_exchange.specs.Requests.{plain_get as plain_get_of};
ghost use Rattle.warg_api.specs.Asking.{asker};
ghost use Rattle.warg_api.specs.Link.{answered, unanswered};
ghost use Rattle.warg_api.specs.Download.{is_url as is_url_of, source_url as url_in, urls, Loses};
ghost use Rattle.warg_api.specs.Streams.{OpensTo, OpensAny, LosesNext, OpensSome, IsOpened, IsOpenFault};
ghost use Rattle.warg_api.specs.declared.error.ClientError.TheVariants.{LinkFault as Faulted};

use crate::client::Client;
use crate::download::{is_url, listed, source_url};
use crate::error::ClientError;
use crate::link::Link;
use futures::Stream;
use std::alloc::Global;
use warg_body::{LinkError, ValidatedStream};
use warg_exchange::ContentSource;
use warg_hash::AnyHash;
use warg_json::is_success;
use warg_request::plain_get;
use warg_url::RegistryDomain;
use warg_values::Memory;

/// The body that a source gives, where it is a URL and its reply is a success.
fn open_source<L: Link>(
    alloc: Global,
    link: &mut L,
    source: &ContentSource,
) -> Result<Option<L::Body>, LinkError>
    ensures never_falls { L.faults link.old ≤ L.faults link.new }
    ensures ok { IfOk result (OpensTo L.Opens (L.told link.old) (url_in source.now) (L.told link.new)) }
    ensures pollable { IfOk result (λ body. IfSome body (λ b. L.Body.can_poll b)) }
    ensures failed { (result ≡ Err HasFailed) → Rose (L.faults link.old) (L.faults link.new)
        × (is_url_of (url_in source.now) ≡ true)
        × L.Steps (L.told link.old) (unanswered (plain_get_of (url_in source.now))) (L.told link.new) }
    ensures memory { (result ≡ Err WantsMemory)
        → Loses L.Steps (L.told link.old) (url_in source.now) (L.told link.new) }
{
    let url = source_url(source);
    match is_url(alloc, url.as_str()) {
        Ok(true) => {}
        Ok(false) => return Ok(None),
        Err(Memory) => return Err(LinkError::Memory),
    }
    let Ok(request) = plain_get(alloc, url.as_str()) else {
        return Err(LinkError::Memory);
    };
    let (status, body) = link.open_body(alloc, &request)?;
    if is_success(status) {
        Ok(Some(body))
    } else {
        Ok(None)
    }
}

/// The body of the first success among the URLs among sources, in order.
fn open_first<L: Link>(
    alloc: Global,
    link: &mut L,
    sources: &[ContentSource],
) -> Result<Option<L::Body>, LinkError>
    ensures never_falls { L.faults link.old ≤ L.faults link.new }
    ensures ok { IfOk result (OpensAny L.Opens (urls sources.now) (L.told link.old) (L.told link.new)) }
    ensures pollable { IfOk result (λ body. IfSome body (λ b. L.Body.can_poll b)) }
    ensures failed { (result ≡ Err HasFailed) → Rose (L.faults link.old) (L.faults link.new)
        × LosesNext L.Steps L.Opens (urls sources.now) (L.told link.old) (L.told link.new) }
    ensures memory { (result ≡ Err WantsMemory)
        → OpensSome L.Steps L.Opens (urls sources.now) (L.told link.old) (L.told link.new) }
{
    for source in sources {
        match open_source(alloc, link, source)? {
            Some(body) => return Ok(Some(body)),
            None => {}
        }
    }
    Ok(None)
}

impl Client {
    /// A content as a stream, which is checked against its digest while it is read.
    ///
    /// The registry is asked where the content is, and then each URL that it lists for the digest is opened, in order,
    /// without headers, up to the first whose status is a success. What the registry refuses is `Content`. Where none of
    /// the URLs gives any bytes, it is `AllSourcesFailed`.
    pub fn download_content<L: Link>(
        &self,
        alloc: Global,
        link: &mut L,
        registry: Option<&RegistryDomain>,
        digest: &AnyHash,
    ) -> Result<ValidatedStream<L::Body>, ClientError>
        ensures never_falls { L.faults link.old ≤ L.faults link.new }
        ensures ok { IfOk result (λ stream. (body : L.Body)
            × IsOpened L.Steps L.Opens (asker self.now (option_copied registry.entry)) digest.now
            (L.told link.old) body (L.told link.new)
            × ((xs : List CheckedPiece) → (last : Option CheckedPiece)
            → ⟦<ValidatedStream<L::Body> as Stream>⟧.yields stream xs last
            → Validates (L.Body.yields body) digest.now [] false xs last)) }
        ensures pollable { IfOk result (λ stream. ⟦<ValidatedStream<L::Body> as Stream>⟧.can_poll stream) }
        ensures err { IfErr result (λ e. IsOpenFault L.Steps L.Opens (asker self.now (option_copied registry.entry))
            digest.now e (L.told link.old) (L.told link.new)) }
        ensures link_fault { (result ≡ Err Faulted) → Rose (L.faults link.old) (L.faults link.new) }
    {
        let sources = self.content_sources(alloc, link, registry, digest)?;
        match open_first(alloc, link, listed(&sources, digest)) {
            Ok(Some(body)) => Ok(ValidatedStream::new(body, *digest)),
            Ok(None) => Err(ClientError::AllSourcesFailed(*digest)),
            Err(LinkError::Failed) => Err(ClientError::LinkFault),
            Err(LinkError::Memory) => Err(ClientError::Memory),
        }
    }
}
