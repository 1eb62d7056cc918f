//! Downloads of contents.

ghost use Rattle.std.specs.Prelude.{◌≡◌, ◌≤◌, ◌⊎◌, List, Err, true, IfOk, IfErr, option_copied};
ghost use Rattle.warg_values.specs.Faults.{Rose};
ghost use Rattle.warg_exchange.specs.declared.exchange.Exchange.{Exchange};
ghost use Rattle.warg_exchange.specs.declared.exchange.Request.{Request as Sent};
ghost use Rattle.warg_exchange.specs.declared.exchange.Reply.{Reply as Replied};
ghost use Rattle.warg_exchange.specs.Views.{sources_view};
ghost use Rattle.warg_exchange.specs.Requests.{plain_get as plain_get_of};
ghost use Rattle.warg_body.specs.declared.error.LinkError.TheVariants.{Failed as HasFailed, Memory as WantsMemory};
ghost use Rattle.warg_api.specs.Asking.{asker};
ghost use Rattle.warg_api.specs.Link.{Exchanges, answered, unanswered};
ghost use Rattle.warg_api.specs.Download.{is_url as is_url_of, source_url as url_in, urls, urls_of, Turns, Loses, TriesNext, Tries, Found, Downloads, IsDownloadFault};
ghost use Rattle.warg_api.specs.declared.error.ClientError.TheVariants.{LinkFault as Faulted};

use crate::client::Client;
use crate::error::ClientError;
use crate::link::Link;
use std::alloc::Global;
use url::{ParseError, Url};
use warg_body::LinkError;
use warg_exchange::{ContentSource, ContentSourcesResponse, Reply};
use warg_hash::AnyHash;
use warg_json::is_success;
use warg_request::plain_get;
use warg_url::RegistryDomain;
use warg_values::{Memory, Sequence, Text};

/// The URL's text.
pub fn source_url(source: &ContentSource) -> &Text
    ensures { result.now ≡ url_in source.now }
{
    match source {
        ContentSource::HttpGet { url } => url,
    }
}

/// Whether a text is a URL by itself (the URL Standard, section 4.4).
pub fn is_url(alloc: Global, text: &str) -> Result<bool, Memory>
    ensures { IfOk result (λ is. is ≡ is_url_of text.now) }
{
    match Url::parse(alloc, text) {
        Ok(_) => Ok(true),
        Err(ParseError::OutOfMemory | ParseError::Overflow) => Err(Memory),
        Err(_) => Ok(false),
    }
}

/// The reply to a GET of a URL.
fn get<L: Link>(alloc: Global, link: &mut L, url: &Text) -> Result<Reply, LinkError>
    ensures never_falls { L.faults link.old ≤ L.faults link.new }
    ensures replied { IfOk result (λ reply.
        L.Steps (L.told link.old) (answered (plain_get_of url.now) reply) (L.told link.new)) }
    ensures failed { (result ≡ Err HasFailed) → Rose (L.faults link.old) (L.faults link.new)
        × L.Steps (L.told link.old) (unanswered (plain_get_of url.now)) (L.told link.new) }
    ensures memory { (result ≡ Err WantsMemory) → (L.told link.new ≡ L.told link.old)
        ⊎ ((reply : Replied) × L.Steps (L.told link.old) (answered (plain_get_of url.now) reply) (L.told link.new)) }
{
    match plain_get(alloc, url.as_str()) {
        Ok(request) => link.exchange(alloc, &request),
        Err(Memory) => Err(LinkError::Memory),
    }
}

/// The body that a source gives, where it is a URL and its reply is a success.
fn try_source<L: Link>(
    alloc: Global,
    link: &mut L,
    source: &ContentSource,
) -> Result<Option<Sequence<u8>>, LinkError>
    ensures never_falls { L.faults link.old ≤ L.faults link.new }
    ensures ok { IfOk result (λ body.
        Turns L.Steps (L.told link.old) (url_in source.now) (L.told link.new) body) }
    ensures failed { (result ≡ Err HasFailed) → Rose (L.faults link.old) (L.faults link.new)
        × (is_url_of (url_in source.now) ≡ true)
        × L.Steps (L.told link.old) (unanswered (plain_get_of (url_in source.now))) (L.told link.new) }
    ensures memory { (result ≡ Err WantsMemory)
        → Loses L.Steps (L.told link.old) (url_in source.now) (L.told link.new) }
{
    let url = source_url(source);
    match is_url(alloc, url.as_str()) {
        Ok(true) => {}
        Ok(false) => return Ok(None),
        Err(Memory) => return Err(LinkError::Memory),
    }
    let reply = get(alloc, link, url)?;
    if is_success(reply.status) {
        Ok(Some(reply.body))
    } else {
        Ok(None)
    }
}

/// The body of the first success among the GETs of the URLs among sources, in order.
fn find<L: Link>(
    alloc: Global,
    link: &mut L,
    sources: &[ContentSource],
) -> Result<Option<Sequence<u8>>, LinkError>
    ensures never_falls { L.faults link.old ≤ L.faults link.new }
    ensures ok { IfOk result (λ body. (xs : List Exchange)
        × Exchanges L.Steps (L.told link.old) xs (L.told link.new) × Found (urls sources.now) xs body) }
    ensures failed { (result ≡ Err HasFailed) → Rose (L.faults link.old) (L.faults link.new)
        × ((xs : List Exchange) × (last : L.Told) × (next : Sent) × Exchanges L.Steps (L.told link.old) xs last
        × TriesNext (urls sources.now) xs next × L.Steps last (unanswered next) (L.told link.new)) }
    ensures memory { (result ≡ Err WantsMemory) → (xs : List Exchange)
        × Exchanges L.Steps (L.told link.old) xs (L.told link.new) × Tries (urls sources.now) xs }
{
    for source in sources {
        match try_source(alloc, link, source)? {
            Some(body) => return Ok(Some(body)),
            None => {}
        }
    }
    Ok(None)
}

/// The sources that a registry lists for a content.
pub fn listed<'a>(sources: &'a ContentSourcesResponse, digest: &AnyHash) -> &'a [ContentSource]
    ensures { urls result.now ≡ urls_of digest.now (sources_view sources.now) }
{
    match sources.content_sources.get(digest) {
        Some(listed) => listed.as_slice(),
        None => &[],
    }
}

impl Client {
    /// The bytes of a content, from the first of its sources that gives any, unchecked.
    ///
    /// The registry is asked where the content is, and then each URL that it lists for the digest, in order, without
    /// headers, up to the first success. What the registry refuses is `Content`. Where none of the URLs gives any bytes,
    /// it is `AllSourcesFailed`.
    pub fn download_whole<L: Link>(
        &self,
        alloc: Global,
        link: &mut L,
        registry: Option<&RegistryDomain>,
        digest: &AnyHash,
    ) -> Result<Vec<u8>, ClientError>
        ensures never_falls { L.faults link.old ≤ L.faults link.new }
        ensures ok { IfOk result (λ bytes. (xs : List Exchange)
            × Exchanges L.Steps (L.told link.old) xs (L.told link.new)
            × Downloads (asker self.now (option_copied registry.entry)) digest.now xs bytes.items) }
        ensures err { IfErr result (λ e. IsDownloadFault (asker self.now (option_copied registry.entry)) digest.now e
            L.Steps (L.told link.old) (L.told link.new)) }
        ensures link_fault { (result ≡ Err Faulted) → Rose (L.faults link.old) (L.faults link.new) }
    {
        let sources = self.content_sources(alloc, link, registry, digest)?;
        match find(alloc, link, listed(&sources, digest)) {
            Ok(Some(body)) => Ok(body.into_vec()),
            Ok(None) => Err(ClientError::AllSourcesFailed(*digest)),
            Err(LinkError::Failed) => Err(ClientError::LinkFault),
            Err(LinkError::Memory) => Err(ClientError::Memory),
        }
    }
}
