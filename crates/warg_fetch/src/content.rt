//! The content of a digest, from a store or by a download.

ghost use Rattle.std.specs.Prelude.{◌≡◌, ◌≤◌, ℕ, List, Err, IfOk, IfErr, IfSome, OnErr, option_copied};
ghost use Rattle.sha2.specs.Sha256.{sha256};
ghost use Rattle.warg_values.specs.Faults.{Rose};
ghost use Rattle.warg_api.specs.Asking.{asker};
ghost use Rattle.warg_api.specs.declared.error.ClientError.TheVariants.{LinkFault as IsLinkFault};
ghost use Rattle.warg_session.specs.Recording.{link_of, transcript};
ghost use Rattle.warg_store.specs.Contents.{TellsContents, with_content};
ghost use Rattle.warg_store.specs.declared.error.StoreError.TheVariants.{IncorrectContent as IsIncorrect};
ghost use Rattle.warg_assemble.specs.Known.{Known};
ghost use Rattle.warg_fetch.specs.Loaded.{IsContentFetched, IsDownloadCause, IsDownloaded, IsLoadRefusal, IsStoreCause, LeavesFetch, with_bytes};
ghost use Rattle.warg_fetch.specs.Stored.{KnowsContents};
ghost use Rattle.warg_fetch.specs.declared.error.LoadError.TheVariants.{Call as IsCallFault, Store as IsStoreRefusal};

use crate::error::LoadError;
use std::alloc::Global;
use warg_api::{Client, Link};
use warg_hash::AnyHash;
use warg_session::Recording;
use warg_store::ContentStorage;
use warg_url::RegistryDomain;

/// The bytes of a content from the first of its sources that gives any, unchecked.
fn download<L: Link>(
    alloc: Global,
    client: &Client,
    link: &mut Recording<L>,
    registry: Option<&RegistryDomain>,
    digest: &AnyHash,
) -> Result<Vec<u8>, LoadError>
    ensures never_falls { L.faults (link_of link.old) ≤ L.faults (link_of link.new) }
    ensures link_fault { (result ≡ Err (IsCallFault IsLinkFault))
        → Rose (L.faults (link_of link.old)) (L.faults (link_of link.new)) }
    ensures downloaded { IfOk result (λ bytes. IsDownloaded (asker client.now (option_copied registry.entry)) digest.now
        L.Steps (transcript L.told link.old) (transcript L.told link.new) bytes.items) }
    ensures fault { IfErr result (λ e. IsDownloadCause (asker client.now (option_copied registry.entry)) digest.now
        L.Steps (transcript L.told link.old) (transcript L.told link.new) e) }
{
    let downloaded = client.download_whole(alloc, link, registry, digest);
    // A reply that was lost for want of memory may be what the download lacks.
    if !link.is_whole() {
        return Err(LoadError::Memory);
    }
    Ok(downloaded?)
}

/// Downloads a content, and keeps it where it has the digest.
fn download_content<L: Link, C: ContentStorage>(
    alloc: Global,
    client: &Client,
    link: &mut Recording<L>,
    contents: &mut C,
    registry: Option<&RegistryDomain>,
    digest: &AnyHash,
) -> Result<Vec<u8>, LoadError>
    ensures link_never_falls { L.faults (link_of link.old) ≤ L.faults (link_of link.new) }
    ensures contents_never_fall { C.faults contents.old ≤ C.faults contents.new }
    ensures link_fault { (result ≡ Err (IsCallFault IsLinkFault))
        → Rose (L.faults (link_of link.old)) (L.faults (link_of link.new)) }
    ensures downloaded { IfOk result (λ bytes. IsDownloaded (asker client.now (option_copied registry.entry)) digest.now
        L.Steps (transcript L.told link.old) (transcript L.told link.new) bytes.items) }
    ensures digest { IfOk result (λ bytes. sha256 bytes.items ≡ digest.now) }
    ensures kept { IfOk result (λ bytes. IfSome (C.told contents.old) (λ held.
        TellsContents (C.told contents.new) (with_content held digest.now bytes.items))) }
    ensures refused { OnErr result (IfSome (C.told contents.old) (λ held.
        LeavesFetch (asker client.now (option_copied registry.entry)) digest.now L.Steps
        (transcript L.told link.old) (transcript L.told link.new) (C.told contents.new) held)) }
    ensures incorrect { (found wanted : List ℕ) → (result ≡ Err (IsStoreRefusal (IsIncorrect found wanted)))
        → IfSome (C.told contents.old) (TellsContents (C.told contents.new)) }
    ensures fault { IfErr result (λ e. IsStoreCause (asker client.now (option_copied registry.entry)) digest.now
        L.Steps (transcript L.told link.old) (transcript L.told link.new) e (C.faults contents.old)
        (C.faults contents.new)) }
{
    let bytes = download(alloc, client, link, registry, digest)?;
    contents.store_content(alloc, bytes.as_slice(), Some(digest))?;
    Ok(bytes)
}

/// The bytes of the content of a digest: those that are kept, or else those of a download, which are kept from then on.
///
/// The registry is asked where the content is, and then each URL that it lists, in order, up to the first success.
/// Bytes of another digest are refused.
pub fn fetch_content<L: Link, C: ContentStorage>(
    alloc: Global,
    client: &Client,
    link: &mut Recording<L>,
    contents: &mut C,
    registry: Option<&RegistryDomain>,
    digest: &AnyHash,
) -> Result<Vec<u8>, LoadError>
    ensures link_never_falls { L.faults (link_of link.old) ≤ L.faults (link_of link.new) }
    ensures contents_never_fall { C.faults contents.old ≤ C.faults contents.new }
    ensures link_fault { (result ≡ Err (IsCallFault IsLinkFault))
        → Rose (L.faults (link_of link.old)) (L.faults (link_of link.new)) }
    ensures fetched { IfOk result (λ bytes. (known : Known) → KnowsContents (C.told contents.old) known
        → IsContentFetched (asker client.now (option_copied registry.entry)) digest.now L.Steps
        (transcript L.told link.old) (transcript L.told link.new) known bytes.items) }
    ensures digest { IfOk result (λ bytes. sha256 bytes.items ≡ digest.now) }
    ensures kept { IfOk result (λ bytes. (known : Known) → KnowsContents (C.told contents.old) known
        → KnowsContents (C.told contents.new) (with_bytes known digest.now bytes.items)) }
    ensures refused { OnErr result (IfSome (C.told contents.old) (λ held.
        LeavesFetch (asker client.now (option_copied registry.entry)) digest.now L.Steps
        (transcript L.told link.old) (transcript L.told link.new) (C.told contents.new) held)) }
    ensures incorrect { (found wanted : List ℕ) → (result ≡ Err (IsStoreRefusal (IsIncorrect found wanted)))
        → IfSome (C.told contents.old) (TellsContents (C.told contents.new)) }
    ensures cause { IfErr result (λ e. IsLoadRefusal (asker client.now (option_copied registry.entry)) digest.now
        L.Steps (transcript L.told link.old) (transcript L.told link.new) e
        (record { before = C.faults contents.old; after = C.faults contents.new; told = C.told contents.old })) }
{
    match contents.load_content(alloc, digest)? {
        Some(bytes) => Ok(bytes),
        None => download_content(alloc, client, link, contents, registry, digest),
    }
}
