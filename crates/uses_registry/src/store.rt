//! Callers of `warg_store`.

ghost use Rattle.std.specs.Prelude.{◌≡◌, ◌≤◌, false, IfOk, IfSome};
ghost use Rattle.sha2.specs.Sha256.{sha256};
ghost use Rattle.warg_store.specs.Held.{Tells};

use std::alloc::Global;
use warg_exchange::SignedCheckpoint;
use warg_hash::AnyHash;
use warg_store::{ContentStorage, RegistryStorage, StoreError};
use warg_url::RegistryDomain;

/// The content of a digest: the one that is kept, or else these bytes, which are kept from then on.
pub fn content_or_stored<S: ContentStorage>(
    alloc: Global,
    store: &mut S,
    digest: &AnyHash,
    bytes: &[u8],
) -> Result<Vec<u8>, StoreError>
    ensures digest { IfOk result (λ content. sha256 content.items ≡ digest.now) }
    ensures never_falls { S.faults store.old ≤ S.faults store.new }
{
    if let Some(content) = store.load_content(alloc, digest)? {
        return Ok(content);
    }
    store.store_content(alloc, bytes, Some(digest))?;
    Ok(Vec::from_slice(alloc, bytes)?)
}

/// Keeps a checkpoint of a registry, unless a longer one is kept. It tells whether it does.
pub fn store_no_shorter<S: RegistryStorage>(
    alloc: Global,
    store: &mut S,
    registry: Option<&RegistryDomain>,
    checkpoint: &SignedCheckpoint,
) -> Result<bool, StoreError>
    ensures kept { IfOk result (λ is_stored. is_stored ≡ false
        → IfSome (S.told store.old) (Tells (S.told store.new))) }
    ensures never_falls { S.faults store.old ≤ S.faults store.new }
{
    let stored = store.load_checkpoint(alloc, registry)?;
    if let Some(stored) = stored {
        if checkpoint.contents.log_length < stored.contents.log_length {
            return Ok(false);
        }
    }
    store.store_checkpoint(alloc, registry, checkpoint)?;
    Ok(true)
}
