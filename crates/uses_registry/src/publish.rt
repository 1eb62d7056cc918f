//! A caller of `warg_publish`.

ghost use Rattle.std.specs.Prelude.{◌≡◌, ◌∷◌, [], None, IfOk, codes, map};
ghost use Rattle.semver.specs.Identifiers.{parts_of};
ghost use Rattle.warg_record.specs.Record as signed;
ghost use Rattle.warg_record.specs.Record.{record_text};
ghost use Rattle.warg_publish.specs.Publish.{Init, Release};
ghost use Rattle.warg_publish.specs.Shown.{entry_view};

use semver::Version;
use std::alloc::Global;
use warg_hash::{AnyHash, PackageName};
use warg_log::{SignError, Signer};
use warg_publish::{PublishEntry, PublishInfo};
use warg_values::{Memory, Moment};

/// The entries that make a package and release its first version.
fn first_entries(
    alloc: Global,
    version: Version,
    content: AnyHash,
) -> Result<Vec<PublishEntry>, Memory>
    ensures { IfOk result (λ entries. map entry_view entries.items
        ≡ Init ∷ (Release (parts_of version) content ∷ [])) }
{
    let mut entries = Vec::new(alloc);
    entries.push(PublishEntry::Init)?;
    entries.push(PublishEntry::Release { version, content })?;
    Ok(entries)
}

/// The message of the signed record that makes a package and releases its first version.
pub fn first_message<S: Signer>(
    alloc: Global,
    signer: &mut S,
    name: PackageName,
    version: Version,
    content: AnyHash,
    now: Moment,
) -> Result<Vec<u8>, SignError>
    ensures { IfOk result (λ message. message.items ≡ record_text (record {
      prev = None;
      version = 0;
      time = now;
      entries = signed.Init (S.key signer.old) (codes "sha256")
          ∷ (signed.Release (parts_of version) content ∷ []);
    })) }
{
    let entries = first_entries(alloc, version, content)?;
    let info = PublishInfo {
        name,
        head: None,
        entries,
    };
    let envelope = info.finalize(alloc, signer, now)?;
    Ok(envelope.contents)
}
