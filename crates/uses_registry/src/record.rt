//! Callers of `warg_record`.

ghost use Rattle.std.specs.Prelude.{◌≡◌, IfOk, IfSome};
ghost use Rattle.warg_record.specs.Envelope.{IsEnvelopeOf};
ghost use Rattle.warg_record.specs.Record.{IsEntry, Package};
ghost use Rattle.warg_record.specs.View.{envelope_view, package_entry_view};

use semver::Version;
use std::alloc::Global;
use warg_hash::AnyHash;
use warg_record::{Envelope, EnvelopeError, PackageEntry, PackageRecord, is_valid_version};
use warg_values::Memory;

/// Writes the record that some contents are read as: the very contents.
pub fn rewritten(
    alloc: Global,
    contents: &[u8],
    key_id: &str,
    signature: &str,
) -> Result<Vec<u8>, EnvelopeError>
    ensures { IfOk result (λ again. again.items ≡ contents.now) }
{
    let env: Envelope<PackageRecord> = Envelope::read(alloc, contents, key_id, signature)?;
    Ok(Envelope::write(alloc, &env.rec)?)
}

/// Reads an envelope, and copies it.
pub fn read_twice(
    alloc: Global,
    contents: &[u8],
    key_id: &str,
    signature: &str,
) -> Result<(Envelope<PackageRecord>, Envelope<PackageRecord>), EnvelopeError>
    ensures { IfOk result (λ both.
        IsEnvelopeOf Package contents.now key_id.now signature.now (envelope_view package_entry_view both.0)
        × IsEnvelopeOf Package contents.now key_id.now signature.now (envelope_view package_entry_view both.1)) }
{
    let env: Envelope<PackageRecord> = Envelope::read(alloc, contents, key_id, signature)?;
    let copy = env.try_clone(alloc)?;
    Ok((env, copy))
}

/// An entry that releases a version, which every record of the form can have; nothing where the version has not the
/// form.
pub fn release(
    alloc: Global,
    version: Version,
    content: AnyHash,
) -> Result<Option<PackageEntry>, Memory>
    ensures { IfOk result (λ o. IfSome o (λ entry. IsEntry Package (package_entry_view entry))) }
{
    if !is_valid_version(alloc, &version)? {
        return Ok(None);
    }
    content.bytes();
    Ok(Some(PackageEntry::Release { version, content }))
}
