//! Versions that records can name.

ghost use Rattle.std.specs.Prelude.{◌≡◌, ◌↔◌, true, IfOk};
ghost use Rattle.semver.specs.Grammar.{IsValid};
ghost use Rattle.semver.specs.Identifiers.{parts_of};

use crate::error::EnvelopeError;
use crate::fields::version_of;
use semver::Version;
use std::alloc::Global;
use std::cmp::Ordering;
use warg_values::Memory;

/// Whether two versions have the same parts.
fn have_same_parts(a: &Version, b: &Version) -> bool
    ensures { (result ≡ true) ↔ (parts_of a.now ≡ parts_of b.now) }
{
    a.cmp(b) == Ordering::Equal
}

/// Whether a version has the form of SemVer 2.0, as each has that was read from a text. One that was put together of
/// its parts need not, and a record that names it is not read again.
pub fn is_valid_version(alloc: Global, version: &Version) -> Result<bool, Memory>
    ensures { IfOk result (λ is. (is ≡ true) ↔ IsValid (parts_of version.now)) }
{
    let text = format!(in alloc; "{version}")?;
    match version_of(alloc, text.as_bytes()) {
        Ok(read) => Ok(have_same_parts(&read, version)),
        Err(EnvelopeError::Form) => Ok(false),
        Err(EnvelopeError::Memory) => Err(Memory),
    }
}
