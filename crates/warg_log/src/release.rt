//! Releases, and where each version stands among them.

ghost use Rattle.std.specs.Prelude.{◌≡◌, IfOk};
ghost use Rattle.semver.specs.Identifiers.{parts_of};

use semver::Version;
use std::alloc::AllocError;
use warg_hash::AnyHash;

/// A released version.
#[derive(Debug, Drop)]
pub struct Release {
    /// The version.
    pub version: Version,
    /// The digest of its content, which a yanked version has not.
    pub content: Option<AnyHash>,
}

/// A version of its own, equal to this one.
pub fn copy_of(version: &Version) -> Result<Version, AllocError>
    ensures { IfOk result (λ copy. parts_of copy ≡ parts_of version.now) }
{
    version.clone()
}
