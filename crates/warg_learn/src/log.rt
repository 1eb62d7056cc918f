//! The releases in the log of a package.

ghost use Rattle.std.specs.Prelude.{◌≡◌, IfOk};
ghost use Rattle.warg_info.specs.Info.{package_log, IsSoundPackage};
ghost use Rattle.warg_log.specs.Places.{release_view, release_views};
ghost use Rattle.warg_assemble.specs.Parts.{releases_in};

use std::alloc::Global;
use warg_info::PackageInfo;
use warg_log::Release;
use warg_values::Memory;

/// An equal release of its own.
fn release_copy(release: &Release) -> Result<Release, Memory>
    ensures { IfOk result (λ copy. release_view copy ≡ release_view release.now) }
{
    Ok(Release {
        version: release.version.clone()?,
        content: release.content,
    })
}

/// Equal releases, in the same order.
fn copies_of(alloc: Global, releases: &[Release]) -> Result<Vec<Release>, Memory>
    ensures { IfOk result (λ copies. release_views copies.items ≡ release_views releases.now) }
{
    let mut copies = Vec::new(alloc);
    for release in releases {
        copies.push(release_copy(release)?)?;
    }
    Ok(copies)
}

/// The releases in the log of a package, in order.
pub fn releases_of(alloc: Global, info: &PackageInfo) -> Result<Vec<Release>, Memory>
    ensures { IsSoundPackage info.now → IfOk result (λ releases.
        releases_in (package_log info.now) ≡ release_views releases.items) }
{
    copies_of(alloc, info.log.state().releases())
}
