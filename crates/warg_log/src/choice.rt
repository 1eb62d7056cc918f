//! The choice of a release.

ghost use Rattle.std.specs.Prelude.{◌≡◌, ◌&&◌, ℕ, List, Option, Some, None, map, option_map, option_copied};
ghost use Rattle.std.specs.Ordering.{is_lt};
ghost use Rattle.semver.specs.Identifiers.{parts_of, comparator_view};
ghost use Rattle.semver.specs.Parse.{Parts};
ghost use Rattle.warg_log.specs.Choice.{has_version, has_digest, is_candidate, version_cmp, better as better_of, greatest as greatest_of};
ghost use Rattle.warg_log.specs.History.{same_version};
ghost use Rattle.warg_log.specs.Places.{release_view, release_views};

use crate::release::Release;
use semver::{Version, VersionReq};
use std::cmp::Ordering;
use warg_hash::AnyHash;

/// A test of releases.
pub trait ReleaseTest {
    ghost use Rattle.std.specs.Prelude.{Bool};

    /// Whether a release passes.
    ghost passing: { Self → Parts × Option (List ℕ) → Bool };

    /// Whether a release passes.
    fn passes(&self, release: &Release) -> bool
        ensures { result ≡ passing self.now (release_view release.now) };
}

/// What a release is asked to be: not yanked, of a version that meets the requirement, and of the exact version and of
/// the digest where they are given.
#[derive(Debug, Drop)]
pub struct Candidate<'a> {
    /// The requirement.
    pub req: &'a VersionReq,
    /// The version.
    pub exact: Option<&'a Version>,
    /// The digest of the content.
    pub digest: Option<&'a AnyHash>,
}

/// Whether a version is the one that is asked for, where one is.
fn is_exact(exact: Option<&Version>, version: &Version) -> bool
    ensures { (content : Option (List ℕ))
        → result ≡ has_version (option_map parts_of (option_copied exact.entry)) (parts_of version.now, content) }
{
    match exact {
        Some(exact) => is_same(exact, version),
        None => true,
    }
}

/// Whether two versions are the same, build metadata too.
fn is_same(a: &Version, b: &Version) -> bool
    ensures { result ≡ same_version (parts_of a.now) (parts_of b.now) }
{
    a.cmp(b) == Ordering::Equal
}

/// Whether a content has the digest that is asked for, where one is.
fn is_content(digest: Option<&AnyHash>, content: &AnyHash) -> bool
    ensures { (version : Parts)
        → result ≡ has_digest (option_copied digest.entry) (version, Some content.now) }
{
    match digest {
        Some(digest) => digest == content,
        None => true,
    }
}

/// Whether all three hold.
fn hold(first: bool, second: bool, third: bool) -> bool
    ensures { result ≡ (first && (second && third)) }
{
    first && second && third
}

impl<'a> ReleaseTest for Candidate<'a> {
    ghost passing = { λ c. is_candidate (map comparator_view c.req.now.comparators.items)
        (option_map parts_of (option_copied c.exact)) (option_copied c.digest) };

    fn passes(&self, release: &Release) -> bool {
        let Some(content) = release.content else {
            return false;
        };
        let meets = self.req.matches(&release.version);
        let is_exact = is_exact(self.exact, &release.version);
        let has_content = is_content(self.digest, &content);
        hold(meets, is_exact, has_content)
    }
}

/// Whether a version is before another, by precedence and then by build metadata.
fn is_before(a: &Version, b: &Version) -> bool
    ensures { result ≡ is_lt (version_cmp (parts_of a.now) (parts_of b.now)) }
{
    a.cmp(b) == Ordering::Less
}

/// The better of a release and the best before it.
fn better<'a, T: ReleaseTest>(
    test: &T,
    best: Option<&'a Release>,
    release: &'a Release,
) -> Option<&'a Release>
    ensures { option_map release_view (option_copied result)
        ≡ better_of (T.passing test.now) (option_map release_view (option_copied best.entry))
        (release_view release.now) }
{
    if !test.passes(release) {
        return best;
    }
    match best {
        Some(found) => {
            if is_before(&found.version, &release.version) {
                Some(release)
            } else {
                Some(found)
            }
        }
        None => Some(release),
    }
}

/// The greatest of the releases that pass a test.
pub fn greatest<'a, T: ReleaseTest>(test: &T, releases: &'a [Release]) -> Option<&'a Release>
    ensures { option_map release_view (option_copied result)
        ≡ greatest_of (T.passing test.now) (release_views releases.now) }
{
    let mut best = None;
    for release in releases {
        best = better(test, best, release);
    }
    best
}
