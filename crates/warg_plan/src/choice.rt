//! The choice of a release among those of a package's log.

ghost use Rattle.std.specs.Prelude.{◌≡◌, ◌&&◌, Some, option_map, option_copied};
ghost use Rattle.std.specs.Ordering.{is_lt};
ghost use Rattle.semver.specs.Identifiers.{parts_of};
ghost use Rattle.semver.specs.Parse.{Parts};
ghost use Rattle.warg_log.specs.Choice as spec;
ghost use Rattle.warg_log.specs.History.{same_version};
ghost use Rattle.warg_log.specs.Places.{release_view, release_views};
ghost use Rattle.warg_names.specs.View.{import_tree, requirement_view};
ghost use Rattle.warg_plan.specs.Keys.{chosen as chosen_of, choice_for};

use semver::Version;
use std::alloc::Global;
use std::cmp::Ordering;
use warg_hash::AnyHash;
use warg_log::Release;
use warg_names::{Import, ImportKind, marked};

/// Whether two versions are the same, build metadata too.
fn is_same(a: &Version, b: &Version) -> bool
    ensures { result ≡ same_version (parts_of a.now) (parts_of b.now) }
{
    let core = a.major == b.major && (a.minor == b.minor && a.patch == b.patch);
    core && (a.pre == b.pre && a.build == b.build)
}

/// Whether a release has the exact version that an import asks for, where it asks for one.
fn has_version(exact: &Option<Version>, release: &Release) -> bool
    ensures { result ≡ spec.has_version (option_map parts_of exact.now) (release_view release.now) }
{
    match exact {
        Some(exact) => is_same(exact, &release.version),
        None => true,
    }
}

/// Whether a content has the digest that is asked for, where one is.
fn has_digest(digest: Option<&AnyHash>, content: &AnyHash) -> bool
    ensures { (version : Parts) → result ≡ spec.has_digest (option_copied digest.entry) (version, Some content.now) }
{
    match digest {
        Some(digest) => digest == content,
        None => true,
    }
}

/// Whether all three hold.
fn hold(first: bool, second: bool, third: bool) -> bool
    ensures { result ≡ (first && (second && third)) }
{
    first && second && third
}

/// Whether a release is not yanked, meets an import's requirement, and has its exact version and the digest where they
/// are given.
fn is_candidate(import: &Import, digest: Option<&AnyHash>, release: &Release) -> bool
    ensures { result ≡ spec.is_candidate (requirement_view import.now.req)
        (option_map parts_of import.now.exact) (option_copied digest.entry) (release_view release.now) }
{
    let Some(content) = release.content else {
        return false;
    };
    let meets = import.req.matches(&release.version);
    let is_exact = has_version(&import.exact, release);
    let has_content = has_digest(digest, &content);
    hold(meets, is_exact, has_content)
}

/// Whether a version is before another, by precedence and then by build metadata.
fn is_before(a: &Version, b: &Version) -> bool
    ensures { result ≡ is_lt (spec.version_cmp (parts_of a.now) (parts_of b.now)) }
{
    a.cmp(b) == Ordering::Less
}

/// The better of a release and the best before it.
fn better<'a>(
    import: &Import,
    digest: Option<&AnyHash>,
    best: Option<&'a Release>,
    release: &'a Release,
) -> Option<&'a Release>
    ensures { option_map release_view (option_copied result)
        ≡ spec.better (spec.is_candidate (requirement_view import.now.req) (option_map parts_of import.now.exact)
        (option_copied digest.entry)) (option_map release_view (option_copied best.entry)) (release_view release.now) }
{
    if !is_candidate(import, digest, release) {
        return best;
    }
    match best {
        Some(found) => {
            if is_before(&found.version, &release.version) {
                Some(release)
            } else {
                Some(found)
            }
        }
        None => Some(release),
    }
}

/// The greatest of the releases that an import asks for, with a digest where one is given.
fn greatest<'a>(
    import: &Import,
    digest: Option<&AnyHash>,
    releases: &'a [Release],
) -> Option<&'a Release>
    ensures { option_map release_view (option_copied result)
        ≡ spec.choice (requirement_view import.now.req) (option_map parts_of import.now.exact)
        (option_copied digest.entry) (release_views releases.now) }
{
    let mut best = None;
    for release in releases {
        best = better(import, digest, best, release);
    }
    best
}

/// The version that an import takes of some releases, by a digest where one is asked for, with the digest of its
/// content.
fn taken<'a>(
    import: &Import,
    digest: Option<&AnyHash>,
    releases: &'a [Release],
) -> Option<(&'a Version, AnyHash)>
    ensures { option_map (λ c. (parts_of c.0.now, c.1)) result
        ≡ chosen_of (import_tree import.now) (release_views releases.now) (option_copied digest.entry) }
{
    let release = greatest(import, digest, releases)?;
    let content = release.content?;
    Some((&release.version, content))
}

/// The version that an import takes of some releases, with the digest of its content.
#[tactic(auto, unfolding(crate::specs::Keys::choice_for))]
pub fn chosen<'a>(
    alloc: Global,
    import: &Import,
    releases: &'a [Release],
) -> Option<(&'a Version, AnyHash)>
    ensures { option_map (λ c. (parts_of c.0.now, c.1)) result
        ≡ choice_for (import_tree import.now) (release_views releases.now) }
{
    match &import.kind {
        ImportKind::Locked(Some(mark)) => {
            let digest = marked(alloc, mark.as_str())?;
            taken(import, Some(&digest), releases)
        }
        _ => taken(import, None, releases),
    }
}
