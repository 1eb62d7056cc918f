//! Components, bundled with the contents of the releases that their imports ask for.

ghost use Rattle.std.specs.Prelude.{IfErr, IfOk, map};
ghost use Rattle.compose_bundle.specs.Bundled.{content_in};
ghost use Rattle.warg_compose.specs.Wired.{AreOfComponents};
ghost use Rattle.warg_plan.specs.View.{facts_view};
ghost use Rattle.warg_plan.specs.Walk.{Facts as Known, Stop as Needed};
ghost use Rattle.warg_bundle.specs.Bundle.{IsBundleFault, IsReleaseBundle};
ghost use Rattle.warg_bundle.specs.Lent.{AreLent, AskFor};
ghost use Rattle.warg_bundle.specs.View.{asked_view};

use crate::asked::{Asked, releases_asked};
use crate::error::BundleError;
use crate::learning::{content_of, learn_releases};
use comp_format::laws::one_reading;
use comp_shape::read_items;
use compose_bundle::{BundleError as Unbundled, bundle};
use indexmap::IndexMap;
use std::alloc::Global;
use warg_plan::Facts;
use warg_search::Learn;
use warg_values::{Memory, Text};

/// The contents of the releases that are asked for, by the names under which they are.
fn lent<'a>(
    alloc: Global,
    facts: &'a Facts,
    asked: &[Asked<'_>],
) -> Result<IndexMap<Text, &'a [u8]>, Memory>
    requires { AskFor (map asked_view asked.now) }
    ensures { IfOk result (λ contents. AreLent (facts_view facts.now) (map asked_view asked.now) (content_in contents)) }
{
    let mut contents = IndexMap::new(alloc);
    for release in asked {
        let name = release.name.try_clone(alloc)?;
        match content_of(alloc, facts, &release.import) {
            Ok(content) => {
                contents.insert(name, content.bytes.as_slice())?;
            }
            // Each was learnt, so only memory can be wanting.
            Err(_) => return Err(Memory),
        }
    }
    Ok(contents)
}

/// A component with the contents of releases in the places of the imports of components that ask for these.
///
/// An import asks for a release by a name such as `locked-dep=<a:b@1.0.0>,integrity=<sha256-..>` (Component Model,
/// Explainer.md, "Import and Export Definitions"): for one version of a package, by the digest of its content. The way
/// learns the log of each such package, and the content of the release, each once. Every other item stays as it is, in
/// order, and nested components are not entered.
///
/// `BadComponent` comes where `bytes` are no component, before anything is learnt. `Search` tells what is refused: the way's
/// refusal, or that there is no such release. `TooLarge` has a number of 2^32 or more that would have to be written.
pub fn bundle_releases<S, A: Learn<S>>(
    alloc: Global,
    way: &A,
    learner: &mut S,
    bytes: &[u8],
) -> Result<Vec<u8>, BundleError<A::Refusal>>
    requires components { (known : Known) (old new : A.Told) (asked : Needed) (lesson : A.Lesson)
        → A.Learns old asked lesson new → AreOfComponents known → AreOfComponents (A.teaches known lesson) }
    ensures bundled { IfOk result (λ out. IsReleaseBundle A.teaches A.Learns (A.told learner.old) (A.told learner.new)
        bytes.now out.items) }
    ensures cause { IfErr result (IsBundleFault A.teaches A.Learns A.Refuses (A.told learner.old) (A.told learner.new)
        bytes.now) }
{
    one_reading();
    let items = read_items(alloc, bytes)?;
    let asked = releases_asked(alloc, &items)?;
    let mut facts = Facts::new(alloc);
    learn_releases(alloc, way, learner, &mut facts, &asked)?;
    let contents = lent(alloc, &facts, &asked)?;
    match bundle(alloc, bytes, &contents) {
        Ok(out) => Ok(out),
        Err(Unbundled::TooLarge(number)) => Err(BundleError::TooLarge(number)),
        // The bytes were read already, but for want of memory.
        Err(_) => Err(BundleError::Memory),
    }
}
