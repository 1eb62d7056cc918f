//! The contents of releases, learnt where they are not known.

ghost use Rattle.std.specs.Prelude.{◌≡◌, List, IfErr, OnOk};
ghost use Rattle.warg_values.specs.Answers.{Gives};
ghost use Rattle.warg_names.specs.View.{import_tree};
ghost use Rattle.warg_plan.specs.Keys.{Parsed};
ghost use Rattle.warg_plan.specs.Steps.{package_at};
ghost use Rattle.warg_plan.specs.View.{content_view, facts_view, stop_view};
ghost use Rattle.warg_plan.specs.Walk.{Content as Known, nothing_known};
ghost use Rattle.warg_bundle.specs.Contents.{IsAnswered, IsUnanswered, content_of, contents_of};
ghost use Rattle.warg_bundle.specs.View.{imports_of};

use crate::asked::Asked;
use std::alloc::Global;
use warg_hash::{NameError, PackageName};
use warg_names::Import;
use warg_plan::{Content, Facts, PlanKey, Stop, chosen};
use warg_search::{Learn, SearchError, learn};

/// The package that an import asks for.
fn package_of(alloc: Global, import: &Import) -> Result<PackageName, Stop>
    ensures { Gives stop_view (λ name. name) result
        (package_at (Parsed (import_tree import.now)) (import_tree import.now)) }
{
    match PackageName::new(alloc, import.name.as_str()) {
        Ok(package) => Ok(package),
        Err(NameError::Form) => Err(Stop::NoPackage(PlanKey::Parsed(import.try_clone(alloc)?))),
        Err(NameError::Memory) => Err(Stop::Memory),
    }
}

/// The content of the release that is asked for, over what is known, or what is needed first.
#[tactic(auto, unfolding(crate::specs::Contents::content_of))]
pub fn content_of<'a>(alloc: Global, facts: &'a Facts, import: &Import) -> Result<&'a Content, Stop>
    ensures { Gives stop_view (λ content. content_view content.now) result
        (content_of (facts_view facts.now) (import_tree import.now)) }
{
    let package = package_of(alloc, import)?;
    let Some(releases) = facts.log(&package) else {
        return Err(Stop::NeedsLog(package));
    };
    let Some((_version, digest)) = chosen(alloc, import, releases) else {
        return Err(Stop::NoRelease(package));
    };
    match facts.content(&digest) {
        Some(content) => Ok(content),
        None => Err(Stop::NeedsContent(package, digest)),
    }
}

/// Learns the content of the release that is asked for, where it is not known: its package's log, and then the content.
fn learn_release<S, A: Learn<S>>(
    alloc: Global,
    way: &A,
    learner: &mut S,
    facts: &mut Facts,
    import: &Import,
) -> Result<(), SearchError<A::Refusal>>
    ensures learnt { OnOk result ((content : Known) × IsAnswered A.teaches
        (λ f. content_of f (import_tree import.now)) A.Learns (facts_view facts.old) (A.told learner.old)
        (facts_view facts.new) (A.told learner.new) content) }
    ensures refused { IfErr result (IsUnanswered A.teaches (λ f. content_of f (import_tree import.now)) A.Learns
        A.Refuses (facts_view facts.old) (A.told learner.old) (A.told learner.new)) }
{
    // Each turn adds a log or a content to what is known, and no memory holds so many.
    for _ in 0..u64::MAX {
        match content_of(alloc, facts, import) {
            Ok(_content) => return Ok(()),
            Err(stop) => learn(alloc, way, learner, facts, stop)?,
        }
    }
    Err(SearchError::Memory)
}

/// Learns the contents of the releases that are asked for, in order.
pub fn learn_releases<S, A: Learn<S>>(
    alloc: Global,
    way: &A,
    learner: &mut S,
    facts: &mut Facts,
    asked: &[Asked<'_>],
) -> Result<(), SearchError<A::Refusal>>
    requires { facts_view facts.now ≡ nothing_known }
    ensures learnt { OnOk result ((contents : List Known) × IsAnswered A.teaches
        (λ f. contents_of f (imports_of asked.now)) A.Learns nothing_known (A.told learner.old)
        (facts_view facts.new) (A.told learner.new) contents) }
    ensures refused { IfErr result (IsUnanswered A.teaches (λ f. contents_of f (imports_of asked.now)) A.Learns
        A.Refuses nothing_known (A.told learner.old) (A.told learner.new)) }
{
    for release in asked {
        learn_release(alloc, way, learner, facts, &release.import)?;
    }
    Ok(())
}
