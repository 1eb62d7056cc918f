//! The search of a plan.

ghost use Rattle.std.specs.Prelude.{◌≡◌, [], Some, IfOk, IfErr, OnOk};
ghost use Rattle.warg_plan.specs.Found.{found_entries};
ghost use Rattle.warg_plan.specs.View.{facts_view, key_view, plan_view, stop_view};
ghost use Rattle.warg_plan.specs.Walk.{NeedsContent, NeedsLog, Stop as Asked, nothing_known};
ghost use Rattle.warg_search.specs.Search.{Finds, IsSearchRefusal, wanted_at, wanted_by};
ghost use Rattle.warg_search.specs.Steps.{IsStep, IsStepFault};

use crate::error::SearchError;
use crate::way::Learn;
use compose_config::Config;
use std::alloc::Global;
use warg_hash::{AnyHash, PackageName};
use warg_plan::{Facts, Plan, PlanKey, Question, Stop, Walk};

/// Learns the log of a package, which is known from then on.
fn learn_log<S, A: Learn<S>>(
    alloc: Global,
    way: &A,
    learner: &mut S,
    facts: &mut Facts,
    name: PackageName,
) -> Result<(), SearchError<A::Refusal>>
    ensures learnt { OnOk result (IsStep A.teaches A.Learns (NeedsLog name) (A.told learner.old)
        (A.told learner.new) (facts_view facts.old) (facts_view facts.new)) }
    ensures fault { IfErr result (IsStepFault A.teaches A.Learns A.Refuses (Stop.NeedsLog name)
        (A.told learner.old) (A.told learner.new)) }
{
    match way.learn_log(alloc, learner, &name) {
        Ok(releases) => match facts.add_log(name, releases) {
            Ok(()) => Ok(()),
            Err(_memory) => Err(SearchError::Memory),
        },
        Err(refusal) => Err(SearchError::Refused(refusal)),
    }
}

/// Learns a content, which is known from then on.
fn learn_content<S, A: Learn<S>>(
    alloc: Global,
    way: &A,
    learner: &mut S,
    facts: &mut Facts,
    name: PackageName,
    digest: AnyHash,
) -> Result<(), SearchError<A::Refusal>>
    ensures learnt { OnOk result (IsStep A.teaches A.Learns (NeedsContent name digest) (A.told learner.old)
        (A.told learner.new) (facts_view facts.old) (facts_view facts.new)) }
    ensures fault { IfErr result (IsStepFault A.teaches A.Learns A.Refuses (Stop.NeedsContent name digest)
        (A.told learner.old) (A.told learner.new)) }
{
    match way.learn_content(alloc, learner, &name, &digest) {
        Ok(content) => match facts.add_content(digest, content) {
            Ok(()) => Ok(()),
            Err(_memory) => Err(SearchError::Memory),
        },
        Err(refusal) => Err(SearchError::Refused(refusal)),
    }
}

/// Learns what a stop asks for, which is known from then on.
///
/// `NoPlan` has a stop that asks for nothing; nothing is learnt then.
pub fn learn<S, A: Learn<S>>(
    alloc: Global,
    way: &A,
    learner: &mut S,
    facts: &mut Facts,
    stop: Stop,
) -> Result<(), SearchError<A::Refusal>>
    ensures learnt { OnOk result ((asked : Asked) × (stop_view stop ≡ Some asked)
        × IsStep A.teaches A.Learns asked (A.told learner.old) (A.told learner.new) (facts_view facts.old)
        (facts_view facts.new)) }
    ensures fault { IfErr result (IsStepFault A.teaches A.Learns A.Refuses stop (A.told learner.old)
        (A.told learner.new)) }
{
    match stop {
        Stop::NeedsLog(name) => learn_log(alloc, way, learner, facts, name),
        Stop::NeedsContent(name, digest) => learn_content(alloc, way, learner, facts, name, digest),
        Stop::Memory => Err(SearchError::Memory),
        stop => Err(SearchError::NoPlan(stop)),
    }
}

/// Goes on with a walk that has found nothing over facts that say nothing: what it asks for is learnt, until all of the
/// plan is found.
fn find<S, A: Learn<S>>(
    alloc: Global,
    way: &A,
    learner: &mut S,
    config: &Config,
    root: &PlanKey,
    facts: &mut Facts,
    walk: &mut Walk,
) -> Result<(), SearchError<A::Refusal>>
    requires facts { facts_view facts.now ≡ nothing_known }
    requires walk { found_entries walk.now ≡ [] }
    ensures finds { OnOk result (Finds A.teaches (wanted_at config.now (key_view root.now)) A.Learns
        (A.told learner.old) (A.told learner.new) (found_entries walk.new)) }
    ensures refused { IfErr result (IsSearchRefusal A.teaches (wanted_at config.now (key_view root.now)) A.Learns
        A.Refuses (A.told learner.old) (A.told learner.new)) }
{
    // Each turn adds a log or a content to what is known, and no memory holds so many.
    for _ in 0..u64::MAX {
        let question = Question { config, facts };
        match walk.go_on(alloc, &question, root) {
            Ok(()) => return Ok(()),
            Err(stop) => learn(alloc, way, learner, facts, stop)?,
        }
    }
    Err(SearchError::Memory)
}

/// Searches the plan of a text's settings that begins at a key.
///
/// The walk over what is known finds it, or asks for something; that is learnt, and the walk goes on from what it has
/// found, over more that is known. A stop of the walk that asks for nothing ends the search.
pub fn search_from<S, A: Learn<S>>(
    alloc: Global,
    way: &A,
    learner: &mut S,
    config: &Config,
    root: &PlanKey,
) -> Result<Plan, SearchError<A::Refusal>>
    ensures finds { IfOk result (λ plan. Finds A.teaches (wanted_at config.now (key_view root.now)) A.Learns
        (A.told learner.old) (A.told learner.new) (plan_view plan)) }
    ensures refused { IfErr result (IsSearchRefusal A.teaches (wanted_at config.now (key_view root.now)) A.Learns
        A.Refuses (A.told learner.old) (A.told learner.new)) }
{
    let mut facts = Facts::new(alloc);
    let mut walk = Walk::new(alloc);
    find(alloc, way, learner, config, root, &mut facts, &mut walk)?;
    match walk.into_plan(alloc) {
        Ok(plan) => Ok(plan),
        Err(_memory) => Err(SearchError::Memory),
    }
}

/// Searches the plan of a text, which begins at its instance `root`, as `search_from` does.
pub fn search_plan<S, A: Learn<S>>(
    alloc: Global,
    way: &A,
    learner: &mut S,
    config: &Config,
) -> Result<Plan, SearchError<A::Refusal>>
    ensures finds { IfOk result (λ plan. Finds A.teaches (wanted_by config.now) A.Learns (A.told learner.old)
        (A.told learner.new) (plan_view plan)) }
    ensures refused { IfErr result (IsSearchRefusal A.teaches (wanted_by config.now) A.Learns A.Refuses
        (A.told learner.old) (A.told learner.new)) }
{
    match PlanKey::root(alloc) {
        Ok(root) => search_from(alloc, way, learner, config, &root),
        Err(_memory) => Err(SearchError::Memory),
    }
}
