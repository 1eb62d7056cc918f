//! Callers of `warg_plan`.

ghost use Rattle.std.specs.Prelude.{◌≡◌, codes, Err, IfOk, IfSome};
ghost use Rattle.compose_config.specs.View.{settings_of};
ghost use Rattle.warg_plan.specs.Keys.{Named};
ghost use Rattle.warg_plan.specs.View.{facts_view};
ghost use Rattle.warg_plan.specs.Walk.{NeedsLog, node_of as node_at};

use compose_config::Config;
use std::alloc::Global;
use warg_hash::PackageName;
use warg_plan::{Facts, PlanKey, Question, Stop, node_of};

/// The package whose log the plan of a text asks for first, where it asks for one.
pub fn log_of_root(
    alloc: Global,
    config: &Config,
    facts: &Facts,
) -> Result<Option<PackageName>, Stop>
    ensures { IfOk result (λ asked. IfSome asked (λ name.
        node_at (settings_of config.now) (facts_view facts.now) (Named (codes "root")) ≡ Err (NeedsLog name))) }
{
    let root = PlanKey::root(alloc)?;
    let question = Question { config, facts };
    match node_of(alloc, &question, &root) {
        Ok(_) => Ok(None),
        Err(Stop::NeedsLog(package)) => Ok(Some(package)),
        Err(stop) => Err(stop),
    }
}
