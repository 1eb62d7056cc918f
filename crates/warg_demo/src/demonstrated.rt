//! The plan of the demo world, assembled.

ghost use Rattle.std.specs.Prelude.{IfOk, IfErr};
ghost use Rattle.warg_plan.specs.View.{plan_view};
ghost use Rattle.warg_demo.specs.Demonstrated.{IsDemoFault, IsDemonstrated};

use crate::world::{DemoWorld, demo_world};
use std::alloc::Global;
use warg_replay::{Assembled, ClientError, assemble_anew};

/// Assembles the component that the plan of the demo world makes, by a client that has kept nothing and asks the world's
/// registry.
///
/// The world has so many packages, and is drawn from a seed. Each error is one that `assemble_anew` answers.
pub fn demonstrate(alloc: Global, seed: u64, count: u32) -> Result<Assembled, ClientError>
    ensures demonstrated { IfOk result (λ made. IsDemonstrated seed count (plan_view made.plan) made.lock.left.items
        made.lock.bytes.items made.bytes.items) }
    ensures cause { IfErr result (IsDemoFault seed count) }
{
    let world = demo_world(alloc, seed, count)?;
    let verifier = world.registry.verifier(alloc)?;
    let DemoWorld { registry, text } = world;
    match assemble_anew(alloc, text.as_str(), registry, verifier) {
        Ok(made) => Ok(made),
        Err(error) => Err(error),
    }
}
