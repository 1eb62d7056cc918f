//! The wires of a plan.

ghost use Rattle.std.specs.Prelude.{◌≡◌, ◌++◌, IfOk, map};
ghost use Rattle.warg_plan.specs.View.{arg_view, entry_view};
ghost use Rattle.warg_compose.specs.Composed.{wires_from, wires_to};

use compose_left::Wire;
use std::alloc::Global;
use warg_plan::{PlanArg, PlanEntry};
use warg_values::{Memory, Text};

/// Adds the wires into an instance: each argument that is an entry is the whole instance of that.
fn add_wires(
    wires: &mut Vec<Wire>,
    target: usize,
    arguments: &[(Text, PlanArg)],
) -> Result<(), Memory>
    ensures { IfOk result (λ done. wires.new.items
        ≡ wires.old.items ++ wires_to target 0 (map (λ a. (a.0, arg_view a.1)) arguments.now)) }
{
    for (import, (_, argument)) in arguments.iter().enumerate() {
        if let PlanArg::Entry(source) = argument {
            wires.push(Wire {
                target,
                import,
                source: *source,
                export: None,
            })?;
        }
    }
    Ok(())
}

/// The wires between the instances of entries.
pub fn wires_of(alloc: Global, entries: &[PlanEntry]) -> Result<Vec<Wire>, Memory>
    ensures { IfOk result (λ wires. wires.items ≡ wires_from 0 (map entry_view entries.now)) }
{
    let mut wires = Vec::new(alloc);
    for (target, entry) in entries.iter().enumerate() {
        add_wires(&mut wires, target, &entry.arguments)?;
    }
    Ok(wires)
}
