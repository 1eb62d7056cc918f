//! What a plan leaves open.

ghost use Rattle.std.specs.Prelude.{◌≡◌, ℕ, List, map, option_map};
ghost use Rattle.warg_plan.specs.View.{arg_view, entry_view};
ghost use Rattle.warg_plan.specs.Walk.{Arg};
ghost use Rattle.warg_compose.specs.Open.{first_open, open_among};

use warg_plan::{PlanArg, PlanEntry};
use warg_values::Text;

/// The name of the first argument that is left open.
fn open_among(arguments: &[(Text, PlanArg)]) -> Option<&Text>
    ensures { option_map (λ name. name.now) result
        ≡ open_among (map (λ a. (a.0, arg_view a.1)) arguments.now) }
{
    for (name, argument) in arguments {
        match argument {
            PlanArg::Left => return Some(name),
            PlanArg::Entry(_) => {}
        }
    }
    None
}

/// The name of the first import that is left open, by entries in order and the imports of each.
pub fn first_open(entries: &[PlanEntry]) -> Option<&Text>
    ensures { option_map (λ name. name.now) result ≡ first_open (map entry_view entries.now) }
{
    for entry in entries {
        if let Some(name) = open_among(&entry.arguments) {
            return Some(name);
        }
    }
    None
}
