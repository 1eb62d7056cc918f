//! The arguments of an instance.

ghost use Rattle.std.specs.Prelude.{◌≡◌, ℕ, List, IfOk, bytes_eq, option_copied, option_map};
ghost use Rattle.std.specs.Map.{lookup};
ghost use Rattle.compose_config.specs.Arguments.{arguments_view, is_among, is_in_set, stray};
ghost use Rattle.compose_config.specs.View.{argument_of};

use crate::parts::InstantiationArg;
use indexmap::{IndexMap, IndexSet};
use std::alloc::Global;
use warg_values::{Memory, Text};

/// The argument of an import among those of its instance, where it has any.
pub fn argument_for<'a>(
    arguments: Option<&'a IndexMap<Text, InstantiationArg>>,
    name: &Text,
) -> Option<&'a InstantiationArg>
    ensures { option_map argument_of (option_copied result)
        ≡ lookup (λ k. bytes_eq name.now k) (arguments_view arguments.entry) }
{
    arguments?.get(name)
}

/// Names as a set.
fn set_of<'a>(alloc: Global, names: &'a [Text]) -> Result<IndexSet<&'a Text>, Memory>
    ensures { IfOk result (λ set. (name : List ℕ) → is_in_set set.keys name ≡ is_among names.now name) }
{
    let mut set = IndexSet::new(alloc);
    for name in names {
        set.insert(name)?;
    }
    Ok(set)
}

/// The name of the first argument that names no import, by the names of the imports.
#[tactic(auto, unfolding(crate::specs::Arguments::stray))]
pub fn stray_argument<'a>(
    alloc: Global,
    arguments: Option<&'a IndexMap<Text, InstantiationArg>>,
    imports: &[Text],
) -> Result<Option<&'a Text>, Memory>
    ensures { IfOk result (λ name. option_copied name ≡ stray (arguments_view arguments.entry) imports.now) }
{
    let Some(arguments) = arguments else {
        return Ok(None);
    };
    let names = set_of(alloc, imports)?;
    for index in 0..arguments.len() {
        if let Some((name, _)) = arguments.get_index(index) {
            if !names.contains(&name) {
                return Ok(Some(name));
            }
        }
    }
    Ok(None)
}
