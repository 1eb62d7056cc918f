//! That the arguments of instances name imports.

ghost use Rattle.std.specs.Prelude.{◌≡◌, IfErr, IfOk, OnOk};
ghost use Rattle.compose_component.specs.Component.{shape_of};
ghost use Rattle.compose_config.specs.View.{settings_of};
ghost use Rattle.compose_graph.specs.Listed.{graph_of};
ghost use Rattle.compose_files.specs.Built.{HasGoodArguments, import_names};
ghost use Rattle.compose_files.specs.Refusals.{IsArgumentRefusal};

use crate::choice::component_of;
use crate::error::ComposerError;
use compose_component::Component;
use compose_config::{Config, stray_argument};
use compose_graph::{CompositionGraph, InstanceId};
use std::alloc::Global;
use warg_base::{Memory, Text};

/// The names of what a component imports.
pub fn import_names(alloc: Global, component: &Component<'_>) -> Result<Vec<Text>, Memory>
    ensures { IfOk result (λ names. names.items ≡ import_names (shape_of component.now)) }
{
    let imports = &component.types().imports;
    let mut names = Vec::new(alloc);
    for import in imports {
        names.push(import.0.try_clone(alloc)?)?;
    }
    Ok(names)
}

/// Checks that the arguments of an instance name imports of its component.
pub fn check_arguments(
    alloc: Global,
    graph: &CompositionGraph<'_>,
    config: &Config,
    name: &Text,
    id: InstanceId,
) -> Result<(), ComposerError>
    ensures good { OnOk result (HasGoodArguments (settings_of config.now) (graph_of graph.now) name.now id.0) }
    ensures refused { IfErr result
        (IsArgumentRefusal (settings_of config.now) (graph_of graph.now) name.now id.0) }
{
    let names = import_names(alloc, component_of(graph, id)?)?;
    match stray_argument(alloc, config.arguments_of(name), &names)? {
        Some(argument) => Err(ComposerError::NoSuchImport(argument.try_clone(alloc)?)),
        None => Ok(()),
    }
}
