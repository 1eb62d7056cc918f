//! What of an instance is given to an import.

ghost use Rattle.std.specs.Prelude.{◌≡◌, ℕ, List, false, None, Some, IfErr, IfOk, OnOk, option_copied, option_map, slice_get};
ghost use Rattle.std.specs.List.{position_from};
ghost use Rattle.comp_entity.specs.Entity.{EntityTree};
ghost use Rattle.comp_entity.specs.Views.{entity_tree, named_entities};
ghost use Rattle.compose_graph.specs.Graph.{component_of, connect_fault, with_connection};
ghost use Rattle.compose_graph.specs.Listed.{graph_of};
ghost use Rattle.compose_graph.specs.Refusal.{IsConnectRefusal};
ghost use Rattle.compose_component.specs.Component.{shape_of};
ghost use Rattle.compose_files.specs.Built.{IsChosen, IsJudged, connection};
ghost use Rattle.compose_files.specs.Choice.{fits_at, is_instance, is_instance_named};
ghost use Rattle.compose_files.specs.Needs.{need_of};
ghost use Rattle.compose_files.specs.Refusals.{IsChoiceRefusal, IsGraphRefusal, IsJudgeRefusal, IsNeedRefusal, LacksInstance};

use crate::error::ComposerError;
use crate::need::Need;
use comp_entity::Entity;
use comp_shape::laws::one_shape;
use compose_component::laws::a_component_has_the_shape_of_its_bytes;
use compose_graph::{
    Component, CompositionGraph, ExportIndex, GraphError, ImportIndex, InstanceId,
};
use std::alloc::Global;
use warg_base::{Memory, Text};

/// Whether an entity is an instance.
pub fn is_instance(entity: &Entity) -> bool
    ensures { result ≡ is_instance (entity_tree entity.now) }
{
    match entity {
        Entity::Instance(_) => true,
        Entity::Func(_) => false,
        Entity::Component(_) => false,
        Entity::Module(_) => false,
        Entity::Ty(_) => false,
    }
}

/// The place of the export of a name, where it is an instance.
fn instance_export(exports: &[(Text, Entity)], name: &str) -> Option<usize>
    ensures { result ≡ position_from (is_instance_named name.now) 0 (named_entities exports.now) }
{
    for place in 0..exports.len() {
        let (key, entity) = &exports[place];
        if key.as_str() == name && is_instance(entity) {
            return Some(place);
        }
    }
    None
}

/// The component of which an instance is made.
pub fn component_of<'g, 'a>(
    graph: &'g CompositionGraph<'a>,
    id: InstanceId,
) -> Result<&'g Component<'a>, ComposerError>
    ensures found { IfOk result
        (λ c. option_map (λ e. e.shape) (component_of (graph_of graph.now) id.0) ≡ Some (shape_of c.now)) }
    ensures refused { IfErr result (IsGraphRefusal (LacksInstance (graph_of graph.now) id.0)) }
{
    match graph.get_component_of_instance(id) {
        Some((_, component)) => Ok(component),
        None => Err(ComposerError::Graph(GraphError::NoSource)),
    }
}

/// Whether a component, or an export of it, fits an import of its own, as between two instances of it.
fn fits_itself(
    alloc: Global,
    component: &Component<'_>,
    export: Option<ExportIndex>,
    import: ImportIndex,
) -> Result<bool, Memory>
    ensures { IfOk result (λ good. (asked : List ℕ × EntityTree)
        → slice_get (shape_of component.now).imports import.0 ≡ Some asked
        → fits_at (shape_of component.now) asked.1 (option_map (λ e. e.0) export) ≡ good) }
{
    a_component_has_the_shape_of_its_bytes();
    one_shape();
    let mut graph = CompositionGraph::new(alloc);
    // These are the bytes of a component, and the graph has room, so that memory alone can be wanting.
    let Ok(copy) = Component::from_bytes(alloc, component.name(), component.bytes()) else {
        return Err(Memory);
    };
    let Ok(id) = graph.add_component(alloc, copy) else {
        return Err(Memory);
    };
    let Ok(source) = graph.instantiate(id) else {
        return Err(Memory);
    };
    let Ok(target) = graph.instantiate(id) else {
        return Err(Memory);
    };
    match graph.validate_connection(alloc, source, export, target, import) {
        Ok(()) => Ok(true),
        Err(error) => match error {
            GraphError::Memory => Err(Memory),
            _ => Ok(false),
        },
    }
}

/// Whether an instance, or an export of it, fits an import of its own.
fn fits_own(
    alloc: Global,
    graph: &CompositionGraph<'_>,
    source: InstanceId,
    export: Option<ExportIndex>,
    need: &Need<'_>,
) -> Result<bool, ComposerError>
    requires { source.0 ≡ (need_of need.now).target }
    ensures judged { IfOk result
        (IsJudged (graph_of graph.now) source.0 (option_map (λ e. e.0) export) (need_of need.now)) }
    ensures refused { IfErr result
        (IsJudgeRefusal (graph_of graph.now) source.0 (option_map (λ e. e.0) export) (need_of need.now)) }
{
    let component = component_of(graph, source)?;
    if need.place.0 >= component.types().imports.len() {
        return Err(need.refused(alloc, GraphError::BadImportIndex));
    }
    Ok(fits_itself(alloc, component, export, need.place)?)
}

/// Whether an instance, or an export of it, fits an import.
fn fits(
    alloc: Global,
    graph: &CompositionGraph<'_>,
    source: InstanceId,
    export: Option<ExportIndex>,
    need: &Need<'_>,
) -> Result<bool, ComposerError>
    ensures judged { IfOk result
        (IsJudged (graph_of graph.now) source.0 (option_map (λ e. e.0) export) (need_of need.now)) }
    ensures refused { IfErr result
        (IsJudgeRefusal (graph_of graph.now) source.0 (option_map (λ e. e.0) export) (need_of need.now)) }
{
    match graph.validate_connection(alloc, source, export, need.target, need.place) {
        Ok(()) => Ok(true),
        Err(error) => match error {
            GraphError::NotCompatible => Ok(false),
            GraphError::SelfConnection => fits_own(alloc, graph, source, export, need),
            error => Err(need.refused(alloc, error)),
        },
    }
}

/// The export of a name, which has to be an instance, and to fit.
fn named_export(
    alloc: Global,
    graph: &CompositionGraph<'_>,
    source: InstanceId,
    name: &Text,
    need: &Need<'_>,
) -> Result<ExportIndex, ComposerError>
    ensures chosen { IfOk result
        (λ e. IsChosen (graph_of graph.now) source.0 (need_of need.now) (Some name.now) (Some e.0)) }
    ensures refused { IfErr result
        (IsChoiceRefusal (graph_of graph.now) source.0 (need_of need.now) (Some name.now)) }
{
    let component = component_of(graph, source)?;
    let Some(place) = instance_export(&component.types().exports, name.as_str()) else {
        return Err(ComposerError::NoSuchExport(name.try_clone(alloc)?));
    };
    if fits(alloc, graph, source, Some(ExportIndex(place)), need)? {
        Ok(ExportIndex(place))
    } else {
        Err(need.refused(alloc, GraphError::NotCompatible))
    }
}

/// The first export that is an instance and fits.
fn fitting_export(
    alloc: Global,
    graph: &CompositionGraph<'_>,
    source: InstanceId,
    need: &Need<'_>,
) -> Result<ExportIndex, ComposerError>
    requires { IsJudged (graph_of graph.now) source.0 None (need_of need.now) false }
    ensures chosen { IfOk result
        (λ e. IsChosen (graph_of graph.now) source.0 (need_of need.now) None (Some e.0)) }
    ensures refused { IfErr result (IsChoiceRefusal (graph_of graph.now) source.0 (need_of need.now) None) }
{
    let exports = &component_of(graph, source)?.types().exports;
    for place in 0..exports.len() {
        if is_instance(&exports[place].1)
            && fits(alloc, graph, source, Some(ExportIndex(place)), need)?
        {
            return Ok(ExportIndex(place));
        }
    }
    Err(need.refused(alloc, GraphError::NotCompatible))
}

/// What of an instance is given to an import, where an argument names an export, or none: that export, and where none is
/// named, the instance as a whole where it fits, or else its first export that is an instance and fits.
pub fn chosen(
    alloc: Global,
    graph: &CompositionGraph<'_>,
    source: InstanceId,
    name: Option<&Text>,
    need: &Need<'_>,
) -> Result<Option<ExportIndex>, ComposerError>
    ensures chosen { IfOk result (λ e. IsChosen (graph_of graph.now) source.0 (need_of need.now)
        (option_copied name.entry) (option_map (λ i. i.0) e)) }
    ensures refused { IfErr result
        (IsChoiceRefusal (graph_of graph.now) source.0 (need_of need.now) (option_copied name.entry)) }
{
    if let Some(name) = name {
        return Ok(Some(named_export(alloc, graph, source, name, need)?));
    }
    if fits(alloc, graph, source, None, need)? {
        return Ok(None);
    }
    Ok(Some(fitting_export(alloc, graph, source, need)?))
}

/// Gives an instance, or an export of it, to an import.
pub fn connect(
    graph: &mut CompositionGraph<'_>,
    alloc: Global,
    source: InstanceId,
    export: Option<ExportIndex>,
    need: &Need<'_>,
) -> Result<(), ComposerError>
    ensures good { OnOk result (connect_fault (graph_of graph.old)
        (connection source.0 (option_map (λ e. e.0) export) (need_of need.now)) ≡ None) }
    ensures connected { OnOk result (graph_of graph.new ≡ with_connection (graph_of graph.old)
        (connection source.0 (option_map (λ e. e.0) export) (need_of need.now))) }
    ensures refused { IfErr result (IsNeedRefusal (need_of need.now)
        (IsConnectRefusal (connect_fault (graph_of graph.old)
        (connection source.0 (option_map (λ e. e.0) export) (need_of need.now))))) }
{
    match graph.connect(alloc, source, export, need.target, need.place) {
        Ok(()) => Ok(()),
        Err(error) => Err(need.refused(alloc, error)),
    }
}
