//! The steps by which more of a composition is built.

ghost use Rattle.std.specs.Prelude.{◌≡◌, ◌≤◌, ◌<◌, true, false, length, None, IfErr, IfOk, OnOk, bytes_eq, option_copied, option_map, Some};
ghost use Rattle.std.specs.Map.{lookup};
ghost use Rattle.warg_values.specs.Faults.{Rose};
ghost use Rattle.warg_base.specs.Files.{FileMap};
ghost use Rattle.compose_config.specs.View.{settings_of};
ghost use Rattle.compose_graph.specs.Graph.{with_instance};
ghost use Rattle.compose_graph.specs.Listed.{graph_of};
ghost use Rattle.compose_graph.specs.Refusal.{IsInstantiateRefusal};
ghost use Rattle.compose_files.specs.Built.{AfterSteps, IsInstanceFor, IsOffered, IsServed, Serves, instance_of, with_instance_of, with_named};
ghost use Rattle.compose_files.specs.Composed.{HasTurn, ServesAt};
ghost use Rattle.compose_files.specs.Needs.{need_of};
ghost use Rattle.compose_files.specs.Refusals.{IsGraphRefusal, IsInstanceRefusal, IsLeaveRefusal, IsNotMade, IsOfferRefusal, IsServeRefusal, IsTakeRefusal, is_failure};
ghost use Rattle.compose_files.specs.Refused.{IsTurnRefusal, StopsAtImport};
ghost use Rattle.compose_files.specs.View.{built_of, sources};

use crate::arguments::{check_arguments, import_names};
use crate::builder::Builder;
use crate::choice::{chosen, component_of, connect};
use crate::error::ComposerError;
use crate::find::component_for;
use crate::need::Need;
use crate::offer::Offer;
use compose_config::{Config, argument_for};
use compose_graph::{
    ComponentId, CompositionGraph, ExportIndex, GraphError, ImportIndex, InstanceId,
};
use std::alloc::Global;
use warg_base::{Files, Text};

/// Makes an instance of a component.
fn make(
    graph: &mut CompositionGraph<'_>,
    component: ComponentId,
) -> Result<InstanceId, ComposerError>
    ensures id { IfOk result (λ id. id.0 ≡ (graph_of graph.old).next_instance) }
    ensures made { OnOk result (graph_of graph.new ≡ with_instance (graph_of graph.old) component.0) }
    ensures refused { IfErr result (IsGraphRefusal (IsInstantiateRefusal (graph_of graph.old) component.0)) }
{
    match graph.instantiate(component) {
        Ok(id) => Ok(id),
        Err(GraphError::Memory) => Err(ComposerError::Memory),
        Err(error) => Err(ComposerError::Graph(error)),
    }
}

/// Makes an instance of a component, under a name that no instance has.
pub fn make_named(
    builder: &mut Builder<'_>,
    alloc: Global,
    name: &str,
    component: ComponentId,
) -> Result<InstanceId, ComposerError>
    requires { lookup (λ k. bytes_eq name.now k) (built_of builder.old).named ≡ None }
    ensures id { IfOk result (λ id. id.0 ≡ (built_of builder.old).graph.next_instance) }
    ensures made { OnOk result (built_of builder.new ≡ with_named (built_of builder.old) name.now component.0) }
    ensures refused { IfErr result
        (IsGraphRefusal (IsInstantiateRefusal (built_of builder.old).graph component.0)) }
{
    let name = Text::copy_of(alloc, name)?;
    let id = make(&mut builder.graph, component)?;
    builder.named.insert(name, id.0)?;
    Ok(id)
}

/// The instance of a name, where its component is found.
fn instance_for<F: Files>(
    builder: &mut Builder<'_>,
    alloc: Global,
    files: &mut F,
    config: &Config,
    name: &Text,
) -> Result<Option<InstanceId>, ComposerError>
    ensures never_falls { F.faults files.old ≤ F.faults files.new }
    ensures kept { F.told files.new ≡ F.told files.old }
    ensures found { IfOk result (λ id. (held : FileMap) → F.told files.old ≡ Some held
        → IsInstanceFor (sources config.now held) name.now (built_of builder.old) (option_map (λ i. i.0) id)
        (built_of builder.new)) }
    ensures refused { IfErr result (λ e. (held : FileMap) → F.told files.old ≡ Some held
        → IsInstanceRefusal (sources config.now held) name.now (built_of builder.old) e) }
    ensures failed { IfErr result
        (λ e. is_failure e ≡ true → Rose (F.faults files.old) (F.faults files.new)) }
{
    if let Some(id) = builder.named.get(name) {
        return Ok(Some(InstanceId(*id)));
    }
    let component_name = config.dependency_of(name);
    let Some(component) = component_for(&mut builder.graph, alloc, files, config, component_name)?
    else {
        return Ok(None);
    };
    let id = make_named(builder, alloc, name.as_str(), component)?;
    Ok(Some(id))
}

/// Leaves an import, for which no component is found.
fn leave(
    alloc: Global,
    config: &Config,
    name: &Text,
    export: Option<&Text>,
) -> Result<(), ComposerError>
    ensures allowed { OnOk result ((settings_of config.now).disallow_imports ≡ false) }
    ensures no_export { OnOk result (option_copied export.entry ≡ None) }
    ensures refused { IfErr result (IsLeaveRefusal (settings_of config.now)
        (record { instance = name.now; export = option_copied export.entry })) }
{
    if config.disallow_imports {
        let component = config.dependency_of(name).try_clone(alloc)?;
        return Err(ComposerError::NotFound(component));
    }
    match export {
        Some(export) => Err(ComposerError::ExportOnImported(export.try_clone(alloc)?)),
        None => Ok(()),
    }
}

/// Serves an import by an instance of this name, or an export of it, where the instance's component is found.
fn take_instance<F: Files>(
    builder: &mut Builder<'_>,
    alloc: Global,
    files: &mut F,
    config: &Config,
    need: &Need<'_>,
    name: &Text,
    export: Option<&Text>,
) -> Result<(), ComposerError>
    ensures never_falls { F.faults files.old ≤ F.faults files.new }
    ensures kept { F.told files.new ≡ F.told files.old }
    ensures served { OnOk result ((held : FileMap) → F.told files.old ≡ Some held
        → IsServed (sources config.now held) (need_of need.now)
        (record { instance = name.now; export = option_copied export.entry }) (built_of builder.old)
        (built_of builder.new)) }
    ensures refused { IfErr result (λ e. (held : FileMap) → F.told files.old ≡ Some held
        → IsTakeRefusal (sources config.now held) (need_of need.now)
        (record { instance = name.now; export = option_copied export.entry }) (built_of builder.old) e) }
    ensures failed { IfErr result
        (λ e. is_failure e ≡ true → Rose (F.faults files.old) (F.faults files.new)) }
{
    let is_new = builder.named.get(name).is_none();
    let Some(source) = instance_for(builder, alloc, files, config, name)? else {
        return leave(alloc, config, name, export);
    };
    let given = chosen(alloc, &builder.graph, source, export, need)?;
    connect(&mut builder.graph, alloc, source, given, need)?;
    if is_new {
        check_arguments(alloc, &builder.graph, config, name, source)?;
    }
    Ok(())
}

/// The instance of a definition, which is made at its first need.
fn instance_of(builder: &mut Builder<'_>, component: usize) -> Result<InstanceId, ComposerError>
    ensures id { IfOk result (λ id. id.0 ≡ instance_of (built_of builder.old) component) }
    ensures made { OnOk result (built_of builder.new ≡ with_instance_of (built_of builder.old) component) }
    ensures refused { IfErr result (IsGraphRefusal (IsNotMade (built_of builder.old) component)) }
{
    if let Some(id) = builder.made.get(&component) {
        return Ok(InstanceId(*id));
    }
    let id = make(&mut builder.graph, ComponentId(component))?;
    builder.made.insert(component, id.0)?;
    Ok(id)
}

/// Serves an import by what a definition has for it.
fn take_offer(
    builder: &mut Builder<'_>,
    alloc: Global,
    need: &Need<'_>,
    offer: Offer,
) -> Result<(), ComposerError>
    ensures offered { OnOk result (IsOffered (need_of need.now) offer (built_of builder.old) (built_of builder.new)) }
    ensures refused { IfErr result (IsOfferRefusal (need_of need.now) offer (built_of builder.old)) }
{
    let source = instance_of(builder, offer.component)?;
    connect(
        &mut builder.graph,
        alloc,
        source,
        Some(ExportIndex(offer.export)),
        need,
    )
}

/// Serves an import.
fn serve<F: Files>(
    builder: &mut Builder<'_>,
    alloc: Global,
    files: &mut F,
    config: &Config,
    need: &Need<'_>,
) -> Result<(), ComposerError>
    ensures never_falls { F.faults files.old ≤ F.faults files.new }
    ensures kept { F.told files.new ≡ F.told files.old }
    ensures served { OnOk result ((held : FileMap) → F.told files.old ≡ Some held
        → Serves (sources config.now held) (need_of need.now) (built_of builder.old) (built_of builder.new)) }
    ensures refused { IfErr result (λ e. (held : FileMap) → F.told files.old ≡ Some held
        → IsServeRefusal (sources config.now held) (need_of need.now) (built_of builder.old) e) }
    ensures failed { IfErr result
        (λ e. is_failure e ≡ true → Rose (F.faults files.old) (F.faults files.new)) }
{
    if let Some(offer) = builder.offers.get(need.name) {
        let offer = *offer;
        return take_offer(builder, alloc, need, offer);
    }
    match argument_for(config.arguments_of(need.instance), need.name) {
        Some(argument) => take_instance(
            builder,
            alloc,
            files,
            config,
            need,
            &argument.instance,
            argument.export.as_ref(),
        ),
        None => take_instance(builder, alloc, files, config, need, need.name, None),
    }
}

/// Serves the imports of an instance, in their order.
fn serve_each<F: Files>(
    builder: &mut Builder<'_>,
    alloc: Global,
    files: &mut F,
    config: &Config,
    instance: &Text,
    target: InstanceId,
    names: &[Text],
) -> Result<(), ComposerError>
    ensures never_falls { F.faults files.old ≤ F.faults files.new }
    ensures kept { F.told files.new ≡ F.told files.old }
    ensures served { OnOk result ((held : FileMap) → F.told files.old ≡ Some held
        → AfterSteps (ServesAt (sources config.now held) instance.now target.0 names.now) (built_of builder.old)
        (length names.now) (built_of builder.new)) }
    ensures refused { IfErr result (λ e. (held : FileMap) → F.told files.old ≡ Some held
        → StopsAtImport (sources config.now held) instance.now target.0 names.now (built_of builder.old) e) }
    ensures failed { IfErr result
        (λ e. is_failure e ≡ true → Rose (F.faults files.old) (F.faults files.new)) }
{
    for place in 0..names.len() {
        let need = Need {
            instance,
            target,
            place: ImportIndex(place),
            name: &names[place],
        };
        serve(builder, alloc, files, config, &need)?;
    }
    Ok(())
}

/// Has the named instance of a place take its turn: its imports are served.
pub fn take_turn<F: Files>(
    builder: &mut Builder<'_>,
    alloc: Global,
    files: &mut F,
    config: &Config,
    place: usize,
) -> Result<(), ComposerError>
    requires { place < length (built_of builder.old).named }
    ensures never_falls { F.faults files.old ≤ F.faults files.new }
    ensures kept { F.told files.new ≡ F.told files.old }
    ensures served { OnOk result ((held : FileMap) → F.told files.old ≡ Some held
        → HasTurn (sources config.now held) place (built_of builder.old) (built_of builder.new)) }
    ensures refused { IfErr result (λ e. (held : FileMap) → F.told files.old ≡ Some held
        → IsTurnRefusal (sources config.now held) place (built_of builder.old) e) }
    ensures failed { IfErr result
        (λ e. is_failure e ≡ true → Rose (F.faults files.old) (F.faults files.new)) }
{
    let Some((name, id)) = builder.named.get_index(place) else {
        unreachable!()
    };
    let name = name.try_clone(alloc)?;
    let target = InstanceId(*id);
    let names = import_names(alloc, component_of(&builder.graph, target)?)?;
    serve_each(builder, alloc, files, config, &name, target, &names)
}
