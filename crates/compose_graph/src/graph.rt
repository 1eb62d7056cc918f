//! Composition graphs.

ghost use Rattle.std.specs.Prelude.{◌≡◌, true, IfErr, IfOk, None, OnErr, OnOk, Some, is_some, option_map};
ghost use Rattle.compose_component.specs.Component.{bytes_of, name_of, shape_of};
ghost use Rattle.compose_fit.specs.Wires.{given_of};
ghost use Rattle.compose_graph.specs.Joining.{joining};

use crate::components::Components;
use crate::composed::wires;
use crate::connection::Connection;
use crate::connections::Connections;
use crate::error::GraphError;
use crate::ids::{ComponentId, InstanceId};
use crate::instances::Instances;
use crate::places::Places;
use compose_check::{CheckError, Composition, check};
use compose_component::{Component, ExportIndex, ImportIndex};
use std::alloc::Global;
use std::marker::Model;
use warg_values::Memory;

/// Components, instances of them, and connections between the instances: which instance, or which export of one, is
/// given to which import (Component Model, `Explainer.md`, "Instance Definitions").
///
/// Components and instances have numbers, none of which is given twice. All are kept in the order in which they were
/// added or made.
#[derive(Drop)]
pub struct CompositionGraph<'a> {
    /// The components.
    components: Components<'a>,
    /// The instances.
    pub(crate) instances: Instances,
    /// The connections.
    connections: Connections,
}

impl<'a> Model for CompositionGraph<'a> {
    ghost use Rattle.comp_entity.specs.contracts.entity.Shape as shape;
    ghost use Rattle.compose_graph.specs.Kept.{IsGraph};
    ghost use Rattle.compose_graph.specs.Codes.{held_graph_code};
    ghost use Rattle.compose_graph.specs.Listed.{HeldGraph, graph_of, held_graph};

    ghost Value = { HeldGraph };

    ghost coded = { held_graph_code shape.the_row.coded };

    ghost view = { λ g. held_graph g.components g.instances g.connections };

    ghost invariant = { λ g. IsGraph (graph_of (held_graph g.components g.instances g.connections)) };
}

/// The connection that is asked for.
fn joining(
    source: InstanceId,
    export: Option<ExportIndex>,
    target: InstanceId,
    import: ImportIndex,
) -> Connection
    ensures { result ≡ joining source export target import }
{
    Connection {
        source: source.0,
        export: match export {
            Some(index) => Some(index.0),
            None => None,
        },
        target: target.0,
        import: import.0,
    }
}

/// Whether a component has what is to be given: an export of this place, or all of them.
fn gives(component: &Component<'_>, export: Option<usize>) -> bool
    ensures { result ≡ is_some (given_of (shape_of component.now) export) }
{
    match export {
        Some(place) => place < component.types().exports.len(),
        None => true,
    }
}

impl<'a> CompositionGraph<'a> {
    ghost use Rattle.compose_graph.specs.Graph.{component_at, component_named, component_of, connect_fault, instance_at, no_graph, with_component, with_connection, with_instance, without_component, without_connection, without_instance};
    ghost use Rattle.compose_check.specs.Composition.{composition_tree};
    ghost use Rattle.compose_graph.specs.Composed.{composed};
    ghost use Rattle.compose_graph.specs.Judged.{CanBeWritten, IsJudgement};
    ghost use Rattle.compose_graph.specs.Joining.{joining};
    ghost use Rattle.compose_graph.specs.Kept.{IsGraph};
    ghost use Rattle.compose_graph.specs.Faults.{fault_at};
    ghost use Rattle.compose_graph.specs.Listed.{entry_of, graph_of};
    ghost use Rattle.compose_graph.specs.Refusal.{IsAddRefusal, IsConnectRefusal, IsDisconnectRefusal, IsInstantiateRefusal};

    /// A graph with nothing in it.
    pub fn new(alloc: Global) -> Self
        ensures { graph_of result ≡ no_graph }
    {
        CompositionGraph {
            components: Components::new(alloc),
            instances: Instances::new(alloc),
            connections: Connections::new(alloc),
        }
    }

    /// Adds a component.
    ///
    /// `NameExists` is answered exactly where a component has its name, and `IdLimit` exactly where else no number is
    /// left. A refusal drops the component, and changes nothing else.
    pub fn add_component(
        &mut self,
        alloc: Global,
        component: Component<'a>,
    ) -> Result<ComponentId, GraphError>
        ensures id { IfOk result (λ id. id.0 ≡ (graph_of self.old).next_component) }
        ensures added { OnOk result (graph_of self.new ≡ with_component (graph_of self.old) (name_of component.entry)
            (bytes_of component.entry) (shape_of component.entry)) }
        ensures free { OnOk result (component_named (graph_of self.old).components (name_of component.entry) ≡ None) }
        ensures refused { IfErr result (IsAddRefusal (graph_of self.old) (name_of component.entry)) }
        ensures unchanged { OnErr result (graph_of self.new ≡ graph_of self.old) }
        ensures kept { IsGraph (graph_of self.new) }
    {
        if self.components.find(component.name()).is_some() {
            return Err(GraphError::NameExists(component.into_name()));
        }
        if self.components.is_full() {
            return Err(GraphError::IdLimit);
        }
        let id = self.components.add(alloc, component)?;
        Ok(ComponentId(id))
    }

    /// The component of a number, where it is there.
    pub fn get_component(&self, id: ComponentId) -> Option<&Component<'a>>
        ensures { option_map (λ c. entry_of id.0 c.now) result
            ≡ component_at (graph_of self.now).components id.0 }
    {
        self.components.get(id.0)
    }

    /// The component of a name, with its number, where it is there.
    pub fn get_component_by_name(&self, name: &str) -> Option<(ComponentId, &Component<'a>)>
        ensures { option_map (λ c. entry_of c.0.0 c.1.now) result
            ≡ component_named (graph_of self.now).components name.now }
    {
        let id = self.components.find(name)?;
        let component = self.components.get(id)?;
        Some((ComponentId(id), component))
    }

    /// The component of which this is an instance, with its number, where the instance is there.
    pub fn get_component_of_instance(
        &self,
        instance: InstanceId,
    ) -> Option<(ComponentId, &Component<'a>)>
        ensures { option_map (λ c. entry_of c.0.0 c.1.now) result
            ≡ component_of (graph_of self.now) instance.0 }
    {
        let id = self.instances.component_of(instance.0)?;
        let component = self.components.get(id)?;
        Some((ComponentId(id), component))
    }

    /// The graph as a composition: its components, instances and connections by their places.
    pub fn composition(&self, alloc: Global) -> Result<Composition<'_>, Memory>
        ensures { IfOk result (λ c. composition_tree c ≡ composed (graph_of self.now)) }
    {
        let component_ids = self.components.ids(alloc)?;
        let instance_ids = self.instances.ids(alloc)?;
        let made_of = self.instances.components(alloc)?;
        let components = Places::of(alloc, &component_ids)?;
        let instances = Places::of(alloc, &instance_ids)?;
        Ok(Composition {
            components: self.components.list(alloc)?,
            instances: components.each(alloc, &made_of)?,
            wires: wires(alloc, &instances, self.connections.list())?,
        })
    }

    /// Checks whether the graph can be written.
    ///
    /// `Cycle` is answered where instances are given to each other in a circle, with the number of the one that was made
    /// last on a circle, and the name of its component; `Incompatible` where else a connection does not fit with the
    /// origins of resources in place of their names, or where what is left open does not agree.
    pub fn check(&self, alloc: Global) -> Result<(), CheckError>
        ensures sound { OnOk result (CanBeWritten (graph_of self.now)) }
        ensures refused { IfErr result (IsJudgement (graph_of self.now)) }
    {
        let ids = self.instances.ids(alloc)?;
        let composition = self.composition(alloc)?;
        match check(alloc, &composition) {
            Ok(_agreed) => Ok(()),
            Err(CheckError::Cycle(place, name)) => Err(CheckError::Cycle(ids[place], name)),
            Err(CheckError::Incompatible(why)) => Err(CheckError::Incompatible(why)),
            Err(CheckError::Memory) => Err(CheckError::Memory),
        }
    }

    /// Removes a component, its instances, and their connections. What is not there is left alone.
    pub fn remove_component(&mut self, id: ComponentId)
        ensures removed { graph_of self.new ≡ without_component (graph_of self.old) id.0 }
        ensures kept { IsGraph (graph_of self.new) }
    {
        self.connections.remove_of_component(&self.instances, id.0);
        self.instances.remove_of(id.0);
        self.components.remove(id.0);
    }

    /// Removes an instance and its connections. What is not there is left alone.
    pub fn remove_instance(&mut self, id: InstanceId)
        ensures removed { graph_of self.new ≡ without_instance (graph_of self.old) id.0 }
        ensures kept { IsGraph (graph_of self.new) }
    {
        self.connections.remove_of_instance(id.0);
        self.instances.remove(id.0);
    }

    /// Makes an instance of a component.
    ///
    /// `NoComponent` is answered exactly where the component is not there, and `IdLimit` exactly where else no number
    /// is left. A refusal changes nothing.
    pub fn instantiate(&mut self, id: ComponentId) -> Result<InstanceId, GraphError>
        ensures id { IfOk result (λ instance. instance.0 ≡ (graph_of self.old).next_instance) }
        ensures made { OnOk result (graph_of self.new ≡ with_instance (graph_of self.old) id.0) }
        ensures there { OnOk result (is_some (component_at (graph_of self.old).components id.0) ≡ true) }
        ensures refused { IfErr result (IsInstantiateRefusal (graph_of self.old) id.0) }
        ensures unchanged { OnErr result (graph_of self.new ≡ graph_of self.old) }
        ensures kept { IsGraph (graph_of self.new) }
    {
        if self.components.get(id.0).is_none() {
            return Err(GraphError::NoComponent);
        }
        if self.instances.is_full() {
            return Err(GraphError::IdLimit);
        }
        let instance = self.instances.add(id.0)?;
        Ok(InstanceId(instance))
    }

    /// Whether an instance, or an export of one, can be given to an import of another instance.
    ///
    /// Of the causes of a refusal the first is answered that holds: the instances are one; the source, then the target
    /// is not there; the target's component has no such import; something is given to it already; the source's
    /// component has no such export; what is given does not fit what is asked for. Resources are taken as one here.
    pub fn validate_connection(
        &self,
        alloc: Global,
        source: InstanceId,
        source_export: Option<ExportIndex>,
        target: InstanceId,
        target_import: ImportIndex,
    ) -> Result<(), GraphError>
        ensures fits { OnOk result
            (connect_fault (graph_of self.now) (joining source source_export target target_import) ≡ None) }
        ensures refused { IfErr result
            (IsConnectRefusal (connect_fault (graph_of self.now) (joining source source_export target target_import))) }
    {
        let connection = joining(source, source_export, target, target_import);
        if connection.source == connection.target {
            return Err(GraphError::SelfConnection);
        }
        let Some(giving) = self.get_component_of_instance(source) else {
            return Err(GraphError::NoSource);
        };
        let Some(asking) = self.get_component_of_instance(target) else {
            return Err(GraphError::NoTarget);
        };
        self.validate_between(alloc, connection, giving, asking)
    }

    /// Whether a connection can be made between instances of these components, which are not one.
    fn validate_between(
        &self,
        alloc: Global,
        connection: Connection,
        giving: (ComponentId, &Component<'a>),
        asking: (ComponentId, &Component<'a>),
    ) -> Result<(), GraphError>
        requires giving { component_at (graph_of self.now).components giving.0.0
            ≡ Some (entry_of giving.0.0 giving.1.now) }
        requires asking { component_at (graph_of self.now).components asking.0.0
            ≡ Some (entry_of asking.0.0 asking.1.now) }
        ensures fits { OnOk result
            (fault_at (graph_of self.now) connection giving.entry.1.now asking.entry.1.now ≡ None) }
        ensures refused { IfErr result
            (IsConnectRefusal (fault_at (graph_of self.now) connection giving.entry.1.now asking.entry.1.now)) }
    {
        if connection.import >= asking.1.types().imports.len() {
            return Err(GraphError::BadImportIndex);
        }
        if self
            .connections
            .is_connected(connection.target, connection.import)
        {
            return Err(GraphError::AlreadyConnected);
        }
        if !gives(giving.1, connection.export) {
            return Err(GraphError::BadExportIndex);
        }
        let fits = self.components.fits(
            alloc,
            giving.0.0,
            connection.export,
            asking.0.0,
            connection.import,
        )?;
        if fits {
            Ok(())
        } else {
            Err(GraphError::NotCompatible)
        }
    }

    /// Gives an instance, or an export of one, to an import of another instance. A refusal, by the causes of
    /// [`CompositionGraph::validate_connection`], changes nothing.
    pub fn connect(
        &mut self,
        alloc: Global,
        source: InstanceId,
        source_export: Option<ExportIndex>,
        target: InstanceId,
        target_import: ImportIndex,
    ) -> Result<(), GraphError>
        ensures fits { OnOk result
            (connect_fault (graph_of self.old) (joining source source_export target target_import) ≡ None) }
        ensures connected { OnOk result (graph_of self.new
            ≡ with_connection (graph_of self.old) (joining source source_export target target_import)) }
        ensures refused { IfErr result
            (IsConnectRefusal (connect_fault (graph_of self.old) (joining source source_export target target_import))) }
        ensures unchanged { OnErr result (graph_of self.new ≡ graph_of self.old) }
        ensures kept { IsGraph (graph_of self.new) }
    {
        self.validate_connection(alloc, source, source_export, target, target_import)?;
        let connection = joining(source, source_export, target, target_import);
        self.connections.add(connection)?;
        Ok(())
    }

    /// Takes what an instance gives to an import of another instance away from it. Where that import is given something
    /// else, or nothing, it is left alone.
    ///
    /// `NoSource` is answered exactly where the source is not there, and `NoTarget` exactly where else the target is
    /// not. A refusal changes nothing.
    pub fn disconnect(
        &mut self,
        source: InstanceId,
        target: InstanceId,
        target_import: ImportIndex,
    ) -> Result<(), GraphError>
        ensures disconnected { OnOk result (graph_of self.new
            ≡ without_connection (graph_of self.old) source.0 target.0 target_import.0) }
        ensures source { OnOk result (is_some (instance_at (graph_of self.old).instances source.0) ≡ true) }
        ensures target { OnOk result (is_some (instance_at (graph_of self.old).instances target.0) ≡ true) }
        ensures refused { IfErr result (IsDisconnectRefusal (graph_of self.old) source.0 target.0) }
        ensures unchanged { OnErr result (graph_of self.new ≡ graph_of self.old) }
        ensures kept { IsGraph (graph_of self.new) }
    {
        if self.instances.component_of(source.0).is_none() {
            return Err(GraphError::NoSource);
        }
        if self.instances.component_of(target.0).is_none() {
            return Err(GraphError::NoTarget);
        }
        self.connections
            .remove_between(source.0, target.0, target_import.0);
        Ok(())
    }
}
