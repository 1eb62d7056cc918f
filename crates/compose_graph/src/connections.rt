//! The connections of a graph.

ghost use Rattle.std.specs.Prelude.{◌≡◌, ◌++◌, ◌∷◌, [], ◌==◌, ◌||◌, None, OnOk, OnErr, filter, is_some, not};
ghost use Rattle.compose_graph.specs.Found.{AreFound};
ghost use Rattle.compose_graph.specs.Graph.{connection_into, is_between, is_of, touches, touches_any_of};

use crate::connection::Connection;
use crate::instances::Instances;
use compose_left::Input;
use std::alloc::Global;
use std::collections::BTreeMap;
use std::marker::Model;
use warg_values::Memory;

/// Connections, of which no two go into one import.
///
/// A clause sees the list of them, in the order made.
#[derive(Drop)]
pub struct Connections {
    /// The connections, in the order made.
    list: Vec<Connection>,
    /// The number of the instance that is given to each import.
    sources: BTreeMap<Input, usize>,
}

impl Model for Connections {
    ghost use Rattle.std.specs.Prelude.{List};
    ghost use Rattle.compose_graph.specs.declared.connection.Connection.{Connection};
    ghost use Rattle.compose_graph.specs.Found.{AreFound};

    ghost Value = { List Connection };

    ghost view = { λ c. c.list.items };

    ghost invariant = { λ c. AreFound c.list.items c.sources };
}

/// Whether a connection comes from an instance, or goes to it.
fn touches(source: usize, target: usize, id: usize) -> bool
    ensures { result ≡ ((source == id) || (target == id)) }
{
    source == id || target == id
}

/// Whether a connection comes from an instance of a component, or goes to one.
fn touches_any(instances: &Instances, component: usize, source: usize, target: usize) -> bool
    ensures { result
        ≡ (is_of instances.now.entries component source || is_of instances.now.entries component target) }
{
    instances.is_of(component, source) || instances.is_of(component, target)
}

/// Adds a connection into an import to which nothing is given.
fn add_to(
    list: &mut Vec<Connection>,
    sources: &mut BTreeMap<Input, usize>,
    connection: Connection,
) -> Result<(), Memory>
    requires found { AreFound list.old.items sources.old }
    requires free { connection_into list.old.items connection.target connection.import ≡ None }
    ensures found { AreFound list.new.items sources.new }
    ensures added { OnOk result (list.new.items ≡ list.old.items ++ connection ∷ []) }
    ensures unchanged { OnErr result (list.new.items ≡ list.old.items) }
{
    let input = Input {
        target: connection.target,
        import: connection.import,
    };
    sources.insert(input, connection.source)?;
    match list.push(connection) {
        Ok(()) => Ok(()),
        Err(_) => {
            let _source = sources.remove(&input);
            Err(Memory)
        }
    }
}

impl Connections {
    /// No connections.
    pub fn new(alloc: Global) -> Self
        ensures { result ≡ [] }
    {
        Connections {
            list: Vec::new(alloc),
            sources: BTreeMap::new(alloc),
        }
    }

    /// The connections, in the order made.
    pub fn list(&self) -> &[Connection]
        ensures { result.now ≡ self.now }
    {
        &self.list
    }

    /// Whether something is given to an import.
    pub fn is_connected(&self, target: usize, import: usize) -> bool
        ensures { result ≡ is_some (connection_into self.now target import) }
    {
        self.sources.contains_key(&Input { target, import })
    }

    /// Adds a connection into an import to which nothing is given. A refusal changes nothing.
    pub fn add(&mut self, connection: Connection) -> Result<(), Memory>
        requires { connection_into self.old connection.target connection.import ≡ None }
        ensures added { OnOk result (self.new ≡ self.old ++ connection ∷ []) }
        ensures unchanged { OnErr result (self.new ≡ self.old) }
    {
        add_to(&mut self.list, &mut self.sources, connection)
    }

    /// Removes what an instance gives to an import of another one.
    pub fn remove_between(&mut self, source: usize, target: usize, import: usize)
        ensures { self.new ≡ filter (λ c. not (is_between source target import c)) self.old }
    {
        self.list.retain(|c| { !(c.source == source && c.target == target && c.import == import) });
        self.sources.retain(|input, from| {
            !(*from == source && input.target == target && input.import == import)
        });
    }

    /// Removes the connections from and to the instances of a component.
    pub fn remove_of_component(&mut self, instances: &Instances, component: usize)
        ensures { self.new ≡ filter (λ c. not (touches_any_of instances.now.entries component c)) self.old }
    {
        self.list
            .retain(|c| !touches_any(instances, component, c.source, c.target));
        self.sources.retain(|input, source| !touches_any(
            instances,
            component,
            *source,
            input.target,
        ));
    }

    /// Removes the connections from and to an instance.
    pub fn remove_of_instance(&mut self, id: usize)
        ensures { self.new ≡ filter (λ c. not (touches id c)) self.old }
    {
        self.list.retain(|c| !touches(c.source, c.target, id));
        self.sources
            .retain(|input, source| !touches(*source, input.target, id));
    }
}
