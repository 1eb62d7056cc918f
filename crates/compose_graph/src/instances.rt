//! The instances of a graph.

ghost use Rattle.std.specs.Prelude.{◌≡◌, ◌↔◌, ◌<◌, ◌++◌, ◌∷◌, [], ◌==◌, false, suc, IfOk, IsTrue, OnErr, filter, map, not, option_map};
ghost use Rattle.compose_graph.specs.Wiring.{instance_id};
ghost use Rattle.compose_graph.specs.Graph.{instance_at, is_of};

use std::alloc::Global;
use std::collections::BTreeMap;
use std::marker::Model;
use warg_values::Memory;

/// Instances, each under its number.
///
/// A clause sees the list of them, in the order made, and how many numbers were given.
#[derive(Drop)]
pub struct Instances {
    /// The number of the component of each.
    components: BTreeMap<usize, usize>,
    /// The number of the next one.
    next: usize,
}

impl Model for Instances {
    ghost use Rattle.std.specs.Map.{keys_of};
    ghost use Rattle.compose_graph.specs.Kept.{CountUp};
    ghost use Rattle.compose_graph.specs.Listed.{InstanceList, instance_list};

    ghost Value = { InstanceList };

    ghost view = { λ i. instance_list i.components.entries i.next };

    ghost invariant = { λ i. CountUp 0 (keys_of i.components.entries) i.next };
}

impl Instances {
    /// No instances.
    pub fn new(alloc: Global) -> Self
        ensures { result ≡ record { entries = []; next = 0 } }
    {
        Instances {
            components: BTreeMap::new(alloc),
            next: 0,
        }
    }

    /// The number of the component of an instance, where it is there.
    pub fn component_of(&self, id: usize) -> Option<usize>
        ensures { result ≡ option_map (λ i. i.component) (instance_at self.now.entries id) }
    {
        self.components.get(&id).copied()
    }

    /// The numbers of the instances, in the order made.
    pub fn ids(&self, alloc: Global) -> Result<Vec<usize>, Memory>
        ensures { IfOk result (λ ids. ids.items ≡ map instance_id self.now.entries) }
    {
        let mut ids = Vec::new(alloc);
        for (id, _) in &self.components {
            ids.push(*id)?;
        }
        Ok(ids)
    }

    /// The numbers of their components.
    pub fn components(&self, alloc: Global) -> Result<Vec<usize>, Memory>
        ensures { IfOk result (λ ids. ids.items ≡ map (λ i. i.component) self.now.entries) }
    {
        let mut ids = Vec::new(alloc);
        for (_, component) in &self.components {
            ids.push(*component)?;
        }
        Ok(ids)
    }

    /// Whether an instance is one of a component.
    pub fn is_of(&self, component: usize, id: usize) -> bool
        ensures { result ≡ is_of self.now.entries component id }
    {
        match self.component_of(id) {
            Some(of) => of == component,
            None => false,
        }
    }

    /// Whether all numbers were given.
    pub fn is_full(&self) -> bool
        ensures full { IsTrue result ↔ (self.now.next ≡ usize.MAX) }
        ensures room { result ≡ false → self.now.next < usize.MAX }
    {
        self.next == usize::MAX
    }

    /// Adds an instance of a component, under the next number. A refusal changes nothing.
    pub fn add(&mut self, component: usize) -> Result<usize, Memory>
        requires { self.old.next < usize.MAX }
        ensures id { IfOk result (λ id. id ≡ self.old.next) }
        ensures added { IfOk result (λ id. self.new ≡ record {
          entries = self.old.entries ++ (record { id = self.old.next; component = component }) ∷ [];
          next = suc self.old.next;
        }) }
        ensures unchanged { OnErr result (self.new ≡ self.old) }
    {
        let id = self.next;
        self.components.insert(id, component)?;
        self.next += 1;
        Ok(id)
    }

    /// Removes an instance, where it is there.
    pub fn remove(&mut self, id: usize)
        ensures { self.new ≡ record self.old { entries = filter (λ i. not (id == i.id)) self.old.entries } }
    {
        let _component = self.components.remove(&id);
    }

    /// Removes the instances of a component.
    pub fn remove_of(&mut self, component: usize)
        ensures { self.new
            ≡ record self.old { entries = filter (λ i. not (i.component == component)) self.old.entries } }
    {
        self.components.retain(|_, of| *of != component);
    }
}
