//! The namespaces of a registry.

ghost use Rattle.std.specs.Prelude.{◌≡◌, ℕ, List, Some, None, IfOk, OnOk, OnErr, bytes_eq, if◌then◌else◌, option_copied, option_map};
ghost use Rattle.warg_log.specs.Namespaces.{space, namespace_view};

use std::alloc::Global;
use std::collections::BTreeMap;
use warg_values::{Memory, Text};

/// What an operator's log says of a namespace.
#[derive(Debug, Drop)]
pub enum NamespaceState {
    /// This registry holds its packages.
    Defined,
    /// Another registry holds them.
    Imported {
        /// That registry.
        registry: Text,
    },
}

/// The namespaces of a registry, by their names.
#[derive(Debug, Drop)]
pub struct Namespaces {
    pub map: BTreeMap<String, NamespaceState>,
}

impl NamespaceState {
    /// An equal state of its own.
    fn try_clone(&self, alloc: Global) -> Result<Self, Memory>
        ensures { IfOk result (λ copy. namespace_view copy ≡ namespace_view self.now) }
    {
        match self {
            NamespaceState::Defined => Ok(NamespaceState::Defined),
            NamespaceState::Imported { registry } => Ok(NamespaceState::Imported {
                registry: registry.try_clone(alloc)?,
            }),
        }
    }
}

impl Namespaces {
    /// No namespaces.
    pub fn new(alloc: Global) -> Self
        ensures { (n : List ℕ) → space result n ≡ None }
    {
        Namespaces {
            map: BTreeMap::new(alloc),
        }
    }

    /// Equal namespaces of their own.
    pub fn try_clone(&self, alloc: Global) -> Result<Self, Memory>
        ensures { IfOk result (λ copy. (n : List ℕ) → space copy n ≡ space self.now n) }
    {
        let mut copies = Namespaces::new(alloc);
        for (name, state) in &self.map {
            copies.insert(alloc, name.as_str(), state.try_clone(alloc)?)?;
        }
        Ok(copies)
    }

    /// What is known of a namespace.
    pub fn get(&self, namespace: &str) -> Option<&NamespaceState>
        ensures { option_map namespace_view (option_copied result) ≡ space self.now namespace.now }
    {
        self.map.get(namespace)
    }

    /// Puts a namespace in.
    pub fn insert(
        &mut self,
        alloc: Global,
        namespace: &str,
        state: NamespaceState,
    ) -> Result<(), Memory>
        ensures ok { OnOk result ((n : List ℕ)
            → space self.new n ≡ (if bytes_eq namespace.now n then Some (namespace_view state) else space self.old n)) }
        ensures err { OnErr result ((n : List ℕ) → space self.new n ≡ space self.old n) }
    {
        let name = String::from_str(alloc, namespace)?;
        self.map.insert(name, state)?;
        Ok(())
    }

    /// Takes a namespace out.
    pub fn remove(&mut self, namespace: &str)
        ensures { (n : List ℕ) → space self.new n ≡ (if bytes_eq namespace.now n then None else space self.old n) }
    {
        self.map.remove(namespace);
    }
}
