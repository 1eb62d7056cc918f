//! The components of a graph.

ghost use Rattle.std.specs.Prelude.{◌≡◌, ◌↔◌, ◌<◌, ◌++◌, ◌∷◌, [], ◌==◌, false, ℕ, List, None, Some, suc, IfOk, IsTrue, OnErr, OnOk, filter, map, not, option_map, slice_get, string_bytes};
ghost use Rattle.std.specs.BTreeMap.{Updates, insert_entry, is_at};
ghost use Rattle.std.specs.List.{AllByRecursion};
ghost use Rattle.std.specs.Map.{remove_entry};
ghost use Rattle.std.specs.Ordering.{nat_cmp};
ghost use Rattle.std.specs.String.{string_cmp};
ghost use Rattle.comp_entity.specs.Entity.{EntityTree};
ghost use Rattle.comp_entity.specs.Fits.{fits_loosely};
ghost use Rattle.comp_table.specs.Trees.{PlainTree};
ghost use Rattle.compose_check.specs.Composition.{component_tree};
ghost use Rattle.compose_component.specs.Component.{name_of, shape_of};
ghost use Rattle.compose_fit.specs.Wires.{Given, given_of};
ghost use Rattle.compose_graph.specs.Composed.{composed_component};
ghost use Rattle.compose_graph.specs.Graph.{ComponentEntry, component_at, component_named, given_entity};
ghost use Rattle.compose_graph.specs.Listed.{component_entries, entry_of, held_component};
ghost use Rattle.compose_graph.specs.Loose.{IsLoosened};
ghost use Rattle.compose_graph.specs.Parts.{AreParts, held};

use crate::loose::{is_fit, loose_numbers};
use crate::part::Part;
use comp_table::TypeTable;
use compose_component::Component;
use std::alloc::Global;
use std::collections::BTreeMap;
use std::marker::Model;
use warg_values::Memory;

/// Components, each under its number.
///
/// A clause sees the list of them, in the order added, and how many numbers were given.
#[derive(Drop)]
pub struct Components<'a> {
    /// The components, with what they import and export by number.
    parts: BTreeMap<usize, Part<'a>>,
    /// The number of the component of each name.
    numbers: BTreeMap<String, usize>,
    /// What the numbers of imports and exports stand for.
    table: TypeTable,
    /// The number of the next one.
    next: usize,
}

impl<'a> Model for Components<'a> {
    ghost use Rattle.comp_entity.specs.contracts.entity.Shape as shape;
    ghost use Rattle.compose_graph.specs.Codes.{component_list_code};
    ghost use Rattle.compose_graph.specs.Listed.{ComponentList};
    ghost use Rattle.compose_graph.specs.Parts.{AreParts, held_list};

    ghost Value = { ComponentList };

    ghost coded = { component_list_code shape.the_row.coded };

    ghost view = { λ c. held_list c.parts.entries c.next };

    ghost invariant = { λ c. AreParts c.parts.entries c.numbers c.table c.next };
}

/// Puts a component under a number. A refusal changes nothing.
fn put_part<'a>(
    parts: &mut BTreeMap<usize, Part<'a>>,
    id: usize,
    part: Part<'a>,
) -> Result<(), Memory>
    ensures put { OnOk result (parts.new.entries ≡ insert_entry nat_cmp parts.old.entries id part.entry) }
    ensures unchanged { OnErr result (parts.new.entries ≡ parts.old.entries) }
{
    parts.insert(id, part)?;
    Ok(())
}

/// Takes out the component of a number.
fn take_part(parts: &mut BTreeMap<usize, Part<'_>>, id: usize)
    ensures { parts.new.entries ≡ remove_entry (is_at (nat_cmp id)) parts.old.entries }
{
    let _part = parts.remove(&id);
}

/// Puts a number under a name. A refusal changes nothing.
fn put_number(numbers: &mut BTreeMap<String, usize>, name: String, id: usize) -> Result<(), Memory>
    ensures put { OnOk result (Updates string_cmp numbers.old numbers.new name (Some id)) }
    ensures unchanged { OnErr result (numbers.new.entries ≡ numbers.old.entries) }
{
    numbers.insert(name, id)?;
    Ok(())
}

/// Adds a component under the next number. A refusal changes nothing.
fn add_part<'a>(
    parts: &mut BTreeMap<usize, Part<'a>>,
    numbers: &mut BTreeMap<String, usize>,
    id: usize,
    name: String,
    part: Part<'a>,
) -> Result<(), Memory>
    requires { AllByRecursion (λ e. e.0 < id) parts.old.entries }
    ensures added { IfOk result (λ done. (ts : List PlainTree) → AreParts parts.old.entries numbers.old ts id
        → component_named (component_entries (held parts.old.entries)) (name_of part.entry.component) ≡ None
        → string_bytes name ≡ name_of part.entry.component
        → IsLoosened ts part.entry.loose (shape_of part.entry.component)
        → AreParts parts.new.entries numbers.new ts (suc id)) }
    ensures last { IfOk result (λ done. parts.new.entries ≡ parts.old.entries ++ (id, part.entry) ∷ []) }
    ensures kept { OnErr result ((ts : List PlainTree) → AreParts parts.old.entries numbers.old ts id
        → AreParts parts.new.entries numbers.new ts id) }
    ensures unchanged { OnErr result (parts.new.entries ≡ parts.old.entries) }
{
    put_part(parts, id, part)?;
    match put_number(numbers, name, id) {
        Ok(()) => Ok(()),
        Err(error) => {
            take_part(parts, id);
            Err(error)
        }
    }
}

impl<'a> Components<'a> {
    /// No components.
    pub fn new(alloc: Global) -> Self
        ensures { result ≡ record { entries = []; next = 0 } }
    {
        Components {
            parts: BTreeMap::new(alloc),
            numbers: BTreeMap::new(alloc),
            table: TypeTable::new(alloc),
            next: 0,
        }
    }

    /// The component of a number, where it is there.
    pub fn get(&self, id: usize) -> Option<&Component<'a>>
        ensures { option_map (λ c. entry_of id c.now) result
            ≡ component_at (component_entries self.now.entries) id }
    {
        match self.parts.get(&id) {
            Some(part) => Some(&part.component),
            None => None,
        }
    }

    /// The number of the component of a name, where it is there.
    pub fn find(&self, name: &str) -> Option<usize>
        ensures { result
            ≡ option_map (λ c. c.id) (component_named (component_entries self.now.entries) name.now) }
    {
        self.numbers.get(name).copied()
    }

    /// The numbers of the components, in the order added.
    pub fn ids(&self, alloc: Global) -> Result<Vec<usize>, Memory>
        ensures { IfOk result (λ ids. ids.items ≡ map (λ c. c.id) (component_entries self.now.entries)) }
    {
        let mut ids = Vec::new(alloc);
        for (id, _) in &self.parts {
            ids.push(*id)?;
        }
        Ok(ids)
    }

    /// The components, in the order added.
    pub fn list(&self, alloc: Global) -> Result<Vec<&Component<'a>>, Memory>
        ensures { IfOk result (λ list. map component_tree list.items
            ≡ map composed_component (component_entries self.now.entries)) }
    {
        let mut list = Vec::new(alloc);
        for (_, part) in &self.parts {
            list.push(&part.component)?;
        }
        Ok(list)
    }

    /// Whether all numbers were given.
    pub fn is_full(&self) -> bool
        ensures full { IsTrue result ↔ (self.now.next ≡ usize.MAX) }
        ensures room { result ≡ false → self.now.next < usize.MAX }
    {
        self.next == usize::MAX
    }

    /// Adds a component whose name is free, under the next number. A refusal changes nothing.
    pub fn add(&mut self, alloc: Global, component: Component<'a>) -> Result<usize, Memory>
        requires room { self.old.next < usize.MAX }
        requires free { component_named (component_entries self.old.entries) (name_of component) ≡ None }
        ensures id { IfOk result (λ id. id ≡ self.old.next) }
        ensures added { IfOk result (λ id. self.new ≡ record {
          entries = self.old.entries ++ held_component self.old.next component.entry ∷ [];
          next = suc self.old.next;
        }) }
        ensures unchanged { OnErr result (self.new ≡ self.old) }
    {
        let id = self.next;
        let name = String::from_str(alloc, component.name())?;
        let loose = loose_numbers(&mut self.table, alloc, component.types())?;
        let part = Part { component, loose };
        add_part(&mut self.parts, &mut self.numbers, id, name, part)?;
        self.next += 1;
        Ok(id)
    }

    /// Removes a component, where it is there.
    pub fn remove(&mut self, id: usize)
        ensures { self.new ≡ record self.old { entries = filter (λ c. not (id == c.id)) self.old.entries } }
    {
        if let Some(part) = self.parts.remove(&id) {
            let _number = self.numbers.remove(part.component.name());
        }
    }

    /// Whether what one component exports fits what another one imports, where both are there. All resources are taken
    /// as one.
    pub fn fits(
        &self,
        alloc: Global,
        source: usize,
        export: Option<usize>,
        target: usize,
        import: usize,
    ) -> Result<bool, Memory>
        ensures { IfOk result (λ fits. (s t : ComponentEntry) (given : Given) (asked : List ℕ × EntityTree)
            → component_at (component_entries self.now.entries) source ≡ Some s
            → component_at (component_entries self.now.entries) target ≡ Some t
            → given_of s.shape export ≡ Some given → slice_get t.shape.imports import ≡ Some asked
            → fits ≡ fits_loosely (given_entity given) asked.1) }
    {
        let Some(source) = self.parts.get(&source) else {
            return Ok(false);
        };
        let Some(target) = self.parts.get(&target) else {
            return Ok(false);
        };
        let fits = is_fit(
            &self.table,
            alloc,
            source.loose,
            export,
            target.loose,
            import,
        )?;
        Ok(fits)
    }
}
