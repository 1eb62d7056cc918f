//! What the indices of a scope stand for.

ghost use Rattle.std.specs.Prelude.{◌≡◌, ◌<◌, List, OnErr, OnOk, length};
ghost use Rattle.comp_entity.specs.Bounds.{bounded};
ghost use Rattle.comp_entity.specs.Entity.{EntityTree};
ghost use Rattle.comp_scope.specs.Spaces.{Spaces, added, no_spaces, placed, sort_of};
ghost use Rattle.comp_space.specs.Faults.{Finds};
ghost use Rattle.comp_space.specs.Heads.{sort_of_head};
ghost use Rattle.comp_space.specs.SpaceViews.{ShowsSpaces};
ghost use Rattle.comp_table.specs.Plain.{plain_entity};
ghost use Rattle.comp_table.specs.Trees.{PlainTree, Stands};

use crate::bounds::check_bounds;
use crate::core_types::CoreStanding;
use crate::error::ScopeError;
use crate::standing::Standing;
use comp_format::{CoreSort, Sort};
use comp_table::{Head, TypeTable};
use std::alloc::Global;
use warg_values::Memory;

/// How many resources, and how many places that named types, a scope has.
#[derive(Clone, Copy, Debug, PartialEq, Eq)]
pub struct Counts {
    /// How many resources.
    pub resources: usize,
    /// How many places that named types.
    pub places: usize,
}

/// How many core items there are of the sorts of which nothing else is known.
#[derive(Clone, Copy, Debug, PartialEq, Eq)]
pub struct CoreCounts {
    /// How many core functions.
    pub funcs: usize,
    /// How many core tables.
    pub tables: usize,
    /// How many core memories.
    pub memories: usize,
    /// How many core globals.
    pub globals: usize,
    /// How many core instances.
    pub instances: usize,
}

/// The index spaces of a scope (`Explainer.md`, "Index Spaces"), with numbers of a table in place of trees.
#[derive(Debug, Drop)]
pub struct Space {
    /// Whether it is a component or a type of components.
    pub is_closed: bool,
    /// How many core items there are.
    pub core: CoreCounts,
    /// The core types, by index.
    pub core_types: Vec<CoreStanding>,
    /// The core modules, by index.
    pub modules: Vec<Standing>,
    /// The functions, by index.
    pub funcs: Vec<Standing>,
    /// The types, by index.
    pub types: Vec<Standing>,
    /// The components, by index.
    pub components: Vec<Standing>,
    /// The instances, by index.
    pub instances: Vec<Standing>,
    /// How many resources and places the imports bring.
    pub brought: Counts,
    /// How many resources and places the scope makes.
    pub made: Counts,
}

impl Space {
    /// A scope at its begin.
    pub fn new(alloc: Global, is_closed: bool) -> Self
        ensures { (table : List PlainTree) → ShowsSpaces table result (no_spaces is_closed) }
    {
        let none = Counts {
            resources: 0,
            places: 0,
        };
        Space {
            is_closed,
            core: CoreCounts {
                funcs: 0,
                tables: 0,
                memories: 0,
                globals: 0,
                instances: 0,
            },
            core_types: Vec::new(alloc),
            modules: Vec::new(alloc),
            funcs: Vec::new(alloc),
            types: Vec::new(alloc),
            components: Vec::new(alloc),
            instances: Vec::new(alloc),
            brought: none,
            made: none,
        }
    }

    /// Puts an entity behind the others of its index space, where it keeps the bounds. A refusal changes nothing.
    pub fn add(&mut self, table: &TypeTable, standing: Standing) -> Result<(), ScopeError>
        requires { standing.number < length table.now }
        ensures found { (s : Spaces) (e : EntityTree)
            → ShowsSpaces table.now self.old s → Stands table.now standing.number (plain_entity e)
            → Finds (λ u. ShowsSpaces table.now self.new) result (added bounded s e standing.named) }
        ensures unchanged { (s : Spaces) → ShowsSpaces table.now self.old s
            → OnErr result (ShowsSpaces table.now self.new s) }
    {
        check_bounds(table, standing.number)?;
        let sort = sort_at(table, standing.number);
        put(self, sort, standing)?;
        Ok(())
    }
}

/// The sort of an entity.
pub fn sort_at(table: &TypeTable, number: usize) -> Sort
    requires { number < length table.now }
    ensures { (e : EntityTree) → Stands table.now number (plain_entity e) → result ≡ sort_of e }
{
    sort_of_head(table.head(number))
}

/// The sort of an entity with this root.
fn sort_of_head(head: &Head) -> Sort
    ensures { result ≡ sort_of_head head.now }
{
    match head {
        Head::Func => Sort::Func,
        Head::Instance => Sort::Instance,
        Head::Component => Sort::Component,
        Head::Module => Sort::Core(CoreSort::Module),
        Head::OwnModule => Sort::Core(CoreSort::Module),
        _ => Sort::Ty,
    }
}

/// Puts an entity of a sort behind the others of its index space. A refusal changes nothing.
fn put(space: &mut Space, sort: Sort, standing: Standing) -> Result<(), Memory>
    ensures placed { (ts : List PlainTree) (s : Spaces) (e : EntityTree)
        → ShowsSpaces ts space.old s → Stands ts standing.number (plain_entity e) → sort ≡ sort_of e
        → OnOk result (ShowsSpaces ts space.new (placed s e standing.named)) }
    ensures unchanged { (ts : List PlainTree) (s : Spaces) → ShowsSpaces ts space.old s
        → OnErr result (ShowsSpaces ts space.new s) }
{
    match sort {
        Sort::Core(_) => {
            space.modules.push(standing)?;
            Ok(())
        }
        Sort::Func => {
            space.funcs.push(standing)?;
            Ok(())
        }
        Sort::Ty => {
            space.types.push(standing)?;
            Ok(())
        }
        Sort::Component => {
            space.components.push(standing)?;
            Ok(())
        }
        Sort::Instance => {
            space.instances.push(standing)?;
            Ok(())
        }
    }
}
