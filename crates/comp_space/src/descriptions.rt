//! What descriptions of imports and exports describe, by the types that they name.

ghost use Rattle.std.specs.Prelude.{◌≡◌, ◌<◌, IfOk, length};
ghost use Rattle.comp_entity.specs.Entity.{EntityTree};
ghost use Rattle.comp_scope.specs.Descriptions.{described_component, described_func};
ghost use Rattle.comp_space.specs.Descriptions.{ShowsDescribed, plainly};
ghost use Rattle.comp_space.specs.Faults.{Finds};
ghost use Rattle.comp_space.specs.Heads.{is_component_type, is_func_type};
ghost use Rattle.comp_table.specs.Plain.{plain_entity};
ghost use Rattle.comp_table.specs.Trees.{Extends, Stands};

use crate::error::ScopeError;
use crate::nodes::{around, node};
use crate::parts::both;
use crate::space::Counts;
use crate::standing::Standing;
use comp_table::{Head, TypeTable};
use std::alloc::Global;
use warg_values::Memory;

/// What a description describes, and how many new names are in it.
#[derive(Clone, Copy, Debug)]
pub struct Described {
    /// What it describes.
    pub standing: Standing,
    /// How many resources, and how many places that name types, are new.
    pub brings: Counts,
}

/// A description of an entity of this number, which has the naming bit, without new names.
fn plainly(number: usize) -> Described
    ensures { result ≡ plainly number }
{
    Described {
        standing: Standing {
            number,
            named: true,
        },
        brings: Counts {
            resources: 0,
            places: 0,
        },
    }
}

/// Whether a type of functions has this root.
fn is_func_type(head: &Head) -> bool
    ensures { result ≡ is_func_type head.now }
{
    matches!(head, Head::FuncType)
}

/// Whether a type of components has this root.
fn is_component_type(head: &Head) -> bool
    ensures { result ≡ is_component_type head.now }
{
    matches!(head, Head::ComponentType)
}

/// A function, by what the index of its type stands for. Whatever the answer, the numbers given so far keep their
/// meaning.
pub fn described_func(
    table: &mut TypeTable,
    alloc: Global,
    standing: Standing,
) -> Result<Described, ScopeError>
    requires { standing.number < length table.old }
    ensures extends { Extends table.old table.new }
    ensures found { (e : EntityTree) → Stands table.old standing.number (plain_entity e)
        → Finds (ShowsDescribed table.new) result (described_func (e, standing.named)) }
{
    if !both(standing.named, is_func_type(table.head(standing.number))) {
        return Err(ScopeError::Index);
    }
    let number = around(table, alloc, Head::Func, standing.number)?;
    Ok(plainly(number))
}

/// A copy of some numbers.
fn copied(alloc: Global, numbers: &[usize]) -> Result<Vec<usize>, Memory>
    ensures { IfOk result (λ copy. copy.items ≡ numbers.now) }
{
    let mut copy = Vec::new(alloc);
    copy.extend_from_slice(numbers)?;
    Ok(copy)
}

/// A component, by what the index of its type stands for. Whatever the answer, the numbers given so far keep their
/// meaning.
pub fn described_component(
    table: &mut TypeTable,
    alloc: Global,
    standing: Standing,
) -> Result<Described, ScopeError>
    requires { standing.number < length table.old }
    ensures extends { Extends table.old table.new }
    ensures found { (e : EntityTree) → Stands table.old standing.number (plain_entity e)
        → Finds (ShowsDescribed table.new) result (described_component (e, standing.named)) }
{
    if !is_component_type(table.head(standing.number)) {
        return Err(ScopeError::Index);
    }
    let parts = copied(alloc, table.parts(standing.number))?;
    let number = node(table, alloc, Head::Component, parts)?;
    Ok(plainly(number))
}
