//! Scopes with their imports and exports.

ghost use Rattle.std.specs.Prelude.{◌≡◌, ◌<◌, ℕ, IfOk, List, OnErr, length};
ghost use Rattle.comp_declare.specs.Naming.{new_names};
ghost use Rattle.comp_declare.specs.Scopes.{IsScope, ShowsNamed, ShowsEntries, ShowsScope};
ghost use Rattle.comp_entity.specs.Bounds.{bounded};
ghost use Rattle.comp_scope.specs.Descriptions as scope;
ghost use Rattle.comp_scope.specs.Descriptions.{declared_export, described, imported, with_brought, with_made};
ghost use Rattle.comp_scope.specs.Spaces as spaces;
ghost use Rattle.comp_scope.specs.Spaces.{Known, Spaces, counts_sum, if_new, nothing_known};
ghost use Rattle.comp_space.specs.Descriptions.{ShowsDescribed};
ghost use Rattle.comp_space.specs.Faults.{Finds};
ghost use Rattle.comp_space.specs.SpaceViews.{IsSpace, ShowsSpaces, counts};
ghost use Rattle.comp_table.specs.Trees.{Extends, PlainTree};

use crate::descriptions::described;
use crate::entries::{Entries, entry};
use crate::new_names::{NewNames, sum};
use comp_format::TypeRef;
use comp_space::{Counts, Described, ScopeError, Space};
use comp_table::TypeTable;
use std::alloc::Global;
use warg_values::{Memory, Text};

/// What is known of a scope (`Explainer.md`, "Index Spaces"): its index spaces, and its imports and exports.
#[derive(Debug, Drop)]
pub struct Scope {
    /// The index spaces.
    pub space: Space,
    /// The imports.
    pub imports: Entries,
    /// The exports.
    pub exports: Entries,
}

/// An import or an export that is not yet among the others.
#[derive(Debug, Drop)]
pub struct NamedDescription {
    /// What its description describes.
    pub described: Described,
    /// The number of what it is under its name.
    pub number: usize,
    /// Its name, in lower case.
    pub name: Text,
}

/// Counts, and more. `Memory` where no number holds a sum.
pub fn counts_with(first: Counts, more: Counts) -> Result<Counts, Memory>
    ensures { IfOk result (λ c. counts c ≡ counts_sum (counts first) (counts more)) }
{
    let resources = sum(first.resources, more.resources)?;
    let places = sum(first.places, more.places)?;
    Ok(Counts { resources, places })
}

/// Adds what an import brings to the index spaces. A refusal changes nothing.
fn add_brought(table: &TypeTable, space: &mut Space, described: Described) -> Result<(), ScopeError>
    requires { described.standing.number < length table.now }
    ensures found { (s : Spaces) (d : scope.Described)
        → ShowsSpaces table.now space.old s → ShowsDescribed table.now described d
        → Finds (λ u. ShowsSpaces table.now space.new) result (with_brought bounded s d) }
    ensures unchanged { (s : Spaces) → ShowsSpaces table.now space.old s
        → OnErr result (ShowsSpaces table.now space.new s) }
{
    let before = space.brought;
    space.brought = counts_with(before, described.brings)?;
    match space.add(table, described.standing) {
        Ok(()) => Ok(()),
        Err(error) => {
            space.brought = before;
            Err(error)
        }
    }
}

/// Adds what an export makes to the index spaces. A refusal changes nothing.
pub fn add_made(
    table: &TypeTable,
    space: &mut Space,
    described: Described,
) -> Result<(), ScopeError>
    requires { described.standing.number < length table.now }
    ensures found { (s : Spaces) (d : scope.Described)
        → ShowsSpaces table.now space.old s → ShowsDescribed table.now described d
        → Finds (λ u. ShowsSpaces table.now space.new) result (with_made bounded s d) }
    ensures unchanged { (s : Spaces) → ShowsSpaces table.now space.old s
        → OnErr result (ShowsSpaces table.now space.new s) }
{
    let before = space.made;
    space.made = counts_with(before, described.brings)?;
    match space.add(table, described.standing) {
        Ok(()) => Ok(()),
        Err(error) => {
            space.made = before;
            Err(error)
        }
    }
}

/// What is described under a name that none of these imports or exports has, letter case set aside. Whatever the
/// answer, the numbers given so far keep their meaning.
fn named_description(
    table: &mut TypeTable,
    alloc: Global,
    space: &Space,
    entries: &Entries,
    new: &NewNames,
    name: &Text,
    ty: TypeRef,
) -> Result<NamedDescription, ScopeError>
    requires { IsSpace table.old space.now }
    ensures extends { Extends table.old table.new }
    ensures found { (s : Spaces) (es : List (List ℕ × spaces.Standing))
        → ShowsSpaces table.old space.now s → ShowsEntries table.old entries.now es
        → Finds (ShowsNamed table.new name.now es) result (if_new name.now es (described s (new_names new.now) ty)) }
{
    let lower = name.to_ascii_lowercase(alloc)?;
    if entries.is_taken(&lower) {
        return Err(ScopeError::Index);
    }
    let described = described(table, alloc, space, new, ty)?;
    let number = entry(table, alloc, name, described.standing)?;
    Ok(NamedDescription {
        described,
        number,
        name: lower,
    })
}

impl Scope {
    /// A scope at its begin. Where it is closed it is a component, or a type of components.
    pub fn new(alloc: Global, is_closed: bool) -> Self
        ensures { (table : List PlainTree) → ShowsScope table result (nothing_known is_closed) }
    {
        Scope {
            space: Space::new(alloc, is_closed),
            imports: Entries::new(alloc),
            exports: Entries::new(alloc),
        }
    }

    /// An import of this name and description. Whatever the answer, the numbers given so far keep their meaning; a
    /// refusal adds nothing to the scope.
    pub fn import(
        &mut self,
        table: &mut TypeTable,
        alloc: Global,
        name: &Text,
        ty: TypeRef,
    ) -> Result<(), ScopeError>
        requires { IsScope table.old self.old }
        ensures extends { Extends table.old table.new }
        ensures found { (k : Known) → ShowsScope table.old self.old k
            → Finds (λ u. ShowsScope table.new self.new) result (imported bounded k name.now ty) }
        ensures unchanged { (k : Known) → ShowsScope table.old self.old k
            → OnErr result (ShowsScope table.new self.new k) }
    {
        let new = NewNames::brought(&self.space);
        let NamedDescription {
            described,
            number,
            name: lower,
        } = named_description(table, alloc, &self.space, &self.imports, &new, name, ty)?;
        self.imports.push(number, lower)?;
        match add_brought(table, &mut self.space, described) {
            Ok(()) => Ok(()),
            Err(error) => {
                self.imports.pop();
                Err(error)
            }
        }
    }

    /// A declared export of this name and description. Whatever the answer, the numbers given so far keep their
    /// meaning; a refusal adds nothing to the scope.
    pub fn declare_export(
        &mut self,
        table: &mut TypeTable,
        alloc: Global,
        name: &Text,
        ty: TypeRef,
    ) -> Result<(), ScopeError>
        requires { IsScope table.old self.old }
        ensures extends { Extends table.old table.new }
        ensures found { (k : Known) → ShowsScope table.old self.old k
            → Finds (λ u. ShowsScope table.new self.new) result (declared_export bounded k name.now ty) }
        ensures unchanged { (k : Known) → ShowsScope table.old self.old k
            → OnErr result (ShowsScope table.new self.new k) }
    {
        let new = NewNames::made(&self.space);
        let NamedDescription {
            described,
            number,
            name: lower,
        } = named_description(table, alloc, &self.space, &self.exports, &new, name, ty)?;
        self.exports.push(number, lower)?;
        match add_made(table, &mut self.space, described) {
            Ok(()) => Ok(()),
            Err(error) => {
                self.exports.pop();
                Err(error)
            }
        }
    }
}
