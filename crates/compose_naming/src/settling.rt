//! Left imports in which each named type is mentioned by one number.

ghost use Rattle.std.specs.Prelude.{◌≡◌, ◌++◌, ◌∷◌, [], map, IfOk};
ghost use Rattle.compose_naming.specs.Settled.{WrittenNames, at_leaf, called_as, name_in, names_of, settled, written_as};
ghost use Rattle.compose_naming.specs.Names.{FindsCalls, FindsNames};
ghost use Rattle.comp_entity.specs.Views.{entity_tree};
ghost use Rattle.compose_order.specs.Known.{Spots, left_tree};

use crate::paths::{calls_by_path, things_at};
use comp_entity::{Entity, TypeNo};
use compose_left::{Path, Thing, called_otherwise};
use compose_needs::{Leaf, leaves_at};
use compose_order::LeftImport;
use std::alloc::Global;
use std::collections::BTreeMap;
use warg_values::Memory;

/// The name by which a type is written. `Memory` also where no name holds the number.
fn written_as(names: &BTreeMap<Thing, TypeNo>, thing: Thing) -> Result<TypeNo, Memory>
    ensures { (ws : WrittenNames) → FindsNames names.now ws
        → IfOk result (λ written. written ≡ written_as ws (name_in thing)) }
{
    let name = TypeNo::new(thing.out, thing.number).ok_or(Memory)?;
    match names.get(&Thing::named_type(name)) {
        Some(written) => Ok(*written),
        None => Ok(name),
    }
}

/// Notes the name by which a thing is written, where it is a type of which none is noted.
fn note_call(
    names: &mut BTreeMap<Thing, TypeNo>,
    thing: Thing,
    written: TypeNo,
) -> Result<(), Memory>
    ensures { (ws : WrittenNames) → FindsNames names.old ws
        → IfOk result (λ done. FindsNames names.new (ws ++ called_as written (thing ∷ []))) }
{
    if !thing.is_type {
        return Ok(());
    }
    match names.get(&thing) {
        Some(_) => Ok(()),
        None => {
            names.insert(thing, written)?;
            Ok(())
        }
    }
}

/// The same of some things.
fn note_calls(
    names: &mut BTreeMap<Thing, TypeNo>,
    things: &[Thing],
    written: TypeNo,
) -> Result<(), Memory>
    ensures { (ws : WrittenNames) → FindsNames names.old ws
        → IfOk result (λ done. FindsNames names.new (ws ++ called_as written things.now)) }
{
    for thing in things {
        note_call(names, *thing, written)?;
    }
    Ok(())
}

/// Notes the name of what stands at a place for what is called there.
fn note_leaf(
    names: &mut BTreeMap<Thing, TypeNo>,
    paths: &BTreeMap<Path, Vec<Thing>>,
    leaf: &Leaf,
) -> Result<(), Memory>
    ensures { (calls : Spots) (ws : WrittenNames) → FindsCalls paths.now calls → FindsNames names.old ws
        → IfOk result (λ done. FindsNames names.new (at_leaf ws calls leaf.now leaf.now.named)) }
{
    match leaf.named {
        None => Ok(()),
        Some(thing) => {
            let written = written_as(names, thing)?;
            note_calls(names, things_at(paths, &leaf.path), written)?;
            Ok(())
        }
    }
}

/// The names by which the types that are called in a left import are written.
fn names_of(alloc: Global, import: &LeftImport) -> Result<BTreeMap<Thing, TypeNo>, Memory>
    ensures { IfOk result (λ names. FindsNames names (names_of (left_tree import.now))) }
{
    let paths = calls_by_path(alloc, &import.calls)?;
    let leaves = leaves_at(alloc, &import.entity)?;
    let mut names = BTreeMap::new(alloc);
    for leaf in &leaves {
        note_leaf(&mut names, &paths, leaf)?;
    }
    Ok(names)
}

/// What is written for a left import, by one number for each named type.
pub fn settled_entity(alloc: Global, import: &LeftImport) -> Result<Entity, Memory>
    ensures { IfOk result (λ entity. entity_tree entity ≡ (settled (left_tree import.now)).entity) }
{
    let names = names_of(alloc, import)?;
    let entity = called_otherwise(alloc, &names, &import.entity)?;
    Ok(entity)
}

/// A left import as it is written: each named type that it mentions, and those that need it call, is mentioned by the
/// number under which it stands at the first place at which it is called. `Memory` also where no name holds a number.
pub fn settled(alloc: Global, import: LeftImport) -> Result<LeftImport, Memory>
    ensures { IfOk result (λ written. left_tree written ≡ settled (left_tree import)) }
{
    let entity = settled_entity(alloc, &import)?;
    let LeftImport {
        name,
        entity: _,
        calls,
    } = import;
    Ok(LeftImport {
        name,
        entity,
        calls,
    })
}

/// Left imports as they are written.
pub fn settle(alloc: Global, imports: Vec<LeftImport>) -> Result<Vec<LeftImport>, Memory>
    ensures { IfOk result (λ written. map left_tree written.items ≡ map settled (map left_tree imports.items)) }
{
    let mut written = Vec::with_capacity(alloc, imports.len())?;
    for import in imports {
        written.push(settled(alloc, import)?)?;
    }
    Ok(written)
}
