//! What stands in a given entity for the resources of an asked one, and for the places that named its types: what the
//! given one has at the same path of names.

ghost use Rattle.std.specs.Prelude.{◌≡◌, ◌<◌, ◌&&◌, ◌∷◌, [], ℕ, List, Bool, true, length, map, IfOk, OnOk};
ghost use Rattle.std.specs.Option.{option_map_or};
ghost use Rattle.comp_entity.specs.Entity.{Entries, EntityTree};
ghost use Rattle.comp_entity.specs.Fits.{all_stand, for_place, stands, under};
ghost use Rattle.comp_fit.specs.Known.{AreNames, IsEntity, is_instance};
ghost use Rattle.comp_fit.specs.Standing.{Adds, AreCovered, ShowsStanding, called, for_resource, head_stands, place_head, place_stands, resource_head, value_place};
ghost use Rattle.comp_table.specs.declared.head.Head.TheVariants as Head;
ghost use Rattle.comp_table.specs.Plain.{around, plain_entity, plain_entries};
ghost use Rattle.comp_table.specs.Trees.{IsBelow, Stands, root, tree_at, trees_of};

use crate::names::{are_instances, entry_at, names_of};
use crate::pair::{Pair, inner};
use comp_entity::{ResourceNo, TypeNo};
use comp_table::{Head, TypeTable};
use std::alloc::Global;
use std::collections::{BTreeMap, BTreeSet};
use warg_values::{Memory, Text};

/// How many levels deep instances may lie within each other at most.
const LEVELS: usize = 1000;

/// A resource or a place as it is called, by which what stands for it is found.
#[derive(Clone, Copy, PartialEq, Eq, PartialOrd, Ord)]
pub struct Called {
    /// How many scopes further out its scope is.
    pub out: usize,
    /// Its number in its scope.
    pub number: usize,
}

/// What stands for the resources and the places of an asked entity.
#[derive(Drop)]
pub struct StandingFor {
    /// For a resource that is asked for, the one of the given entity.
    pub resources: BTreeMap<Called, ResourceNo>,
    /// For a place that named an asked type, the one that named the type of the given entity, where one did.
    pub places: BTreeMap<Called, Option<TypeNo>>,
}

/// That by which what stands for a resource is found.
pub fn resource_key(resource: ResourceNo) -> Called
    ensures { result ≡ called resource }
{
    Called {
        out: resource.out(),
        number: resource.number(),
    }
}

/// That by which what stands for a place is found.
pub fn place_key(place: TypeNo) -> Called
    ensures { result ≡ called place }
{
    Called {
        out: place.out(),
        number: place.number(),
    }
}

/// The resource that a type of this root is.
fn resource_of(head: &Head) -> Option<ResourceNo>
    ensures { result ≡ resource_head head.now }
{
    match head {
        Head::Resource(resource) => Some(*resource),
        _ => None,
    }
}

/// The place that named a value type of this root, where one did. `None` of what is no value type.
fn value_place(head: &Head) -> Option<Option<TypeNo>>
    ensures { result ≡ value_place head.now }
{
    match head {
        Head::RecordOf(place) => Some(*place),
        Head::VariantOf(place) => Some(*place),
        Head::FlagsOf(place) => Some(*place),
        Head::EnumOf(place) => Some(*place),
        Head::Primitive(_)
        | Head::ListOf
        | Head::TupleOf
        | Head::OptionOf
        | Head::ResultOf
        | Head::Own(_)
        | Head::Borrow(_) => Some(None),
        _ => None,
    }
}

/// The place that named a type of this root, where one did.
fn place_of(head: &Head) -> Option<TypeNo>
    ensures { result ≡ place_head head.now }
{
    match head {
        Head::RecordOf(place) => *place,
        Head::VariantOf(place) => *place,
        Head::FlagsOf(place) => *place,
        Head::EnumOf(place) => *place,
        _ => None,
    }
}

/// Notes that a resource stands for one that is asked for, where none does yet.
fn add_resource(found: &mut StandingFor, given: ResourceNo, asked: ResourceNo) -> Result<(), Memory>
    ensures { IfOk result (λ done. Adds found.old found.new (for_resource (Some given) (Some asked))) }
{
    let key = resource_key(asked);
    match found.resources.get(&key) {
        Some(_) => Ok(()),
        None => {
            found.resources.insert(key, given)?;
            Ok(())
        }
    }
}

/// Notes that a place, or none, stands for one that is asked for, where nothing does yet.
fn add_place(found: &mut StandingFor, given: Option<TypeNo>, asked: TypeNo) -> Result<(), Memory>
    ensures { IfOk result (λ done. Adds found.old found.new (for_place (Some asked) given)) }
{
    let key = place_key(asked);
    match found.places.get(&key) {
        Some(_) => Ok(()),
        None => {
            found.places.insert(key, given)?;
            Ok(())
        }
    }
}

/// Notes the resource that stands for one that is asked for, where both types are resources.
fn note_resource(found: &mut StandingFor, given: &Head, asked: &Head) -> Result<(), Memory>
    ensures { IfOk result
        (λ done. Adds found.old found.new (for_resource (resource_head given.now) (resource_head asked.now))) }
{
    let Some(given) = resource_of(given) else {
        return Ok(());
    };
    let Some(asked) = resource_of(asked) else {
        return Ok(());
    };
    add_resource(found, given, asked)
}

/// Notes the place that stands for the one that named an asked type, where both types are value types.
fn note_place(found: &mut StandingFor, given: &Head, asked: &Head) -> Result<(), Memory>
    ensures { IfOk result
        (λ done. Adds found.old found.new (place_stands (value_place given.now) (place_head asked.now))) }
{
    let Some(given) = value_place(given) else {
        return Ok(());
    };
    let Some(asked) = place_of(asked) else {
        return Ok(());
    };
    add_place(found, given, asked)
}

/// Notes what stands for the resource or for the place of an asked type, by the roots of both types.
fn note_type(found: &mut StandingFor, given: &Head, asked: &Head) -> Result<(), Memory>
    ensures { IfOk result (λ done. Adds found.old found.new (head_stands given.now asked.now)) }
{
    note_resource(found, given, asked)?;
    note_place(found, given, asked)
}

/// Notes what stands for names of one entity.
#[cycle(standing)]
fn note_entity(
    table: &TypeTable,
    found: &mut StandingFor,
    seen: &mut BTreeSet<Pair>,
    alloc: Global,
    levels: usize,
    pair: Pair,
) -> Result<(), Memory>
    requires given { IsEntity table.now pair.given }
    requires asked { IsEntity table.now pair.asked }
    requires covered { AreCovered table.now found.old seen.old }
    ensures covered { OnOk result (AreCovered table.now found.new seen.new) }
    ensures adds { IfOk result (λ done. (given asked : EntityTree) → Stands table.now pair.given (plain_entity given)
        → Stands table.now pair.asked (plain_entity asked) → Adds found.old found.new (stands given asked)) }
{
    if are_instances(table, pair) {
        note_instance(table, found, seen, alloc, levels, pair)?;
        return Ok(());
    }
    note_type(found, table.head(pair.given), table.head(pair.asked))?;
    Ok(())
}

/// Notes what stands for names of an instance. What was seen is not looked at again.
#[cycle(standing)]
fn note_instance(
    table: &TypeTable,
    found: &mut StandingFor,
    seen: &mut BTreeSet<Pair>,
    alloc: Global,
    levels: usize,
    pair: Pair,
) -> Result<(), Memory>
    requires given { IsEntity table.now pair.given }
    requires asked { IsEntity table.now pair.asked }
    requires instances { (is_instance (root (tree_at table.now pair.given))
        && is_instance (root (tree_at table.now pair.asked))) ≡ true }
    requires covered { AreCovered table.now found.old seen.old }
    ensures covered { OnOk result (AreCovered table.now found.new seen.new) }
    ensures adds { IfOk result (λ done. (given asked : EntityTree) → Stands table.now pair.given (plain_entity given)
        → Stands table.now pair.asked (plain_entity asked) → Adds found.old found.new (stands given asked)) }
{
    if seen.contains(&pair) {
        return Ok(());
    }
    let levels = inner(levels)?;
    let names = names_of(table, alloc, table.parts(pair.given))?;
    note_exports(
        table,
        found,
        seen,
        alloc,
        levels,
        &names,
        table.parts(pair.asked),
    )?;
    seen.insert(pair)?;
    Ok(())
}

/// Notes what stands for names of exports that are asked for.
#[cycle(standing)]
fn note_exports(
    table: &TypeTable,
    found: &mut StandingFor,
    seen: &mut BTreeSet<Pair>,
    alloc: Global,
    levels: usize,
    names: &BTreeMap<Text, usize>,
    parts: &[usize],
) -> Result<(), Memory>
    requires below { IsBelow (length table.now) parts.now }
    requires names { (given : Entries) × AreNames table.now given names.now }
    requires asked { (asked : Entries) × (trees_of (map (tree_at table.now) parts.now) ≡ plain_entries asked) }
    requires covered { AreCovered table.now found.old seen.old }
    ensures covered { OnOk result (AreCovered table.now found.new seen.new) }
    ensures adds { IfOk result (λ done. (given asked : Entries) → AreNames table.now given names.now
        → trees_of (map (tree_at table.now) parts.now) ≡ plain_entries asked
        → Adds found.old found.new (all_stand given asked)) }
{
    for part in parts {
        note_export(table, found, seen, alloc, levels, names, *part)?;
    }
    Ok(())
}

/// Notes what stands for names of one export that is asked for.
#[cycle(standing)]
fn note_export(
    table: &TypeTable,
    found: &mut StandingFor,
    seen: &mut BTreeSet<Pair>,
    alloc: Global,
    levels: usize,
    names: &BTreeMap<Text, usize>,
    part: usize,
) -> Result<(), Memory>
    requires there { part < length table.now }
    requires names { (given : Entries) × AreNames table.now given names.now }
    requires asked { (name : List ℕ) × (mark : Bool) × (asked : EntityTree)
        × (tree_at table.now part ≡ around (Head.Entry mark name) (plain_entity asked)) }
    requires covered { AreCovered table.now found.old seen.old }
    ensures covered { OnOk result (AreCovered table.now found.new seen.new) }
    ensures adds { IfOk result (λ done. (given : Entries) (name : List ℕ) (mark : Bool) (asked : EntityTree)
        → AreNames table.now given names.now
        → tree_at table.now part ≡ around (Head.Entry mark name) (plain_entity asked)
        → Adds found.old found.new (option_map_or (λ e. stands e.0 asked) (under name given) [])) }
{
    let (name, asked) = entry_at(table, part);
    let Some(given) = names.get(name) else {
        return Ok(());
    };
    let pair = Pair {
        given: *given,
        asked,
    };
    note_entity(table, found, seen, alloc, levels, pair)?;
    Ok(())
}

/// What stands in a given entity for the resources of an asked one, and for the places that named its types. What is
/// shared is looked at once. `Memory` also where more than a thousand instances lie within each other.
pub fn standing_for(table: &TypeTable, alloc: Global, pair: Pair) -> Result<StandingFor, Memory>
    requires given { IsEntity table.now pair.given }
    requires asked { IsEntity table.now pair.asked }
    ensures { IfOk result (λ f. (given asked : EntityTree) → Stands table.now pair.given (plain_entity given)
        → Stands table.now pair.asked (plain_entity asked) → ShowsStanding f (stands given asked)) }
{
    let mut found = StandingFor {
        resources: BTreeMap::new(alloc),
        places: BTreeMap::new(alloc),
    };
    let mut seen = BTreeSet::new(alloc);
    note_entity(table, &mut found, &mut seen, alloc, LEVELS, pair)?;
    Ok(found)
}
