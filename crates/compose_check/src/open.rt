//! What the instances of a composition leave open, merged by name.

ghost use Rattle.std.specs.Prelude.{◌≡◌, ◌<◌, ◌++◌, [], true, All, IfOk, None, OnOk, Some, map, slice_get, vec_len};
ghost use Rattle.std.specs.BTreeMap.{get};
ghost use Rattle.comp_entity.specs.Views.{entity_tree, named_entities};
ghost use Rattle.compose_check.specs.Merging.{AreMerging, Bytes, Differs, MergesAt, Takes, lefts_in};
ghost use Rattle.compose_check.specs.Open.{IsDisagreement, all_agree, asked_by, asked_from, left_open, lefts};
ghost use Rattle.compose_check.specs.Open.{merged_all};
ghost use Rattle.compose_left.specs.Merged.{IsDisagreement as IsDifference, IsMerged, name_cmp};
ghost use Rattle.compose_left.specs.Merging.{agree};
ghost use Rattle.compose_left.specs.Numbers.{AreOrigins};
ghost use Rattle.compose_left.specs.Wired.{FindsWires};
ghost use Rattle.compose_left.specs.Wiring.{HasNoCircle, Wiring, shapes_of};
ghost use Rattle.compose_order.specs.Known.{merged_left};
ghost use Rattle.compose_order.specs.Needs.{LeftTree};

use comp_entity::{Entity, Shape};
use compose_left::{Input, MergeError, MergedImport, Origins, Wire, wires_by_import};
use std::alloc::Global;
use std::collections::BTreeMap;
use warg_values::{Memory, Text};

/// The left imports so far, found by their names.
#[derive(Drop)]
pub struct Merging {
    /// The imports, in the order in which they are needed first.
    pub list: Vec<MergedImport>,
    /// The number of the import of each name.
    pub places: BTreeMap<Text, usize>,
}

/// Adds what an instance asks by one of its imports, where nothing is given to that.
fn push_asked(
    alloc: Global,
    origins: &Origins,
    wires: &BTreeMap<Input, Wire>,
    input: Input,
    import: &(Text, Entity),
    asked: &mut Vec<(Text, Entity)>,
) -> Result<(), Memory>
    ensures { (w : Wiring) → AreOrigins origins.now w → HasNoCircle w → FindsWires wires.now w.wires
        → IfOk result (λ done. named_entities asked.new.items ≡ named_entities asked.old.items
        ++ asked_by w input.target input.import (import.now.0, entity_tree import.now.1)) }
{
    match wires.get(&input) {
        Some(_) => Ok(()),
        None => {
            let name = import.0.try_clone(alloc)?;
            let entity = origins.place(alloc, input.target, &import.1)?;
            asked.push((name, entity))?;
            Ok(())
        }
    }
}

/// Adds what an instance asks by its imports.
fn push_all_asked(
    alloc: Global,
    origins: &Origins,
    wires: &BTreeMap<Input, Wire>,
    target: usize,
    imports: &[(Text, Entity)],
    asked: &mut Vec<(Text, Entity)>,
) -> Result<(), Memory>
    ensures { (w : Wiring) → AreOrigins origins.now w → HasNoCircle w → FindsWires wires.now w.wires
        → IfOk result (λ done. named_entities asked.new.items ≡ named_entities asked.old.items
        ++ asked_from w target 0 (named_entities imports.now)) }
{
    for (import, entry) in imports.iter().enumerate() {
        let input = Input { target, import };
        push_asked(alloc, origins, wires, input, entry, asked)?;
    }
    Ok(())
}

/// What instances of these shapes ask by imports to which nothing is given.
fn all_asked(
    alloc: Global,
    origins: &Origins,
    shapes: &[&Shape],
    wires: &[Wire],
) -> Result<Vec<(Text, Entity)>, Memory>
    ensures { (w : Wiring) → AreOrigins origins.now w → HasNoCircle w → w.shapes ≡ shapes_of shapes.now
        → w.wires ≡ wires.now → IfOk result (λ asked. named_entities asked.items ≡ left_open w) }
{
    let by_import = wires_by_import(alloc, wires)?;
    let mut asked = Vec::new(alloc);
    for (target, shape) in shapes.iter().enumerate() {
        push_all_asked(
            alloc,
            origins,
            &by_import,
            target,
            &shape.imports,
            &mut asked,
        )?;
    }
    Ok(asked)
}

/// Adds a left import of a name that no other has.
fn push_new(alloc: Global, merging: &mut Merging, name: Text, entity: Entity) -> Result<(), Memory>
    requires merging { AreMerging merging.old }
    requires new { get name_cmp merging.old.places name ≡ None }
    ensures merging { OnOk result (AreMerging merging.new) }
    ensures takes { OnOk result
        (Takes (lefts_in merging.old.list.items) (lefts_in merging.new.list.items) (name, entity_tree entity)) }
{
    let place = merging.list.len();
    let noted = name.try_clone(alloc)?;
    let import = MergedImport::new(alloc, name, entity)?;
    merging.list.push(import)?;
    merging.places.insert(noted, place)?;
    Ok(())
}

/// Merges what is asked into the import of this number.
fn merge_at(
    alloc: Global,
    list: &mut Vec<MergedImport>,
    place: usize,
    entity: &Entity,
) -> Result<(), MergeError>
    requires there { place < vec_len list.old }
    requires merged { All IsMerged list.old.items }
    ensures merged { OnOk result (All IsMerged list.new.items) }
    ensures merges { (l : LeftTree) → slice_get (lefts_in list.old.items) place ≡ Some l
        → OnOk result (MergesAt (lefts_in list.old.items) (lefts_in list.new.items) place l (entity_tree entity.now)) }
    ensures differs { (l : LeftTree) → slice_get (lefts_in list.old.items) place ≡ Some l → (n : Bytes)
        → result ≡ Err (MergeError.Disagree n) → IsDifference l.name n (agree l.entity (entity_tree entity.now)) }
{
    let import = &mut list[place];
    import.merge(alloc, entity)?;
    Ok(())
}

/// Merges what is asked under a name with what was asked under it before. `Disagree` exactly where these do not agree.
fn take(alloc: Global, merging: &mut Merging, name: Text, entity: Entity) -> Result<(), MergeError>
    requires { AreMerging merging.old }
    ensures merging { OnOk result (AreMerging merging.new) }
    ensures takes { OnOk result
        (Takes (lefts_in merging.old.list.items) (lefts_in merging.new.list.items) (name, entity_tree entity)) }
    ensures differs { (n : Bytes) → result ≡ Err (MergeError.Disagree n)
        → Differs (lefts_in merging.old.list.items) (name, entity_tree entity) n }
{
    match merging.places.get(&name) {
        Some(found) => {
            let place = *found;
            merge_at(alloc, &mut merging.list, place, &entity)?;
            Ok(())
        }
        None => {
            push_new(alloc, merging, name, entity)?;
            Ok(())
        }
    }
}

/// What is asked, merged by name.
fn merged(alloc: Global, asked: Vec<(Text, Entity)>) -> Result<Vec<MergedImport>, MergeError>
    ensures lefts { IfOk result (λ list. lefts_in list.items ≡ merged_all (named_entities asked.items)) }
    ensures agree { OnOk result (all_agree [] (named_entities asked.items) ≡ true) }
    ensures disagree { (n : Bytes) → result ≡ Err (MergeError.Disagree n)
        → IsDisagreement (named_entities asked.items) n }
{
    let mut merging = Merging {
        list: Vec::new(alloc),
        places: BTreeMap::new(alloc),
    };
    for (name, entity) in asked {
        take(alloc, &mut merging, name, entity)?;
    }
    let Merging {
        list,
        places: _places,
    } = merging;
    Ok(list)
}

/// What instances of these shapes leave open, merged by name, in the order in which it is needed first. `Disagree`
/// exactly where what is asked under a name does not agree with what was asked under it before.
pub fn left_imports(
    alloc: Global,
    origins: &Origins,
    shapes: &[&Shape],
    wires: &[Wire],
) -> Result<Vec<MergedImport>, MergeError>
    ensures lefts { (w : Wiring) → AreOrigins origins.now w → HasNoCircle w → w.shapes ≡ shapes_of shapes.now
        → w.wires ≡ wires.now → IfOk result (λ list. map merged_left list.items ≡ lefts w) }
    ensures agree { (w : Wiring) → AreOrigins origins.now w → HasNoCircle w → w.shapes ≡ shapes_of shapes.now
        → w.wires ≡ wires.now → OnOk result (all_agree [] (left_open w) ≡ true) }
    ensures disagree { (w : Wiring) → AreOrigins origins.now w → HasNoCircle w → w.shapes ≡ shapes_of shapes.now
        → w.wires ≡ wires.now → (n : Bytes) → result ≡ Err (MergeError.Disagree n)
        → IsDisagreement (left_open w) n }
{
    let asked = all_asked(alloc, origins, shapes, wires)?;
    let list = merged(alloc, asked)?;
    Ok(list)
}
