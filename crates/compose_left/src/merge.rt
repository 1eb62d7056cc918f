//! Left imports, as they merge.

ghost use Rattle.std.specs.Prelude.{◌≡◌, ◌++◌, ◌∷◌, [], ◌≤◌, ◌<◌, false, true, length, take, slice_index_or, IfOk, OnOk, MatchOption};
ghost use Rattle.std.specs.BTreeMap.{get};
ghost use Rattle.comp_entity.specs.Views.{entity_tree, entries_of, named_entities};
ghost use Rattle.compose_left.specs.Merging.{agree, equal_on_both, equal_or_absent, union};
ghost use Rattle.compose_left.specs.Merged.{Bytes, FindsNames, IsDisagreement, Named, NamedEntity, absent_from, if_absent, is_instance, name_cmp};
ghost use Rattle.comp_entity.specs.Fits.{under};
ghost use Rattle.compose_left.specs.Merged.{IsMerged, calls, import_name, merged};
ghost use Rattle.compose_left.specs.Spots.{spots_in};
ghost use Rattle.comp_entity.specs.Entity.{IsInstance};

use crate::copies::entity_in;
use crate::error::MergeError;
use crate::path::Path;
use crate::renaming::Renaming;
use crate::spots::{Spot, push_spots};
use comp_entity::{Entity, InstanceShape, equal};
use std::alloc::Global;
use std::collections::BTreeMap;
use warg_values::{Memory, Text};

/// A left import: what the instances that need it ask, merged.
#[derive(Drop)]
pub struct MergedImport {
    /// Its name.
    pub(crate) name: Text,
    /// What is asked, where that is no instance.
    pub(crate) other: Option<Entity>,
    /// The exports of the instance that is asked, in the order in which they were needed first.
    pub(crate) exports: Vec<(Text, Entity)>,
    /// The place of the first export of each name.
    pub(crate) names: BTreeMap<Text, usize>,
    /// What those that need it name, in the order in which they were merged.
    pub(crate) called: Vec<Spot>,
}

/// Notes the place of an export of this name, where none is noted.
fn note_name(
    alloc: Global,
    names: &mut BTreeMap<Text, usize>,
    name: &Text,
    place: usize,
) -> Result<(), Memory>
    ensures { (es : Named) (x : NamedEntity) → FindsNames names.old es → name.now ≡ x.0 → place ≡ length es
        → IfOk result (λ done. FindsNames names.new (es ++ x ∷ [])) }
{
    match names.get(name) {
        Some(_) => Ok(()),
        None => {
            names.insert(name.try_clone(alloc)?, place)?;
            Ok(())
        }
    }
}

/// Notes the places of exports, from the one of this number on.
fn note_names(
    alloc: Global,
    names: &mut BTreeMap<Text, usize>,
    exports: &[(Text, Entity)],
    first: usize,
) -> Result<(), Memory>
    requires first { first ≤ length exports.now }
    requires names { FindsNames names.old (named_entities (take first exports.now)) }
    ensures { IfOk result (λ done. FindsNames names.new (named_entities exports.now)) }
{
    for place in first..exports.len() {
        note_name(alloc, names, &exports[place].0, place)?;
    }
    Ok(())
}

/// The export of this number.
fn export_at(exports: &[(Text, Entity)], place: usize) -> &(Text, Entity)
    requires { place < length exports.now }
    ensures { result.now ≡ slice_index_or exports.now place result.now }
{
    &exports[place]
}

/// Whether an export that is asked for is equal to that of the same name, where there is one.
fn agrees_under(
    exports: &[(Text, Entity)],
    names: &BTreeMap<Text, usize>,
    name: &Text,
    asked: &Entity,
) -> bool
    requires { FindsNames names.now (named_entities exports.now) }
    ensures { result
        ≡ equal_or_absent (entity_tree asked.now) (under name.now (entries_of (named_entities exports.now))) }
{
    match names.get(name) {
        Some(place) => {
            let export = export_at(exports, *place);
            equal(&export.1, asked)
        }
        None => true,
    }
}

/// Whether exports that are asked for are equal to those of the same names.
fn agrees(
    exports: &[(Text, Entity)],
    names: &BTreeMap<Text, usize>,
    asked: &[(Text, Entity)],
) -> bool
    requires { FindsNames names.now (named_entities exports.now) }
    ensures { result
        ≡ equal_on_both (entries_of (named_entities exports.now)) (entries_of (named_entities asked.now)) }
{
    for export in asked {
        if !agrees_under(exports, names, &export.0, &export.1) {
            return false;
        }
    }
    true
}

/// Adds a copy of an export, where its name is not noted.
fn push_if_new(
    alloc: Global,
    exports: &mut Vec<(Text, Entity)>,
    names: &BTreeMap<Text, usize>,
    name: &Text,
    entity: &Entity,
) -> Result<(), Memory>
    ensures { IfOk result (λ done. named_entities exports.new.items ≡ named_entities exports.old.items
        ++ if_absent (get name_cmp names.now name.now) (name.now, entity_tree entity.now)) }
{
    match names.get(name) {
        Some(_) => Ok(()),
        None => {
            let name = name.try_clone(alloc)?;
            let entity = entity_in(alloc, &Renaming::Same, 0, entity)?;
            exports.push((name, entity))?;
            Ok(())
        }
    }
}

/// Adds copies of those exports whose names are not noted.
fn push_new(
    alloc: Global,
    exports: &mut Vec<(Text, Entity)>,
    names: &BTreeMap<Text, usize>,
    asked: &[(Text, Entity)],
) -> Result<(), Memory>
    requires { FindsNames names.now (named_entities exports.old.items) }
    ensures { IfOk result (λ done. named_entities exports.new.items ≡ named_entities exports.old.items
        ++ absent_from (named_entities exports.old.items) (named_entities asked.now)) }
{
    for export in asked {
        push_if_new(alloc, exports, names, &export.0, &export.1)?;
    }
    Ok(())
}

/// The exports of an entity, where it is an instance.
fn exports_of(entity: &Entity) -> Option<&[(Text, Entity)]>
    ensures { MatchOption result (is_instance (entity_tree entity.now) ≡ false)
        (λ es. entity_tree entity.now ≡ IsInstance (entries_of (named_entities es.now))) }
{
    match entity {
        Entity::Instance(instance) => Some(&instance.exports),
        Entity::Func(_) | Entity::Component(_) | Entity::Module(_) | Entity::Ty(_) => None,
    }
}

/// That needs of an import of this name do not agree.
fn disagreement(alloc: Global, name: &Text) -> MergeError
    ensures { (n : Bytes) → result ≡ MergeError.Disagree n → n ≡ name.now }
{
    match name.try_clone(alloc) {
        Ok(name) => MergeError::Disagree(name),
        Err(_) => MergeError::Memory,
    }
}

/// Merges what is asked into the exports of an instance.
fn merge_instance(
    alloc: Global,
    name: &Text,
    exports: &mut Vec<(Text, Entity)>,
    names: &mut BTreeMap<Text, usize>,
    entity: &Entity,
) -> Result<(), MergeError>
    requires { FindsNames names.old (named_entities exports.old.items) }
    ensures indexed { OnOk result (FindsNames names.new (named_entities exports.new.items)) }
    ensures agree { OnOk result
        (agree (IsInstance (entries_of (named_entities exports.old.items))) (entity_tree entity.now) ≡ true) }
    ensures merged { OnOk result (IsInstance (entries_of (named_entities exports.new.items))
        ≡ union (IsInstance (entries_of (named_entities exports.old.items))) (entity_tree entity.now)) }
    ensures disagree { (n : Bytes) → result ≡ Err (MergeError.Disagree n) → IsDisagreement name.now n
        (agree (IsInstance (entries_of (named_entities exports.old.items))) (entity_tree entity.now)) }
{
    let Some(asked) = exports_of(entity) else {
        return Err(disagreement(alloc, name));
    };
    if !agrees(exports, names, asked) {
        return Err(disagreement(alloc, name));
    }
    let first = exports.len();
    push_new(alloc, exports, names, asked)?;
    note_names(alloc, names, exports, first)?;
    Ok(())
}

/// Merges what is asked into what is no instance.
fn merge_other(
    alloc: Global,
    name: &Text,
    other: &Entity,
    entity: &Entity,
) -> Result<(), MergeError>
    requires { is_instance (entity_tree other.now) ≡ false }
    ensures agree { OnOk result (agree (entity_tree other.now) (entity_tree entity.now) ≡ true) }
    ensures merged { OnOk result
        (entity_tree other.now ≡ union (entity_tree other.now) (entity_tree entity.now)) }
    ensures disagree { (n : Bytes) → result ≡ Err (MergeError.Disagree n) → IsDisagreement name.now n
        (agree (entity_tree other.now) (entity_tree entity.now)) }
{
    if equal(other, entity) {
        Ok(())
    } else {
        Err(disagreement(alloc, name))
    }
}

/// What an entity names that is asked under this name.
fn called_in(alloc: Global, name: &Text, entity: &Entity) -> Result<Vec<Spot>, Memory>
    ensures { IfOk result (λ called. called.items ≡ spots_in 0 name.now [] (entity_tree entity.now)) }
{
    let path = Path::new(alloc);
    let mut called = Vec::new(alloc);
    push_spots(alloc, 0, name, &path, entity, &mut called)?;
    Ok(called)
}

/// A left import of this name, of which one instance asks this, and names so much.
fn import_with(
    alloc: Global,
    name: Text,
    entity: Entity,
    called: Vec<Spot>,
) -> Result<MergedImport, Memory>
    ensures name { IfOk result (λ import. import_name import ≡ name) }
    ensures entity { IfOk result (λ import. merged import ≡ entity_tree entity) }
    ensures calls { IfOk result (λ import. calls import ≡ called.items) }
    ensures made { IfOk result (λ import. IsMerged import) }
{
    let mut names = BTreeMap::new(alloc);
    match entity {
        Entity::Instance(InstanceShape { exports }) => {
            note_names(alloc, &mut names, &exports, 0)?;
            Ok(MergedImport {
                name,
                other: None,
                exports,
                names,
                called,
            })
        }
        Entity::Func(_) | Entity::Component(_) | Entity::Module(_) | Entity::Ty(_) => {
            Ok(MergedImport {
                name,
                other: Some(entity),
                exports: Vec::new(alloc),
                names,
                called,
            })
        }
    }
}

/// Merges what one more instance asks.
fn merge_asked(import: &mut MergedImport, alloc: Global, entity: &Entity) -> Result<(), MergeError>
    requires { IsMerged import.old }
    ensures made { OnOk result (IsMerged import.new) }
    ensures agree { OnOk result (agree (merged import.old) (entity_tree entity.now) ≡ true) }
    ensures merged { OnOk result (merged import.new ≡ union (merged import.old) (entity_tree entity.now)) }
    ensures disagree { (n : Bytes) → result ≡ Err (MergeError.Disagree n)
        → IsDisagreement (import_name import.old) n (agree (merged import.old) (entity_tree entity.now)) }
    ensures name { import_name import.new ≡ import_name import.old }
    ensures calls { calls import.new ≡ calls import.old }
{
    match &import.other {
        None => merge_instance(
            alloc,
            &import.name,
            &mut import.exports,
            &mut import.names,
            entity,
        ),
        Some(other) => merge_other(alloc, &import.name, other, entity),
    }
}

impl MergedImport {
    ghost use Rattle.compose_left.specs.Merged.{IsMerged, calls, import_name, merged};

    /// A left import of this name, of which one instance asks this. The resources and the places that named types are
    /// numbers of origins, as `Origins::place` gives them.
    pub fn new(alloc: Global, name: Text, entity: Entity) -> Result<Self, Memory>
        ensures name { IfOk result (λ import. import_name import ≡ name) }
        ensures entity { IfOk result (λ import. merged import ≡ entity_tree entity) }
        ensures calls { IfOk result (λ import. calls import ≡ spots_in 0 name [] (entity_tree entity)) }
        ensures made { IfOk result (λ import. IsMerged import) }
    {
        let called = called_in(alloc, &name, &entity)?;
        let import = import_with(alloc, name, entity, called)?;
        Ok(import)
    }

    /// Merges what one more instance asks under this name: instances are equal on the export names that both have, and
    /// make one instance with the exports of both, those needed first in front; all else is equal.
    ///
    /// `Disagree` exactly where that is not so. After an error the import is spent.
    pub fn merge(&mut self, alloc: Global, entity: &Entity) -> Result<(), MergeError>
        requires { IsMerged self.old }
        ensures made { OnOk result (IsMerged self.new) }
        ensures agree { OnOk result (agree (merged self.old) (entity_tree entity.now) ≡ true) }
        ensures merged { OnOk result (merged self.new ≡ union (merged self.old) (entity_tree entity.now)) }
        ensures disagree { (n : Bytes) → result ≡ Err (MergeError.Disagree n)
            → IsDisagreement (import_name self.old) n (agree (merged self.old) (entity_tree entity.now)) }
        ensures name { import_name self.new ≡ import_name self.old }
        ensures calls { OnOk result (calls self.new
            ≡ calls self.old ++ spots_in 0 (import_name self.old) [] (entity_tree entity.now)) }
    {
        merge_asked(self, alloc, entity)?;
        let path = Path::new(alloc);
        push_spots(alloc, 0, &self.name, &path, entity, &mut self.called)?;
        Ok(())
    }

    /// What those that need it name as resources and as types, each by its path, in the order in which they were merged:
    /// what stands at one path may have as many numbers as there are origins by which they call it.
    pub fn calls(&self) -> &[Spot]
        ensures { result.now ≡ calls self.now }
    {
        &self.called
    }

    /// Its name, and the merged entity.
    pub fn into_parts(self) -> (Text, Entity)
        ensures name { result.0 ≡ import_name self }
        ensures entity { entity_tree result.1 ≡ merged self }
    {
        let MergedImport {
            name,
            other,
            exports,
            names: _names,
            called: _called,
        } = self;
        match other {
            Some(entity) => (name, entity),
            None => (name, Entity::Instance(InstanceShape { exports })),
        }
    }
}
