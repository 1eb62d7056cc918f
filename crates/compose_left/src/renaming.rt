//! Copies of types and entities in which names are changed.

ghost use Rattle.std.specs.Prelude.{◌≡◌, Some, map, option_map, IfOk};
ghost use Rattle.comp_entity.specs.Names.{deeper, outside, place_by, value_by, func_by};
ghost use Rattle.comp_entity.specs.Views.{value_tree, func_tree};
ghost use Rattle.compose_left.specs.Renaming.{boxed_trees, called_name, case_tree, case_by, change_of, field_by, field_tree, number_held};

use crate::known::Origins;
use crate::numbering::in_turn;
use crate::origin::Held;
use crate::spots::Thing;
use comp_entity::{FuncShape, ResourceNo, TypeNo, ValueShape};
use std::alloc::Global;
use std::collections::BTreeMap;
use warg_values::{Memory, Sequence, Text};

/// How the names of scopes around an entity are changed.
#[derive(Drop)]
pub enum Renaming<'a> {
    /// They stay.
    Same,
    /// A thing of an instance becomes the number of its origin.
    Placed { origins: &'a Origins, at: usize },
    /// A named type is called by the name that is found for it, where one is.
    Called { names: &'a BTreeMap<Thing, TypeNo> },
}

/// The number of the origin of a thing of an instance.
pub fn number_held(origins: &Origins, held: Held) -> Result<usize, Memory>
    ensures { IfOk result (λ n. n ≡ number_held origins.now held) }
{
    match origins.numbers.get(&held) {
        Some(number) => Ok(*number),
        None => in_turn(held.thing.number, held.instance, origins.instances),
    }
}

/// A resource that is mentioned so many scopes deep, by its changed name. `Memory` also where there is no room for the
/// name.
pub fn resource_in(
    renaming: &Renaming<'_>,
    depth: usize,
    name: ResourceNo,
) -> Result<ResourceNo, Memory>
    ensures { IfOk result (λ changed. changed ≡ (change_of renaming.now).resource depth name) }
{
    match renaming {
        Renaming::Same => Ok(name),
        Renaming::Placed { origins, at } => {
            if name.out() < depth {
                return Ok(name);
            }
            let held = Held {
                instance: *at,
                thing: Thing {
                    is_type: false,
                    out: name.out() - depth,
                    number: name.number(),
                },
            };
            let number = number_held(origins, held)?;
            ResourceNo::new(depth, number).ok_or(Memory)
        }
        Renaming::Called { names: _ } => Ok(name),
    }
}

/// The name that is found for a named type, or its own where none is.
fn called_name(names: &BTreeMap<Thing, TypeNo>, name: TypeNo) -> TypeNo
    ensures { result ≡ called_name names.now name }
{
    match names.get(&Thing::named_type(name)) {
        Some(called) => *called,
        None => name,
    }
}

/// A named type as it is called so many scopes further in. `Memory` where there is no room for that name.
fn deeper(depth: usize, name: TypeNo) -> Result<TypeNo, Memory>
    ensures { IfOk result (λ further. further ≡ deeper depth name) }
{
    let out = name.out().checked_add(depth).ok_or(Memory)?;
    TypeNo::new(out, name.number()).ok_or(Memory)
}

/// The place that named a type, mentioned so many scopes deep, by the name that is found for it, where one is. `Memory`
/// also where there is no room for the name.
fn called_in(names: &BTreeMap<Thing, TypeNo>, depth: usize, name: TypeNo) -> Result<TypeNo, Memory>
    ensures { IfOk result (λ called. called ≡ outside (called_name names.now) depth name) }
{
    if name.out() < depth {
        return Ok(name);
    }
    let around = TypeNo::new(name.out() - depth, name.number()).ok_or(Memory)?;
    deeper(depth, called_name(names, around))
}

/// The place that named a type, mentioned so many scopes deep, by its changed name. `Memory` also where there is no
/// room for the name.
fn named_in(renaming: &Renaming<'_>, depth: usize, name: TypeNo) -> Result<TypeNo, Memory>
    ensures { IfOk result (λ changed. Some changed ≡ (change_of renaming.now).place depth name) }
{
    match renaming {
        Renaming::Same => Ok(name),
        Renaming::Placed { origins, at } => {
            if name.out() < depth {
                return Ok(name);
            }
            let held = Held {
                instance: *at,
                thing: Thing {
                    is_type: true,
                    out: name.out() - depth,
                    number: name.number(),
                },
            };
            let number = number_held(origins, held)?;
            TypeNo::new(depth, number).ok_or(Memory)
        }
        Renaming::Called { names } => called_in(names, depth, name),
    }
}

/// The place that named a type, where one did, by its changed name.
fn place_in(
    renaming: &Renaming<'_>,
    depth: usize,
    place: Option<TypeNo>,
) -> Result<Option<TypeNo>, Memory>
    ensures { IfOk result (λ changed. changed ≡ place_by (change_of renaming.now) depth place) }
{
    match place {
        None => Ok(None),
        Some(name) => {
            let changed = named_in(renaming, depth, name)?;
            Ok(Some(changed))
        }
    }
}

/// A copy of labels.
pub fn labels_in(alloc: Global, labels: &[Text]) -> Result<Sequence<Text>, Memory>
    ensures { IfOk result (λ copy. copy ≡ labels.now) }
{
    let mut copies = Vec::new(alloc);
    for label in labels {
        copies.push(label.try_clone(alloc)?)?;
    }
    Ok(Sequence::from_vec(copies))
}

/// A value type with its names changed.
#[cycle(values)]
pub fn value_in(
    alloc: Global,
    renaming: &Renaming<'_>,
    depth: usize,
    ty: &ValueShape,
) -> Result<ValueShape, Memory>
    ensures { IfOk result (λ copy.
        value_tree copy ≡ value_by (change_of renaming.now) depth (value_tree ty.now)) }
{
    match ty {
        ValueShape::Primitive(primitive) => Ok(ValueShape::Primitive(*primitive)),
        ValueShape::RecordOf(place, fields) => {
            let place = place_in(renaming, depth, *place)?;
            let fields = fields_in(alloc, renaming, depth, fields)?;
            Ok(ValueShape::RecordOf(place, fields))
        }
        ValueShape::VariantOf(place, cases) => {
            let place = place_in(renaming, depth, *place)?;
            let cases = cases_in(alloc, renaming, depth, cases)?;
            Ok(ValueShape::VariantOf(place, cases))
        }
        ValueShape::ListOf(item) => {
            let item = value_in(alloc, renaming, depth, item)?;
            let item = Box::new(alloc, item)?;
            Ok(ValueShape::ListOf(item))
        }
        ValueShape::TupleOf(parts) => {
            let parts = parts_in(alloc, renaming, depth, parts)?;
            Ok(ValueShape::TupleOf(parts))
        }
        ValueShape::FlagsOf(place, labels) => {
            let place = place_in(renaming, depth, *place)?;
            let labels = labels_in(alloc, labels.as_slice())?;
            Ok(ValueShape::FlagsOf(place, labels))
        }
        ValueShape::EnumOf(place, labels) => {
            let place = place_in(renaming, depth, *place)?;
            let labels = labels_in(alloc, labels.as_slice())?;
            Ok(ValueShape::EnumOf(place, labels))
        }
        ValueShape::OptionOf(item) => {
            let item = value_in(alloc, renaming, depth, item)?;
            let item = Box::new(alloc, item)?;
            Ok(ValueShape::OptionOf(item))
        }
        ValueShape::ResultOf { ok, err } => {
            let ok = boxed_in(alloc, renaming, depth, ok)?;
            let err = boxed_in(alloc, renaming, depth, err)?;
            Ok(ValueShape::ResultOf { ok, err })
        }
        ValueShape::Own(name) => {
            let name = resource_in(renaming, depth, *name)?;
            Ok(ValueShape::Own(name))
        }
        ValueShape::Borrow(name) => {
            let name = resource_in(renaming, depth, *name)?;
            Ok(ValueShape::Borrow(name))
        }
    }
}

/// What a result holds, with its names changed.
#[cycle(values)]
fn boxed_in(
    alloc: Global,
    renaming: &Renaming<'_>,
    depth: usize,
    held: &Option<Box<ValueShape>>,
) -> Result<Option<Box<ValueShape>>, Memory>
    ensures { IfOk result (λ copy.
        boxed_trees copy ≡ option_map (value_by (change_of renaming.now) depth) (boxed_trees held.now)) }
{
    match held {
        None => Ok(None),
        Some(ty) => {
            let ty = value_in(alloc, renaming, depth, ty)?;
            let ty = Box::new(alloc, ty)?;
            Ok(Some(ty))
        }
    }
}

/// The parts of a tuple, with their names changed.
#[cycle(values)]
fn parts_in(
    alloc: Global,
    renaming: &Renaming<'_>,
    depth: usize,
    parts: &[ValueShape],
) -> Result<Vec<ValueShape>, Memory>
    ensures { IfOk result (λ copy. map value_tree copy.items
        ≡ map (value_by (change_of renaming.now) depth) (map value_tree parts.now)) }
{
    let mut copies = Vec::new(alloc);
    for part in parts {
        let copy = value_in(alloc, renaming, depth, part)?;
        copies.push(copy)?;
    }
    Ok(copies)
}

/// The fields of a record, or the parameters of a function, with their names changed.
#[cycle(values)]
fn fields_in(
    alloc: Global,
    renaming: &Renaming<'_>,
    depth: usize,
    fields: &[(Text, ValueShape)],
) -> Result<Vec<(Text, ValueShape)>, Memory>
    ensures { IfOk result (λ copy. map field_tree copy.items
        ≡ map (field_by (change_of renaming.now) depth) (map field_tree fields.now)) }
{
    let mut copies = Vec::new(alloc);
    for field in fields {
        let label = field.0.try_clone(alloc)?;
        let ty = value_in(alloc, renaming, depth, &field.1)?;
        copies.push((label, ty))?;
    }
    Ok(copies)
}

/// The cases of a variant, with their names changed.
#[cycle(values)]
fn cases_in(
    alloc: Global,
    renaming: &Renaming<'_>,
    depth: usize,
    cases: &[(Text, Option<ValueShape>)],
) -> Result<Vec<(Text, Option<ValueShape>)>, Memory>
    ensures { IfOk result (λ copy. map case_tree copy.items
        ≡ map (case_by (change_of renaming.now) depth) (map case_tree cases.now)) }
{
    let mut copies = Vec::new(alloc);
    for case in cases {
        let label = case.0.try_clone(alloc)?;
        match &case.1 {
            None => copies.push((label, None))?,
            Some(ty) => {
                let ty = value_in(alloc, renaming, depth, ty)?;
                copies.push((label, Some(ty)))?;
            }
        }
    }
    Ok(copies)
}

/// What a function gives, with its names changed.
fn result_in(
    alloc: Global,
    renaming: &Renaming<'_>,
    depth: usize,
    held: &Option<ValueShape>,
) -> Result<Option<ValueShape>, Memory>
    ensures { IfOk result (λ copy. option_map value_tree copy
        ≡ option_map (value_by (change_of renaming.now) depth) (option_map value_tree held.now)) }
{
    match held {
        None => Ok(None),
        Some(ty) => {
            let ty = value_in(alloc, renaming, depth, ty)?;
            Ok(Some(ty))
        }
    }
}

/// A function with its names changed.
pub fn func_in(
    alloc: Global,
    renaming: &Renaming<'_>,
    depth: usize,
    func: &FuncShape,
) -> Result<FuncShape, Memory>
    ensures { IfOk result (λ copy. func_tree copy ≡ func_by (change_of renaming.now) depth (func_tree func.now)) }
{
    let params = fields_in(alloc, renaming, depth, &func.params)?;
    let result = result_in(alloc, renaming, depth, &func.result)?;
    Ok(FuncShape { params, result })
}
