//! What nodes are ordered and found by.

ghost use Rattle.std.specs.Prelude.{◌≡◌, ◌++◌, ◌∷◌, [], IfOk, OnOk};
ghost use Rattle.comp_format.specs.CoreTypes.{core_value_code};
ghost use Rattle.comp_format.specs.Types.{primitive_code};
ghost use Rattle.comp_table.specs.Heads.{head_code, head_label, head_numbers, limits_numbers, place_numbers};
ghost use Rattle.comp_table.specs.Table.{node_key};

use crate::head::Head;
use crate::numbers::Numbers;
use comp_entity::TypeNo;
use comp_format::{CoreVal, Limits, Primitive};
use std::alloc::Global;
use warg_values::{Memory, Text};

/// What a node is found by.
#[derive(Drop, PartialEq, Eq, PartialOrd, Ord)]
pub struct Key {
    /// The kind of the head.
    pub kind: usize,
    /// What the head has besides its kind and its label.
    pub numbers: Numbers,
    /// The head's label, or nothing.
    pub label: Text,
    /// The numbers of the parts.
    pub parts: Numbers,
}

/// The byte of a primitive (`Binary.md`, `primvaltype`).
fn primitive_code(primitive: Primitive) -> usize
    ensures { result ≡ primitive_code primitive }
{
    match primitive {
        Primitive::Bool => 0x7f,
        Primitive::S8 => 0x7e,
        Primitive::U8 => 0x7d,
        Primitive::S16 => 0x7c,
        Primitive::U16 => 0x7b,
        Primitive::S32 => 0x7a,
        Primitive::U32 => 0x79,
        Primitive::S64 => 0x78,
        Primitive::U64 => 0x77,
        Primitive::F32 => 0x76,
        Primitive::F64 => 0x75,
        Primitive::Char => 0x74,
        Primitive::Text => 0x73,
    }
}

/// The byte of a type of core values (core specification, "Value Types").
fn core_value_code(value: CoreVal) -> usize
    ensures { result ≡ core_value_code value }
{
    match value {
        CoreVal::V7f => 0x7f,
        CoreVal::V7e => 0x7e,
        CoreVal::V7d => 0x7d,
        CoreVal::V7c => 0x7c,
        CoreVal::V7b => 0x7b,
        CoreVal::V70 => 0x70,
        CoreVal::V6f => 0x6f,
    }
}

/// The kind of a head: its byte in `Binary.md` where it has one.
fn head_code(head: &Head) -> usize
    ensures { result ≡ head_code head.now }
{
    match head {
        Head::Primitive(primitive) => primitive_code(*primitive),
        Head::RecordOf(_) => 0x72,
        Head::VariantOf(_) => 0x71,
        Head::ListOf => 0x70,
        Head::TupleOf => 0x6f,
        Head::FlagsOf(_) => 0x6e,
        Head::EnumOf(_) => 0x6d,
        Head::OptionOf => 0x6b,
        Head::ResultOf => 0x6a,
        Head::Own(_) => 0x69,
        Head::Borrow(_) => 0x68,
        Head::ComponentType => 0x41,
        Head::InstanceType => 0x42,
        Head::FuncType => 0x40,
        Head::Resource(_) => 0x3f,
        Head::Func => 1,
        Head::Component => 4,
        Head::Instance => 5,
        Head::Module => 0x11,
        Head::OwnModule => 0x12,
        Head::Absent => 0x20,
        Head::Label(_) => 0x21,
        Head::Entries => 0x22,
        Head::Entry(_, _) => 0x23,
        Head::CoreFunc => 0x30,
        Head::CoreTable(_, _) => 0x31,
        Head::CoreMemory(_) => 0x32,
        Head::CoreGlobal(_, _) => 0x33,
        Head::CoreValue(_) => 0x34,
    }
}

/// The label of a head, or nothing.
fn head_label(head: &Head) -> &str
    ensures { result.now ≡ head_label head.now }
{
    match head {
        Head::Label(label) => label.as_str(),
        Head::Entry(_, name) => name.as_str(),
        _ => "",
    }
}

/// Adds one number, for which no more room is taken than it needs.
fn push_alone(numbers: &mut Vec<usize>, number: usize) -> Result<(), Memory>
    ensures { OnOk result (numbers.new.items ≡ numbers.old.items ++ number ∷ []) }
{
    numbers.reserve_exact(1)?;
    numbers.push(number)?;
    Ok(())
}

/// Adds the numbers of a name.
fn push_name(numbers: &mut Vec<usize>, out: usize, number: usize) -> Result<(), Memory>
    ensures { OnOk result
        (numbers.new.items ≡ numbers.old.items ++ (out ∷ number ∷ [])) }
{
    numbers.push(out)?;
    numbers.push(number)?;
    Ok(())
}

/// Adds the numbers of the place that named a type, where one did.
fn push_place(numbers: &mut Vec<usize>, place: Option<TypeNo>) -> Result<(), Memory>
    ensures { OnOk result (numbers.new.items ≡ numbers.old.items ++ place_numbers place) }
{
    match place {
        Some(place) => {
            push_name(numbers, place.out(), place.number())?;
            Ok(())
        }
        None => Ok(()),
    }
}

/// Adds the numbers of limits.
fn push_limits(numbers: &mut Vec<usize>, limits: Limits) -> Result<(), Memory>
    ensures { OnOk result (numbers.new.items ≡ numbers.old.items ++ limits_numbers limits) }
{
    numbers.push(limits.min as usize)?;
    match limits.max {
        Some(most) => {
            numbers.push(most as usize)?;
            Ok(())
        }
        None => Ok(()),
    }
}

/// Adds what a head has besides its kind and its label.
fn push_head(numbers: &mut Vec<usize>, head: &Head) -> Result<(), Memory>
    ensures { OnOk result (numbers.new.items ≡ numbers.old.items ++ head_numbers head.now) }
{
    match head {
        Head::RecordOf(place) => push_place(numbers, *place)?,
        Head::VariantOf(place) => push_place(numbers, *place)?,
        Head::FlagsOf(place) => push_place(numbers, *place)?,
        Head::EnumOf(place) => push_place(numbers, *place)?,
        Head::Own(name) => push_name(numbers, name.out(), name.number())?,
        Head::Borrow(name) => push_name(numbers, name.out(), name.number())?,
        Head::Resource(name) => push_name(numbers, name.out(), name.number())?,
        Head::Entry(mark, _) => push_alone(numbers, *mark as usize)?,
        Head::CoreTable(element, limits) => {
            numbers.push(core_value_code(*element))?;
            push_limits(numbers, *limits)?;
        }
        Head::CoreMemory(limits) => push_limits(numbers, *limits)?,
        Head::CoreGlobal(value, mutable) => {
            numbers.push(core_value_code(*value))?;
            numbers.push(*mutable as usize)?;
        }
        Head::CoreValue(value) => numbers.push(core_value_code(*value))?,
        _ => {}
    }
    Ok(())
}

/// The key of a node of this head and these parts.
pub fn key_of(alloc: Global, head: &Head, parts: &Numbers) -> Result<Key, Memory>
    ensures { IfOk result (λ key. key ≡ node_key head.now parts.now) }
{
    let mut numbers = Vec::new(alloc);
    push_head(&mut numbers, head)?;
    let label = Text::copy_of(alloc, head_label(head))?;
    let parts = parts.try_clone(alloc)?;
    Ok(Key {
        kind: head_code(head),
        numbers: Numbers::from_vec(numbers),
        label,
        parts,
    })
}
