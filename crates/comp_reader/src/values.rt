//! Readers of value types, types of values and types of functions.

ghost use Rattle.std.specs.Prelude.{◌≡◌, Result, Option, Ok};
ghost use Rattle.comp_format.specs.declared.types.ValType.{ValType as value_type};
ghost use Rattle.comp_format.specs.Vectors.{optional_at, label_alone};
ghost use Rattle.comp_format.specs.Types.{primitive_of, value_at, field_at, case_at, record_at, variant_at, tuple_at, flags_at, enum_at, result_at, defined_of, result_type_at, func_at};
ghost use Rattle.comp_reader.specs.Refusal.{Gives};

use crate::read::{
    Field, Labelled, byte_of, labelled_of, mark_of, number_of, signed_index_of, vector_of,
};
use crate::refusal::Refusal;
use comp_format::{DefinedType, FuncType, Primitive, ValType};
use std::alloc::Global;
use warg_values::{Sequence, Text};

/// The primitive of a byte.
fn primitive_of_byte(byte: u8) -> Option<Primitive>
    ensures { result ≡ primitive_of byte }
{
    match byte {
        0x7f => Some(Primitive::Bool),
        0x7e => Some(Primitive::S8),
        0x7d => Some(Primitive::U8),
        0x7c => Some(Primitive::S16),
        0x7b => Some(Primitive::U16),
        0x7a => Some(Primitive::S32),
        0x79 => Some(Primitive::U32),
        0x78 => Some(Primitive::S64),
        0x77 => Some(Primitive::U64),
        0x76 => Some(Primitive::F32),
        0x75 => Some(Primitive::F64),
        0x74 => Some(Primitive::Char),
        0x73 => Some(Primitive::Text),
        _ => None,
    }
}

/// The byte of error contexts, which are not carried.
const ERROR_CONTEXT: u8 = 0x64;

/// A value type: a byte, or the index of a type.
#[tactic(auto, unfolding(comp_format::specs::Types::value_at))]
pub fn value_of(bytes: &[u8]) -> Result<(ValType, &[u8]), Refusal>
    ensures { Gives (λ x. (x.0, x.1.now)) result (value_at bytes.now) }
{
    match bytes {
        [] => Err(Refusal::Form(0)),
        [byte, rest @ ..] => match primitive_of_byte(*byte) {
            Some(primitive) => Ok((ValType::Primitive(primitive), rest)),
            None => {
                if *byte == ERROR_CONTEXT {
                    return Err(Refusal::NotCarried(bytes.len()));
                }
                let (index, rest) = signed_index_of(bytes)?;
                Ok((ValType::Index(index), rest))
            }
        },
    }
}

impl Field for ValType {
    ghost Tree = { value_type };

    ghost tree = { λ v. v };

    ghost tree_at = { λ scopes. value_at };

    fn read(_alloc: Global, _scopes: u8, bytes: &[u8]) -> Result<(Self, &[u8]), Refusal> {
        value_of(bytes)
    }
}

/// A flag, and the value type where there is one.
#[tactic(auto, unfolding(comp_format::specs::Vectors::optional_at))]
fn optional_of(bytes: &[u8]) -> Result<(Option<ValType>, &[u8]), Refusal>
    ensures { Gives (λ x. (x.0, x.1.now)) result (optional_at value_at bytes.now) }
{
    let (byte, rest) = byte_of(bytes)?;
    match byte {
        0 => Ok((None, rest)),
        1 => {
            let (ty, rest) = value_of(rest)?;
            Ok((Some(ty), rest))
        }
        _ => Err(Refusal::Form(bytes.len())),
    }
}

impl Labelled for (Text, ValType) {
    ghost behind_at = { field_at };

    #[tactic(auto, unfolding(comp_format::specs::Types::field_at, comp_format::specs::Vectors::under_label))]
    fn read_behind(_alloc: Global, label: Text, bytes: &[u8]) -> Result<(Self, &[u8]), Refusal> {
        let (ty, rest) = value_of(bytes)?;
        Ok(((label, ty), rest))
    }
}

impl Labelled for (Text, Option<ValType>) {
    ghost behind_at = { case_at };

    #[tactic(auto, unfolding(comp_format::specs::Types::case_at))]
    fn read_behind(_alloc: Global, label: Text, bytes: &[u8]) -> Result<(Self, &[u8]), Refusal> {
        let (ty, rest) = optional_of(bytes)?;
        let rest = mark_of(0, rest)?;
        Ok(((label, ty), rest))
    }
}

impl Labelled for Text {
    ghost behind_at = { label_alone };

    #[tactic(auto, unfolding(comp_format::specs::Vectors::label_alone))]
    fn read_behind(_alloc: Global, label: Text, bytes: &[u8]) -> Result<(Self, &[u8]), Refusal> {
        Ok((label, bytes))
    }
}

/// A record, behind its byte.
#[tactic(auto, unfolding(comp_format::specs::Types::record_at))]
fn record_of(alloc: Global, bytes: &[u8]) -> Result<(DefinedType, &[u8]), Refusal>
    ensures { Gives (λ x. (x.0, x.1.now)) result (record_at bytes.now) }
{
    let (fields, rest) = labelled_of::<(Text, ValType)>(alloc, bytes)?;
    if fields.is_empty() {
        return Err(Refusal::Form(bytes.len()));
    }
    Ok((DefinedType::RecordOf(Sequence::from_vec(fields)), rest))
}

/// A variant, behind its byte.
#[tactic(auto, unfolding(comp_format::specs::Types::variant_at))]
fn variant_of(alloc: Global, bytes: &[u8]) -> Result<(DefinedType, &[u8]), Refusal>
    ensures { Gives (λ x. (x.0, x.1.now)) result (variant_at bytes.now) }
{
    let (cases, rest) = labelled_of::<(Text, Option<ValType>)>(alloc, bytes)?;
    if cases.is_empty() {
        return Err(Refusal::Form(bytes.len()));
    }
    Ok((DefinedType::VariantOf(Sequence::from_vec(cases)), rest))
}

/// A tuple, behind its byte.
#[tactic(auto, unfolding(comp_format::specs::Types::tuple_at))]
fn tuple_of(alloc: Global, bytes: &[u8]) -> Result<(DefinedType, &[u8]), Refusal>
    ensures { Gives (λ x. (x.0, x.1.now)) result (tuple_at bytes.now) }
{
    let (parts, rest) = vector_of::<ValType>(alloc, 0, bytes)?;
    if parts.is_empty() {
        return Err(Refusal::Form(bytes.len()));
    }
    Ok((DefinedType::TupleOf(Sequence::from_vec(parts)), rest))
}

/// Flags, behind their byte.
#[tactic(auto, unfolding(comp_format::specs::Types::flags_at))]
fn flags_of(alloc: Global, bytes: &[u8]) -> Result<(DefinedType, &[u8]), Refusal>
    ensures { Gives (λ x. (x.0, x.1.now)) result (flags_at bytes.now) }
{
    let (count, _) = number_of(bytes)?;
    if count == 0 {
        return Err(Refusal::Form(bytes.len()));
    }
    if 32 < count {
        return Err(Refusal::Form(bytes.len()));
    }
    let (labels, rest) = labelled_of::<Text>(alloc, bytes)?;
    Ok((DefinedType::FlagsOf(Sequence::from_vec(labels)), rest))
}

/// An enumeration, behind its byte.
#[tactic(auto, unfolding(comp_format::specs::Types::enum_at))]
fn enum_of(alloc: Global, bytes: &[u8]) -> Result<(DefinedType, &[u8]), Refusal>
    ensures { Gives (λ x. (x.0, x.1.now)) result (enum_at bytes.now) }
{
    let (labels, rest) = labelled_of::<Text>(alloc, bytes)?;
    if labels.is_empty() {
        return Err(Refusal::Form(bytes.len()));
    }
    Ok((DefinedType::EnumOf(Sequence::from_vec(labels)), rest))
}

/// A result, behind its byte.
#[tactic(auto, unfolding(comp_format::specs::Types::result_at))]
fn result_of(bytes: &[u8]) -> Result<(DefinedType, &[u8]), Refusal>
    ensures { Gives (λ x. (x.0, x.1.now)) result (result_at bytes.now) }
{
    let (ok, rest) = optional_of(bytes)?;
    let (err, rest) = optional_of(rest)?;
    Ok((DefinedType::ResultOf { ok, err }, rest))
}

/// A type of values that has parts, behind its byte, where the byte is one of such a type.
#[tactic(auto, unfolding(comp_format::specs::Types::defined_of))]
pub fn defined_of(alloc: Global, byte: u8, rest: &[u8]) -> Result<(DefinedType, &[u8]), Refusal>
    ensures { Gives (λ x. (x.0, x.1.now)) result (defined_of byte rest.now) }
{
    match byte {
        0x72 => record_of(alloc, rest),
        0x71 => variant_of(alloc, rest),
        0x70 => {
            let (ty, rest) = value_of(rest)?;
            Ok((DefinedType::ListOf(ty), rest))
        }
        0x6f => tuple_of(alloc, rest),
        0x6e => flags_of(alloc, rest),
        0x6d => enum_of(alloc, rest),
        0x6b => {
            let (ty, rest) = value_of(rest)?;
            Ok((DefinedType::OptionOf(ty), rest))
        }
        0x6a => result_of(rest),
        0x69 => {
            let (index, rest) = number_of(rest)?;
            Ok((DefinedType::Own(index), rest))
        }
        0x68 => {
            let (index, rest) = number_of(rest)?;
            Ok((DefinedType::Borrow(index), rest))
        }
        _ => match primitive_of_byte(byte) {
            Some(primitive) => Ok((DefinedType::Primitive(primitive), rest)),
            None => Err(Refusal::NotCarried(rest.len().saturating_add(1))),
        },
    }
}

/// The result of a function.
#[tactic(auto, unfolding(comp_format::specs::Types::result_type_at))]
fn result_type_of(bytes: &[u8]) -> Result<(Option<ValType>, &[u8]), Refusal>
    ensures { Gives (λ x. (x.0, x.1.now)) result (result_type_at bytes.now) }
{
    let (byte, rest) = byte_of(bytes)?;
    match byte {
        0 => {
            let (ty, rest) = value_of(rest)?;
            Ok((Some(ty), rest))
        }
        1 => Ok((None, mark_of(0, rest)?)),
        _ => Err(Refusal::Form(bytes.len())),
    }
}

/// A type of functions, behind its byte.
#[tactic(auto, unfolding(comp_format::specs::Types::func_at))]
pub fn func_of(alloc: Global, bytes: &[u8]) -> Result<(FuncType, &[u8]), Refusal>
    ensures { Gives (λ x. (x.0, x.1.now)) result (func_at bytes.now) }
{
    let (params, rest) = labelled_of::<(Text, ValType)>(alloc, bytes)?;
    let (result_type, rest) = result_type_of(rest)?;
    let func = FuncType {
        params: Sequence::from_vec(params),
        result: result_type,
    };
    Ok((func, rest))
}
