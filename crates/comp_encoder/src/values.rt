//! Value types, types of values and types of functions as bytes.

ghost use Rattle.std.specs.Prelude.{◌≡◌, ◌++◌, max, length, OnOk};
ghost use Rattle.std.specs.Str.{IsUtf8};
ghost use Rattle.comp_format.specs.Vectors.{optional_text, name_text};
ghost use Rattle.comp_format.specs.Types.{primitive_code, value_text, field_text, case_text, defined_text, result_text, func_text};
ghost use Rattle.comp_encoder.specs.Largest.{optional_largest, value_largest, field_largest, case_largest, defined_largest, func_largest};
ghost use Rattle.comp_encoder.specs.Texts.{HasText, TextsOfDefined, TextsOfFunc};

use crate::parts::{Encode, write_marked, write_vector};
use crate::sink::Sink;
use comp_format::{DefinedType, FuncType, Primitive, ValType};
use warg_values::{Memory, Text};

/// The byte of a primitive type.
fn code_of(primitive: Primitive) -> u8
    ensures { result ≡ primitive_code primitive }
{
    match primitive {
        Primitive::Bool => 0x7f,
        Primitive::S8 => 0x7e,
        Primitive::U8 => 0x7d,
        Primitive::S16 => 0x7c,
        Primitive::U16 => 0x7b,
        Primitive::S32 => 0x7a,
        Primitive::U32 => 0x79,
        Primitive::S64 => 0x78,
        Primitive::U64 => 0x77,
        Primitive::F32 => 0x76,
        Primitive::F64 => 0x75,
        Primitive::Char => 0x74,
        Primitive::Text => 0x73,
    }
}

/// A value type: a byte, or the index of a type.
fn write_value(out: &mut Sink, ty: ValType) -> Result<(), Memory>
    ensures text { OnOk result (out.new.bytes.items ≡ out.old.bytes.items ++ value_text ty) }
    ensures largest { OnOk result (out.new.largest ≡ max out.old.largest (value_largest ty)) }
{
    match ty {
        ValType::Primitive(primitive) => out.write(&[code_of(primitive)])?,
        ValType::Index(index) => out.write_signed(index)?,
    }
    Ok(())
}

/// A flag, and the value type where there is one.
fn write_optional(out: &mut Sink, ty: Option<ValType>) -> Result<(), Memory>
    ensures text { OnOk result (out.new.bytes.items ≡ out.old.bytes.items ++ optional_text value_text ty) }
    ensures largest { OnOk result (out.new.largest ≡ max out.old.largest (optional_largest value_largest ty)) }
{
    match ty {
        None => out.write(&[0])?,
        Some(ty) => {
            out.write(&[1])?;
            write_value(out, ty)?;
        }
    }
    Ok(())
}

impl Encode for ValType {
    ghost text = { value_text };

    ghost largest = { value_largest };

    ghost texts = { λ ty. Unit {0} };

    fn encode(&self, out: &mut Sink) -> Result<(), Memory> {
        write_value(out, *self)?;
        Ok(())
    }
}

impl Encode for (Text, ValType) {
    ghost text = { field_text };

    ghost largest = { field_largest };

    ghost texts = { HasText };

    fn encode(&self, out: &mut Sink) -> Result<(), Memory> {
        out.write_name(self.0.as_str())?;
        write_value(out, self.1)?;
        Ok(())
    }
}

impl Encode for (Text, Option<ValType>) {
    ghost text = { case_text };

    ghost largest = { case_largest };

    ghost texts = { HasText };

    fn encode(&self, out: &mut Sink) -> Result<(), Memory> {
        out.write_name(self.0.as_str())?;
        write_optional(out, self.1)?;
        out.write(&[0])?;
        Ok(())
    }
}

impl Encode for Text {
    ghost text = { name_text };

    ghost largest = { λ name. length name };

    ghost texts = { IsUtf8 };

    fn encode(&self, out: &mut Sink) -> Result<(), Memory> {
        out.write_name(self.as_str())?;
        Ok(())
    }
}

/// A type of values.
pub fn write_defined(out: &mut Sink, ty: &DefinedType) -> Result<(), Memory>
    ensures text { OnOk result (out.new.bytes.items ≡ out.old.bytes.items ++ defined_text ty.now) }
    ensures largest { OnOk result (out.new.largest ≡ max out.old.largest (defined_largest ty.now)) }
    ensures texts { OnOk result (TextsOfDefined ty.now) }
{
    match ty {
        DefinedType::Primitive(primitive) => out.write(&[code_of(*primitive)])?,
        DefinedType::RecordOf(fields) => {
            out.write(&[0x72])?;
            write_vector(out, fields.as_slice())?;
        }
        DefinedType::VariantOf(cases) => {
            out.write(&[0x71])?;
            write_vector(out, cases.as_slice())?;
        }
        DefinedType::ListOf(ty) => {
            out.write(&[0x70])?;
            write_value(out, *ty)?;
        }
        DefinedType::TupleOf(parts) => {
            out.write(&[0x6f])?;
            write_vector(out, parts.as_slice())?;
        }
        DefinedType::FlagsOf(labels) => {
            out.write(&[0x6e])?;
            write_vector(out, labels.as_slice())?;
        }
        DefinedType::EnumOf(labels) => {
            out.write(&[0x6d])?;
            write_vector(out, labels.as_slice())?;
        }
        DefinedType::OptionOf(ty) => {
            out.write(&[0x6b])?;
            write_value(out, *ty)?;
        }
        DefinedType::ResultOf { ok, err } => {
            out.write(&[0x6a])?;
            write_optional(out, *ok)?;
            write_optional(out, *err)?;
        }
        DefinedType::Own(index) => write_marked(out, &[0x69], *index)?,
        DefinedType::Borrow(index) => write_marked(out, &[0x68], *index)?,
    }
    Ok(())
}

/// The result of a function.
fn write_result(out: &mut Sink, ty: Option<ValType>) -> Result<(), Memory>
    ensures text { OnOk result (out.new.bytes.items ≡ out.old.bytes.items ++ result_text ty) }
    ensures largest { OnOk result (out.new.largest ≡ max out.old.largest (optional_largest value_largest ty)) }
{
    match ty {
        Some(ty) => {
            out.write(&[0])?;
            write_value(out, ty)?;
        }
        None => out.write(&[1, 0])?,
    }
    Ok(())
}

/// A type of functions, behind its byte.
pub fn write_func(out: &mut Sink, ty: &FuncType) -> Result<(), Memory>
    ensures text { OnOk result (out.new.bytes.items ≡ out.old.bytes.items ++ func_text ty.now) }
    ensures largest { OnOk result (out.new.largest ≡ max out.old.largest (func_largest ty.now)) }
    ensures texts { OnOk result (TextsOfFunc ty.now) }
{
    write_vector(out, ty.params.as_slice())?;
    write_result(out, ty.result)?;
    Ok(())
}
