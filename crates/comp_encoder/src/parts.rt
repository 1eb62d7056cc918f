//! The parts of items as bytes.

ghost use Rattle.std.specs.Prelude.{◌≡◌, ◌++◌, List, ℕ, max, All, OnOk};
ghost use Rattle.std.specs.Str.{IsUtf8};
ghost use Rattle.comp_format.specs.Numbers.{number_text};
ghost use Rattle.comp_format.specs.Vectors.{vector_text, optional_text};
ghost use Rattle.comp_format.specs.Parts.{core_sort_code, sort_text, description_text, arg_text};
ghost use Rattle.comp_encoder.specs.Largest.{vector_largest, optional_largest, description_largest, arg_largest};

use crate::sink::Sink;
use comp_format::{Arg, CoreSort, Sort, TypeRef};
use warg_values::Memory;

/// What is written as bytes.
pub trait Encode {
    /// The bytes of the value.
    ghost text: { Self → List ℕ };

    /// The largest length, count or index in it.
    ghost largest: { Self → ℕ };

    /// That its texts are UTF-8.
    ghost texts: { Self → Type 0 };

    /// Writes the value behind what was written.
    fn encode(&self, out: &mut Sink) -> Result<(), Memory>
        ensures text { OnOk result (out.new.bytes.items ≡ out.old.bytes.items ++ text self.now) }
        ensures largest { OnOk result (out.new.largest ≡ max out.old.largest (largest self.now)) }
        ensures texts { OnOk result (texts self.now) };
}

/// How many values there are, and the values.
pub fn write_vector<T: Encode>(out: &mut Sink, values: &[T]) -> Result<(), Memory>
    ensures text { OnOk result (out.new.bytes.items ≡ out.old.bytes.items ++ vector_text T.text values.now) }
    ensures largest { OnOk result (out.new.largest ≡ max out.old.largest (vector_largest T.largest values.now)) }
    ensures texts { OnOk result (All T.texts values.now) }
{
    out.write_number(values.len() as u64)?;
    for value in values {
        value.encode(out)?;
    }
    Ok(())
}

/// The byte of a core sort.
pub fn code_of(sort: CoreSort) -> u8
    ensures { result ≡ core_sort_code sort }
{
    match sort {
        CoreSort::Func => 0x00,
        CoreSort::Table => 0x01,
        CoreSort::Memory => 0x02,
        CoreSort::Global => 0x03,
        CoreSort::Ty => 0x10,
        CoreSort::Module => 0x11,
        CoreSort::Instance => 0x12,
    }
}

/// A sort.
pub fn write_sort(out: &mut Sink, sort: Sort) -> Result<(), Memory>
    ensures text { OnOk result (out.new.bytes.items ≡ out.old.bytes.items ++ sort_text sort) }
    ensures largest { OnOk result (out.new.largest ≡ out.old.largest) }
{
    match sort {
        Sort::Core(core) => out.write(&[0, code_of(core)])?,
        Sort::Func => out.write(&[1])?,
        Sort::Ty => out.write(&[3])?,
        Sort::Component => out.write(&[4])?,
        Sort::Instance => out.write(&[5])?,
    }
    Ok(())
}

/// Some bytes, and an index behind them.
pub fn write_marked(out: &mut Sink, marks: &[u8], index: u32) -> Result<(), Memory>
    ensures text { OnOk result (out.new.bytes.items ≡ out.old.bytes.items ++ (marks.now ++ number_text index)) }
    ensures largest { OnOk result (out.new.largest ≡ max out.old.largest index) }
{
    out.write(marks)?;
    out.write_number(index as u64)?;
    Ok(())
}

/// The description of an import or export.
pub fn write_description(out: &mut Sink, ty: TypeRef) -> Result<(), Memory>
    ensures text { OnOk result (out.new.bytes.items ≡ out.old.bytes.items ++ description_text ty) }
    ensures largest { OnOk result (out.new.largest ≡ max out.old.largest (description_largest ty)) }
{
    match ty {
        TypeRef::Module(index) => write_marked(out, &[0, 0x11], index)?,
        TypeRef::Func(index) => write_marked(out, &[1], index)?,
        TypeRef::TyEqual(index) => write_marked(out, &[3, 0], index)?,
        TypeRef::TyFresh => out.write(&[3, 1])?,
        TypeRef::Component(index) => write_marked(out, &[4], index)?,
        TypeRef::Instance(index) => write_marked(out, &[5], index)?,
    }
    Ok(())
}

/// A flag, and the description where there is one.
pub fn write_optional(out: &mut Sink, ty: Option<TypeRef>) -> Result<(), Memory>
    ensures text { OnOk result (out.new.bytes.items ≡ out.old.bytes.items ++ optional_text description_text ty) }
    ensures largest { OnOk result (out.new.largest ≡ max out.old.largest (optional_largest description_largest ty)) }
{
    match ty {
        None => out.write(&[0])?,
        Some(ty) => {
            out.write(&[1])?;
            write_description(out, ty)?;
        }
    }
    Ok(())
}

impl Encode for Arg {
    ghost text = { arg_text };

    ghost largest = { arg_largest };

    ghost texts = { λ arg. IsUtf8 arg.name };

    fn encode(&self, out: &mut Sink) -> Result<(), Memory> {
        out.write_name(self.name.as_str())?;
        write_sort(out, self.sort)?;
        out.write_number(self.index as u64)?;
        Ok(())
    }
}
