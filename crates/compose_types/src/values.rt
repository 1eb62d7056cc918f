//! Types of values and of functions, written into scopes.

ghost use Rattle.std.specs.Prelude.{◌≡◌, ◌≤◌, ◌^◌, ℕ, All, IfErr, IfOk, IsSome, Err, Some};
ghost use Rattle.comp_format.specs.Forms.{IsDefined};
ghost use Rattle.comp_entity.specs.Fits.{place_of};
ghost use Rattle.comp_entity.specs.Names.{OfPlace, OfResource};
ghost use Rattle.comp_entity.specs.Views.{func_tree, value_tree};
ghost use Rattle.compose_writing.specs.Conditions.{KeepsFunc, KeepsPayload, KeepsValue};
ghost use Rattle.compose_writing.specs.Scopes.{type_index};
ghost use Rattle.compose_writing.specs.WriteValues.{then_defined, write_defined, write_func, write_own, write_payload, write_result, write_value};
ghost use Rattle.compose_types.specs.Largest.{IsWithin, written_size};
ghost use Rattle.compose_types.specs.Scopes.{scopes};
ghost use Rattle.compose_types.specs.Values.{boxed_tree, held_tree, primitive_of, write_case, write_each, write_field, write_part};

use crate::known::Key;
use crate::state::TypeState;
use comp_entity::{FuncShape, ResourceNo, TypeNo, ValueShape};
use comp_format::{DefType, DefinedType, EncodeError, FuncType, Primitive, ValType};
use std::alloc::Global;
use warg_values::{Sequence, Text};

/// The place that named a value type, where one did.
pub fn place_of(ty: &ValueShape) -> Option<TypeNo>
    ensures { result ≡ place_of (value_tree ty.now) }
{
    match ty {
        ValueShape::RecordOf(place, _) => *place,
        ValueShape::VariantOf(place, _) => *place,
        ValueShape::FlagsOf(place, _) => *place,
        ValueShape::EnumOf(place, _) => *place,
        _ => None,
    }
}

/// The primitive type that a value type is, where it is one.
fn primitive_of(ty: &ValueShape) -> Option<Primitive>
    ensures { result ≡ primitive_of (value_tree ty.now) }
{
    match ty {
        ValueShape::Primitive(primitive) => Some(*primitive),
        _ => None,
    }
}

/// Adds a type of values, and gives its index.
fn add_defined(alloc: Global, state: &mut TypeState, ty: DefinedType) -> Result<u32, EncodeError>
    requires { IsDefined ty }
    ensures added { IfOk result (λ i. then_defined (Some (scopes state.old, ty)) ≡ Some (scopes state.new, i)) }
    ensures too_large { (n : ℕ) → result ≡ Err (EncodeError.TooLarge n) → 2 ^ 32 ≤ n }
    ensures among { (n : ℕ) → result ≡ Err (EncodeError.TooLarge n)
        → IsWithin n written_size (then_defined (Some (scopes state.old, ty))) }
{
    let index = state.add_type(alloc, DefType::Defined(ty))?;
    Ok(index)
}

/// Copies of labels, in order.
fn copies(alloc: Global, labels: &[Text]) -> Result<Sequence<Text>, EncodeError>
    ensures value { IfOk result (λ copies. copies ≡ labels.now) }
    ensures err { IfErr result (λ e. e ≡ EncodeError.Memory) }
{
    let mut copies = Sequence::new(alloc);
    for label in labels {
        copies.push(label.try_clone(alloc)?)?;
    }
    Ok(copies)
}

/// The index of a resource that some scope knows.
fn resource_index(
    alloc: Global,
    state: &mut TypeState,
    name: ResourceNo,
) -> Result<u32, EncodeError>
    requires { IsSome (type_index (OfResource name) (scopes state.old)) }
    ensures found { IfOk result (λ i. type_index (OfResource name) (scopes state.old) ≡ Some (scopes state.new, i)) }
    ensures too_large { (n : ℕ) → result ≡ Err (EncodeError.TooLarge n) → 2 ^ 32 ≤ n }
    ensures among { (n : ℕ) → result ≡ Err (EncodeError.TooLarge n)
        → IsWithin n written_size (type_index (OfResource name) (scopes state.old)) }
{
    let index = state.index_of(alloc, Key::of_resource(name))?;
    Ok(index)
}

/// The index of the type that a place named, which some scope knows.
pub fn place_index(alloc: Global, state: &mut TypeState, place: TypeNo) -> Result<u32, EncodeError>
    requires { IsSome (type_index (OfPlace place) (scopes state.old)) }
    ensures found { IfOk result (λ i. type_index (OfPlace place) (scopes state.old) ≡ Some (scopes state.new, i)) }
    ensures too_large { (n : ℕ) → result ≡ Err (EncodeError.TooLarge n) → 2 ^ 32 ≤ n }
    ensures among { (n : ℕ) → result ≡ Err (EncodeError.TooLarge n)
        → IsWithin n written_size (type_index (OfPlace place) (scopes state.old)) }
{
    let index = state.index_of(alloc, Key::of_place(place))?;
    Ok(index)
}

/// A value type as it stands, behind its parts.
#[cycle(values)]
#[tactic(auto, using(crate::proofs::ValueLaws::tree_record, crate::proofs::ValueLaws::tree_variant, crate::proofs::ValueLaws::tree_tuple), unfolding(compose_writing::specs::WriteValues::write_defined))]
pub fn defined_of(
    alloc: Global,
    state: &mut TypeState,
    ty: &ValueShape,
) -> Result<DefinedType, EncodeError>
    requires form { KeepsValue (value_tree ty.now) }
    requires possible { IsSome (write_defined (value_tree ty.now) (scopes state.old)) }
    ensures written { IfOk result (λ d. write_defined (value_tree ty.now) (scopes state.old)
        ≡ Some (scopes state.new, d)) }
    ensures form { IfOk result (λ d. IsDefined d) }
    ensures too_large { (n : ℕ) → result ≡ Err (EncodeError.TooLarge n) → 2 ^ 32 ≤ n }
    ensures among { (n : ℕ) → result ≡ Err (EncodeError.TooLarge n)
        → IsWithin n written_size (write_defined (value_tree ty.now) (scopes state.old)) }
{
    match ty {
        ValueShape::Primitive(primitive) => Ok(DefinedType::Primitive(*primitive)),
        ValueShape::TupleOf(parts) => Ok(DefinedType::TupleOf(parts_of(alloc, state, parts)?)),
        ValueShape::RecordOf(_, fields) => Ok(DefinedType::RecordOf(fields_of(
            alloc, state, fields,
        )?)),
        ValueShape::VariantOf(_, cases) => Ok(DefinedType::VariantOf(cases_of(
            alloc, state, cases,
        )?)),
        ValueShape::ListOf(item) => Ok(DefinedType::ListOf(value_of(alloc, state, item)?)),
        ValueShape::FlagsOf(_, labels) => Ok(DefinedType::FlagsOf(copies(
            alloc,
            labels.as_slice(),
        )?)),
        ValueShape::EnumOf(_, labels) => Ok(DefinedType::EnumOf(copies(alloc, labels.as_slice())?)),
        ValueShape::OptionOf(item) => Ok(DefinedType::OptionOf(value_of(alloc, state, item)?)),
        ValueShape::ResultOf { ok, err } => {
            let ok = boxed_of(alloc, state, ok)?;
            let err = boxed_of(alloc, state, err)?;
            Ok(DefinedType::ResultOf { ok, err })
        }
        ValueShape::Own(resource) => Ok(DefinedType::Own(resource_index(alloc, state, *resource)?)),
        ValueShape::Borrow(resource) => Ok(DefinedType::Borrow(resource_index(
            alloc, state, *resource,
        )?)),
    }
}

/// A value type as a part of another type.
#[cycle(values)]
#[tactic(auto, using(crate::proofs::ValueLargestLaws::primitive_written, crate::proofs::ValueLargestLaws::place_written, crate::proofs::ValueLargestLaws::part_written))]
pub fn value_of(
    alloc: Global,
    state: &mut TypeState,
    ty: &ValueShape,
) -> Result<ValType, EncodeError>
    requires form { KeepsValue (value_tree ty.now) }
    requires possible { IsSome (write_value (value_tree ty.now) (scopes state.old)) }
    ensures written { IfOk result (λ t. write_value (value_tree ty.now) (scopes state.old)
        ≡ Some (scopes state.new, t)) }
    ensures too_large { (n : ℕ) → result ≡ Err (EncodeError.TooLarge n) → 2 ^ 32 ≤ n }
    ensures among { (n : ℕ) → result ≡ Err (EncodeError.TooLarge n)
        → IsWithin n written_size (write_value (value_tree ty.now) (scopes state.old)) }
{
    if let Some(primitive) = primitive_of(ty) {
        return Ok(ValType::Primitive(primitive));
    }
    let index = match place_of(ty) {
        Some(place) => place_index(alloc, state, place)?,
        None => {
            let defined = defined_of(alloc, state, ty)?;
            add_defined(alloc, state, defined)?
        }
    };
    Ok(ValType::Index(index))
}

/// What a result holds, as a part of it.
#[cycle(values)]
#[tactic(auto, unfolding(compose_writing::specs::WriteValues::write_defined))]
fn boxed_of(
    alloc: Global,
    state: &mut TypeState,
    held: &Option<Box<ValueShape>>,
) -> Result<Option<ValType>, EncodeError>
    requires form { KeepsPayload (boxed_tree held.now) }
    requires possible { IsSome (write_payload (boxed_tree held.now) (scopes state.old)) }
    ensures written { IfOk result (λ t.
        write_payload (boxed_tree held.now) (scopes state.old) ≡ Some (scopes state.new, t)) }
    ensures too_large { (n : ℕ) → result ≡ Err (EncodeError.TooLarge n) → 2 ^ 32 ≤ n }
    ensures among { (n : ℕ) → result ≡ Err (EncodeError.TooLarge n)
        → IsWithin n written_size (write_payload (boxed_tree held.now) (scopes state.old)) }
{
    match held {
        None => Ok(None),
        Some(ty) => {
            let ty = value_of(alloc, state, ty)?;
            Ok(Some(ty))
        }
    }
}

/// The parts of a tuple.
#[cycle(values)]
fn parts_of(
    alloc: Global,
    state: &mut TypeState,
    parts: &[ValueShape],
) -> Result<Sequence<ValType>, EncodeError>
    requires form { All (λ t. KeepsValue (value_tree t)) parts.now }
    requires possible { IsSome (write_each write_part parts.now (scopes state.old)) }
    ensures written { IfOk result (λ ts. write_each write_part parts.now (scopes state.old)
        ≡ Some (scopes state.new, ts)) }
    ensures too_large { (n : ℕ) → result ≡ Err (EncodeError.TooLarge n) → 2 ^ 32 ≤ n }
    ensures among { (n : ℕ) → result ≡ Err (EncodeError.TooLarge n)
        → IsWithin n written_size (write_each write_part parts.now (scopes state.old)) }
{
    let mut written = Sequence::new(alloc);
    for part in parts {
        let ty = value_of(alloc, state, part)?;
        written.push(ty)?;
    }
    Ok(written)
}

/// The fields of a record, or the parameters of a function.
#[cycle(values)]
fn fields_of(
    alloc: Global,
    state: &mut TypeState,
    fields: &[(Text, ValueShape)],
) -> Result<Sequence<(Text, ValType)>, EncodeError>
    requires form { All (λ f. KeepsValue (value_tree f.1)) fields.now }
    requires possible { IsSome (write_each write_field fields.now (scopes state.old)) }
    ensures written { IfOk result (λ ts. write_each write_field fields.now (scopes state.old)
        ≡ Some (scopes state.new, ts)) }
    ensures too_large { (n : ℕ) → result ≡ Err (EncodeError.TooLarge n) → 2 ^ 32 ≤ n }
    ensures among { (n : ℕ) → result ≡ Err (EncodeError.TooLarge n)
        → IsWithin n written_size (write_each write_field fields.now (scopes state.old)) }
{
    let mut written = Sequence::new(alloc);
    for field in fields {
        let ty = value_of(alloc, state, &field.1)?;
        let label = field.0.try_clone(alloc)?;
        written.push((label, ty))?;
    }
    Ok(written)
}

/// The cases of a variant.
#[cycle(values)]
#[tactic(auto, using(crate::proofs::ValueLaws::case_keeps))]
fn cases_of(
    alloc: Global,
    state: &mut TypeState,
    cases: &[(Text, Option<ValueShape>)],
) -> Result<Sequence<(Text, Option<ValType>)>, EncodeError>
    requires form { All (λ c. KeepsPayload (held_tree c.1)) cases.now }
    requires possible { IsSome (write_each write_case cases.now (scopes state.old)) }
    ensures written { IfOk result (λ ts. write_each write_case cases.now (scopes state.old)
        ≡ Some (scopes state.new, ts)) }
    ensures too_large { (n : ℕ) → result ≡ Err (EncodeError.TooLarge n) → 2 ^ 32 ≤ n }
    ensures among { (n : ℕ) → result ≡ Err (EncodeError.TooLarge n)
        → IsWithin n written_size (write_each write_case cases.now (scopes state.old)) }
{
    let mut written = Sequence::new(alloc);
    for case in cases {
        let label = case.0.try_clone(alloc)?;
        match &case.1 {
            None => written.push((label, None))?,
            Some(held) => {
                let ty = value_of(alloc, state, held)?;
                written.push((label, Some(ty)))?;
            }
        }
    }
    Ok(written)
}

/// What a function gives.
#[tactic(auto, unfolding(compose_writing::specs::WriteValues::write_defined))]
fn result_of(
    alloc: Global,
    state: &mut TypeState,
    held: &Option<ValueShape>,
) -> Result<Option<ValType>, EncodeError>
    requires form { KeepsPayload (held_tree held.now) }
    requires possible { IsSome (write_payload (held_tree held.now) (scopes state.old)) }
    ensures written { IfOk result (λ t. write_payload (held_tree held.now) (scopes state.old)
        ≡ Some (scopes state.new, t)) }
    ensures too_large { (n : ℕ) → result ≡ Err (EncodeError.TooLarge n) → 2 ^ 32 ≤ n }
    ensures among { (n : ℕ) → result ≡ Err (EncodeError.TooLarge n)
        → IsWithin n written_size (write_payload (held_tree held.now) (scopes state.old)) }
{
    match held {
        None => Ok(None),
        Some(ty) => {
            let ty = value_of(alloc, state, ty)?;
            Ok(Some(ty))
        }
    }
}

/// The index of a function's type.
pub fn func_index(
    alloc: Global,
    state: &mut TypeState,
    func: &FuncShape,
) -> Result<u32, EncodeError>
    requires form { KeepsFunc (func_tree func.now) }
    requires possible { IsSome (write_func (func_tree func.now) (scopes state.old)) }
    ensures written { IfOk result (λ i. write_func (func_tree func.now) (scopes state.old)
        ≡ Some (scopes state.new, i)) }
    ensures too_large { (n : ℕ) → result ≡ Err (EncodeError.TooLarge n) → 2 ^ 32 ≤ n }
    ensures among { (n : ℕ) → result ≡ Err (EncodeError.TooLarge n)
        → IsWithin n written_size (write_func (func_tree func.now) (scopes state.old)) }
{
    let params = fields_of(alloc, state, &func.params)?;
    let result = result_of(alloc, state, &func.result)?;
    let index = state.add_type(alloc, DefType::Func(FuncType { params, result }))?;
    Ok(index)
}

/// The index of a value type that gets a name: the type itself, as it stands.
pub fn own_index(alloc: Global, state: &mut TypeState, ty: &ValueShape) -> Result<u32, EncodeError>
    requires form { KeepsValue (value_tree ty.now) }
    requires possible { IsSome (write_own (value_tree ty.now) (scopes state.old)) }
    ensures written { IfOk result (λ i. write_own (value_tree ty.now) (scopes state.old) ≡ Some (scopes state.new, i)) }
    ensures too_large { (n : ℕ) → result ≡ Err (EncodeError.TooLarge n) → 2 ^ 32 ≤ n }
    ensures among { (n : ℕ) → result ≡ Err (EncodeError.TooLarge n)
        → IsWithin n written_size (write_own (value_tree ty.now) (scopes state.old)) }
{
    let defined = defined_of(alloc, state, ty)?;
    let index = add_defined(alloc, state, defined)?;
    Ok(index)
}
