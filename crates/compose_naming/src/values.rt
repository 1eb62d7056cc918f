//! Whether types have the naming bit.

ghost use Rattle.std.specs.Prelude.{◌≡◌, map};
ghost use Rattle.std.specs.List.{list_all};
ghost use Rattle.comp_entity.specs.Fits.{place_of};
ghost use Rattle.comp_entity.specs.Views.{cases_of, fields_of, func_tree, value_tree, values_of};
ghost use Rattle.comp_scope.specs.Spaces.{is_named};
ghost use Rattle.compose_left.specs.Renaming.{case_tree, field_tree};
ghost use Rattle.compose_needs.specs.Payloads.{boxed_payload};
ghost use Rattle.compose_naming.specs.Bits.{bit_in, both, cases_bit, func_has_bit, has_bit, own_bit, parts_bit};
ghost use Rattle.compose_naming.specs.Bits.{param_has_bit, payload_bit, value_bit};
ghost use Rattle.compose_naming.specs.Scopes.{scopes_in};

use crate::scopes::{Open, bit_in};
use comp_entity::{FuncShape, TypeNo, ValueShape};
use compose_left::Thing;
use warg_values::Text;

/// The place that named a type, where one did.
pub fn place_of(value: &ValueShape) -> Option<TypeNo>
    ensures { result ≡ place_of (value_tree value.now) }
{
    match value {
        ValueShape::RecordOf(place, _) => *place,
        ValueShape::VariantOf(place, _) => *place,
        ValueShape::FlagsOf(place, _) => *place,
        ValueShape::EnumOf(place, _) => *place,
        _ => None,
    }
}

/// Whether a type has the bit where its parts do: a record, a variant, flags and an enum only where a place named them.
fn is_named(value: &ValueShape) -> bool
    ensures { result ≡ is_named (value_tree value.now) }
{
    match value {
        ValueShape::RecordOf(place, _) => place.is_some(),
        ValueShape::VariantOf(place, _) => place.is_some(),
        ValueShape::FlagsOf(place, _) => place.is_some(),
        ValueShape::EnumOf(place, _) => place.is_some(),
        _ => true,
    }
}

/// Whether two types have the bit, where that is known of both.
fn both(one: Option<bool>, other: Option<bool>) -> Option<bool>
    ensures { result ≡ both one other }
{
    match (one, other) {
        (Some(one), Some(other)) => Some(one && other),
        _ => None,
    }
}

/// Whether a type has the bit as a part of another one.
#[cycle(bits)]
fn value_bit(scopes: &[Open], value: &ValueShape) -> Option<bool>
    ensures { result ≡ value_bit (bit_in (scopes_in scopes.now)) (value_tree value.now) }
{
    match place_of(value) {
        Some(place) => bit_in(scopes, Thing::named_type(place)),
        None => {
            let own = own_bit(scopes, value)?;
            Some(own && is_named(value))
        }
    }
}

/// Whether all parts of a type have the bit.
#[cycle(bits)]
pub fn own_bit(scopes: &[Open], value: &ValueShape) -> Option<bool>
    ensures { result ≡ own_bit (bit_in (scopes_in scopes.now)) (value_tree value.now) }
{
    match value {
        ValueShape::Primitive(_) | ValueShape::Own(_) | ValueShape::Borrow(_) => Some(true),
        ValueShape::FlagsOf(..) | ValueShape::EnumOf(..) => Some(true),
        ValueShape::TupleOf(parts) => parts_bit(scopes, parts),
        ValueShape::RecordOf(_, fields) => fields_bit(scopes, fields),
        ValueShape::VariantOf(_, cases) => cases_bit(scopes, cases),
        ValueShape::ListOf(part) => value_bit(scopes, part),
        ValueShape::OptionOf(part) => value_bit(scopes, part),
        ValueShape::ResultOf { ok, err } => both(boxed_bit(scopes, ok), boxed_bit(scopes, err)),
    }
}

/// The same of what a case of a result holds.
#[cycle(bits)]
fn boxed_bit(scopes: &[Open], held: &Option<Box<ValueShape>>) -> Option<bool>
    ensures { result ≡ payload_bit (bit_in (scopes_in scopes.now)) (boxed_payload held.now) }
{
    match held {
        None => Some(true),
        Some(value) => value_bit(scopes, value),
    }
}

/// The same of the parts of a tuple.
#[cycle(bits)]
fn parts_bit(scopes: &[Open], parts: &[ValueShape]) -> Option<bool>
    ensures { result ≡ parts_bit (bit_in (scopes_in scopes.now)) (values_of (map value_tree parts.now)) }
{
    let mut bit = Some(true);
    for part in parts {
        bit = both(bit, value_bit(scopes, part));
    }
    bit
}

/// The same of the fields of a record.
#[cycle(bits)]
fn fields_bit(scopes: &[Open], fields: &[(Text, ValueShape)]) -> Option<bool>
    ensures { result ≡ cases_bit (bit_in (scopes_in scopes.now)) (fields_of (map field_tree fields.now)) }
{
    let mut bit = Some(true);
    for field in fields {
        bit = both(bit, value_bit(scopes, &field.1));
    }
    bit
}

/// The same of the cases of a variant.
#[cycle(bits)]
fn cases_bit(scopes: &[Open], cases: &[(Text, Option<ValueShape>)]) -> Option<bool>
    ensures { result ≡ cases_bit (bit_in (scopes_in scopes.now)) (cases_of (map case_tree cases.now)) }
{
    let mut bit = Some(true);
    for case in cases {
        if let Some(value) = &case.1 {
            bit = both(bit, value_bit(scopes, value));
        }
    }
    bit
}

/// Whether a type may stand in a function that is imported or exported.
fn has_bit(scopes: &[Open], value: &ValueShape) -> bool
    ensures { result ≡ has_bit (bit_in (scopes_in scopes.now)) (value_tree value.now) }
{
    value_bit(scopes, value).unwrap_or(false)
}

/// Whether all parameters may.
fn params_have_bit(scopes: &[Open], params: &[(Text, ValueShape)]) -> bool
    ensures { result ≡ list_all (param_has_bit (bit_in (scopes_in scopes.now))) (map field_tree params.now) }
{
    for param in params {
        if !has_bit(scopes, &param.1) {
            return false;
        }
    }
    true
}

/// Whether a function may be imported or exported.
pub fn func_has_bit(scopes: &[Open], func: &FuncShape) -> bool
    ensures { result ≡ func_has_bit (bit_in (scopes_in scopes.now)) (func_tree func.now) }
{
    params_have_bit(scopes, &func.params)
        && match &func.result {
            None => true,
            Some(value) => has_bit(scopes, value),
        }
}
