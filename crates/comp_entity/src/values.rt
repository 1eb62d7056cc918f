//! Comparing value types and functions, where the resources of one side may be called otherwise on the other.

ghost use Rattle.std.specs.Prelude.{◌≡◌};
ghost use Rattle.std.specs.Cmp.Lexicographic.{pointwise};
ghost use Rattle.std.specs.Option.{option_eq};
ghost use Rattle.comp_entity.specs.Comparing.{value_alike, boxed_alike, field_alike, case_alike, func_alike};

use crate::entity::{FuncShape, ValueShape};
use crate::naming::{Naming, resource_equal};
use comp_format::Text;

/// Whether a value type is equal to the one that is asked for.
#[cycle(values)]
pub fn value_equal(naming: &Naming<'_>, given: &ValueShape, asked: &ValueShape) -> bool
    ensures { result ≡ value_alike naming.now given.now asked.now }
{
    match (given, asked) {
        (ValueShape::Primitive(given), ValueShape::Primitive(asked)) => given == asked,
        (ValueShape::RecordOf(_, given), ValueShape::RecordOf(_, asked)) => fields_equal(
            naming, given, asked,
        ),
        (ValueShape::VariantOf(_, given), ValueShape::VariantOf(_, asked)) => cases_equal(
            naming, given, asked,
        ),
        (ValueShape::ListOf(given), ValueShape::ListOf(asked)) => value_equal(naming, given, asked),
        (ValueShape::TupleOf(given), ValueShape::TupleOf(asked)) => parts_equal(
            naming, given, asked,
        ),
        (ValueShape::FlagsOf(_, given), ValueShape::FlagsOf(_, asked)) => given.as_slice()
            == asked.as_slice(),
        (ValueShape::EnumOf(_, given), ValueShape::EnumOf(_, asked)) => given.as_slice()
            == asked.as_slice(),
        (ValueShape::OptionOf(given), ValueShape::OptionOf(asked)) => value_equal(
            naming, given, asked,
        ),
        (
            ValueShape::ResultOf { ok, err },
            ValueShape::ResultOf {
                ok: asked_ok,
                err: asked_err,
            },
        ) => { boxed_equal(naming, ok, asked_ok) && boxed_equal(naming, err, asked_err) }
        (ValueShape::Own(given), ValueShape::Own(asked)) => resource_equal(naming, *given, *asked),
        (ValueShape::Borrow(given), ValueShape::Borrow(asked)) => resource_equal(
            naming, *given, *asked,
        ),
        _ => false,
    }
}

/// Whether what a result holds is equal to what is asked for.
#[cycle(values)]
fn boxed_equal(
    naming: &Naming<'_>,
    given: &Option<Box<ValueShape>>,
    asked: &Option<Box<ValueShape>>,
) -> bool
    ensures { result ≡ option_eq (boxed_alike naming.now) given.now asked.now }
{
    match (given, asked) {
        (None, None) => true,
        (Some(given), Some(asked)) => value_equal(naming, given, asked),
        _ => false,
    }
}

/// Whether what a function gives is what is asked for.
fn result_equal(naming: &Naming<'_>, given: &Option<ValueShape>, asked: &Option<ValueShape>) -> bool
    ensures { result ≡ option_eq (value_alike naming.now) given.now asked.now }
{
    match (given, asked) {
        (None, None) => true,
        (Some(given), Some(asked)) => value_equal(naming, given, asked),
        _ => false,
    }
}

/// Whether the parts of a tuple are those that are asked for.
#[cycle(values)]
fn parts_equal(naming: &Naming<'_>, given: &[ValueShape], asked: &[ValueShape]) -> bool
    ensures { result ≡ pointwise (value_alike naming.now) given.now asked.now }
{
    if given.len() != asked.len() {
        return false;
    }
    for (place, part) in given.iter().enumerate() {
        if !value_equal(naming, part, &asked[place]) {
            return false;
        }
    }
    true
}

/// Whether the fields of a record, or the parameters of a function, are those that are asked for.
#[cycle(values)]
fn fields_equal(
    naming: &Naming<'_>,
    given: &[(Text, ValueShape)],
    asked: &[(Text, ValueShape)],
) -> bool
    ensures { result ≡ pointwise (field_alike naming.now) given.now asked.now }
{
    if given.len() != asked.len() {
        return false;
    }
    for (place, field) in given.iter().enumerate() {
        let asked_field = &asked[place];
        if field.0 != asked_field.0 || !value_equal(naming, &field.1, &asked_field.1) {
            return false;
        }
    }
    true
}

/// Whether the cases of a variant are those that are asked for.
#[cycle(values)]
fn cases_equal(
    naming: &Naming<'_>,
    given: &[(Text, Option<ValueShape>)],
    asked: &[(Text, Option<ValueShape>)],
) -> bool
    ensures { result ≡ pointwise (case_alike naming.now) given.now asked.now }
{
    if given.len() != asked.len() {
        return false;
    }
    for (place, case) in given.iter().enumerate() {
        let asked_case = &asked[place];
        if case.0 != asked_case.0 {
            return false;
        }
        match (&case.1, &asked_case.1) {
            (None, None) => {}
            (Some(held), Some(asked_held)) => {
                if !value_equal(naming, held, asked_held) {
                    return false;
                }
            }
            _ => return false,
        }
    }
    true
}

/// Whether a function has the parameters and the result that are asked for.
pub fn func_equal(naming: &Naming<'_>, given: &FuncShape, asked: &FuncShape) -> bool
    ensures { result ≡ func_alike naming.now given.now asked.now }
{
    fields_equal(naming, &given.params, &asked.params)
        && result_equal(naming, &given.result, &asked.result)
}
