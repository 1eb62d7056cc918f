//! Value types and functions taken out of a table.

ghost use Rattle.std.specs.Prelude.{◌≡◌, map, IfOk};
ghost use Rattle.comp_entity.specs.Views.{func_tree};
ghost use Rattle.comp_table.specs.Plain.{plain_func};
ghost use Rattle.comp_table.specs.Rows.{boxed_plain, case_plain, field_plain, held_plain, label_plain, value_plain};
ghost use Rattle.comp_table.specs.Trees.{tree_at};
ghost use Rattle.comp_view.specs.Kinds.{AreNumbersOf, IsNumberOf};
ghost use Rattle.comp_view.specs.Kinds as kind;

use crate::parts::{all_parts, first_part, inner, label_at, only_part, two_parts};
use comp_entity::{FuncShape, ValueShape};
use comp_table::{Head, TypeTable};
use std::alloc::Global;
use warg_values::{Memory, Sequence, Text};

/// The labels that some numbers stand for.
fn build_labels(table: &TypeTable, alloc: Global, parts: &[usize]) -> Result<Vec<Text>, Memory>
    requires { AreNumbersOf kind.LabelAlone table.now parts.now }
    ensures { IfOk result (λ labels. map label_plain labels.items ≡ map (tree_at table.now) parts.now) }
{
    let mut labels = Vec::new(alloc);
    for part in parts {
        let label = label_at(table, *part).try_clone(alloc)?;
        labels.push(label)?;
    }
    Ok(labels)
}

/// The value type that a number stands for, in which so many levels more may lie at most.
#[cycle(values)]
pub fn build_value(
    table: &TypeTable,
    alloc: Global,
    levels: usize,
    number: usize,
) -> Result<ValueShape, Memory>
    requires { IsNumberOf kind.ValueType table.now number }
    ensures { IfOk result (λ value. tree_at table.now number ≡ value_plain value) }
{
    let levels = inner(levels)?;
    match table.head(number) {
        Head::Primitive(primitive) => Ok(ValueShape::Primitive(*primitive)),
        Head::RecordOf(place) => {
            let fields = build_fields(table, alloc, levels, all_parts(table, number))?;
            Ok(ValueShape::RecordOf(*place, fields))
        }
        Head::VariantOf(place) => {
            let cases = build_cases(table, alloc, levels, all_parts(table, number))?;
            Ok(ValueShape::VariantOf(*place, cases))
        }
        Head::ListOf => {
            let item = build_value(table, alloc, levels, only_part(table, number))?;
            Ok(ValueShape::ListOf(Box::new(alloc, item)?))
        }
        Head::TupleOf => {
            let items = build_values(table, alloc, levels, all_parts(table, number))?;
            Ok(ValueShape::TupleOf(items))
        }
        Head::FlagsOf(place) => {
            let labels = build_labels(table, alloc, all_parts(table, number))?;
            Ok(ValueShape::FlagsOf(*place, Sequence::from_vec(labels)))
        }
        Head::EnumOf(place) => {
            let labels = build_labels(table, alloc, all_parts(table, number))?;
            Ok(ValueShape::EnumOf(*place, Sequence::from_vec(labels)))
        }
        Head::OptionOf => {
            let item = build_value(table, alloc, levels, only_part(table, number))?;
            Ok(ValueShape::OptionOf(Box::new(alloc, item)?))
        }
        Head::ResultOf => {
            let (first, second) = two_parts(table, number);
            let ok = build_boxed(table, alloc, levels, first)?;
            let err = build_boxed(table, alloc, levels, second)?;
            Ok(ValueShape::ResultOf { ok, err })
        }
        Head::Own(resource) => Ok(ValueShape::Own(*resource)),
        Head::Borrow(resource) => Ok(ValueShape::Borrow(*resource)),
        _ => unreachable!(),
    }
}

/// What a number stands for where something may be held, as a case or a function's result.
#[cycle(values)]
fn build_held(
    table: &TypeTable,
    alloc: Global,
    levels: usize,
    number: usize,
) -> Result<Option<ValueShape>, Memory>
    requires { IsNumberOf kind.Held table.now number }
    ensures { IfOk result (λ held. tree_at table.now number ≡ held_plain held) }
{
    match table.head(number) {
        Head::Absent => Ok(None),
        _ => {
            let value = build_value(table, alloc, levels, number)?;
            Ok(Some(value))
        }
    }
}

/// The same for a side of a result.
#[cycle(values)]
fn build_boxed(
    table: &TypeTable,
    alloc: Global,
    levels: usize,
    number: usize,
) -> Result<Option<Box<ValueShape>>, Memory>
    requires { IsNumberOf kind.Held table.now number }
    ensures { IfOk result (λ held. tree_at table.now number ≡ boxed_plain held) }
{
    match table.head(number) {
        Head::Absent => Ok(None),
        _ => {
            let value = build_value(table, alloc, levels, number)?;
            Ok(Some(Box::new(alloc, value)?))
        }
    }
}

/// The parts of a tuple that some numbers stand for.
#[cycle(values)]
fn build_values(
    table: &TypeTable,
    alloc: Global,
    levels: usize,
    parts: &[usize],
) -> Result<Vec<ValueShape>, Memory>
    requires { AreNumbersOf kind.ValueType table.now parts.now }
    ensures { IfOk result (λ values. map value_plain values.items ≡ map (tree_at table.now) parts.now) }
{
    let mut values = Vec::new(alloc);
    for part in parts {
        let value = build_value(table, alloc, levels, *part)?;
        values.push(value)?;
    }
    Ok(values)
}

/// The field or the parameter that a number stands for.
#[cycle(values)]
fn build_field(
    table: &TypeTable,
    alloc: Global,
    levels: usize,
    number: usize,
) -> Result<(Text, ValueShape), Memory>
    requires { IsNumberOf kind.Field table.now number }
    ensures { IfOk result (λ field. tree_at table.now number ≡ field_plain field) }
{
    let label = label_at(table, number).try_clone(alloc)?;
    let value = build_value(table, alloc, levels, only_part(table, number))?;
    Ok((label, value))
}

/// The fields or the parameters that some numbers stand for.
#[cycle(values)]
fn build_fields(
    table: &TypeTable,
    alloc: Global,
    levels: usize,
    parts: &[usize],
) -> Result<Vec<(Text, ValueShape)>, Memory>
    requires { AreNumbersOf kind.Field table.now parts.now }
    ensures { IfOk result (λ fields. map field_plain fields.items ≡ map (tree_at table.now) parts.now) }
{
    let mut fields = Vec::new(alloc);
    for part in parts {
        let field = build_field(table, alloc, levels, *part)?;
        fields.push(field)?;
    }
    Ok(fields)
}

/// The case that a number stands for.
#[cycle(values)]
fn build_case(
    table: &TypeTable,
    alloc: Global,
    levels: usize,
    number: usize,
) -> Result<(Text, Option<ValueShape>), Memory>
    requires { IsNumberOf kind.Case table.now number }
    ensures { IfOk result (λ built. tree_at table.now number ≡ case_plain built) }
{
    let label = label_at(table, number).try_clone(alloc)?;
    let held = build_held(table, alloc, levels, only_part(table, number))?;
    Ok((label, held))
}

/// The cases that some numbers stand for.
#[cycle(values)]
fn build_cases(
    table: &TypeTable,
    alloc: Global,
    levels: usize,
    parts: &[usize],
) -> Result<Vec<(Text, Option<ValueShape>)>, Memory>
    requires { AreNumbersOf kind.Case table.now parts.now }
    ensures { IfOk result (λ cases. map case_plain cases.items ≡ map (tree_at table.now) parts.now) }
{
    let mut cases = Vec::new(alloc);
    for part in parts {
        let case = build_case(table, alloc, levels, *part)?;
        cases.push(case)?;
    }
    Ok(cases)
}

/// The type of functions that a number stands for, in which so many levels more may lie at most.
pub fn build_func(
    table: &TypeTable,
    alloc: Global,
    levels: usize,
    number: usize,
) -> Result<FuncShape, Memory>
    requires { IsNumberOf kind.FuncType table.now number }
    ensures { IfOk result (λ func. tree_at table.now number ≡ plain_func (func_tree func)) }
{
    let levels = inner(levels)?;
    let (first, others) = first_part(table, number);
    let result = build_held(table, alloc, levels, first)?;
    let params = build_fields(table, alloc, levels, others)?;
    Ok(FuncShape { params, result })
}
