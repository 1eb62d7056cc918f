//! Value types, functions and core modules put into a table.

ghost use Rattle.std.specs.Prelude.{◌≡◌, ◌<◌, ◌∷◌, [], length, map, IfOk};
ghost use Rattle.comp_entity.specs.Views.{func_tree};
ghost use Rattle.comp_table.specs.declared.head.Head.TheVariants as Head;
ghost use Rattle.comp_table.specs.Plain.{around, around_two, leaf, plain_core, plain_export, plain_func, plain_import, plain_module, under_label};
ghost use Rattle.comp_table.specs.Rows.{boxed_plain, case_plain, core_value_plain, field_plain, held_plain, label_plain, value_plain};
ghost use Rattle.comp_table.specs.Trees.{AllStand, Extends, IsBelow, Stands, node_tree, tree, tree_at, trees_of};

use crate::head::Head;
use crate::numbers::Numbers;
use crate::table::TypeTable;
use comp_entity::{CoreShape, FuncShape, ModuleShape, ValueShape};
use comp_format::CoreVal;
use std::alloc::Global;
use warg_values::{Memory, Text};

/// How many levels more may lie within what lies where so many may.
pub fn inner(levels: usize) -> Result<usize, Memory> {
    levels.checked_sub(1).ok_or(Memory)
}

/// The number of what has this root and parts of these numbers.
pub fn node(
    table: &mut TypeTable,
    alloc: Global,
    head: Head,
    parts: Vec<usize>,
) -> Result<usize, Memory>
    requires { IsBelow (length table.old) parts.items }
    ensures extends { Extends table.old table.new }
    ensures number { IfOk result (λ n. Stands table.new n (node_tree table.old head parts.items)) }
{
    table.number_of(alloc, head, Numbers::from_vec(parts))
}

/// The number of what has this root and no parts.
pub fn leaf(table: &mut TypeTable, alloc: Global, head: Head) -> Result<usize, Memory>
    ensures extends { Extends table.old table.new }
    ensures number { IfOk result (λ n. Stands table.new n (leaf head)) }
{
    node(table, alloc, head, Vec::new(alloc))
}

/// The number of what has this root and one part.
pub fn around(
    table: &mut TypeTable,
    alloc: Global,
    head: Head,
    part: usize,
) -> Result<usize, Memory>
    requires { part < length table.old }
    ensures extends { Extends table.old table.new }
    ensures number { IfOk result (λ n. Stands table.new n (around head (tree_at table.old part))) }
{
    let parts = vec![in alloc; part]?;
    node(table, alloc, head, parts)
}

/// The number of what has this root and two parts.
pub fn around_two(
    table: &mut TypeTable,
    alloc: Global,
    head: Head,
    first: usize,
    second: usize,
) -> Result<usize, Memory>
    requires first { first < length table.old }
    requires second { second < length table.old }
    ensures extends { Extends table.old table.new }
    ensures number { IfOk result
        (λ n. Stands table.new n (around_two head (tree_at table.old first) (tree_at table.old second))) }
{
    let parts = vec![in alloc; first, second]?;
    node(table, alloc, head, parts)
}

/// The number of what stands below a label.
fn under(table: &mut TypeTable, alloc: Global, label: &Text, part: usize) -> Result<usize, Memory>
    requires { part < length table.old }
    ensures extends { Extends table.old table.new }
    ensures number { IfOk result (λ n. Stands table.new n (under_label label.now (tree_at table.old part))) }
{
    let label = label.try_clone(alloc)?;
    around(table, alloc, Head::Label(label), part)
}

/// The number of a case that holds nothing.
fn intern_empty(table: &mut TypeTable, alloc: Global, label: &Text) -> Result<usize, Memory>
    ensures extends { Extends table.old table.new }
    ensures number { IfOk result (λ n. Stands table.new n (under_label label.now (leaf Head.Absent))) }
{
    let part = leaf(table, alloc, Head::Absent)?;
    under(table, alloc, label, part)
}

/// The numbers of labels with nothing below them.
fn intern_labels(
    table: &mut TypeTable,
    alloc: Global,
    labels: &[Text],
) -> Result<Vec<usize>, Memory>
    ensures extends { Extends table.old table.new }
    ensures numbers { IfOk result (λ ns. AllStand table.new ns.items (map label_plain labels.now)) }
{
    let mut numbers = Vec::new(alloc);
    for label in labels {
        let label = label.try_clone(alloc)?;
        let number = leaf(table, alloc, Head::Label(label))?;
        numbers.push(number)?;
    }
    Ok(numbers)
}

/// The number of a value type, which lies in so many levels more at most.
#[cycle(values)]
pub fn intern_value(
    table: &mut TypeTable,
    alloc: Global,
    levels: usize,
    value: &ValueShape,
) -> Result<usize, Memory>
    ensures extends { Extends table.old table.new }
    ensures number { IfOk result (λ n. Stands table.new n (value_plain value.now)) }
{
    let levels = inner(levels)?;
    match value {
        ValueShape::Primitive(primitive) => leaf(table, alloc, Head::Primitive(*primitive)),
        ValueShape::RecordOf(place, fields) => {
            let parts = intern_fields(table, alloc, levels, fields)?;
            node(table, alloc, Head::RecordOf(*place), parts)
        }
        ValueShape::VariantOf(place, cases) => {
            let parts = intern_cases(table, alloc, levels, cases)?;
            node(table, alloc, Head::VariantOf(*place), parts)
        }
        ValueShape::ListOf(item) => {
            let part = intern_value(table, alloc, levels, item)?;
            around(table, alloc, Head::ListOf, part)
        }
        ValueShape::TupleOf(items) => {
            let parts = intern_values(table, alloc, levels, items)?;
            node(table, alloc, Head::TupleOf, parts)
        }
        ValueShape::FlagsOf(place, labels) => {
            let parts = intern_labels(table, alloc, labels.as_slice())?;
            node(table, alloc, Head::FlagsOf(*place), parts)
        }
        ValueShape::EnumOf(place, labels) => {
            let parts = intern_labels(table, alloc, labels.as_slice())?;
            node(table, alloc, Head::EnumOf(*place), parts)
        }
        ValueShape::OptionOf(item) => {
            let part = intern_value(table, alloc, levels, item)?;
            around(table, alloc, Head::OptionOf, part)
        }
        ValueShape::ResultOf { ok, err } => {
            let first = intern_boxed(table, alloc, levels, ok)?;
            let second = intern_boxed(table, alloc, levels, err)?;
            around_two(table, alloc, Head::ResultOf, first, second)
        }
        ValueShape::Own(resource) => leaf(table, alloc, Head::Own(*resource)),
        ValueShape::Borrow(resource) => leaf(table, alloc, Head::Borrow(*resource)),
    }
}

/// The number of what a side of a result holds.
#[cycle(values)]
fn intern_boxed(
    table: &mut TypeTable,
    alloc: Global,
    levels: usize,
    value: &Option<Box<ValueShape>>,
) -> Result<usize, Memory>
    ensures extends { Extends table.old table.new }
    ensures number { IfOk result (λ n. Stands table.new n (boxed_plain value.now)) }
{
    match value {
        Some(value) => intern_value(table, alloc, levels, value),
        None => leaf(table, alloc, Head::Absent),
    }
}

/// The number of a case that holds something.
#[cycle(values)]
fn intern_case(
    table: &mut TypeTable,
    alloc: Global,
    levels: usize,
    label: &Text,
    held: &ValueShape,
) -> Result<usize, Memory>
    ensures extends { Extends table.old table.new }
    ensures number { IfOk result (λ n. Stands table.new n (under_label label.now (value_plain held.now))) }
{
    let part = intern_value(table, alloc, levels, held)?;
    under(table, alloc, label, part)
}

/// The numbers of the parts of a tuple.
#[cycle(values)]
fn intern_values(
    table: &mut TypeTable,
    alloc: Global,
    levels: usize,
    values: &[ValueShape],
) -> Result<Vec<usize>, Memory>
    ensures extends { Extends table.old table.new }
    ensures numbers { IfOk result (λ ns. AllStand table.new ns.items (map value_plain values.now)) }
{
    let mut numbers = Vec::new(alloc);
    for value in values {
        let number = intern_value(table, alloc, levels, value)?;
        numbers.push(number)?;
    }
    Ok(numbers)
}

/// The numbers of the fields of a record, or of the parameters of a function.
#[cycle(values)]
fn intern_fields(
    table: &mut TypeTable,
    alloc: Global,
    levels: usize,
    fields: &[(Text, ValueShape)],
) -> Result<Vec<usize>, Memory>
    ensures extends { Extends table.old table.new }
    ensures numbers { IfOk result (λ ns. AllStand table.new ns.items (map field_plain fields.now)) }
{
    let mut numbers = Vec::new(alloc);
    for field in fields {
        let part = intern_value(table, alloc, levels, &field.1)?;
        let number = under(table, alloc, &field.0, part)?;
        numbers.push(number)?;
    }
    Ok(numbers)
}

/// The numbers of the cases of a variant.
#[cycle(values)]
fn intern_cases(
    table: &mut TypeTable,
    alloc: Global,
    levels: usize,
    cases: &[(Text, Option<ValueShape>)],
) -> Result<Vec<usize>, Memory>
    ensures extends { Extends table.old table.new }
    ensures numbers { IfOk result (λ ns. AllStand table.new ns.items (map case_plain cases.now)) }
{
    let mut numbers = Vec::new(alloc);
    for case in cases {
        let number = match &case.1 {
            Some(held) => intern_case(table, alloc, levels, &case.0, held)?,
            None => intern_empty(table, alloc, &case.0)?,
        };
        numbers.push(number)?;
    }
    Ok(numbers)
}

/// The number of what a function gives.
fn intern_result(
    table: &mut TypeTable,
    alloc: Global,
    levels: usize,
    value: &Option<ValueShape>,
) -> Result<usize, Memory>
    ensures extends { Extends table.old table.new }
    ensures number { IfOk result (λ n. Stands table.new n (held_plain value.now)) }
{
    match value {
        Some(value) => intern_value(table, alloc, levels, value),
        None => leaf(table, alloc, Head::Absent),
    }
}

/// A number, and others behind it.
fn with_first(alloc: Global, first: usize, others: &[usize]) -> Result<Vec<usize>, Memory>
    ensures { IfOk result (λ all. all.items ≡ first ∷ others.now) }
{
    let mut all = Vec::new(alloc);
    all.push(first)?;
    all.extend_from_slice(others)?;
    Ok(all)
}

/// The number of a type of functions. The result stands in front of the parameters.
pub fn intern_func(
    table: &mut TypeTable,
    alloc: Global,
    levels: usize,
    func: &FuncShape,
) -> Result<usize, Memory>
    ensures extends { Extends table.old table.new }
    ensures number { IfOk result (λ n. Stands table.new n (plain_func (func_tree func.now))) }
{
    let levels = inner(levels)?;
    let result = intern_result(table, alloc, levels, &func.result)?;
    let params = intern_fields(table, alloc, levels, &func.params)?;
    let parts = with_first(alloc, result, &params)?;
    node(table, alloc, Head::FuncType, parts)
}

/// The number of a list of core value types.
fn intern_core_values(
    table: &mut TypeTable,
    alloc: Global,
    values: &[CoreVal],
) -> Result<usize, Memory>
    ensures extends { Extends table.old table.new }
    ensures number { IfOk result (λ n. Stands table.new n
        (tree Head.Entries (trees_of (map core_value_plain values.now)))) }
{
    let mut numbers = Vec::new(alloc);
    for value in values {
        let number = leaf(table, alloc, Head::CoreValue(*value))?;
        numbers.push(number)?;
    }
    node(table, alloc, Head::Entries, numbers)
}

/// The number of what a core module imports or exports.
fn intern_core(table: &mut TypeTable, alloc: Global, core: &CoreShape) -> Result<usize, Memory>
    ensures extends { Extends table.old table.new }
    ensures number { IfOk result (λ n. Stands table.new n (plain_core core.now)) }
{
    match core {
        CoreShape::Func { params, results } => {
            let params = intern_core_values(table, alloc, params.as_slice())?;
            let results = intern_core_values(table, alloc, results.as_slice())?;
            around_two(table, alloc, Head::CoreFunc, params, results)
        }
        CoreShape::Table { element, limits } => {
            leaf(table, alloc, Head::CoreTable(*element, *limits))
        }
        CoreShape::Memory(limits) => leaf(table, alloc, Head::CoreMemory(*limits)),
        CoreShape::Global { value, mutable } => {
            leaf(table, alloc, Head::CoreGlobal(*value, *mutable))
        }
    }
}

/// The number of the imports of a core module.
fn intern_core_imports(
    table: &mut TypeTable,
    alloc: Global,
    imports: &[(Text, Text, CoreShape)],
) -> Result<usize, Memory>
    ensures extends { Extends table.old table.new }
    ensures number { IfOk result (λ n. Stands table.new n
        (tree Head.Entries (trees_of (map plain_import imports.now)))) }
{
    let mut numbers = Vec::new(alloc);
    for import in imports {
        let core = intern_core(table, alloc, &import.2)?;
        let named = under(table, alloc, &import.1, core)?;
        let number = under(table, alloc, &import.0, named)?;
        numbers.push(number)?;
    }
    node(table, alloc, Head::Entries, numbers)
}

/// The number of the exports of a core module.
fn intern_core_exports(
    table: &mut TypeTable,
    alloc: Global,
    exports: &[(Text, CoreShape)],
) -> Result<usize, Memory>
    ensures extends { Extends table.old table.new }
    ensures number { IfOk result (λ n. Stands table.new n
        (tree Head.Entries (trees_of (map plain_export exports.now)))) }
{
    let mut numbers = Vec::new(alloc);
    for export in exports {
        let core = intern_core(table, alloc, &export.1)?;
        let number = under(table, alloc, &export.0, core)?;
        numbers.push(number)?;
    }
    node(table, alloc, Head::Entries, numbers)
}

/// The number of a core module.
pub fn intern_module(
    table: &mut TypeTable,
    alloc: Global,
    shape: &ModuleShape,
) -> Result<usize, Memory>
    ensures extends { Extends table.old table.new }
    ensures number { IfOk result (λ n. Stands table.new n (plain_module shape.now)) }
{
    let imports = intern_core_imports(table, alloc, shape.imports.as_slice())?;
    let exports = intern_core_exports(table, alloc, shape.exports.as_slice())?;
    around_two(table, alloc, Head::Module, imports, exports)
}
