//! Core modules taken out of a table.

ghost use Rattle.std.specs.Prelude.{◌≡◌, map, IfOk};
ghost use Rattle.comp_table.specs.Plain.{plain_core, plain_export, plain_import, plain_module};
ghost use Rattle.comp_table.specs.Rows.{core_value_plain};
ghost use Rattle.comp_table.specs.declared.head.Head.TheVariants as Head;
ghost use Rattle.comp_table.specs.Trees.{root, tree, tree_at, trees_of};
ghost use Rattle.comp_view.specs.Kinds.{AreNumbersOf, IsNumberOf};
ghost use Rattle.comp_view.specs.Kinds as kind;

use crate::parts::{all_parts, label_at, only_part, two_parts};
use comp_entity::{CoreShape, ModuleShape};
use comp_format::CoreVal;
use comp_table::{Head, TypeTable};
use std::alloc::Global;
use warg_values::{Memory, Sequence, Text};

/// The type of core values that a number stands for.
fn core_value_at(table: &TypeTable, number: usize) -> CoreVal
    requires { IsNumberOf kind.CoreValue table.now number }
    ensures { tree_at table.now number ≡ core_value_plain result }
{
    let Head::CoreValue(value) = table.head(number) else {
        unreachable!()
    };
    *value
}

/// The types of core values in the list that a number stands for.
fn build_core_values(
    table: &TypeTable,
    alloc: Global,
    number: usize,
) -> Result<Sequence<CoreVal>, Memory>
    requires { IsNumberOf kind.CoreValues table.now number }
    ensures { IfOk result
        (λ values. tree_at table.now number ≡ tree Head.Entries (trees_of (map core_value_plain values))) }
{
    let mut values = Vec::new(alloc);
    for part in all_parts(table, number) {
        let value = core_value_at(table, *part);
        values.push(value)?;
    }
    Ok(Sequence::from_vec(values))
}

/// The core function that a number stands for.
fn build_core_func(table: &TypeTable, alloc: Global, number: usize) -> Result<CoreShape, Memory>
    requires number { IsNumberOf kind.CoreItem table.now number }
    requires func { root (tree_at table.now number) ≡ Head.CoreFunc }
    ensures { IfOk result (λ core. tree_at table.now number ≡ plain_core core) }
{
    let (first, second) = two_parts(table, number);
    let params = build_core_values(table, alloc, first)?;
    let results = build_core_values(table, alloc, second)?;
    Ok(CoreShape::Func { params, results })
}

/// What a core module imports or exports, that a number stands for.
fn build_core(table: &TypeTable, alloc: Global, number: usize) -> Result<CoreShape, Memory>
    requires { IsNumberOf kind.CoreItem table.now number }
    ensures { IfOk result (λ core. tree_at table.now number ≡ plain_core core) }
{
    match table.head(number) {
        Head::CoreFunc => build_core_func(table, alloc, number),
        Head::CoreTable(element, limits) => Ok(CoreShape::Table {
            element: *element,
            limits: *limits,
        }),
        Head::CoreMemory(limits) => Ok(CoreShape::Memory(*limits)),
        Head::CoreGlobal(value, mutable) => Ok(CoreShape::Global {
            value: *value,
            mutable: *mutable,
        }),
        _ => unreachable!(),
    }
}

/// The export of a core module that a number stands for.
fn build_core_export(
    table: &TypeTable,
    alloc: Global,
    number: usize,
) -> Result<(Text, CoreShape), Memory>
    requires { IsNumberOf kind.CoreExport table.now number }
    ensures { IfOk result (λ built. tree_at table.now number ≡ plain_export built) }
{
    let name = label_at(table, number).try_clone(alloc)?;
    let core = build_core(table, alloc, only_part(table, number))?;
    Ok((name, core))
}

/// The import of a core module that a number stands for.
fn build_core_import(
    table: &TypeTable,
    alloc: Global,
    number: usize,
) -> Result<(Text, Text, CoreShape), Memory>
    requires { IsNumberOf kind.CoreImport table.now number }
    ensures { IfOk result (λ built. tree_at table.now number ≡ plain_import built) }
{
    let module = label_at(table, number).try_clone(alloc)?;
    let (name, core) = build_core_export(table, alloc, only_part(table, number))?;
    Ok((module, name, core))
}

/// The exports of a core module that a number stands for.
fn build_core_exports(
    table: &TypeTable,
    alloc: Global,
    number: usize,
) -> Result<Sequence<(Text, CoreShape)>, Memory>
    requires { IsNumberOf kind.CoreExports table.now number }
    ensures { IfOk result
        (λ exports. tree_at table.now number ≡ tree Head.Entries (trees_of (map plain_export exports))) }
{
    let mut exports = Vec::new(alloc);
    for part in all_parts(table, number) {
        let export = build_core_export(table, alloc, *part)?;
        exports.push(export)?;
    }
    Ok(Sequence::from_vec(exports))
}

/// The imports of a core module that a number stands for.
fn build_core_imports(
    table: &TypeTable,
    alloc: Global,
    number: usize,
) -> Result<Sequence<(Text, Text, CoreShape)>, Memory>
    requires { IsNumberOf kind.CoreImports table.now number }
    ensures { IfOk result
        (λ imports. tree_at table.now number ≡ tree Head.Entries (trees_of (map plain_import imports))) }
{
    let mut imports = Vec::new(alloc);
    for part in all_parts(table, number) {
        let import = build_core_import(table, alloc, *part)?;
        imports.push(import)?;
    }
    Ok(Sequence::from_vec(imports))
}

/// The core module that a number stands for.
pub fn build_module(table: &TypeTable, alloc: Global, number: usize) -> Result<ModuleShape, Memory>
    requires number { IsNumberOf kind.AnyEntity table.now number }
    requires module { root (tree_at table.now number) ≡ Head.Module }
    ensures { IfOk result (λ built. tree_at table.now number ≡ plain_module built) }
{
    let (first, second) = two_parts(table, number);
    let imports = build_core_imports(table, alloc, first)?;
    let exports = build_core_exports(table, alloc, second)?;
    Ok(ModuleShape { imports, exports })
}
