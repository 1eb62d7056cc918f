//! Comparing core modules.

ghost use Rattle.std.specs.Prelude.{◌≡◌};
ghost use Rattle.std.specs.List.{list_any, list_all};
ghost use Rattle.std.specs.Cmp.Lexicographic.{pointwise};
ghost use Rattle.comp_entity.specs.Fits.{core_equal, core_imports_equal, core_exports_equal};
ghost use Rattle.comp_entity.specs.Fits.{modules_equal, module_fits};

use crate::module::{CoreShape, ModuleShape};
use comp_format::Text;

/// Whether two of what core modules import or export are equal.
fn core_equal(a: &CoreShape, b: &CoreShape) -> bool
    ensures { result ≡ core_equal a.now b.now }
{
    match (a, b) {
        (
            CoreShape::Func { params, results },
            CoreShape::Func {
                params: other,
                results: others,
            },
        ) => { params.as_slice() == other.as_slice() && results.as_slice() == others.as_slice() }
        (
            CoreShape::Table { element, limits },
            CoreShape::Table {
                element: other,
                limits: others,
            },
        ) => { element == other && limits == others }
        (CoreShape::Memory(limits), CoreShape::Memory(others)) => limits == others,
        (
            CoreShape::Global { value, mutable },
            CoreShape::Global {
                value: other,
                mutable: others,
            },
        ) => { value == other && mutable == others }
        _ => false,
    }
}

/// Whether two imports of core modules are equal.
fn core_import_equal(a: &(Text, Text, CoreShape), b: &(Text, Text, CoreShape)) -> bool
    ensures { result ≡ core_imports_equal a.now b.now }
{
    a.0 == b.0 && a.1 == b.1 && core_equal(&a.2, &b.2)
}

/// Whether two exports of core modules are equal.
fn core_export_equal(a: &(Text, CoreShape), b: &(Text, CoreShape)) -> bool
    ensures { result ≡ core_exports_equal a.now b.now }
{
    a.0 == b.0 && core_equal(&a.1, &b.1)
}

/// Whether two core modules are equal.
pub fn module_equal(a: &ModuleShape, b: &ModuleShape) -> bool
    ensures { result ≡ modules_equal a.now b.now }
{
    imports_equal(a.imports.as_slice(), b.imports.as_slice())
        && exports_equal(a.exports.as_slice(), b.exports.as_slice())
}

/// Whether two lists of imports of core modules are equal.
fn imports_equal(a: &[(Text, Text, CoreShape)], b: &[(Text, Text, CoreShape)]) -> bool
    ensures { result ≡ pointwise core_imports_equal a.now b.now }
{
    if a.len() != b.len() {
        return false;
    }
    for (place, import) in a.iter().enumerate() {
        if !core_import_equal(import, &b[place]) {
            return false;
        }
    }
    true
}

/// Whether two lists of exports of core modules are equal.
fn exports_equal(a: &[(Text, CoreShape)], b: &[(Text, CoreShape)]) -> bool
    ensures { result ≡ pointwise core_exports_equal a.now b.now }
{
    if a.len() != b.len() {
        return false;
    }
    for (place, export) in a.iter().enumerate() {
        if !core_export_equal(export, &b[place]) {
            return false;
        }
    }
    true
}

/// Whether a core module can be given where another is asked for.
pub fn module_fits(given: &ModuleShape, asked: &ModuleShape) -> bool
    ensures { result ≡ module_fits given.now asked.now }
{
    all_exported(asked.exports.as_slice(), given.exports.as_slice())
        && all_imported(given.imports.as_slice(), asked.imports.as_slice())
}

/// Whether one of these exports is equal to an export.
fn is_exported(export: &(Text, CoreShape), exports: &[(Text, CoreShape)]) -> bool
    ensures { result ≡ list_any (core_exports_equal export.now) exports.now }
{
    exports.iter().any(|other| core_export_equal(export, other))
}

/// Whether each export is equal to one of others.
fn all_exported(exports: &[(Text, CoreShape)], others: &[(Text, CoreShape)]) -> bool
    ensures { result ≡ list_all (λ e. list_any (core_exports_equal e) others.now) exports.now }
{
    exports.iter().all(|export| is_exported(export, others))
}

/// Whether one of these imports is equal to an import.
fn is_imported(import: &(Text, Text, CoreShape), imports: &[(Text, Text, CoreShape)]) -> bool
    ensures { result ≡ list_any (core_imports_equal import.now) imports.now }
{
    imports.iter().any(|other| core_import_equal(import, other))
}

/// Whether each import is equal to one of others.
fn all_imported(imports: &[(Text, Text, CoreShape)], others: &[(Text, Text, CoreShape)]) -> bool
    ensures { result ≡ list_all (λ i. list_any (core_imports_equal i) others.now) imports.now }
{
    imports.iter().all(|import| is_imported(import, others))
}
