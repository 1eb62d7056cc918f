//! Compositions with their imports, as bytes.

ghost use Rattle.std.specs.Prelude.{◌≡◌, ◌≤◌, ◌^◌, ◌∷◌, [], ℕ, List, map, if◌then◌else◌, Err, IfOk, Some};
ghost use Rattle.std.specs.List.{AllByRecursion};
ghost use Rattle.comp_format.specs.declared.error.EncodeError.TheVariants as encode_error;
ghost use Rattle.compose_check.specs.Composition.{composition_tree};
ghost use Rattle.compose_encode.specs.Encodable.{CanBeWritten};
ghost use Rattle.compose_encode.specs.Encoded.{EncodingFits, IsEncoded, IsOfWritten};
ghost use Rattle.compose_encode.specs.Held.{Items};
ghost use Rattle.compose_image.specs.Imports.{component_import, import_items, imports_of, used_components, write_lefts};
ghost use Rattle.compose_image.specs.Writable.{AreWritable};
ghost use Rattle.compose_imports.specs.Begun.{imports_numbered};
ghost use Rattle.compose_imports.specs.Calls.{HasNamedCalls};
ghost use Rattle.compose_imports.specs.Imported.{AreImported};
ghost use Rattle.compose_order.specs.Known.{left_tree};
ghost use Rattle.compose_types.specs.Largest.{scopes_size};
ghost use Rattle.compose_writing.specs.Scopes.{WrittenScope, outermost};

use crate::encode::encode_behind;
use crate::used::used_components;
use comp_format::EncodeError;
use compose_check::Composition;
use compose_imports::laws::what_can_be_imported_is_written;
use compose_imports::{Imported, write_imports};
use compose_naming::settle;
use compose_order::LeftImport;
use std::alloc::Global;
use warg_values::Memory;

/// The numbers of the components that are imported: those of which instances are made, where these are not defined.
fn imported_numbers(
    alloc: Global,
    composition: &Composition<'_>,
    define: bool,
) -> Result<Vec<usize>, Memory>
    ensures { IfOk result (λ numbers. imports_numbered (composition_tree composition.now) numbers.items
        ≡ (if define then [] else map component_import (used_components (composition_tree composition.now)))) }
{
    if define {
        return Ok(Vec::new(alloc));
    }
    let used = used_components(alloc, composition)?;
    Ok(used.numbers)
}

/// Writes the imports of a composition.
fn imports_of(
    alloc: Global,
    composition: &Composition<'_>,
    lefts: Vec<LeftImport>,
    define: bool,
) -> Result<Imported, EncodeError>
    requires writable { AreWritable
        (imports_of (composition_tree composition.now) define (map left_tree lefts.items)) (outermost ∷ []) }
    requires called { AllByRecursion HasNamedCalls (map left_tree lefts.items) }
    ensures written { IfOk result (λ imported. (items : Items)
        × (import_items (imports_of (composition_tree composition.now) define (map left_tree lefts.items)) ≡ Some items)
        × AreImported imported items) }
    ensures too_large { (n : ℕ) → result ≡ Err (encode_error.TooLarge n) → 2 ^ 32 ≤ n }
    ensures among { (n : ℕ) (next : List WrittenScope) → result ≡ Err (encode_error.TooLarge n)
        → write_lefts (imports_of (composition_tree composition.now) define (map left_tree lefts.items)) (outermost ∷ [])
        ≡ Some next
        → n ≤ scopes_size next }
{
    let numbers = imported_numbers(alloc, composition, define)?;
    let settled = settle(alloc, lefts)?;
    let imported = write_imports(alloc, composition, &numbers, &settled)?;
    Ok(imported)
}

/// The bytes of a composition: its imports, and what `encode_behind` writes behind them. The left imports are those that
/// its instances leave open, merged and in order, as `compose_check::check` gives them.
///
/// `TooLarge` has a number of 2^32 or more: a length, a count or an index that would have to be written behind the
/// imports, or one that is not above the largest that would have to be written for them.
pub fn encode_agreed(
    alloc: Global,
    composition: &Composition<'_>,
    order: &[usize],
    lefts: Vec<LeftImport>,
    define: bool,
    export: Option<usize>,
) -> Result<Vec<u8>, EncodeError>
    requires writable { CanBeWritten (composition_tree composition.now) order.now }
    requires imports { AreWritable
        (imports_of (composition_tree composition.now) define (map left_tree lefts.items)) (outermost ∷ []) }
    requires called { AllByRecursion HasNamedCalls (map left_tree lefts.items) }
    ensures encoded { IfOk result (λ bytes. (items : Items)
        × (import_items (imports_of (composition_tree composition.now) define (map left_tree lefts.items)) ≡ Some items)
        × IsEncoded (composition_tree composition.now) define export order.now items bytes.items) }
    ensures fits { IfOk result (λ bytes. (items : Items)
        × (import_items (imports_of (composition_tree composition.now) define (map left_tree lefts.items)) ≡ Some items)
        × EncodingFits (composition_tree composition.now) define export order.now items) }
    ensures too_large { (n : ℕ) → result ≡ Err (encode_error.TooLarge n) → 2 ^ 32 ≤ n }
    ensures among { (n : ℕ) → result ≡ Err (encode_error.TooLarge n)
        → IsOfWritten n (composition_tree composition.now) define export order.now (map left_tree lefts.items) }
{
    what_can_be_imported_is_written();
    let imported = imports_of(alloc, composition, lefts, define)?;
    let bytes = encode_behind(alloc, composition, order, define, export, imported)?;
    Ok(bytes)
}
