//! Compositions behind their imports, as bytes.

ghost use Rattle.std.specs.Prelude.{◌≡◌, ◌<◌, ℕ, Bool, length, OnOk, IfOk, Err};
ghost use Rattle.std.specs.List.{AllByRecursion, fold};
ghost use Rattle.comp_format.specs.declared.error.EncodeError.TheVariants as encode_error;
ghost use Rattle.compose_check.specs.Composition.{composition_tree};
ghost use Rattle.compose_encode.specs.Encodable.{CanBeWritten};
ghost use Rattle.compose_encode.specs.Encoded.{EncodingFits, IsEncoded, IsTooLargeFor};
ghost use Rattle.compose_encode.specs.Held.{Holds, Items, WrittenItems};
ghost use Rattle.compose_encode.specs.Looked.{AreTables, HaveWires, IsHeld, lent_tree};
ghost use Rattle.compose_encode.specs.Numbers.{IsTooLarge};
ghost use Rattle.compose_imports.specs.Imported.{AreImported};
ghost use Rattle.compose_image.specs.Instances.{exported_parts, with_export, with_instance, written};

use crate::components::write_components;
use crate::exports::write_exports;
use crate::instances::write_instances;
use crate::output::Output;
use crate::tables::Tables;
use crate::used::used_components;
use crate::wires::wires_by_target;
use comp_format::EncodeError;
use compose_check::Composition;
use compose_imports::Imported;
use compose_left::wires_by_import;
use std::alloc::Global;

/// Writes instances, and exports of one of them, where one is exported.
fn write_made(
    alloc: Global,
    tables: &Tables<'_>,
    output: &mut Output,
    order: &[usize],
    export: Option<usize>,
) -> Result<(), EncodeError>
    requires wires { HaveWires tables.now }
    requires held { IsHeld tables.now output.old }
    requires there { AllByRecursion (λ i. i < length (lent_tree tables.now).instances) order.now }
    ensures written { (define : Bool) (imports : Items) (w : WrittenItems) → AreTables tables.now define imports
        → Holds imports output.old w → OnOk result (Holds imports output.new (fold (with_export (lent_tree tables.now))
        (fold (with_instance (lent_tree tables.now) define imports) w order.now)
        (exported_parts (lent_tree tables.now) export))) }
    ensures too_large { (define : Bool) (imports : Items) (w : WrittenItems) (n : ℕ)
        → AreTables tables.now define imports
        → Holds imports output.old w
        → result ≡ Err (encode_error.TooLarge n)
        → IsTooLarge n imports (fold (with_export (lent_tree tables.now))
        (fold (with_instance (lent_tree tables.now) define imports) w order.now)
        (exported_parts (lent_tree tables.now) export)).items }
{
    write_instances(alloc, tables, output, order)?;
    write_exports(alloc, tables.composition, output, export)
}

/// A composition behind imports that are written.
fn build(
    alloc: Global,
    composition: &Composition<'_>,
    order: &[usize],
    define: bool,
    export: Option<usize>,
    imported: Imported,
) -> Result<Output, EncodeError>
    requires writable { CanBeWritten (composition_tree composition.now) order.now }
    requires imported { (imports : Items) × AreImported imported imports }
    ensures written { (imports : Items) → AreImported imported imports → IfOk result (λ output.
        Holds imports output (written (composition_tree composition.now) define export order.now imports)) }
    ensures too_large { (imports : Items) (n : ℕ) → AreImported imported imports
        → result ≡ Err (encode_error.TooLarge n)
        → IsTooLarge n imports (written (composition_tree composition.now) define export order.now imports).items }
{
    let used = used_components(alloc, composition)?;
    let Imported { builder, names } = imported;
    let mut output = Output::new(alloc, builder);
    let first = write_components(alloc, composition, &mut output, &used.numbers, define)?;
    let wires = wires_by_target(alloc, &composition.wires)?;
    let inputs = wires_by_import(alloc, &composition.wires)?;
    let tables = Tables {
        composition,
        wires,
        inputs,
        names,
        first,
        ranks: used.ranks,
    };
    write_made(alloc, &tables, &mut output, order, export)?;
    Ok(output)
}

/// The bytes of a composition behind imports that are written: the components of which instances are made, where they
/// are defined; the instances in this order, each behind the aliases that it needs; and exports of the exports of one,
/// where one is exported.
///
/// `TooLarge` has a length, a count or an index to be written that is above 2^32 - 1.
pub fn encode_behind(
    alloc: Global,
    composition: &Composition<'_>,
    order: &[usize],
    define: bool,
    export: Option<usize>,
    imported: Imported,
) -> Result<Vec<u8>, EncodeError>
    requires writable { CanBeWritten (composition_tree composition.now) order.now }
    requires imported { (imports : Items) × AreImported imported imports }
    ensures encoded { (imports : Items) → AreImported imported imports → IfOk result (λ bytes.
        IsEncoded (composition_tree composition.now) define export order.now imports bytes.items) }
    ensures fits { (imports : Items) → AreImported imported imports → OnOk result
        (EncodingFits (composition_tree composition.now) define export order.now imports) }
    ensures too_large { (imports : Items) (n : ℕ) → AreImported imported imports
        → result ≡ Err (encode_error.TooLarge n)
        → IsTooLargeFor n (composition_tree composition.now) define export order.now imports }
{
    let output = build(alloc, composition, order, define, export, imported)?;
    let Output {
        builder,
        instances: _,
        parts: _,
    } = output;
    let bytes = builder.finish(alloc)?;
    Ok(bytes)
}
