//! Exports.

ghost use Rattle.std.specs.Prelude.{◌≡◌, ◌<◌, ℕ, length, OnOk, Err};
ghost use Rattle.std.specs.List.{fold};
ghost use Rattle.comp_format.specs.declared.error.EncodeError.TheVariants as encode_error;
ghost use Rattle.compose_check.specs.Composition.{composition_tree};
ghost use Rattle.compose_encode.specs.Held.{Holds, Items, WrittenItems};
ghost use Rattle.compose_encode.specs.Numbers.{IsTooLarge};
ghost use Rattle.compose_encode.specs.Parts.{part_of};
ghost use Rattle.compose_image.specs.Instances.{exported_parts, parts_of, shape_of, with_export};

use crate::lookups::{export_of, shape_of};
use crate::output::{Output, write_part};
use crate::part::Part;
use comp_format::EncodeError;
use compose_check::Composition;
use std::alloc::Global;

/// Writes an export of an export of an instance under its own name.
fn write_export(
    alloc: Global,
    composition: &Composition<'_>,
    output: &mut Output,
    part: Part,
) -> Result<(), EncodeError>
    requires { part.export < length (shape_of (composition_tree composition.now) part.instance).exports }
    ensures written { (imports : Items) (w : WrittenItems) → Holds imports output.old w
        → OnOk result (Holds imports output.new (with_export (composition_tree composition.now) w (part_of part))) }
    ensures too_large { (imports : Items) (w : WrittenItems) (n : ℕ) → Holds imports output.old w
        → result ≡ Err (encode_error.TooLarge n)
        → IsTooLarge n imports (with_export (composition_tree composition.now) w (part_of part)).items }
{
    write_part(alloc, composition, output, part)?;
    let (name, sort) = export_of(composition, part);
    let index = output.part_index(part);
    output.builder.export(alloc, name, sort, index, None)?;
    Ok(())
}

/// How many exports an instance has.
fn export_count(composition: &Composition<'_>, instance: usize) -> usize
    ensures { result ≡ length (shape_of (composition_tree composition.now) instance).exports }
{
    match shape_of(composition, instance) {
        Some(shape) => shape.exports.len(),
        None => 0,
    }
}

/// Writes exports of the exports of an instance under their own names.
fn write_instance_exports(
    alloc: Global,
    composition: &Composition<'_>,
    output: &mut Output,
    instance: usize,
) -> Result<(), EncodeError>
    ensures written { (imports : Items) (w : WrittenItems) → Holds imports output.old w
        → OnOk result (Holds imports output.new (fold (with_export (composition_tree composition.now)) w
        (parts_of (composition_tree composition.now) instance))) }
    ensures too_large { (imports : Items) (w : WrittenItems) (n : ℕ) → Holds imports output.old w
        → result ≡ Err (encode_error.TooLarge n)
        → IsTooLarge n imports
        (fold (with_export (composition_tree composition.now)) w
        (parts_of (composition_tree composition.now) instance)).items }
{
    for export in 0..export_count(composition, instance) {
        write_export(alloc, composition, output, Part { instance, export })?;
    }
    Ok(())
}

/// Writes exports of the exports of an instance, where one is exported.
pub fn write_exports(
    alloc: Global,
    composition: &Composition<'_>,
    output: &mut Output,
    instance: Option<usize>,
) -> Result<(), EncodeError>
    ensures written { (imports : Items) (w : WrittenItems) → Holds imports output.old w
        → OnOk result (Holds imports output.new (fold (with_export (composition_tree composition.now)) w
        (exported_parts (composition_tree composition.now) instance))) }
    ensures too_large { (imports : Items) (w : WrittenItems) (n : ℕ) → Holds imports output.old w
        → result ≡ Err (encode_error.TooLarge n)
        → IsTooLarge n imports
        (fold (with_export (composition_tree composition.now)) w
        (exported_parts (composition_tree composition.now) instance)).items }
{
    match instance {
        Some(instance) => write_instance_exports(alloc, composition, output, instance),
        None => Ok(()),
    }
}
