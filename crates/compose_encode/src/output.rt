//! What is written for instances, with the indices that it has.

ghost use Rattle.std.specs.Prelude.{◌≡◌, ◌<◌, ◌==◌, [], ◌∷◌, ℕ, length, OnOk, Err, None, Some, if◌then◌else◌};
ghost use Rattle.std.specs.BTreeMap.{get};
ghost use Rattle.std.specs.List.{AllByRecursion};
ghost use Rattle.std.specs.Option.{option_or};
ghost use Rattle.std.specs.Ordering.{nat_cmp};
ghost use Rattle.comp_format.specs.declared.error.EncodeError.TheVariants as encode_error;
ghost use Rattle.comp_encoder.specs.Builder.{entries_of};
ghost use Rattle.compose_check.specs.Composition.{HasEnds, composition_tree, wiring};
ghost use Rattle.compose_imports.specs.Imported.{singles};
ghost use Rattle.compose_encode.specs.Held.{Holds, Items, WrittenItems, begun};
ghost use Rattle.compose_encode.specs.Numbers.{IsTooLarge};
ghost use Rattle.compose_encode.specs.Parts.{part_cmp, part_of};
ghost use Rattle.compose_image.specs.Instances.{instance_index, part_index, shape_of, with_part, with_parts};

use crate::lookups::export_of;
use crate::part::Part;
use comp_encoder::ComponentBuilder;
use comp_format::EncodeError;
use compose_check::Composition;
use compose_left::Wire;
use std::alloc::Global;
use std::collections::BTreeMap;

/// What is written, with the indices that it has.
#[derive(Drop)]
pub struct Output {
    /// The component that is built.
    pub builder: ComponentBuilder,
    /// The index of each instance that was made.
    pub instances: BTreeMap<usize, u32>,
    /// The index of each export that was aliased.
    pub parts: BTreeMap<Part, u32>,
}

impl Output {
    /// What was built before there are instances.
    pub fn new(alloc: Global, builder: ComponentBuilder) -> Self
        ensures { (imports : Items) → entries_of builder ≡ singles imports → Holds imports result (begun imports) }
    {
        Output {
            builder,
            instances: BTreeMap::new(alloc),
            parts: BTreeMap::new(alloc),
        }
    }

    /// The index of an instance: 0 where it was not made.
    pub fn instance_index(&self, instance: usize) -> u32
        ensures { (imports : Items) (w : WrittenItems) → Holds imports self.now w → result ≡ instance_index w instance }
    {
        self.instances.get(&instance).copied().unwrap_or(0)
    }

    /// The index of an alias of an export: 0 where it was not aliased.
    pub fn part_index(&self, part: Part) -> u32
        ensures { (imports : Items) (w : WrittenItems) → Holds imports self.now w
            → result ≡ part_index w (part_of part) }
    {
        self.parts.get(&part).copied().unwrap_or(0)
    }

    /// Notes the index of an instance, where it is not noted.
    pub fn note_instance(&mut self, instance: usize, index: u32) -> Result<(), EncodeError>
        ensures noted { OnOk result ((i : ℕ) → get nat_cmp self.new.instances i
            ≡ option_or (get nat_cmp self.old.instances i) (if instance == i then Some index else None)) }
        ensures builder { self.new.builder ≡ self.old.builder }
        ensures parts { self.new.parts ≡ self.old.parts }
        ensures too_large { (n : ℕ) → result ≡ Err (encode_error.TooLarge n) → ⊥ }
    {
        if self.instances.contains_key(&instance) {
            return Ok(());
        }
        self.instances.insert(instance, index)?;
        Ok(())
    }
}

/// Writes an alias of an export of an instance that has none yet.
fn add_part(
    alloc: Global,
    composition: &Composition<'_>,
    output: &mut Output,
    part: Part,
) -> Result<(), EncodeError>
    requires there { part.export < length (shape_of (composition_tree composition.now) part.instance).exports }
    requires fresh { get part_cmp output.old.parts part ≡ None }
    ensures written { (imports : Items) (w : WrittenItems) → Holds imports output.old w
        → OnOk result (Holds imports output.new (with_part (composition_tree composition.now) w (part_of part))) }
    ensures too_large { (imports : Items) (w : WrittenItems) (n : ℕ) → Holds imports output.old w
        → result ≡ Err (encode_error.TooLarge n)
        → IsTooLarge n imports (with_part (composition_tree composition.now) w (part_of part)).items }
{
    let (name, sort) = export_of(composition, part);
    let instance = output.instance_index(part.instance);
    let index = output.builder.alias_export(alloc, instance, name, sort)?;
    output.parts.insert(part, index)?;
    Ok(())
}

/// Writes an alias of an export of an instance, where it has none yet.
pub fn write_part(
    alloc: Global,
    composition: &Composition<'_>,
    output: &mut Output,
    part: Part,
) -> Result<(), EncodeError>
    requires { part.export < length (shape_of (composition_tree composition.now) part.instance).exports }
    ensures written { (imports : Items) (w : WrittenItems) → Holds imports output.old w
        → OnOk result (Holds imports output.new (with_part (composition_tree composition.now) w (part_of part))) }
    ensures too_large { (imports : Items) (w : WrittenItems) (n : ℕ) → Holds imports output.old w
        → result ≡ Err (encode_error.TooLarge n)
        → IsTooLarge n imports (with_part (composition_tree composition.now) w (part_of part)).items }
{
    if output.parts.contains_key(&part) {
        return Ok(());
    }
    add_part(alloc, composition, output, part)
}

/// Writes an alias of the export that a wire takes, where it takes one that has none yet.
fn write_wire(
    alloc: Global,
    composition: &Composition<'_>,
    output: &mut Output,
    wire: Wire,
) -> Result<(), EncodeError>
    requires { HasEnds (wiring (composition_tree composition.now)) wire }
    ensures written { (imports : Items) (w : WrittenItems) → Holds imports output.old w
        → OnOk result (Holds imports output.new (with_parts (composition_tree composition.now) w (wire ∷ []))) }
    ensures too_large { (imports : Items) (w : WrittenItems) (n : ℕ) → Holds imports output.old w
        → result ≡ Err (encode_error.TooLarge n)
        → IsTooLarge n imports (with_parts (composition_tree composition.now) w (wire ∷ [])).items }
{
    match wire.export {
        Some(export) => write_part(
            alloc,
            composition,
            output,
            Part {
                instance: wire.source,
                export,
            },
        ),
        None => Ok(()),
    }
}

/// Writes aliases of the exports that wires take, where these have none yet.
pub fn write_parts(
    alloc: Global,
    composition: &Composition<'_>,
    output: &mut Output,
    wires: &[Wire],
) -> Result<(), EncodeError>
    requires { AllByRecursion (HasEnds (wiring (composition_tree composition.now))) wires.now }
    ensures written { (imports : Items) (w : WrittenItems) → Holds imports output.old w
        → OnOk result (Holds imports output.new (with_parts (composition_tree composition.now) w wires.now)) }
    ensures too_large { (imports : Items) (w : WrittenItems) (n : ℕ) → Holds imports output.old w
        → result ≡ Err (encode_error.TooLarge n)
        → IsTooLarge n imports (with_parts (composition_tree composition.now) w wires.now).items }
{
    for wire in wires {
        write_wire(alloc, composition, output, *wire)?;
    }
    Ok(())
}
