//! Instances.

ghost use Rattle.std.specs.Prelude.{◌≡◌, ◌<◌, ◌++◌, ◌∷◌, [], ℕ, Bool, All, length, map, is_none, if◌then◌else◌, OnOk, IfOk, Err};
ghost use Rattle.std.specs.List.{AllByRecursion, fold};
ghost use Rattle.comp_entity.specs.Views.{entity_tree, named_entities};
ghost use Rattle.comp_format.specs.declared.error.EncodeError.TheVariants as encode_error;
ghost use Rattle.compose_check.specs.Composition.{composition_tree};
ghost use Rattle.compose_encode.specs.Held.{Holds, Items, WrittenItems, with_made};
ghost use Rattle.compose_encode.specs.Looked.{AreTables, HaveWires, IsHeld, lent_tree};
ghost use Rattle.compose_encode.specs.Numbers.{IsTooLarge};
ghost use Rattle.compose_image.specs.Instances.{args_of, given_arg, open_arg, open_from, wires_of, with_instance};
ghost use Rattle.compose_left.specs.Wiring.{wire_into};

use crate::lookups::{export_of, import_name, shape_of, sort_of};
use crate::output::{Output, write_parts};
use crate::part::Part;
use crate::tables::{Tables, component_index};
use crate::wires::wires_into;
use comp_entity::Entity;
use comp_format::{Arg, EncodeError, Sort};
use compose_check::Composition;
use compose_left::{Input, Wire};
use std::alloc::Global;
use warg_values::{Memory, Text};

/// What a wire gives to an import, as an argument.
fn given_arg(
    alloc: Global,
    composition: &Composition<'_>,
    output: &Output,
    wire: Wire,
) -> Result<Arg, Memory>
    ensures { (imports : Items) (w : WrittenItems) → Holds imports output.now w
        → IfOk result (λ arg. arg ≡ given_arg (composition_tree composition.now) w wire wire.export) }
{
    let name = Text::copy_of(alloc, import_name(composition, wire.target, wire.import))?;
    match wire.export {
        None => Ok(Arg {
            name,
            sort: Sort::Instance,
            index: output.instance_index(wire.source),
        }),
        Some(export) => {
            let part = Part {
                instance: wire.source,
                export,
            };
            let (_, sort) = export_of(composition, part);
            Ok(Arg {
                name,
                sort,
                index: output.part_index(part),
            })
        }
    }
}

/// What wires give, as arguments.
fn given_args(
    alloc: Global,
    composition: &Composition<'_>,
    output: &Output,
    wires: &[Wire],
) -> Result<Vec<Arg>, Memory>
    ensures { (imports : Items) (w : WrittenItems) → Holds imports output.now w → IfOk result (λ args.
        args.items ≡ map (λ wire. given_arg (composition_tree composition.now) w wire wire.export) wires.now) }
{
    let mut args = Vec::new(alloc);
    for wire in wires {
        let arg = given_arg(alloc, composition, output, *wire)?;
        args.push(arg)?;
    }
    Ok(args)
}

/// Adds an import of an instance as an argument, where nothing is given to it: what is imported under its name.
fn push_open(
    alloc: Global,
    tables: &Tables<'_>,
    args: &mut Vec<Arg>,
    input: Input,
    entry: &(Text, Entity),
) -> Result<(), Memory>
    ensures { (define : Bool) (imports : Items) → AreTables tables.now define imports → IfOk result (λ done.
        args.new.items ≡ args.old.items ++ map (open_arg imports)
        (if is_none (wire_into (lent_tree tables.now).wires input.target input.import)
        then (entry.now.0, entity_tree entry.now.1) ∷ [] else [])) }
{
    if tables.inputs.contains_key(&input) {
        return Ok(());
    }
    let index = tables.names.get(&entry.0).copied().unwrap_or(0);
    args.push(Arg {
        name: entry.0.try_clone(alloc)?,
        sort: sort_of(&entry.1),
        index,
    })?;
    Ok(())
}

/// Adds the imports of an instance as arguments to which nothing is given.
fn push_all_open(
    alloc: Global,
    tables: &Tables<'_>,
    args: &mut Vec<Arg>,
    instance: usize,
    entries: &[(Text, Entity)],
) -> Result<(), Memory>
    ensures { (define : Bool) (imports : Items) → AreTables tables.now define imports → IfOk result (λ done.
        args.new.items ≡ args.old.items ++ map (open_arg imports)
        (open_from (lent_tree tables.now) instance 0 (named_entities entries.now))) }
{
    for import in 0..entries.len() {
        let input = Input {
            target: instance,
            import,
        };
        push_open(alloc, tables, args, input, &entries[import])?;
    }
    Ok(())
}

/// The arguments of an instance: what it is given by these wires, and then what it leaves open.
fn args_of(
    alloc: Global,
    tables: &Tables<'_>,
    output: &Output,
    instance: usize,
    wires: &[Wire],
) -> Result<Vec<Arg>, Memory>
    requires { wires.now ≡ wires_of (lent_tree tables.now) instance }
    ensures { (define : Bool) (imports : Items) (w : WrittenItems) → AreTables tables.now define imports
        → Holds imports output.now w
        → IfOk result (λ args. args.items ≡ args_of (lent_tree tables.now) imports w instance) }
{
    let mut args = given_args(alloc, tables.composition, output, wires)?;
    match shape_of(tables.composition, instance) {
        Some(shape) => {
            push_all_open(alloc, tables, &mut args, instance, &shape.imports)?;
            Ok(args)
        }
        None => Ok(args),
    }
}

/// Writes an instance of the component of this index with these arguments.
fn add_instance(
    alloc: Global,
    output: &mut Output,
    instance: usize,
    component: u32,
    args: &[Arg],
) -> Result<(), EncodeError>
    requires { All (λ arg. 0 < length arg.name) args.now }
    ensures written { (imports : Items) (w : WrittenItems) → Holds imports output.old w
        → OnOk result (Holds imports output.new (with_made w instance component args.now)) }
    ensures too_large { (imports : Items) (w : WrittenItems) (n : ℕ) → Holds imports output.old w
        → result ≡ Err (encode_error.TooLarge n)
        → IsTooLarge n imports (with_made w instance component args.now).items }
{
    let index = output.builder.instantiate(alloc, component, args)?;
    output.note_instance(instance, index)?;
    Ok(())
}

/// Writes an instance, behind the aliases that it needs.
fn write_instance(
    alloc: Global,
    tables: &Tables<'_>,
    output: &mut Output,
    instance: usize,
) -> Result<(), EncodeError>
    requires wires { HaveWires tables.now }
    requires held { IsHeld tables.now output.old }
    requires there { instance < length (lent_tree tables.now).instances }
    ensures written { (define : Bool) (imports : Items) (w : WrittenItems) → AreTables tables.now define imports
        → Holds imports output.old w
        → OnOk result (Holds imports output.new (with_instance (lent_tree tables.now) define imports w instance)) }
    ensures too_large { (define : Bool) (imports : Items) (w : WrittenItems) (n : ℕ)
        → AreTables tables.now define imports
        → Holds imports output.old w
        → result ≡ Err (encode_error.TooLarge n)
        → IsTooLarge n imports (with_instance (lent_tree tables.now) define imports w instance).items }
{
    let wires = wires_into(alloc, &tables.wires, instance)?;
    write_parts(alloc, tables.composition, output, &wires)?;
    let component = component_index(tables, instance)?;
    let args = args_of(alloc, tables, output, instance, &wires)?;
    add_instance(alloc, output, instance, component, &args)
}

/// Writes instances, each behind the aliases that it needs.
pub fn write_instances(
    alloc: Global,
    tables: &Tables<'_>,
    output: &mut Output,
    order: &[usize],
) -> Result<(), EncodeError>
    requires wires { HaveWires tables.now }
    requires held { IsHeld tables.now output.old }
    requires there { AllByRecursion (λ i. i < length (lent_tree tables.now).instances) order.now }
    ensures written { (define : Bool) (imports : Items) (w : WrittenItems) → AreTables tables.now define imports
        → Holds imports output.old w → OnOk result
        (Holds imports output.new (fold (with_instance (lent_tree tables.now) define imports) w order.now)) }
    ensures too_large { (define : Bool) (imports : Items) (w : WrittenItems) (n : ℕ)
        → AreTables tables.now define imports
        → Holds imports output.old w
        → result ≡ Err (encode_error.TooLarge n)
        → IsTooLarge n imports (fold (with_instance (lent_tree tables.now) define imports) w order.now).items }
{
    for instance in order {
        write_instance(alloc, tables, output, *instance)?;
    }
    Ok(())
}
