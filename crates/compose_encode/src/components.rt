//! Components that are defined.

ghost use Rattle.std.specs.Prelude.{◌≡◌, ◌<◌, ◌++◌, ℕ, length, if◌then◌else◌, OnOk, IfOk, Err};
ghost use Rattle.std.specs.List.{AllByRecursion, fold};
ghost use Rattle.comp_encoder.specs.Writing.{numbered};
ghost use Rattle.comp_format.specs.declared.error.EncodeError.TheVariants as encode_error;
ghost use Rattle.comp_format.specs.declared.types.Sort.TheVariants as sort;
ghost use Rattle.compose_check.specs.Composition.{composition_tree};
ghost use Rattle.compose_encode.specs.Held.{Holds, Items, WrittenItems, begun, with_component};
ghost use Rattle.compose_encode.specs.Numbers.{IsTooLarge};
ghost use Rattle.compose_image.specs.Imports.{used};
ghost use Rattle.compose_image.specs.Instances.{component_items};

use crate::output::Output;
use comp_format::EncodeError;
use compose_check::Composition;
use std::alloc::Global;

/// Writes the component of a number, and gives its index.
fn write_component(
    alloc: Global,
    composition: &Composition<'_>,
    output: &mut Output,
    number: usize,
) -> Result<u32, EncodeError>
    ensures written { (imports : Items) (w : WrittenItems) → Holds imports output.old w
        → OnOk result (Holds imports output.new (with_component (composition_tree composition.now) w number)) }
    ensures index { (imports : Items) (w : WrittenItems) → Holds imports output.old w
        → number < length (composition_tree composition.now).components
        → IfOk result (λ i. i ≡ numbered sort.Component w.items) }
    ensures too_large { (imports : Items) (w : WrittenItems) (n : ℕ) → Holds imports output.old w
        → result ≡ Err (encode_error.TooLarge n)
        → IsTooLarge n imports (with_component (composition_tree composition.now) w number).items }
{
    if number >= composition.components.len() {
        return Ok(0);
    }
    let component = composition.components[number];
    let index = output.builder.component_raw(alloc, component.bytes())?;
    Ok(index)
}

/// Writes the components of some numbers.
fn write_each(
    alloc: Global,
    composition: &Composition<'_>,
    output: &mut Output,
    numbers: &[usize],
) -> Result<(), EncodeError>
    ensures written { (imports : Items) (w : WrittenItems) → Holds imports output.old w
        → OnOk result
        (Holds imports output.new (fold (with_component (composition_tree composition.now)) w numbers.now)) }
    ensures too_large { (imports : Items) (w : WrittenItems) (n : ℕ) → Holds imports output.old w
        → result ≡ Err (encode_error.TooLarge n)
        → IsTooLarge n imports (fold (with_component (composition_tree composition.now)) w numbers.now).items }
{
    for number in numbers {
        write_component(alloc, composition, output, *number)?;
    }
    Ok(())
}

/// Writes the components of some numbers, and gives the index of the first.
fn write_all(
    alloc: Global,
    composition: &Composition<'_>,
    output: &mut Output,
    numbers: &[usize],
) -> Result<u32, EncodeError>
    requires { AllByRecursion (λ n. n < length (composition_tree composition.now).components) numbers.now }
    ensures written { (imports : Items) (w : WrittenItems) → Holds imports output.old w
        → OnOk result
        (Holds imports output.new (fold (with_component (composition_tree composition.now)) w numbers.now)) }
    ensures index { (imports : Items) (w : WrittenItems) → Holds imports output.old w
        → 0 < length numbers.now → IfOk result (λ i. i ≡ numbered sort.Component w.items) }
    ensures too_large { (imports : Items) (w : WrittenItems) (n : ℕ) → Holds imports output.old w
        → result ≡ Err (encode_error.TooLarge n)
        → IsTooLarge n imports (fold (with_component (composition_tree composition.now)) w numbers.now).items }
{
    match numbers {
        [] => Ok(0),
        [first, rest @ ..] => {
            let index = write_component(alloc, composition, output, *first)?;
            write_each(alloc, composition, output, rest)?;
            Ok(index)
        }
    }
}

/// Writes the components of which instances are made, where they are defined, and gives the index of the first of them.
pub fn write_components(
    alloc: Global,
    composition: &Composition<'_>,
    output: &mut Output,
    numbers: &[usize],
    define: bool,
) -> Result<u32, EncodeError>
    requires { numbers.now ≡ used (composition_tree composition.now) }
    ensures written { (imports : Items) → Holds imports output.old (begun imports)
        → OnOk result (Holds imports output.new
        (begun (imports ++ component_items (composition_tree composition.now) define))) }
    ensures index { (imports : Items) → Holds imports output.old (begun imports)
        → 0 < length (used (composition_tree composition.now))
        → IfOk result (λ i. i ≡ (if define then numbered sort.Component imports else 0)) }
    ensures too_large { (imports : Items) (n : ℕ) → Holds imports output.old (begun imports)
        → result ≡ Err (encode_error.TooLarge n)
        → IsTooLarge n imports (imports ++ component_items (composition_tree composition.now) define) }
{
    if define {
        write_all(alloc, composition, output, numbers)
    } else {
        Ok(0)
    }
}
