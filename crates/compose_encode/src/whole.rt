//! Compositions, checked and written.

ghost use Rattle.std.specs.Prelude.{◌≡◌, ◌<◌, ◌≤◌, ◌^◌, ℕ, Err, length, map, IfErr, IfOk, IfSome};
ghost use Rattle.std.specs.Option.{option_or};
ghost use Rattle.comp_format.specs.declared.error.EncodeError.TheVariants as encode_error;
ghost use Rattle.compose_check.specs.Composition.{IsComposition, composition_tree, wiring};
ghost use Rattle.compose_encode.specs.Encoded.{IsOfWritten};
ghost use Rattle.compose_encode.specs.Refusing.{first_of, hidden_at};
ghost use Rattle.compose_encode.specs.Whole.{CanBeEncoded, HaveComponentNames, IsEncodeRefusal, IsWhole, imported};
ghost use Rattle.compose_left.specs.Numbers.{AreOrigins};
ghost use Rattle.compose_left.specs.Wiring.{HasNoCircle};
ghost use Rattle.compose_order.specs.Known.{left_tree};
ghost use Rattle.compose_check.specs.Checked.{hidden_export};
ghost use Rattle.std.specs.Prelude.{option_and_then};

use crate::agreed::encode_agreed;
use crate::refused::CompositionError;
use crate::refusing::{first_clash, first_hidden};
use crate::used::used_components;
use comp_format::EncodeError;
use compose_check::{Agreed, CheckError, Composition, Why, check, hidden_export};
use compose_image::laws::{what_is_left_open_is_imported, what_is_written_has_the_image};
use compose_imports::laws::what_is_called_has_a_path;
use compose_left::Origins;
use compose_shapes::laws::{
    compositions_are_of_shapes_that_are_read, sound_compositions_of_components_can_be_written,
};
use std::alloc::Global;
use warg_values::{Memory, Text};

/// The numbers of the components that are imported: of those of which instances are made, where they are not defined.
fn imported(
    alloc: Global,
    composition: &Composition<'_>,
    define: bool,
) -> Result<Vec<usize>, Memory>
    ensures { IfOk result (λ numbers. numbers.items ≡ imported (composition_tree composition.now) define) }
{
    if define {
        return Ok(Vec::new(alloc));
    }
    let used = used_components(alloc, composition)?;
    Ok(used.numbers)
}

/// The first export of the exported instance that mentions what can't be had outside.
fn export_hides(
    alloc: Global,
    composition: &Composition<'_>,
    origins: &Origins,
    export: Option<usize>,
) -> Result<Option<Text>, Memory>
    requires made { IsComposition (composition_tree composition.now) }
    requires origins { AreOrigins origins.now (wiring (composition_tree composition.now)) }
    requires no_circle { HasNoCircle (wiring (composition_tree composition.now)) }
    ensures { IfOk result (λ found.
        found ≡ option_and_then (hidden_export (wiring (composition_tree composition.now))) export) }
{
    match export {
        Some(instance) => hidden_export(alloc, composition, origins, instance),
        None => Ok(None),
    }
}

/// The first export of the exported instance, or else the first import or export of an imported component, that mentions
/// what can't be had outside.
fn hidden(
    alloc: Global,
    composition: &Composition<'_>,
    origins: &Origins,
    export: Option<usize>,
    numbers: &[usize],
) -> Result<Option<Text>, Memory>
    requires made { IsComposition (composition_tree composition.now) }
    requires origins { AreOrigins origins.now (wiring (composition_tree composition.now)) }
    requires no_circle { HasNoCircle (wiring (composition_tree composition.now)) }
    ensures { IfOk result (λ found. found ≡ option_or
        (option_and_then (hidden_export (wiring (composition_tree composition.now))) export)
        (first_of (hidden_at (composition_tree composition.now)) numbers.now)) }
{
    match export_hides(alloc, composition, origins, export)? {
        Some(name) => Ok(Some(name)),
        None => first_hidden(alloc, composition, numbers),
    }
}

/// Writes a composition that can be encoded.
fn written(
    alloc: Global,
    composition: &Composition<'_>,
    agreed: Agreed,
    define: bool,
    export: Option<usize>,
) -> Result<Vec<u8>, EncodeError>
    requires made { IsComposition (composition_tree composition.now) }
    requires possible { CanBeEncoded (composition_tree composition.now) define export agreed.order.items
        (map left_tree agreed.lefts.items) }
    requires names { HaveComponentNames (composition_tree composition.now) }
    requires export { IfSome export (λ i. i < length (composition_tree composition.now).instances) }
    ensures whole { IfOk result (λ bytes. IsWhole (composition_tree composition.now) define export bytes.items) }
    ensures too_large { (n : ℕ) → result ≡ Err (encode_error.TooLarge n) → 2 ^ 32 ≤ n }
    ensures among { (n : ℕ) → result ≡ Err (encode_error.TooLarge n)
        → IsOfWritten n (composition_tree composition.now) define export agreed.order.items
        (map left_tree agreed.lefts.items) }
{
    compositions_are_of_shapes_that_are_read();
    sound_compositions_of_components_can_be_written();
    what_is_called_has_a_path();
    what_is_left_open_is_imported();
    what_is_written_has_the_image();
    let Agreed {
        order,
        lefts,
        origins: _origins,
    } = agreed;
    encode_agreed(alloc, composition, &order, lefts, define, export)
}

/// The bytes of a composition as one component: it imports what its instances leave open, and in front of that the
/// components of which instances are made, where they are not defined in it; and it exports what the instance `export`
/// exports, where there is one.
///
/// Of what refuses it the first is the error: what `compose_check::check` refuses; `Incompatible(ExportNeeds)` for the
/// first export of the exported instance, or else the first import or export of an imported component, that mentions what
/// can't be had outside; `ImportNameClash` for the first imported component whose name an import that is left open has;
/// `TooLarge` with a number of 2^32 or more, a length, a count or an index that would have to be written behind the
/// imports, or one that is not above the largest that would have to be written for them.
pub fn encode_composition(
    alloc: Global,
    composition: &Composition<'_>,
    define: bool,
    export: Option<usize>,
) -> Result<Vec<u8>, CompositionError>
    requires made { IsComposition (composition_tree composition.now) }
    requires names { HaveComponentNames (composition_tree composition.now) }
    requires export { IfSome export (λ i. i < length (composition_tree composition.now).instances) }
    ensures whole { IfOk result (λ bytes. IsWhole (composition_tree composition.now) define export bytes.items) }
    ensures refused { IfErr result (IsEncodeRefusal (composition_tree composition.now) define export) }
{
    let agreed = check(alloc, composition)?;
    let numbers = imported(alloc, composition, define)?;
    let found = hidden(alloc, composition, &agreed.origins, export, &numbers)?;
    if let Some(name) = found {
        let why = Why::ExportNeeds(name);
        return Err(CompositionError::Refused(CheckError::Incompatible(why)));
    }
    let found = first_clash(alloc, composition, &agreed.lefts, &numbers)?;
    if let Some(name) = found {
        return Err(CompositionError::ImportNameClash(name));
    }
    let bytes = written(alloc, composition, agreed, define, export)?;
    Ok(bytes)
}
