//! Imports while they are written, one behind the other.

ghost use Rattle.std.specs.Prelude.{◌≡◌, ◌≤◌, ◌^◌, ◌++◌, ◌∷◌, [], ℕ, List, map, Err, IfOk, OnOk, Some};
ghost use Rattle.std.specs.List.{AllByRecursion};
ghost use Rattle.compose_check.specs.Composition.{composition_tree};
ghost use Rattle.compose_image.specs.Imports.{write_left, write_lefts};
ghost use Rattle.compose_image.specs.Writable.{AreWritable, IsWritable};
ghost use Rattle.compose_imports.specs.Begun.{
  HasWritten,
  IsImportedAt,
  Lefts,
  component_left,
  imports_at,
  imports_numbered,
};
ghost use Rattle.compose_imports.specs.Calls.{HasNamedCalls};
ghost use Rattle.compose_imports.specs.Imported.{FindsImports};
ghost use Rattle.compose_meaning.specs.Items.{items_for};
ghost use Rattle.compose_order.specs.Known.{left_tree};
ghost use Rattle.compose_types.specs.Largest.{scopes_size};
ghost use Rattle.compose_types.specs.Scopes.{scopes};
ghost use Rattle.compose_writing.specs.Scopes.{WrittenScope};

use crate::laws::what_is_written_for_imports_only_grows;
use crate::left::{write_component, write_left};
use comp_encoder::EncodeError;
use compose_check::Composition;
use compose_component::Component;
use compose_order::LeftImport;
use compose_types::TypeState;
use std::alloc::Global;
use std::collections::BTreeMap;
use warg_values::{Memory, Text};

/// The component that is built, with the imports so far.
#[derive(Drop)]
pub struct Begun {
    /// What is written.
    pub state: TypeState,
    /// The index of the first import of each name.
    pub names: BTreeMap<Text, u32>,
}

/// Notes the index of an import, where none is noted of its name.
fn note_import(
    alloc: Global,
    names: &mut BTreeMap<Text, u32>,
    name: &str,
    index: u32,
) -> Result<(), Memory>
    ensures { (m : WrittenScope) (next : List WrittenScope) → FindsImports names.old (items_for m.decls)
        → (at : IsImportedAt m next name.now index)
        → IfOk result (λ done. FindsImports names.new (items_for at.scope.decls)) }
{
    let name = Text::copy_of(alloc, name)?;
    match names.get(&name) {
        Some(_) => Ok(()),
        None => {
            names.insert(name, index)?;
            Ok(())
        }
    }
}

/// Adds an import of a component.
fn add_component(
    alloc: Global,
    begun: &mut Begun,
    component: &Component<'_>,
) -> Result<(), EncodeError>
    requires { IsWritable (component_left component.now) (scopes begun.old.state) }
    ensures next { OnOk result (write_left (component_left component.now) (scopes begun.old.state)
        ≡ Some (scopes begun.new.state)) }
    ensures written { (ls : Lefts) → HasWritten begun.old ls
        → OnOk result (HasWritten begun.new (ls ++ component_left component.now ∷ [])) }
    ensures too_large { (n : ℕ) → result ≡ Err (EncodeError.TooLarge n) → 2 ^ 32 ≤ n }
    ensures among { (n : ℕ) (next : List WrittenScope) → result ≡ Err (EncodeError.TooLarge n)
        → write_left (component_left component.now) (scopes begun.old.state) ≡ Some next
        → n ≤ scopes_size next }
{
    let index = write_component(alloc, &mut begun.state, component)?;
    note_import(alloc, &mut begun.names, component.name(), index)?;
    Ok(())
}

/// Adds a left import.
fn add_left(alloc: Global, begun: &mut Begun, left: &LeftImport) -> Result<(), EncodeError>
    requires writable { IsWritable (left_tree left.now) (scopes begun.old.state) }
    requires called { HasNamedCalls (left_tree left.now) }
    ensures next { OnOk result (write_left (left_tree left.now) (scopes begun.old.state)
        ≡ Some (scopes begun.new.state)) }
    ensures written { (ls : Lefts) → HasWritten begun.old ls
        → OnOk result (HasWritten begun.new (ls ++ left_tree left.now ∷ [])) }
    ensures too_large { (n : ℕ) → result ≡ Err (EncodeError.TooLarge n) → 2 ^ 32 ≤ n }
    ensures among { (n : ℕ) (next : List WrittenScope) → result ≡ Err (EncodeError.TooLarge n)
        → write_left (left_tree left.now) (scopes begun.old.state) ≡ Some next
        → n ≤ scopes_size next }
{
    let index = write_left(alloc, &mut begun.state, left)?;
    note_import(alloc, &mut begun.names, left.name.as_str(), index)?;
    Ok(())
}

/// Adds an import of the component of a number, where there is one.
fn add_numbered(
    alloc: Global,
    begun: &mut Begun,
    composition: &Composition<'_>,
    number: usize,
) -> Result<(), EncodeError>
    requires { AreWritable (imports_at (composition_tree composition.now) number) (scopes begun.old.state) }
    ensures next { OnOk result (write_lefts (imports_at (composition_tree composition.now) number)
        (scopes begun.old.state) ≡ Some (scopes begun.new.state)) }
    ensures written { (ls : Lefts) → HasWritten begun.old ls
        → OnOk result (HasWritten begun.new (ls ++ imports_at (composition_tree composition.now) number)) }
    ensures too_large { (n : ℕ) → result ≡ Err (EncodeError.TooLarge n) → 2 ^ 32 ≤ n }
    ensures among { (n : ℕ) (next : List WrittenScope) → result ≡ Err (EncodeError.TooLarge n)
        → write_lefts (imports_at (composition_tree composition.now) number) (scopes begun.old.state) ≡ Some next
        → n ≤ scopes_size next }
{
    if number >= composition.components.len() {
        return Ok(());
    }
    let component = composition.components[number];
    add_component(alloc, begun, component)?;
    Ok(())
}

/// Adds imports of the components of some numbers, in order.
pub fn add_components(
    alloc: Global,
    begun: &mut Begun,
    composition: &Composition<'_>,
    numbers: &[usize],
) -> Result<(), EncodeError>
    requires { AreWritable (imports_numbered (composition_tree composition.now) numbers.now) (scopes begun.old.state) }
    ensures written { (ls : Lefts) → HasWritten begun.old ls → OnOk result
        (HasWritten begun.new (ls ++ imports_numbered (composition_tree composition.now) numbers.now)) }
    ensures next { OnOk result (write_lefts (imports_numbered (composition_tree composition.now) numbers.now)
        (scopes begun.old.state) ≡ Some (scopes begun.new.state)) }
    ensures too_large { (n : ℕ) → result ≡ Err (EncodeError.TooLarge n) → 2 ^ 32 ≤ n }
    ensures among { (n : ℕ) (next : List WrittenScope) → result ≡ Err (EncodeError.TooLarge n)
        → write_lefts (imports_numbered (composition_tree composition.now) numbers.now) (scopes begun.old.state)
        ≡ Some next
        → n ≤ scopes_size next }
{
    what_is_written_for_imports_only_grows();
    for number in numbers {
        add_numbered(alloc, begun, composition, *number)?;
    }
    Ok(())
}

/// Adds left imports, in order.
pub fn add_lefts(alloc: Global, begun: &mut Begun, lefts: &[LeftImport]) -> Result<(), EncodeError>
    requires writable { AreWritable (map left_tree lefts.now) (scopes begun.old.state) }
    requires called { AllByRecursion HasNamedCalls (map left_tree lefts.now) }
    ensures written { (ls : Lefts) → HasWritten begun.old ls
        → OnOk result (HasWritten begun.new (ls ++ map left_tree lefts.now)) }
    ensures too_large { (n : ℕ) → result ≡ Err (EncodeError.TooLarge n) → 2 ^ 32 ≤ n }
    ensures among { (n : ℕ) (next : List WrittenScope) → result ≡ Err (EncodeError.TooLarge n)
        → write_lefts (map left_tree lefts.now) (scopes begun.old.state) ≡ Some next
        → n ≤ scopes_size next }
{
    what_is_written_for_imports_only_grows();
    for left in lefts {
        add_left(alloc, begun, left)?;
    }
    Ok(())
}
