//! Imports of a composition.

ghost use Rattle.std.specs.Prelude.{◌≡◌, ◌≤◌, ◌^◌, ◌++◌, ◌∷◌, [], ℕ, List, map, Err, IfOk, Some};
ghost use Rattle.std.specs.List.{AllByRecursion};
ghost use Rattle.compose_check.specs.Composition.{composition_tree};
ghost use Rattle.compose_image.specs.Imports.{import_items, write_lefts};
ghost use Rattle.compose_image.specs.Writable.{AreWritable};
ghost use Rattle.compose_imports.specs.Begun.{imports_numbered};
ghost use Rattle.compose_imports.specs.Calls.{HasNamedCalls};
ghost use Rattle.compose_imports.specs.Imported.{AreImported, Items};
ghost use Rattle.compose_order.specs.Known.{left_tree};
ghost use Rattle.compose_types.specs.Largest.{scopes_size};
ghost use Rattle.compose_writing.specs.Scopes.{WrittenScope, outermost};

use crate::begun::{Begun, add_components, add_lefts};
use crate::laws::what_is_written_for_imports_only_grows;
use comp_encoder::{ComponentBuilder, EncodeError};
use compose_check::Composition;
use compose_order::LeftImport;
use compose_types::TypeState;
use compose_types::laws::the_outermost_is_last;
use std::alloc::Global;
use std::collections::BTreeMap;
use warg_values::Text;

/// Imports that are written.
#[derive(Drop)]
pub struct Imported {
    /// The component that is built, with these imports and what they need.
    pub builder: ComponentBuilder,
    /// The index of the first import of each name.
    pub names: BTreeMap<Text, u32>,
}

/// Writes imports of the components of some numbers, and left imports behind them, each behind the types that it needs
/// and that do not stand there yet. What those that need a left import call its named types is known from then on.
///
/// The left imports are as they are written (`settled`). `TooLarge` has a number of 2^32 or more, which is not above the
/// largest length, count or index that would have to be written for these imports.
pub fn write_imports(
    alloc: Global,
    composition: &Composition<'_>,
    numbers: &[usize],
    lefts: &[LeftImport],
) -> Result<Imported, EncodeError>
    requires writable { AreWritable (imports_numbered (composition_tree composition.now) numbers.now
        ++ map left_tree lefts.now) (outermost ∷ []) }
    requires called { AllByRecursion HasNamedCalls (map left_tree lefts.now) }
    ensures written { IfOk result (λ imported. (items : Items)
        × (import_items (imports_numbered (composition_tree composition.now) numbers.now ++ map left_tree lefts.now)
        ≡ Some items)
        × AreImported imported items) }
    ensures too_large { (n : ℕ) → result ≡ Err (EncodeError.TooLarge n) → 2 ^ 32 ≤ n }
    ensures among { (n : ℕ) (next : List WrittenScope) → result ≡ Err (EncodeError.TooLarge n)
        → write_lefts (imports_numbered (composition_tree composition.now) numbers.now ++ map left_tree lefts.now)
        (outermost ∷ []) ≡ Some next
        → n ≤ scopes_size next }
{
    the_outermost_is_last();
    what_is_written_for_imports_only_grows();
    let mut begun = Begun {
        state: TypeState::new(alloc),
        names: BTreeMap::new(alloc),
    };
    add_components(alloc, &mut begun, composition, numbers)?;
    add_lefts(alloc, &mut begun, lefts)?;
    let Begun { state, names } = begun;
    Ok(Imported {
        builder: state.into_builder(),
        names,
    })
}
