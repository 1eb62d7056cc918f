//! Laws of what is written for imports: each is a function that does nothing, and is proved of all compositions.

ghost use Rattle.std.specs.Prelude.{◌≡◌, ◌≤◌, ◌∷◌, [], ℕ, List, Some};
ghost use Rattle.std.specs.List.{AllByRecursion};
ghost use Rattle.comp_entity.specs.Views.{entries_of};
ghost use Rattle.compose_check.specs.Checked.{IsSound};
ghost use Rattle.compose_check.specs.Composition.{ComponentTree, CompositionTree};
ghost use Rattle.compose_image.specs.Imports.{write_left, write_lefts};
ghost use Rattle.compose_image.specs.Writable.{AreWritable};
ghost use Rattle.compose_imports.specs.Begun.{Lefts};
ghost use Rattle.compose_imports.specs.Calls.{HasNamedCalls};
ghost use Rattle.compose_order.specs.Needs.{LeftTree};
ghost use Rattle.compose_types.specs.Largest.{scopes_size};
ghost use Rattle.compose_writing.specs.Conditions.{KeepsEntries};
ghost use Rattle.compose_writing.specs.Scopes.{WrittenScope};

use compose_image::laws::an_import_is_one_item;
use compose_types::laws::what_is_written_only_grows;
use compose_writing::laws::what_is_known_is_written;

/// What those that need a left import call in it stands at paths of names that are not empty, where the imports of the
/// components have names that are not.
pub fn what_is_called_has_a_path()
    ensures { (c : CompositionTree) (order : List ℕ) (out : Lefts)
        → IsSound c order out
        → AllByRecursion (λ (k : ComponentTree). KeepsEntries (entries_of k.shape.imports)) c.components
        → AllByRecursion HasNamedCalls out }
{}

/// Scopes only grow where imports are written into them.
pub fn what_is_written_for_imports_only_grows()
    ensures left { (left : LeftTree) (ms next : List WrittenScope)
        → write_left left ms ≡ Some next → scopes_size ms ≤ scopes_size next }
    ensures lefts { (lefts : Lefts) (ms next : List WrittenScope)
        → write_lefts lefts ms ≡ Some next → scopes_size ms ≤ scopes_size next }
{
    what_is_written_only_grows();
}

/// Imports that can be written one behind the other are written, and leave one scope.
pub fn what_can_be_imported_is_written()
    ensures { (lefts : Lefts) (m : WrittenScope) → AreWritable lefts (m ∷ [])
        → (scope : WrittenScope) × (write_lefts lefts (m ∷ []) ≡ Some (scope ∷ [])) }
{
    what_is_known_is_written();
    an_import_is_one_item();
}
