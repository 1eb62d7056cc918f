//! Laws of what is written for what instances leave open: each is a function that does nothing, and is proved of all
//! compositions.

ghost use Rattle.std.specs.Prelude.{◌≡◌, ℕ, Bool, List, [], ◌∷◌, false};
ghost use Rattle.std.specs.List.{AllByRecursion};
ghost use Rattle.comp_entity.specs.Entity.{ValueTree};
ghost use Rattle.compose_order.specs.Known.{Imports};
ghost use Rattle.compose_order.specs.Needs.{LeftTree};
ghost use Rattle.compose_writing.specs.Scopes.{outermost};
ghost use Rattle.compose_meaning.specs.Meaning.{Meaning, OneTree};
ghost use Rattle.compose_check.specs.Checked.{IsSound};
ghost use Rattle.compose_check.specs.Composition.{CompositionTree, wiring};
ghost use Rattle.compose_check.specs.Open.{lefts};
ghost use Rattle.compose_image.specs.Imports.{imports_of, used_components};
ghost use Rattle.compose_image.specs.Writable.{AreWritable};
ghost use Rattle.compose_naming.specs.Settled.{settled};
ghost use Rattle.compose_known.specs.Importable.{IsImportable, KeepsImports, NamesImports};
ghost use Rattle.compose_known.specs.InOrder.{IsApart, IsInOrder};

use compose_order::laws::what_is_mentioned_is_brought;

/// What the instances of a sound composition leave open can be written in its order, one import behind the other, each
/// with one number for each of its named types. So it can behind components that are imported, where each of these hides
/// nothing of what it mentions.
pub fn what_agrees_can_be_written()
    ensures { (c : CompositionTree) (define : Bool) (order : List ℕ) (out : Imports)
        → IsSound c order out
        → AllByRecursion KeepsImports c.components
        → AllByRecursion NamesImports c.components
        → AllByRecursion (λ (l : LeftTree). IsInOrder (settled l).entity) (lefts (wiring c))
        → (define ≡ false → AllByRecursion IsImportable (used_components c))
        → AreWritable (imports_of c define out) (outermost ∷ []) }
{
    what_is_mentioned_is_brought();
}

/// A value type in which each place names one tree does not mention within it the place that named it.
pub fn one_tree_stands_apart()
    ensures { (mean : Meaning) (t : ValueTree) → OneTree mean t → IsApart t }
{}
