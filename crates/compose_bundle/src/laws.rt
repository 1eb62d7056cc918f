//! Laws of bundles: each is a function that does nothing, and is proved of all items or compositions.

ghost use Rattle.std.specs.Prelude.{◌≡◌, List, Option, Some, false, option_map, true, ℕ};
ghost use Rattle.std.specs.List.{AllByRecursion};
ghost use Rattle.comp_entity.specs.Entity.{EntityTree};
ghost use Rattle.comp_format.specs.Items.{ItemTree};
ghost use Rattle.comp_format.specs.Sections.{Reads};
ghost use Rattle.comp_scope.specs.Image.{image};
ghost use Rattle.compose_bundle.specs.Bundled.{IsBundled, bundled};
ghost use Rattle.compose_bundle.specs.Defined.{defined, has_content};
ghost use Rattle.compose_bundle.specs.Whole.{AreContentsOf, HasItsContent, IsWholeBundle};
ghost use Rattle.compose_check.specs.Composition.{CompositionTree};
ghost use Rattle.compose_encode.specs.Whole.{IsWhole};
ghost use Rattle.compose_image.specs.CompositionImage.{composition_image, is_component};
ghost use Rattle.compose_image.specs.Imports.{used_components};

use compose_agree::laws::one_order;

/// The link image of bundled items is that of the items, in which the imports with a content are components of which
/// instances are made, and with these defined: where the items have an image, so have the bundled ones, and else neither.
pub fn bundling_defines_components()
    ensures { (content : List ℕ → Option (List ℕ)) (all shown : List (List ℕ × EntityTree)) (items : List ItemTree)
        → image (λ name. false) shown (bundled content items)
        ≡ option_map (defined content shown) (image (has_content content) all items) }
{}

/// The image of a composition with its components defined is the one with them imported, once each has its bytes as its
/// content.
pub fn defined_compositions()
    ensures { (c : CompositionTree) (content : List ℕ → Option (List ℕ)) (export : Option ℕ) (order : List ℕ)
        (all shown : List (List ℕ × EntityTree))
        → AllByRecursion (HasItsContent content) (used_components c)
        → defined content shown (composition_image c false export order all)
        ≡ composition_image c true export order shown }
{}

/// A composition that is encoded with its components imported, and then bundled with their bytes, has one reading, whose
/// link image is that of the composition with its components defined, in the order of the encoding.
pub fn bundles_are_whole()
    ensures { (c : CompositionTree) (content : List ℕ → Option (List ℕ)) (export : Option ℕ) (bytes out : List ℕ)
        (whole : IsWhole c false export bytes)
        → AreContentsOf c content bytes
        → IsBundled content bytes out
        → IsWholeBundle c export whole.order out }
{}

/// So it has the image of the composition that is encoded with its components defined.
pub fn bundling_is_defining()
    ensures { (c : CompositionTree) (export : Option ℕ) (order bytes out : List ℕ) (items others : List ItemTree)
        (shown : List (List ℕ × EntityTree))
        → IsWholeBundle c export order out
        → Reads out items
        → IsWhole c true export bytes
        → Reads bytes others
        → image (is_component c true) shown items ≡ image (is_component c true) shown others }
{
    one_order();
}
