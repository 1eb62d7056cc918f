//! Components in the place of imports.

ghost use Rattle.std.specs.Prelude.{◌≡◌, ◌≤◌, ◌^◌, ◌++◌, ◌∷◌, [], ℕ, All, Err, IfOk, IfSome, OnOk, map, option_map};
ghost use Rattle.comp_encoder.specs.Builder.{entries_of};
ghost use Rattle.comp_encoder.specs.Writing.{Single, items_of};
ghost use Rattle.comp_format.specs.declared.error.EncodeError.TheVariants as encode_error;
ghost use Rattle.comp_format.specs.Fits.{FitsItem, IsComponent};
ghost use Rattle.comp_format.specs.Items.{item_tree};
ghost use Rattle.comp_shape.specs.declared.error.ShapeError.{ShapeError as AnyShapeError};
ghost use Rattle.compose_bundle.specs.Bundled.{AreComponents, IsBundled, bundled, bundled_item, content_in, in_place, singles};
ghost use Rattle.compose_bundle.specs.Refusing.{IsAmong, IsBad, IsOfItem, IsTooLarge};
ghost use Rattle.compose_bundle.specs.declared.error.BundleError.TheVariants as refusal;

use crate::error::BundleError;
use comp_encoder::ComponentBuilder;
use comp_encoder::laws::what_is_read_can_be_written;
use comp_format::{EncodeError, Item, TypeRef};
use comp_shape::read_items;
use indexmap::IndexMap;
use std::alloc::Global;
use warg_values::Text;

/// The content that stands in the place of an item, where there is one: that of an import of a component under its name.
fn content_for<'a>(item: &Item<'_>, contents: &IndexMap<Text, &'a [u8]>) -> Option<&'a [u8]>
    requires { AreComponents (content_in contents.now) }
    ensures stands { bundled_item (content_in contents.now) (item_tree item.now)
        ≡ in_place (item_tree item.now) (option_map (λ bytes. bytes.now) result) }
    ensures component { IfSome result (λ bytes. IsComponent bytes.now) }
{
    match item {
        Item::Import {
            name,
            ty: TypeRef::Component(_),
        } => contents.get(name).copied(),
        _ => None,
    }
}

/// Adds an item, or the content that stands in its place.
fn add(
    alloc: Global,
    builder: &mut ComponentBuilder,
    item: &Item<'_>,
    contents: &IndexMap<Text, &[u8]>,
) -> Result<(), EncodeError>
    requires fits { FitsItem (item_tree item.now) }
    requires components { AreComponents (content_in contents.now) }
    ensures added { OnOk result (entries_of builder.new
        ≡ entries_of builder.old ++ Single (bundled_item (content_in contents.now) (item_tree item.now)) ∷ []) }
    ensures too_large { (n : ℕ) → result ≡ Err (encode_error.TooLarge n)
        → (2 ^ 32 ≤ n)
        × IsOfItem n (items_of (entries_of builder.old)) (bundled_item (content_in contents.now) (item_tree item.now)) }
{
    match content_for(item, contents) {
        Some(bytes) => {
            let _index = builder.component_raw(alloc, bytes)?;
        }
        None => builder.push_item(alloc, item)?,
    }
    Ok(())
}

/// A builder with some items, or the contents that stand in their place.
fn built(
    alloc: Global,
    items: &[Item<'_>],
    contents: &IndexMap<Text, &[u8]>,
) -> Result<ComponentBuilder, EncodeError>
    requires fit { All FitsItem (map item_tree items.now) }
    requires components { AreComponents (content_in contents.now) }
    ensures items { IfOk result (λ builder. entries_of builder
        ≡ singles (bundled (content_in contents.now) (map item_tree items.now))) }
    ensures too_large { (n : ℕ) → result ≡ Err (encode_error.TooLarge n)
        → (2 ^ 32 ≤ n) × IsAmong n (bundled (content_in contents.now) (map item_tree items.now)) }
{
    let mut builder = ComponentBuilder::new(alloc);
    for item in items {
        add(alloc, &mut builder, item, contents)?;
    }
    Ok(builder)
}

/// A component in which each import of a component whose name has a content is replaced by the nested component that the
/// content is. Each other item stays as it is, in order, and nested components are not entered (`Binary.md`, "Component
/// Definitions"). Each content is the bytes of a component.
///
/// `BadComponent` comes where `bytes` are no component, with what `comp_shape::read_items` refuses. `TooLarge` has a number
/// of 2^32 or more that would have to be written: the length of an item or of a section, or the number of items of a
/// section or of an index space.
pub fn bundle(
    alloc: Global,
    bytes: &[u8],
    contents: &IndexMap<Text, &[u8]>,
) -> Result<Vec<u8>, BundleError>
    requires { AreComponents (content_in contents.now) }
    ensures bundled { IfOk result (λ out. IsBundled (content_in contents.now) bytes.now out.items) }
    ensures bad_component { (error : AnyShapeError) → result ≡ Err (refusal.BadComponent error)
        → IsBad error bytes.now }
    ensures too_large { (n : ℕ) → result ≡ Err (refusal.TooLarge n)
        → IsTooLarge n (content_in contents.now) bytes.now }
{
    what_is_read_can_be_written();
    let items = read_items(alloc, bytes)?;
    let builder = built(alloc, &items, contents)?;
    let bundle = builder.finish(alloc)?;
    Ok(bundle)
}
