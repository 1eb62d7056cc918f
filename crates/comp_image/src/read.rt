//! The link image of a component, from its items.

ghost use Rattle.std.specs.Prelude.{◌≡◌, ℕ, Err, IfOk, None, Some, map};
ghost use Rattle.comp_entity.specs.Views.{named_entities};
ghost use Rattle.comp_format.specs.Items.{item_tree};
ghost use Rattle.comp_image.specs.Progress.{Imports, is_among};
ghost use Rattle.comp_image.specs.Read.{AllSeen, StopsAt};
ghost use Rattle.comp_image.specs.Views.{image_of};
ghost use Rattle.comp_scope.specs.Image.{image};

use crate::error::{ImageError, ItemError};
use crate::image::Image;
use crate::items::see;
use crate::progress::Progress;
use comp_entity::Entity;
use comp_format::Item;
use indexmap::IndexSet;
use std::alloc::Global;
use warg_values::Text;

/// The error of the item of a number.
fn at_item(error: ItemError, number: usize) -> ImageError
    ensures not_carried { (n : ℕ) → result ≡ ImageError.NotCarried n → (error ≡ ItemError.NotCarried) × (n ≡ number) }
{
    match error {
        ItemError::NotCarried => ImageError::NotCarried(number),
        ItemError::Memory => ImageError::Memory,
    }
}

/// The image of items, but for the imports.
fn progress_of<'a, 'b>(
    alloc: Global,
    components: &IndexSet<Text>,
    items: &'b [Item<'a>],
) -> Result<Progress<'a, 'b>, ImageError>
    ensures seen { IfOk result (λ part. (imports : Imports)
        → AllSeen (is_among components.now.keys) imports (map item_tree items.now) part) }
    ensures not_carried { (number : ℕ) → result ≡ Err (ImageError.NotCarried number) → (imports : Imports)
        → StopsAt (is_among components.now.keys) imports (map item_tree items.now) number }
{
    let mut progress = Progress::new(alloc)?;
    for (number, item) in items.iter().enumerate() {
        match see(alloc, components, &mut progress, item) {
            Ok(()) => {}
            Err(error) => return Err(at_item(error, number)),
        }
    }
    Ok(progress)
}

/// The link image of a component of these items and these imports, which are those of its shape. Imports under the names of
/// `components` are components of which instances are made; all others are left open (`Explainer.md`, "Instance
/// Definitions").
///
/// `NotCarried` is answered exactly where the items have no image, with the number of the first item that has no part in
/// one: a custom section, a core module, a core instance, a canonical definition, an instance of items, an alias of a core
/// instance's export, an export with a description or of what is no export of an instance; or an instance of what is no
/// such component, or with an argument that is none.
pub fn image_of<'a>(
    alloc: Global,
    components: &IndexSet<Text>,
    imports: Vec<(Text, Entity)>,
    items: &[Item<'a>],
) -> Result<Image<'a>, ImageError>
    ensures found { IfOk result (λ i.
        image (is_among components.now.keys) (named_entities imports.items) (map item_tree items.now)
        ≡ Some (image_of i)) }
    ensures none { (number : ℕ) → result ≡ Err (ImageError.NotCarried number)
        → image (is_among components.now.keys) (named_entities imports.items) (map item_tree items.now) ≡ None }
    ensures first { (number : ℕ) → result ≡ Err (ImageError.NotCarried number)
        → StopsAt (is_among components.now.keys) (named_entities imports.items) (map item_tree items.now) number }
{
    let Progress {
        components,
        instances,
        exports,
        numbered: _,
    } = progress_of(alloc, components, items)?;
    Ok(Image {
        components,
        instances,
        imports,
        exports,
    })
}
