//! A caller of `comp_image`.

ghost use Rattle.std.specs.Prelude.{◌≡◌, ℕ, Err, IfOk, IfSome, None, [], length, map};
ghost use Rattle.comp_format.specs.Items.{item_tree};
ghost use Rattle.comp_image.specs.Progress.{is_among};
ghost use Rattle.comp_scope.specs.Image.{image};

use comp_format::Item;
use comp_image::{ImageError, image_of};
use indexmap::IndexSet;
use std::alloc::Global;

/// How many instances a component of these items makes that imports nothing.
pub fn made_instances(alloc: Global, items: &[Item<'_>]) -> Result<usize, ImageError>
    ensures count { IfOk result (λ n. IfSome (image (is_among []) [] (map item_tree items.now)) (λ i. n ≡ length i.instances)) }
    ensures none { (number : ℕ) → result ≡ Err (ImageError.NotCarried number)
        → image (is_among []) [] (map item_tree items.now) ≡ None }
{
    let components = IndexSet::new(alloc);
    let image = image_of(alloc, &components, Vec::new(alloc), items)?;
    Ok(image.instances.len())
}
