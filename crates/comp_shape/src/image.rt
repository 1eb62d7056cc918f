//! Link images of components from their bytes.

ghost use Rattle.std.specs.Prelude.{IfErr, IfOk};
ghost use Rattle.comp_image.specs.Progress.{is_among};
ghost use Rattle.comp_image.specs.Views.{image_of};
ghost use Rattle.comp_shape.specs.Image.{HasImage};
ghost use Rattle.comp_shape.specs.Refusal.{HasNoImage};

use crate::error::ShapeError;
use crate::read::{place_of, read_component};
use comp_image::{Image, ImageError, image_of};
use indexmap::IndexSet;
use std::alloc::Global;
use warg_values::{Memory, Text};

/// The link image of a component: the components of which it makes instances, these with what they are given, its
/// imports, and which export of which instance each of its exports is (`Explainer.md`, "Instance Definitions"). Imports
/// under the names of `components` are components of which instances are made; all others are left open.
///
/// The errors are those of [`read_shape`](crate::read_shape). `NotCarried` is also answered where the component has a
/// shape, and an item has no part in an image, with the place of the first one.
pub fn read_image<'a>(
    alloc: Global,
    components: &IndexSet<Text>,
    bytes: &'a [u8],
) -> Result<Image<'a>, ShapeError>
    ensures found { IfOk result (λ i. HasImage (is_among components.now.keys) bytes.now (image_of i)) }
    ensures cause { IfErr result (λ e. HasNoImage (is_among components.now.keys) e bytes.now) }
{
    let (items, shape) = match read_component(alloc, bytes) {
        Ok(read) => read,
        Err(error) => return Err(error),
    };
    match image_of(alloc, components, shape.imports, &items) {
        Ok(image) => Ok(image),
        Err(ImageError::Memory) => Err(ShapeError::Memory),
        Err(ImageError::NotCarried(number)) => match place_of(alloc, bytes, &items, number) {
            Ok(at) => Err(ShapeError::NotCarried(at)),
            Err(Memory) => Err(ShapeError::Memory),
        },
    }
}
