//! The items of a component.

ghost use Rattle.std.specs.Prelude.{◌≡◌, List, map, IfErr, IfOk, MatchResult};
ghost use Rattle.comp_format.specs.Items.{ItemTree, item_tree};
ghost use Rattle.comp_format.specs.Sections.{Reads};
ghost use Rattle.comp_shape.specs.Refusal.{IsUnread};

use crate::error::ShapeError;
use comp_format::Item;
use std::alloc::Global;

/// The items of a component, in the order of its bytes. A custom section's bytes, a core module and a nested component
/// are slices of `bytes`; nested components are read too, to any depth (`Binary.md`, "Component Definitions").
///
/// `NotCarried` is answered where the first field in reading order that has no form here is of a form that is not
/// carried, and `Form` where it is of no form at all, each with the place of that field in bytes from the start. The id
/// of a section is its first field. At most 200 scopes are followed at one place: components, and types of components,
/// instances and modules. Where more are open, `Memory` is answered: each takes some of the machine's stack. No other
/// error is answered.
pub fn read_items(alloc: Global, bytes: &[u8]) -> Result<Vec<Item<'_>>, ShapeError>
    ensures found { IfOk result (λ items. Reads bytes.now (map item_tree items.items)) }
    ensures only { (items : List ItemTree) → Reads bytes.now items
        → MatchResult result (λ v. map item_tree v.items ≡ items) (λ e. e ≡ ShapeError.Memory) }
    ensures cause { IfErr result (λ e. IsUnread e bytes.now) }
{
    match comp_reader::read_items(alloc, bytes) {
        Ok(items) => Ok(items),
        Err(error) => Err(ShapeError::from(error)),
    }
}
