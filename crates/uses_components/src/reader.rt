//! A caller of `comp_reader`.

ghost use Rattle.std.specs.Prelude.{◌≡◌, List, length, MatchResult};
ghost use Rattle.comp_format.specs.Items.{ItemTree};
ghost use Rattle.comp_format.specs.Sections.{Reads};

use comp_reader::{ReadError, read_items};
use std::alloc::Global;

/// How many items a component has.
pub fn item_count(alloc: Global, bytes: &[u8]) -> Result<usize, ReadError>
    ensures { (items : List ItemTree) → Reads bytes.now items
        → MatchResult result (λ count. count ≡ length items) (λ e. e ≡ ReadError.Memory) }
{
    match read_items(alloc, bytes) {
        Ok(items) => Ok(items.len()),
        Err(error) => Err(error),
    }
}
