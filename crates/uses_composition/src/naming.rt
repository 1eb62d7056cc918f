//! A caller of `compose_naming`.

ghost use Rattle.std.specs.Prelude.{◌≡◌, map, IfOk, MatchOption};
ghost use Rattle.compose_naming.specs.Bits.{HaveBits, LacksBit};
ghost use Rattle.compose_order.specs.Known.{left_tree};

use compose_naming::{LeftImport, first_without_bit};
use std::alloc::Global;
use warg_values::{Memory, Text};

/// The name of the first import that has a function over a type of which a part has no name where it is written.
pub fn nameless(alloc: Global, imports: &[LeftImport]) -> Result<Option<Text>, Memory>
    ensures { IfOk result (λ name.
        MatchOption name (HaveBits (map left_tree imports.now)) (LacksBit (map left_tree imports.now))) }
{
    match first_without_bit(alloc, imports)? {
        Some(number) => Ok(Some(imports[number].name.try_clone(alloc)?)),
        None => Ok(None),
    }
}
