//! A caller of `compose_order`.

ghost use Rattle.std.specs.Prelude.{◌≡◌, map, IfOk, IfSome};
ghost use Rattle.compose_left.specs.Numbers.{AreOrigins};
ghost use Rattle.compose_left.specs.Wiring.{Wiring};
ghost use Rattle.compose_needs.specs.Lefts.{lefts_of};
ghost use Rattle.compose_order.specs.Agreed.{AreOrdered, name_of};
ghost use Rattle.compose_order.specs.Known.{Imports, left_tree, merged_left};

use compose_left::{MergedImport, Origins};
use compose_order::{LeftImport, OrderError, ordered};
use std::alloc::Global;
use warg_values::{Memory, Text};

/// The names of left imports.
fn names_of(alloc: Global, lefts: &[LeftImport]) -> Result<Vec<Text>, Memory>
    ensures { IfOk result (λ names. names.items ≡ map name_of (map left_tree lefts.now)) }
{
    let mut names = Vec::new(alloc);
    for left in lefts {
        names.push(left.name.try_clone(alloc)?)?;
    }
    Ok(names)
}

/// The names of left imports, in the order in which they are written. `None` where they do not agree.
pub fn names_in_order(
    alloc: Global,
    origins: &Origins,
    list: Vec<MergedImport>,
) -> Result<Option<Vec<Text>>, Memory>
    ensures { (w : Wiring) → AreOrigins origins.now w → IfOk result (λ found. IfSome found (λ names. (out : Imports)
        × AreOrdered (lefts_of w) (map merged_left list.items) out × (names.items ≡ map name_of out))) }
{
    match ordered(alloc, origins, list) {
        Ok(lefts) => {
            let names = names_of(alloc, &lefts)?;
            Ok(Some(names))
        }
        Err(OrderError::Memory) => Err(Memory),
        Err(_) => Ok(None),
    }
}
