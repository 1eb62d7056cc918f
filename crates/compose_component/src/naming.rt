//! Where names stand in lists.

ghost use Rattle.std.specs.Prelude.{◌≡◌, ℕ, List, map, IfOk};
ghost use Rattle.compose_component.specs.Names.{FindsNames};

use std::alloc::Global;
use std::collections::BTreeMap;
use warg_base::{Memory, Text};

/// Something that has a name.
pub trait Named: Drop {
    /// The name.
    ghost name: { Self → List ℕ };

    /// The name.
    fn name(&self) -> &Text
        ensures { result.now ≡ name self.now };
}

/// The first place of each name.
pub fn places_by_name<T: Named>(
    alloc: Global,
    named: &[T],
) -> Result<BTreeMap<String, usize>, Memory>
    ensures { IfOk result (λ places. FindsNames places (map T.name named.now)) }
{
    let mut places = BTreeMap::new(alloc);
    let mut left = named.len();
    while left > 0 {
        left -= 1;
        let name = String::from_str(alloc, named[left].name().as_str())?;
        places.insert(name, left)?;
    }
    Ok(places)
}
