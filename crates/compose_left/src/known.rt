//! Where the resources and named types of wired instances come from, as numbers.

ghost use Rattle.std.specs.Prelude.{◌≡◌, ◌/◌, ◌%◌, ◌==◌, suc, Some, None, length, if◌then◌else◌};
ghost use Rattle.std.specs.Option.{option_copied};
ghost use Rattle.compose_left.specs.Numbers.{AreOrigins};
ghost use Rattle.compose_left.specs.Origins.{import_at, import_of, table};
ghost use Rattle.compose_left.specs.Wiring.{Wiring};

use crate::origin::{Held, Origin};
use std::collections::BTreeMap;
use warg_values::Text;

/// Where the resources and named types of instances come from, as numbers.
#[derive(Drop)]
pub struct Origins {
    /// How many instances there are.
    pub(crate) instances: usize,
    /// Each origin once that something brought has, and that no instance makes.
    pub(crate) table: Vec<Origin>,
    /// The numbers of the origins of what imports bring.
    pub(crate) numbers: BTreeMap<Held, usize>,
}

/// The left import of an origin, where it is of one.
fn import_of(origin: &Origin) -> Option<&Text>
    ensures { option_copied result ≡ import_of origin.now }
{
    match origin {
        Origin::Left { import, path: _ } => Some(import),
        Origin::Made {
            instance: _,
            number: _,
        } => None,
        Origin::Given {
            instance: _,
            path: _,
        } => None,
    }
}

/// The place in the table of what has this number, where it is not what an instance makes.
fn place_at(instances: usize, number: usize) -> Option<usize>
    ensures { result ≡ (if number % suc instances == instances then Some (number / suc instances) else None) }
{
    match instances.checked_add(1) {
        Some(turns) => {
            if number % turns == instances {
                Some(number / turns)
            } else {
                None
            }
        }
        None => { if number == instances { Some(0) } else { None } }
    }
}

impl Origins {
    /// The left import from which the resource or the named type of this number comes, where it comes from one.
    pub fn left_import(&self, number: usize) -> Option<&Text>
        ensures { (w : Wiring) → AreOrigins self.now w
            → option_copied result ≡ import_at (length w.shapes) (table w) number }
    {
        let place = place_at(self.instances, number)?;
        let origin = self.table.get(place)?;
        import_of(origin)
    }
}
