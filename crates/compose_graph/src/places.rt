//! The places of numbers in a list.

ghost use Rattle.std.specs.Prelude.{◌≡◌, ℕ, List, map, IfOk};
ghost use Rattle.compose_graph.specs.Composed.{FindsPlaces};
ghost use Rattle.compose_graph.specs.Wiring.{place_among};

use std::alloc::Global;
use std::collections::BTreeMap;
use warg_values::Memory;

/// The places of some numbers, found by a map.
#[derive(Debug, Drop)]
pub struct Places {
    /// The first place of each number.
    pub found: BTreeMap<usize, usize>,
    /// How many numbers there are.
    pub count: usize,
}

impl Places {
    /// The places of these numbers.
    pub fn of(alloc: Global, ids: &[usize]) -> Result<Self, Memory>
        ensures { IfOk result (λ places. FindsPlaces places ids.now) }
    {
        let mut found = BTreeMap::new(alloc);
        let mut place = ids.len();
        while place > 0 {
            place -= 1;
            found.insert(ids[place], place)?;
        }
        Ok(Places {
            found,
            count: ids.len(),
        })
    }

    /// The first place of a number; how many numbers there are, where it is none of them.
    pub fn place(&self, id: usize) -> usize
        ensures { (ids : List ℕ) → FindsPlaces self.now ids → result ≡ place_among ids id }
    {
        match self.found.get(&id) {
            Some(place) => *place,
            None => self.count,
        }
    }

    /// The first places of numbers.
    pub fn each(&self, alloc: Global, of: &[usize]) -> Result<Vec<usize>, Memory>
        ensures { (ids : List ℕ) → FindsPlaces self.now ids
            → IfOk result (λ places. places.items ≡ map (place_among ids) of.now) }
    {
        let mut places = Vec::new(alloc);
        for id in of {
            places.push(self.place(*id))?;
        }
        Ok(places)
    }
}
