//! Lists of numbers that can be parts of keys.

ghost use Rattle.std.specs.Prelude.{◌≡◌, Some, refl, nat_eq, IfOk};
ghost use Rattle.std.specs.Ordering.{nat_cmp};
ghost use Rattle.std.specs.Cmp.{partial_equiv_from_equiv};
ghost use Rattle.std.specs.Cmp.Lexicographic.{slice_cmp, nat_list_eq_equiv, nat_list_cmp_total, texts_ties, texts_po, pointwise};

use std::alloc::Global;
use std::cmp::Ordering;
use std::marker::Model;
use warg_values::Memory;

/// A list of numbers, in the order of its items.
#[derive(Debug, Drop)]
pub struct Numbers {
    items: Vec<usize>,
}

impl Model for Numbers {
    ghost use Rattle.std.specs.Prelude.{ℕ, List};

    ghost Value = { List ℕ };

    ghost view = { λ s. s.items.items };
}

impl Numbers {
    /// The list of a vector's items.
    pub fn from_vec(items: Vec<usize>) -> Self
        ensures { result ≡ items.items }
    {
        Numbers { items }
    }

    /// The items.
    pub fn as_slice(&self) -> &[usize]
        ensures { result.now ≡ self.now }
    {
        self.items.as_slice()
    }

    /// A copy.
    pub fn try_clone(&self, alloc: Global) -> Result<Self, Memory>
        ensures { IfOk result (λ copy. copy ≡ self.now) }
    {
        let items = Vec::from_slice(alloc, self.items.as_slice())?;
        Ok(Numbers { items })
    }
}

impl PartialEq for Numbers {
    ghost eq = { λ a b. pointwise nat_eq a b };

    ghost laws = { partial_equiv_from_equiv nat_list_eq_equiv };

    fn eq(&self, other: &Numbers) -> bool {
        self.as_slice() == other.as_slice()
    }
}

impl Eq for Numbers {
    ghost laws = { nat_list_eq_equiv };
}

impl PartialOrd for Numbers {
    ghost partial_cmp = { λ a b. Some (slice_cmp nat_cmp a b) };

    ghost laws = { texts_po };

    fn partial_cmp(&self, other: &Numbers) -> Option<Ordering> {
        Some(self.cmp(other))
    }
}

impl Ord for Numbers {
    ghost cmp = { λ a b. slice_cmp nat_cmp a b };

    ghost total = { nat_list_cmp_total };

    ghost matches_partial_cmp = { λ a b. refl };

    ghost matches_eq = { texts_ties };

    fn cmp(&self, other: &Numbers) -> Ordering {
        self.as_slice().cmp(other.as_slice())
    }
}
