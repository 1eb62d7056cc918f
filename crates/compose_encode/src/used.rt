//! The components of which instances are made.

ghost use Rattle.std.specs.Prelude.{◌≡◌, ◌<◌, ◌^◌, ◌++◌, ◌∷◌, [], ℕ, length, IfOk, if◌then◌else◌};
ghost use Rattle.std.specs.BTreeSet.{contains};
ghost use Rattle.std.specs.Ordering.{nat_cmp};
ghost use Rattle.compose_agree.specs.Order.{has};
ghost use Rattle.compose_check.specs.Composition.{composition_tree};
ghost use Rattle.compose_encode.specs.Held.{AreUsed};

use compose_check::Composition;
use std::alloc::Global;
use std::collections::BTreeSet;
use warg_values::Memory;

/// The components of which instances are made.
#[derive(Drop)]
pub struct Used {
    /// Their numbers, in order.
    pub numbers: Vec<usize>,
    /// For the number of each component how many of these stand in front of it.
    pub ranks: Vec<usize>,
}

/// Some numbers, as a set.
fn set_of(alloc: Global, numbers: &[usize]) -> Result<BTreeSet<usize>, Memory>
    ensures { IfOk result (λ set. (n : ℕ) → contains nat_cmp set n ≡ has numbers.now n) }
{
    let mut set = BTreeSet::new(alloc);
    for number in numbers {
        set.insert(*number)?;
    }
    Ok(set)
}

/// Adds the number of a component, where an instance is made of it.
fn add_number(used: &mut Used, number: usize, is_used: bool) -> Result<(), Memory>
    ensures numbers { IfOk result (λ done. used.new.numbers.items
        ≡ used.old.numbers.items ++ (if is_used then number ∷ [] else [])) }
    ensures ranks { IfOk result (λ done. used.new.ranks.items
        ≡ used.old.ranks.items ++ length used.old.numbers.items ∷ []) }
    ensures small { length used.old.numbers.items < 2 ^ 63 }
{
    used.ranks.push(used.numbers.len())?;
    if is_used {
        used.numbers.push(number)?;
    }
    Ok(())
}

/// The components of which instances are made.
pub fn used_components(alloc: Global, composition: &Composition<'_>) -> Result<Used, Memory>
    ensures { IfOk result (λ used. AreUsed used (composition_tree composition.now)) }
{
    let made = set_of(alloc, &composition.instances)?;
    let mut used = Used {
        numbers: Vec::new(alloc),
        ranks: Vec::new(alloc),
    };
    for number in 0..composition.components.len() {
        add_number(&mut used, number, made.contains(&number))?;
    }
    Ok(used)
}
