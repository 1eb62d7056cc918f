//! The last of things that need themselves through others.

ghost use Rattle.std.specs.Prelude.{◌≡◌, ◌↔◌, ℕ, true, IfOk, MatchOption};
ghost use Rattle.std.specs.BTreeSet.{contains};
ghost use Rattle.std.specs.Ordering.{nat_cmp};
ghost use Rattle.compose_agree.specs.Order.{needs_at, needs_of};
ghost use Rattle.compose_check.specs.Circles.{IsLastOnCircle, IsOnCircle, Reaches};
ghost use Rattle.compose_check.specs.Spread.{Holds, with_numbers};

use std::alloc::Global;
use std::collections::BTreeSet;
use warg_values::Memory;

/// What a thing needs.
fn needs_at(needs: &[Vec<usize>], thing: usize) -> &[usize]
    ensures { result.now ≡ needs_at (needs_of needs.now) thing }
{
    match needs.get(thing) {
        Some(numbers) => numbers,
        None => &[],
    }
}

/// Adds those of some numbers that are not there, to a list and to the set of what stands in it.
fn add_new(
    numbers: &[usize],
    list: &mut Vec<usize>,
    seen: &mut BTreeSet<usize>,
) -> Result<(), Memory>
    requires { Holds seen.old list.old.items }
    ensures list { IfOk result (λ done. list.new.items ≡ with_numbers list.old.items numbers.now) }
    ensures seen { IfOk result (λ done. Holds seen.new list.new.items) }
{
    for number in numbers {
        if seen.insert(*number)? {
            list.push(*number)?;
        }
    }
    Ok(())
}

/// The things to which a way leads from one.
fn reached(alloc: Global, needs: &[Vec<usize>], from: usize) -> Result<BTreeSet<usize>, Memory>
    ensures { IfOk result (λ seen. (n : ℕ) →
        (contains nat_cmp seen n ≡ true) ↔ Reaches (needs_of needs.now) from n) }
{
    let mut list = Vec::new(alloc);
    let mut seen = BTreeSet::new(alloc);
    add_new(needs_at(needs, from), &mut list, &mut seen)?;
    let mut next = 0;
    while next < list.len() {
        let thing = list[next];
        add_new(needs_at(needs, thing), &mut list, &mut seen)?;
        next += 1;
    }
    Ok(seen)
}

/// The last of things, numbered from 0, to which a way leads from themselves, where each needs those of its numbers.
/// `None` where there is none.
///
/// The time grows with the number of things times that of all that they need.
pub fn last_on_circle(alloc: Global, needs: &[Vec<usize>]) -> Result<Option<usize>, Memory>
    ensures { IfOk result (λ last. MatchOption last ((n : ℕ) → IsOnCircle (needs_of needs.now) n → ⊥)
        (IsLastOnCircle (needs_of needs.now))) }
{
    for thing in (0..needs.len()).rev() {
        let seen = reached(alloc, needs, thing)?;
        if seen.contains(&thing) {
            return Ok(Some(thing));
        }
    }
    Ok(None)
}
