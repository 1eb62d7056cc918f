//! Which packages need which.

ghost use Rattle.std.specs.Prelude.{◌≡◌, ◌<◌, ◌-◌, IfOk, OnOk};
ghost use Rattle.warg_demo.specs.Needs.{needs_among, needs_of, with_package};

use crate::draws::Draws;
use std::alloc::Global;
use warg_values::Memory;

/// Has an earlier package need this one, and perhaps another one too.
fn add_package(draws: &mut Draws, pairs: &mut Vec<(u64, u64)>, needed: u64) -> Result<(), Memory>
    requires { 0 < needed }
    ensures { OnOk result ((record { state = draws.new.state; pairs = pairs.new.items })
        ≡ with_package needed (record { state = draws.old.state; pairs = pairs.old.items })) }
{
    let first = draws.below(needed);
    pairs.push((first, needed))?;
    if draws.below(2) == 0 {
        let second = draws.below(needed);
        if second != first {
            pairs.push((second, needed))?;
        }
    }
    Ok(())
}

/// Draws which of so many packages need which: pairs of a package and one that it needs.
pub fn draw_needs(alloc: Global, draws: &mut Draws, count: u32) -> Result<Vec<(u64, u64)>, Memory>
    ensures { IfOk result (λ pairs. (record { state = draws.new.state; pairs = pairs.items })
        ≡ needs_among draws.old.state (count - 1)) }
{
    let mut pairs = Vec::new(alloc);
    for before in 0..count.saturating_sub(1) {
        add_package(draws, &mut pairs, before as u64 + 1)?;
    }
    Ok(pairs)
}

/// What a package needs, by such pairs.
pub fn needs_of(alloc: Global, user: u64, pairs: &[(u64, u64)]) -> Result<Vec<u64>, Memory>
    ensures { IfOk result (λ needs. needs.items ≡ needs_of user pairs.now) }
{
    let mut needs = Vec::new(alloc);
    for pair in pairs {
        if pair.0 == user {
            needs.push(pair.1)?;
        }
    }
    Ok(needs)
}
