//! An order in which what is needed comes first.

ghost use Rattle.std.specs.Prelude.{◌≡◌, ◌++◌, ◌<◌, [], length, IfOk, List, ℕ, MatchOption};
ghost use Rattle.compose_agree.specs.Order.{HasPlaces, Ordered, Takes, all_of, is_ready, needs_of};
ghost use Rattle.compose_agree.specs.Turns.{AreTurns, IsFirstLeft, IsTaken, NoneReady, left_of};
ghost use Rattle.compose_agree.specs.declared.order.Order.TheVariants.{Circle};

use crate::turns::{Turns, first_turns, take_first};
use std::alloc::Global;
use std::collections::BTreeSet;
use warg_values::Memory;

/// The order of things that need each other.
#[derive(Debug, Drop)]
pub enum Order {
    /// All of them, each behind what it needs.
    Whole(Vec<usize>),
    /// Some need each other in a circle. This is the first of those that have no place.
    Circle(usize),
}

/// Takes one after the other, as long as one is ready.
fn take_in_turn(
    alloc: Global,
    needs: &[Vec<usize>],
    turns: &mut Turns,
) -> Result<Vec<usize>, Memory>
    requires { AreTurns (needs_of needs.now) [] [] turns.old }
    ensures takes { IfOk result (λ order. Takes (is_ready (needs_of needs.now)) [] (all_of (needs_of needs.now))
        order.items (left_of order.items (length (needs_of needs.now)))) }
    ensures none { IfOk result (λ order. NoneReady (needs_of needs.now) order.items turns.new) }
{
    let mut order = Vec::new(alloc);
    while let Some(number) = take_first(alloc, needs, turns)? {
        order.push(number)?;
    }
    Ok(order)
}

/// The first number below an end that is not taken.
fn first_left(taken: &BTreeSet<usize>, end: usize) -> Option<usize>
    ensures { (done : List ℕ) → IsTaken taken.now done
        → MatchOption result (left_of done end ≡ []) (IsFirstLeft done end) }
{
    for number in 0..end {
        if !taken.contains(&number) {
            return Some(number);
        }
    }
    None
}

/// The order of things, or the first that has no place.
fn place_all(alloc: Global, needs: &[Vec<usize>]) -> Result<Order, Memory>
    ensures { IfOk result (λ order. Ordered (is_ready (needs_of needs.now)) (all_of (needs_of needs.now)) order) }
{
    let mut turns = first_turns(alloc, needs)?;
    let order = take_in_turn(alloc, needs, &mut turns)?;
    match first_left(&turns.taken, needs.len()) {
        Some(number) => Ok(Order::Circle(number)),
        None => Ok(Order::Whole(order)),
    }
}

/// The order of things, numbered from 0, of which each needs those of its numbers: always the first of those left of which
/// all needs have a place. What needs a number that is none of a thing has no place.
///
/// The time grows with the number of things and of all that they need, times a logarithm.
pub fn order_of(alloc: Global, needs: &[Vec<usize>]) -> Result<Order, Memory>
    ensures order { IfOk result (λ order. Ordered (is_ready (needs_of needs.now)) (all_of (needs_of needs.now)) order) }
    ensures circle { IfOk result (λ order. (n : ℕ) (place : ℕ → ℕ) → order ≡ Circle n
        → HasPlaces (needs_of needs.now) place → ⊥) }
{
    let order = place_all(alloc, needs)?;
    Ok(order)
}
