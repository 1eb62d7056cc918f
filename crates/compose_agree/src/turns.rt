//! What is taken, what is ready, and what waits.

ghost use Rattle.std.specs.Prelude.{◌≡◌, ◌++◌, ◌∷◌, [], ◌==◌, true, if◌then◌else◌, take, map, List, ℕ, IfOk, OnOk, MatchOption};
ghost use Rattle.std.specs.List.{AllByRecursion, list_all};
ghost use Rattle.compose_agree.specs.Order.{has, needs_of};
ghost use Rattle.compose_agree.specs.Turns.{AreTurns, IsFirst, IsOpen, IsOpenAt, IsTaken, NoneReady, thing_of, waiters_of};

use std::alloc::Global;
use std::collections::{BTreeMap, BTreeSet};
use warg_values::Memory;

/// A thing that is not ready.
#[derive(Clone, Copy, Debug, PartialEq, Eq)]
pub struct Waiter {
    /// Its number.
    pub thing: usize,
    /// Where among the numbers of what it needs the first may stand that is not taken.
    pub place: usize,
}

/// What is taken, and what is not.
#[derive(Debug, Drop)]
pub struct Turns {
    /// What is taken.
    pub taken: BTreeSet<usize>,
    /// What is not taken, and needs nothing that is not taken.
    pub ready: BTreeSet<usize>,
    /// What is not ready, by the number of the first thing for which it waits.
    pub waiting: BTreeMap<usize, Vec<Waiter>>,
}

/// A number that is not taken, and where it stands.
#[derive(Clone, Copy, Debug, PartialEq, Eq)]
pub struct Open {
    /// Where it stands.
    pub place: usize,
    /// The number.
    pub number: usize,
}

/// The first of some numbers, from a place on, that is not taken.
fn first_open(taken: &BTreeSet<usize>, numbers: &[usize], from: usize) -> Option<Open>
    ensures { (done : List ℕ) → IsTaken taken.now done → list_all (has done) (take from numbers.now) ≡ true
        → MatchOption result (list_all (has done) numbers.now ≡ true) (IsOpenAt done numbers.now) }
{
    for place in from..numbers.len() {
        let number = numbers[place];
        if !taken.contains(&number) {
            return Some(Open { place, number });
        }
    }
    None
}

/// Takes out what waits for a thing.
fn take_waiters(
    alloc: Global,
    waiting: &mut BTreeMap<usize, Vec<Waiter>>,
    number: usize,
) -> Vec<Waiter>
    ensures taken { result.items ≡ waiters_of waiting.old number }
    ensures others { (n : ℕ) → waiters_of waiting.new n ≡ (if number == n then [] else waiters_of waiting.old n) }
{
    match waiting.remove(&number) {
        Some(waiters) => waiters,
        None => Vec::new(alloc),
    }
}

/// Lets one thing more wait for a thing.
fn add_waiter(
    alloc: Global,
    waiting: &mut BTreeMap<usize, Vec<Waiter>>,
    number: usize,
    waiter: Waiter,
) -> Result<(), Memory>
    ensures { OnOk result ((n : ℕ) → waiters_of waiting.new n
        ≡ (if number == n then waiters_of waiting.old n ++ waiter ∷ [] else waiters_of waiting.old n)) }
{
    let mut waiters = take_waiters(alloc, waiting, number);
    waiters.push(waiter)?;
    waiting.insert(number, waiters)?;
    Ok(())
}

/// Finds whether a thing is ready now, and else for what it waits.
fn settle(
    alloc: Global,
    needs: &[Vec<usize>],
    turns: &mut Turns,
    waiter: Waiter,
) -> Result<(), Memory>
    ensures { OnOk result ((done apart : List ℕ)
        → AreTurns (needs_of needs.now) done (waiter.thing ∷ apart) turns.old
        → IsOpen (needs_of needs.now) done waiter → AreTurns (needs_of needs.now) done apart turns.new) }
{
    let thing = waiter.thing;
    let Some(numbers) = needs.get(thing) else {
        return Ok(());
    };
    match first_open(&turns.taken, numbers, waiter.place) {
        None => {
            turns.ready.insert(thing)?;
            Ok(())
        }
        Some(open) => {
            let place = open.place;
            add_waiter(
                alloc,
                &mut turns.waiting,
                open.number,
                Waiter { thing, place },
            )?;
            Ok(())
        }
    }
}

/// The same for some things.
fn settle_all(
    alloc: Global,
    needs: &[Vec<usize>],
    turns: &mut Turns,
    waiters: &[Waiter],
) -> Result<(), Memory>
    ensures { OnOk result ((done : List ℕ)
        → AreTurns (needs_of needs.now) done (map thing_of waiters.now) turns.old
        → AllByRecursion (IsOpen (needs_of needs.now) done) waiters.now
        → AreTurns (needs_of needs.now) done [] turns.new) }
{
    for waiter in waiters {
        settle(alloc, needs, turns, *waiter)?;
    }
    Ok(())
}

/// Takes the first thing that is ready, where one is.
pub fn take_first(
    alloc: Global,
    needs: &[Vec<usize>],
    turns: &mut Turns,
) -> Result<Option<usize>, Memory>
    ensures { IfOk result (λ taken. (done : List ℕ) → AreTurns (needs_of needs.now) done [] turns.old
        → MatchOption taken (NoneReady (needs_of needs.now) done turns.new)
        (IsFirst (needs_of needs.now) done turns.new)) }
{
    let Some(number) = turns.ready.pop_first() else {
        return Ok(None);
    };
    turns.taken.insert(number)?;
    let waiters = take_waiters(alloc, &mut turns.waiting, number);
    settle_all(alloc, needs, turns, &waiters)?;
    Ok(Some(number))
}

/// Nothing is taken.
pub fn first_turns(alloc: Global, needs: &[Vec<usize>]) -> Result<Turns, Memory>
    ensures { IfOk result (AreTurns (needs_of needs.now) [] []) }
{
    let mut turns = Turns {
        taken: BTreeSet::new(alloc),
        ready: BTreeSet::new(alloc),
        waiting: BTreeMap::new(alloc),
    };
    for thing in 0..needs.len() {
        settle(alloc, needs, &mut turns, Waiter { thing, place: 0 })?;
    }
    Ok(turns)
}
