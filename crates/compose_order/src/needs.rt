//! What left imports need of each other.

ghost use Rattle.std.specs.Prelude.{◌≡◌, ◌<◌, ◌++◌, filter, flat_map};
ghost use Rattle.std.specs.Prelude.{length, option_to_list, IfOk, IfSome, MatchOption};
ghost use Rattle.compose_left.specs.Numbers.{AreOrigins};
ghost use Rattle.compose_left.specs.Wiring.{Wiring};
ghost use Rattle.compose_order.specs.Agreed.{AllBrought, IsFirstUnbrought, all_needs};
ghost use Rattle.compose_order.specs.Agreed.{number_of, numbers_needed, numbers_of};
ghost use Rattle.compose_order.specs.Known.{AreEachKnown, AreKnown, Imports, IsKnown, known_left};
ghost use Rattle.compose_agree.specs.Order.{needs_of};
ghost use Rattle.compose_order.specs.Needs.{is_bound, is_brought, is_of, is_own, left_place, left_places, need_of};
ghost use Rattle.compose_needs.specs.Lefts.{lefts_of};

use crate::calls::called_at;
use crate::known::{AllKnown, Known};
use compose_left::{Origins, Thing};
use compose_needs::{Leaf, Place, are_tied, entity_holds_tied, mentioned};
use std::alloc::Global;
use std::collections::BTreeSet;
use warg_values::{Memory, Sequence, Text};

/// Whether the origin of a number is this left import.
fn is_from(origins: &Origins, name: &Text, number: usize) -> bool
    ensures { (w : Wiring) → AreOrigins origins.now w → result ≡ is_of name.now (lefts_of w number) }
{
    match origins.left_import(number) {
        Some(import) => *name == *import,
        None => false,
    }
}

/// Whether an import brings a resource itself, or exports a named type.
fn is_own(origins: &Origins, known: &Known<'_>, thing: Thing) -> bool
    requires { IsKnown known.now }
    ensures { (w : Wiring) → AreOrigins origins.now w → result ≡ is_own (lefts_of w) (known_left known.now) thing }
{
    known.calls.all.contains(&thing)
        && (thing.is_type || is_from(origins, &known.import.name, thing.number))
}

/// Whether a thing has to be named where an import mentions it, or earlier.
fn is_bound(origins: &Origins, known: &Known<'_>, thing: Thing) -> bool
    requires { IsKnown known.now }
    ensures { (w : Wiring) → AreOrigins origins.now w → result ≡ is_bound (lefts_of w) (known_left known.now) thing }
{
    is_own(origins, known, thing) || origins.left_import(thing.number).is_none()
}

/// Those of some things that have to be named where an import mentions them, or earlier.
fn bound(
    alloc: Global,
    origins: &Origins,
    known: &Known<'_>,
    things: &[Thing],
) -> Result<Sequence<Thing>, Memory>
    requires { IsKnown known.now }
    ensures { (w : Wiring) → AreOrigins origins.now w
        → IfOk result (λ bound. bound ≡ filter (is_bound (lefts_of w) (known_left known.now)) things.now) }
{
    let mut bound = Vec::new(alloc);
    for thing in things {
        if is_bound(origins, known, *thing) {
            bound.push(*thing)?;
        }
    }
    Ok(Sequence::from_vec(bound))
}

/// Those of some things that an import brings or exports itself.
fn own(
    alloc: Global,
    origins: &Origins,
    known: &Known<'_>,
    things: &[Thing],
) -> Result<Sequence<Thing>, Memory>
    requires { IsKnown known.now }
    ensures { (w : Wiring) → AreOrigins origins.now w
        → IfOk result (λ own. own ≡ filter (is_own (lefts_of w) (known_left known.now)) things.now) }
{
    let mut own = Vec::new(alloc);
    for thing in things {
        if is_own(origins, known, *thing) {
            own.push(*thing)?;
        }
    }
    Ok(Sequence::from_vec(own))
}

/// A place of an import.
fn left_place(
    alloc: Global,
    origins: &Origins,
    known: &Known<'_>,
    leaf: &Leaf,
) -> Result<Place, Memory>
    requires { IsKnown known.now }
    ensures { (w : Wiring) → AreOrigins origins.now w
        → IfOk result (λ place. place ≡ left_place (lefts_of w) (known_left known.now) leaf.now) }
{
    let called = called_at(alloc, &known.calls, &leaf.path)?;
    let named = own(alloc, origins, known, called.as_slice())?;
    let asked = bound(alloc, origins, known, leaf.mentioned.as_slice())?;
    Ok(Place { named, asked })
}

/// The places of an import.
fn left_places(alloc: Global, origins: &Origins, known: &Known<'_>) -> Result<Vec<Place>, Memory>
    requires { IsKnown known.now }
    ensures { (w : Wiring) → AreOrigins origins.now w
        → IfOk result (λ places. places.items ≡ left_places (lefts_of w) (known_left known.now)) }
{
    let mut places = Vec::new(alloc);
    for leaf in &known.leaves {
        places.push(left_place(alloc, origins, known, leaf)?)?;
    }
    Ok(places)
}

/// Whether each thing that an import mentions can be had.
fn is_brought(alloc: Global, origins: &Origins, known: &Known<'_>) -> Result<bool, Memory>
    requires { IsKnown known.now }
    ensures { (w : Wiring) → AreOrigins origins.now w
        → IfOk result (λ brought. brought ≡ is_brought (lefts_of w) (known_left known.now)) }
{
    let places = left_places(alloc, origins, known)?;
    let mut seen = BTreeSet::new(alloc);
    if !are_tied(&places, &mut seen)? {
        return Ok(false);
    }
    let holds_tied = entity_holds_tied(alloc, &known.import.entity)?;
    Ok(holds_tied)
}

/// The number of the first import that mentions what can't be had.
pub fn first_unbrought(
    alloc: Global,
    origins: &Origins,
    all: &AllKnown<'_>,
) -> Result<Option<usize>, Memory>
    requires { AreEachKnown all.now }
    ensures there { IfOk result (λ found. IfSome found (λ number. number < length all.now.list.items)) }
    ensures first { (w : Wiring) (ls : Imports) → AreOrigins origins.now w → AreKnown all.now ls
        → IfOk result (λ found. MatchOption found (AllBrought (lefts_of w) ls) (IsFirstUnbrought (lefts_of w) ls)) }
{
    let list = all.list.as_slice();
    for (number, known) in list.iter().enumerate() {
        if !is_brought(alloc, origins, known)? {
            return Ok(Some(number));
        }
    }
    Ok(None)
}

/// The number of the import of a name; where there is none, how many there are.
fn number_of(all: &AllKnown<'_>, name: &Text) -> usize
    ensures { (ls : Imports) → AreKnown all.now ls → result ≡ number_of ls name.now }
{
    match all.places.get(name) {
        Some(number) => *number,
        None => all.list.len(),
    }
}

/// The number of the import of which another one needs a thing, where it needs it of one.
fn need(origins: &Origins, all: &AllKnown<'_>, known: &Known<'_>, thing: Thing) -> Option<usize>
    requires { IsKnown known.now }
    ensures { (w : Wiring) (ls : Imports) → AreOrigins origins.now w → AreKnown all.now ls
        → option_to_list result ≡ numbers_of ls (need_of (lefts_of w) (known_left known.now) thing) }
{
    if is_own(origins, known, thing) {
        return None;
    }
    match origins.left_import(thing.number) {
        Some(name) => {
            if known.import.name == *name {
                None
            } else {
                Some(number_of(all, name))
            }
        }
        None => None,
    }
}

/// Adds a number, where there is one.
fn push_number(numbers: &mut Vec<usize>, number: Option<usize>) -> Result<(), Memory>
    ensures { IfOk result (λ done. numbers.new.items ≡ numbers.old.items ++ option_to_list number) }
{
    if let Some(number) = number {
        numbers.push(number)?;
    }
    Ok(())
}

/// The numbers of the imports of which one needs some things.
fn numbers_for(
    alloc: Global,
    origins: &Origins,
    all: &AllKnown<'_>,
    known: &Known<'_>,
    things: &[Thing],
) -> Result<Vec<usize>, Memory>
    requires { IsKnown known.now }
    ensures { (w : Wiring) (ls : Imports) → AreOrigins origins.now w → AreKnown all.now ls
        → IfOk result (λ numbers. numbers.items
        ≡ numbers_of ls (flat_map (need_of (lefts_of w) (known_left known.now)) things.now)) }
{
    let mut numbers = Vec::new(alloc);
    for thing in things {
        push_number(&mut numbers, need(origins, all, known, *thing))?;
    }
    Ok(numbers)
}

/// The numbers of the imports of which one needs something.
fn numbers_needed(
    alloc: Global,
    origins: &Origins,
    all: &AllKnown<'_>,
    known: &Known<'_>,
) -> Result<Vec<usize>, Memory>
    requires { IsKnown known.now }
    ensures { (w : Wiring) (ls : Imports) → AreOrigins origins.now w → AreKnown all.now ls
        → IfOk result (λ numbers. numbers.items ≡ numbers_needed (lefts_of w) ls (known_left known.now)) }
{
    let things = mentioned(alloc, &known.import.entity)?;
    let numbers = numbers_for(alloc, origins, all, known, things.as_slice())?;
    Ok(numbers)
}

/// What each import needs.
pub fn all_needs(
    alloc: Global,
    origins: &Origins,
    all: &AllKnown<'_>,
) -> Result<Vec<Vec<usize>>, Memory>
    requires { AreEachKnown all.now }
    ensures count { IfOk result (λ needs. length needs.items ≡ length all.now.list.items) }
    ensures needs { (w : Wiring) (ls : Imports) → AreOrigins origins.now w → AreKnown all.now ls
        → IfOk result (λ needs. needs_of needs.items ≡ all_needs (lefts_of w) ls) }
{
    let list = all.list.as_slice();
    let mut needs = Vec::new(alloc);
    for known in list {
        needs.push(numbers_needed(alloc, origins, all, known)?)?;
    }
    Ok(needs)
}
