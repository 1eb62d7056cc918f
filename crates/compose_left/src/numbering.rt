//! Numbers for origins.

ghost use Rattle.std.specs.Prelude.{◌≡◌, ◌+◌, ◌*◌, suc, IfOk, false, if◌then◌else◌, Some, length};
ghost use Rattle.std.specs.BTreeMap.{get};
ghost use Rattle.std.specs.List.{list_any};
ghost use Rattle.compose_left.specs.Origins.{is_made, number_in, place_in, with_origin};
ghost use Rattle.compose_left.specs.Numbers.{FindsOrigins, IsFollowed, held_cmp, origin_key, same_held};
ghost use Rattle.compose_left.specs.Wired.{IsWired, wiring_of};
ghost use Rattle.compose_left.specs.Wiring.{HasNoCircle};
ghost use Rattle.compose_left.specs.declared.origin.Held.{Held};

use crate::origin::{Held, Origin, Step};
use crate::path::Path;
use crate::wiring::{Wired, step};
use std::alloc::Global;
use std::collections::BTreeMap;
use warg_values::Memory;

/// What an origin that no instance makes is found by.
#[derive(Debug, Drop, PartialEq, Eq, PartialOrd, Ord)]
pub struct OriginKey {
    /// Whether an instance exports it, and no left import.
    pub is_given: bool,
    /// The instance that exports it, or 0.
    pub instance: usize,
    /// The path, with the name of a left import in front.
    pub path: Path,
}

/// What following the wires from a thing came to.
#[derive(Debug, Drop)]
pub enum Reached {
    /// A thing of this origin, whose number is not known.
    Ends(Origin),
    /// A thing whose origin has this number.
    Known(usize),
}

/// Where the wires from a thing lead.
#[derive(Debug, Drop)]
pub struct Followed {
    /// What was come to.
    pub reached: Reached,
    /// The things on the way whose numbers are not known.
    pub trail: Vec<Held>,
}

/// What an origin that no instance makes is found by.
fn key_of(alloc: Global, origin: &Origin) -> Result<OriginKey, Memory>
    ensures { IfOk result (λ key. key ≡ origin_key origin.now) }
{
    match origin {
        Origin::Left { import, path } => Ok(OriginKey {
            is_given: false,
            instance: 0,
            path: path.within(alloc, import)?,
        }),
        Origin::Given { instance, path } => Ok(OriginKey {
            is_given: true,
            instance: *instance,
            path: path.try_clone(alloc)?,
        }),
        Origin::Made {
            instance: _,
            number: _,
        } => Ok(OriginKey {
            is_given: false,
            instance: 0,
            path: Path::new(alloc),
        }),
    }
}

/// The number that is this one in turn, where as many and one more count in turns.
pub fn in_turn(place: usize, turn: usize, instances: usize) -> Result<usize, Memory>
    ensures { IfOk result (λ number. number ≡ place * suc instances + turn) }
{
    let turns = instances.checked_add(1).ok_or(Memory)?;
    let first = place.checked_mul(turns).ok_or(Memory)?;
    let number = first.checked_add(turn).ok_or(Memory)?;
    Ok(number)
}

/// The place of an origin in the table. It is added where it is not there.
fn place_of(
    alloc: Global,
    table: &mut Vec<Origin>,
    places: &mut BTreeMap<OriginKey, usize>,
    origin: Origin,
) -> Result<usize, Memory>
    requires table { FindsOrigins places.old table.old.items }
    requires origin { is_made origin ≡ false }
    ensures table { IfOk result (λ place. FindsOrigins places.new table.new.items) }
    ensures added { IfOk result (λ place. table.new.items ≡ with_origin table.old.items origin) }
    ensures place { IfOk result (λ place. place ≡ place_in table.new.items origin) }
{
    let key = key_of(alloc, &origin)?;
    match places.get(&key) {
        Some(place) => Ok(*place),
        None => {
            let place = table.len();
            table.push(origin)?;
            places.insert(key, place)?;
            Ok(place)
        }
    }
}

/// The number of an origin, which is added to the table where it is not there.
pub fn number_of(
    alloc: Global,
    instances: usize,
    table: &mut Vec<Origin>,
    places: &mut BTreeMap<OriginKey, usize>,
    origin: Origin,
) -> Result<usize, Memory>
    requires { FindsOrigins places.old table.old.items }
    ensures table { IfOk result (λ number. FindsOrigins places.new table.new.items) }
    ensures added { IfOk result (λ number. table.new.items ≡ with_origin table.old.items origin) }
    ensures number { IfOk result (λ number. number ≡ number_in instances table.new.items origin) }
{
    if let Origin::Made { instance, number } = &origin {
        return in_turn(*number, *instance, instances);
    }
    let place = place_of(alloc, table, places, origin)?;
    in_turn(place, instances, instances)
}

/// Notes the number of some things.
pub fn note_all(
    numbers: &mut BTreeMap<Held, usize>,
    things: &[Held],
    number: usize,
) -> Result<(), Memory>
    ensures { IfOk result (λ done. (h : Held) → get held_cmp numbers.new h
        ≡ (if list_any (λ t. same_held t h) things.now then Some number else get held_cmp numbers.old h)) }
{
    for held in things {
        numbers.insert(*held, number)?;
    }
    Ok(())
}

/// Follows the wires from a thing to one whose number is known, or to where it comes from.
pub fn follow(
    alloc: Global,
    wired: &Wired<'_>,
    numbers: &BTreeMap<Held, usize>,
    from: Held,
) -> Result<Followed, Memory>
    requires wired { IsWired wired.now }
    requires order { HasNoCircle (wiring_of wired.now) }
    ensures { IfOk result (λ f. IsFollowed (wiring_of wired.now) numbers.now from f) }
{
    let mut trail = Vec::new(alloc);
    let mut held = from;
    for _passed in 0..=wired.shapes.len() {
        if let Some(number) = numbers.get(&held) {
            return Ok(Followed {
                reached: Reached::Known(*number),
                trail,
            });
        }
        trail.push(held)?;
        match step(alloc, wired, held)? {
            Step::Ends(origin) => {
                return Ok(Followed {
                    reached: Reached::Ends(origin),
                    trail,
                });
            }
            Step::Goes(next) => held = next,
        }
    }
    unreachable!()
}
