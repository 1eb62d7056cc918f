//! What those that need an import name there, found by maps.

ghost use Rattle.std.specs.Prelude.{◌≡◌, ◌++◌, ◌∷◌, [], if◌then◌else◌, IfOk};
ghost use Rattle.std.specs.Ordering.{is_eq};
ghost use Rattle.compose_order.specs.Known.{AreCalls, NamePath, Spots, path_cmp, things_at};
ghost use Rattle.compose_order.specs.Needs.{called_at};

use compose_left::{Path, Spot, Thing};
use std::alloc::Global;
use std::collections::{BTreeMap, BTreeSet};
use warg_values::{Memory, Sequence};

/// What those that need an import name there.
#[derive(Drop)]
pub struct Calls {
    /// All of it.
    pub all: BTreeSet<Thing>,
    /// What is named at each path.
    pub paths: BTreeMap<Path, Vec<Thing>>,
}

/// Takes out what is named at a path.
fn take_things(alloc: Global, paths: &mut BTreeMap<Path, Vec<Thing>>, path: &Path) -> Vec<Thing>
    ensures taken { result.items ≡ things_at paths.old path.now }
    ensures others { (p : NamePath) → things_at paths.new p
        ≡ (if is_eq (path_cmp path.now p) then [] else things_at paths.old p) }
{
    match paths.remove(path) {
        Some(things) => things,
        None => Vec::new(alloc),
    }
}

/// Adds one thing that is named at a path.
fn add_thing(
    alloc: Global,
    paths: &mut BTreeMap<Path, Vec<Thing>>,
    path: &Path,
    thing: Thing,
) -> Result<(), Memory>
    ensures { IfOk result (λ done. (p : NamePath) → things_at paths.new p
        ≡ (if is_eq (path_cmp path.now p) then things_at paths.old p ++ thing ∷ [] else things_at paths.old p)) }
{
    let mut things = take_things(alloc, paths, path);
    things.push(thing)?;
    paths.insert(path.try_clone(alloc)?, things)?;
    Ok(())
}

/// Adds what one spot names.
fn add_call(alloc: Global, calls: &mut Calls, spot: &Spot) -> Result<(), Memory>
    ensures { (xs : Spots) → AreCalls calls.old xs → IfOk result (λ done. AreCalls calls.new (xs ++ spot.now ∷ [])) }
{
    calls.all.insert(spot.what)?;
    add_thing(alloc, &mut calls.paths, &spot.path, spot.what)?;
    Ok(())
}

/// What some spots name, found by maps.
pub fn calls_of(alloc: Global, spots: &[Spot]) -> Result<Calls, Memory>
    ensures { IfOk result (λ calls. AreCalls calls spots.now) }
{
    let mut calls = Calls {
        all: BTreeSet::new(alloc),
        paths: BTreeMap::new(alloc),
    };
    for spot in spots {
        add_call(alloc, &mut calls, spot)?;
    }
    Ok(calls)
}

/// What is named at a path.
pub fn called_at(alloc: Global, calls: &Calls, path: &Path) -> Result<Sequence<Thing>, Memory>
    ensures { (xs : Spots) → AreCalls calls.now xs → IfOk result (λ things. things ≡ called_at xs path.now) }
{
    match calls.paths.get(path) {
        Some(things) => {
            let copies = Vec::from_slice(alloc, things)?;
            Ok(Sequence::from_vec(copies))
        }
        None => Ok(Sequence::new(alloc)),
    }
}
