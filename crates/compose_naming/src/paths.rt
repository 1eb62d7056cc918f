//! What those that need an import call in it, found by paths.

ghost use Rattle.std.specs.Prelude.{◌≡◌, ◌++◌, ◌∷◌, [], if◌then◌else◌, IfOk};
ghost use Rattle.std.specs.Ordering.{is_eq};
ghost use Rattle.compose_naming.specs.Names.{FindsCalls};
ghost use Rattle.compose_order.specs.Known.{NamePath, Spots, path_cmp, things_at};

use compose_left::{Path, Spot, Thing};
use std::alloc::Global;
use std::collections::BTreeMap;
use warg_values::Memory;

/// Takes out what is called at a path.
fn take_things(alloc: Global, paths: &mut BTreeMap<Path, Vec<Thing>>, path: &Path) -> Vec<Thing>
    ensures taken { result.items ≡ things_at paths.old path.now }
    ensures others { (p : NamePath) → things_at paths.new p
        ≡ (if is_eq (path_cmp path.now p) then [] else things_at paths.old p) }
{
    match paths.remove(path) {
        Some(things) => things,
        None => Vec::new(alloc),
    }
}

/// Adds what is called at one place.
fn add_call(
    alloc: Global,
    paths: &mut BTreeMap<Path, Vec<Thing>>,
    call: &Spot,
) -> Result<(), Memory>
    ensures { (calls : Spots) → FindsCalls paths.old calls
        → IfOk result (λ done. FindsCalls paths.new (calls ++ call.now ∷ [])) }
{
    let mut things = take_things(alloc, paths, &call.path);
    things.push(call.what)?;
    paths.insert(call.path.try_clone(alloc)?, things)?;
    Ok(())
}

/// What is called at each path, in order.
pub fn calls_by_path(alloc: Global, calls: &[Spot]) -> Result<BTreeMap<Path, Vec<Thing>>, Memory>
    ensures { IfOk result (λ paths. FindsCalls paths calls.now) }
{
    let mut paths = BTreeMap::new(alloc);
    for call in calls {
        add_call(alloc, &mut paths, call)?;
    }
    Ok(paths)
}

/// What is called at a path.
pub fn things_at<'a>(paths: &'a BTreeMap<Path, Vec<Thing>>, path: &Path) -> &'a [Thing]
    ensures { result.now ≡ things_at paths.now path.now }
{
    match paths.get(path) {
        Some(things) => things,
        None => &[],
    }
}
