//! Wires, by the instances that they join.

ghost use Rattle.std.specs.Prelude.{◌≡◌, ◌++◌, ◌∷◌, [], ◌==◌, ℕ, List, filter, if◌then◌else◌, IfOk, is_some, true, false};
ghost use Rattle.std.specs.BTreeMap.{get};
ghost use Rattle.std.specs.Ordering.{nat_cmp};
ghost use Rattle.compose_check.specs.Composition.{goes_to};
ghost use Rattle.compose_encode.specs.Held.{AreSources, Wires, wires_at};
ghost use Rattle.compose_image.specs.Instances.{by_source};

use compose_left::Wire;
use std::alloc::Global;
use std::collections::BTreeMap;
use warg_values::Memory;

/// Wires into one instance, by the instances that they come from.
#[derive(Drop)]
pub struct Sources {
    /// These instances, in the order in which they stand first.
    pub firsts: Vec<usize>,
    /// The wires from each of them, in order.
    pub wires: BTreeMap<usize, Vec<Wire>>,
}

/// Takes out the wires that stand under a number.
fn take_wires(alloc: Global, groups: &mut BTreeMap<usize, Vec<Wire>>, number: usize) -> Vec<Wire>
    ensures taken { result.items ≡ wires_at groups.old number }
    ensures others { (n : ℕ) → wires_at groups.new n ≡ (if number == n then [] else wires_at groups.old n) }
    ensures keys { (n : ℕ) → is_some (get nat_cmp groups.new n)
        ≡ (if number == n then false else is_some (get nat_cmp groups.old n)) }
{
    match groups.remove(&number) {
        Some(wires) => wires,
        None => Vec::new(alloc),
    }
}

/// Adds a wire under a number.
fn add_wire(
    alloc: Global,
    groups: &mut BTreeMap<usize, Vec<Wire>>,
    number: usize,
    wire: Wire,
) -> Result<(), Memory>
    ensures wires { IfOk result (λ done. (n : ℕ) → wires_at groups.new n
        ≡ (if number == n then wires_at groups.old n ++ wire ∷ [] else wires_at groups.old n)) }
    ensures keys { IfOk result (λ done. (n : ℕ) → is_some (get nat_cmp groups.new n)
        ≡ (if number == n then true else is_some (get nat_cmp groups.old n))) }
{
    let mut wires = take_wires(alloc, groups, number);
    wires.push(wire)?;
    groups.insert(number, wires)?;
    Ok(())
}

/// The wires into each instance.
pub fn wires_by_target(alloc: Global, wires: &[Wire]) -> Result<BTreeMap<usize, Vec<Wire>>, Memory>
    ensures { IfOk result (λ groups. (i : ℕ) → wires_at groups i ≡ filter (goes_to i) wires.now) }
{
    let mut groups = BTreeMap::new(alloc);
    for wire in wires {
        add_wire(alloc, &mut groups, wire.target, *wire)?;
    }
    Ok(groups)
}

/// Notes the instance that a wire comes from, where it is not noted.
fn note_source(sources: &mut Sources, source: usize) -> Result<(), Memory>
    ensures firsts { IfOk result (λ done. sources.new.firsts.items
        ≡ sources.old.firsts.items ++ (if is_some (get nat_cmp sources.old.wires source) then [] else source ∷ [])) }
    ensures wires { sources.new.wires ≡ sources.old.wires }
{
    if sources.wires.contains_key(&source) {
        return Ok(());
    }
    sources.firsts.push(source)?;
    Ok(())
}

/// Adds a wire.
fn add_source(alloc: Global, sources: &mut Sources, wire: Wire) -> Result<(), Memory>
    ensures { (ws : Wires) → AreSources sources.old ws
        → IfOk result (λ done. AreSources sources.new (ws ++ wire ∷ [])) }
{
    note_source(sources, wire.source)?;
    add_wire(alloc, &mut sources.wires, wire.source, wire)?;
    Ok(())
}

/// The instances that wires come from, with the wires from each.
fn sources_of(alloc: Global, wires: &[Wire]) -> Result<Sources, Memory>
    ensures { IfOk result (λ sources. AreSources sources wires.now) }
{
    let mut sources = Sources {
        firsts: Vec::new(alloc),
        wires: BTreeMap::new(alloc),
    };
    for wire in wires {
        add_source(alloc, &mut sources, *wire)?;
    }
    Ok(sources)
}

/// The wires that stand under a number.
fn group_of(groups: &BTreeMap<usize, Vec<Wire>>, number: usize) -> &[Wire]
    ensures { result.now ≡ wires_at groups.now number }
{
    match groups.get(&number) {
        Some(wires) => wires,
        None => &[],
    }
}

/// Wires by the instances that they come from, in the order in which these stand first.
fn by_source(alloc: Global, wires: &[Wire]) -> Result<Vec<Wire>, Memory>
    ensures { IfOk result (λ ordered. ordered.items ≡ by_source wires.now) }
{
    let sources = sources_of(alloc, wires)?;
    let mut ordered = Vec::with_capacity(alloc, wires.len())?;
    for source in &sources.firsts {
        ordered.extend_from_slice(group_of(&sources.wires, *source))?;
    }
    Ok(ordered)
}

/// The wires into an instance, by the instances that they come from, in the order in which it is given these first.
pub fn wires_into(
    alloc: Global,
    groups: &BTreeMap<usize, Vec<Wire>>,
    instance: usize,
) -> Result<Vec<Wire>, Memory>
    ensures { IfOk result (λ ordered. ordered.items ≡ by_source (wires_at groups.now instance)) }
{
    by_source(alloc, group_of(groups, instance))
}
