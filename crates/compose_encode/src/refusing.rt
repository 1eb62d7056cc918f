//! Components that can't be imported.

ghost use Rattle.std.specs.Prelude.{◌≡◌, map, IfOk};
ghost use Rattle.compose_check.specs.Composition.{composition_tree};
ghost use Rattle.compose_encode.specs.Refusing.{HoldsNames, Lefts, clash_at, first_of, hidden_at};
ghost use Rattle.compose_order.specs.Known.{left_tree};

use compose_check::Composition;
use compose_needs::component_needs;
use compose_order::LeftImport;
use std::alloc::Global;
use std::collections::BTreeSet;
use warg_values::{Memory, Text};

/// The first import or export of the component of a number that mentions what can't be had.
fn hidden_at(
    alloc: Global,
    composition: &Composition<'_>,
    number: usize,
) -> Result<Option<Text>, Memory>
    ensures { IfOk result (λ found. found ≡ hidden_at (composition_tree composition.now) number) }
{
    if number >= composition.components.len() {
        return Ok(None);
    }
    let component = composition.components[number];
    let found = component_needs(alloc, component.types())?;
    Ok(found)
}

/// The same of the first of some components of which there is one.
pub fn first_hidden(
    alloc: Global,
    composition: &Composition<'_>,
    numbers: &[usize],
) -> Result<Option<Text>, Memory>
    ensures { IfOk result (λ found. found ≡ first_of (hidden_at (composition_tree composition.now)) numbers.now) }
{
    for number in numbers {
        match hidden_at(alloc, composition, *number)? {
            Some(name) => return Ok(Some(name)),
            None => {}
        }
    }
    Ok(None)
}

/// The names of left imports.
fn names_of(alloc: Global, lefts: &[LeftImport]) -> Result<BTreeSet<Text>, Memory>
    ensures { IfOk result (λ names. HoldsNames names (map left_tree lefts.now)) }
{
    let mut names = BTreeSet::new(alloc);
    for left in lefts {
        names.insert(left.name.try_clone(alloc)?)?;
    }
    Ok(names)
}

/// The name of the component of a number, where it is one of some names.
fn clash_at(
    alloc: Global,
    composition: &Composition<'_>,
    names: &BTreeSet<Text>,
    number: usize,
) -> Result<Option<Text>, Memory>
    ensures { (ls : Lefts) → HoldsNames names.now ls
        → IfOk result (λ found. found ≡ clash_at (composition_tree composition.now) ls number) }
{
    if number >= composition.components.len() {
        return Ok(None);
    }
    let component = composition.components[number];
    let name = Text::copy_of(alloc, component.name())?;
    if names.contains(&name) {
        Ok(Some(name))
    } else {
        Ok(None)
    }
}

/// The first name of some components that a left import has.
pub fn first_clash(
    alloc: Global,
    composition: &Composition<'_>,
    lefts: &[LeftImport],
    numbers: &[usize],
) -> Result<Option<Text>, Memory>
    ensures { IfOk result (λ found. found
        ≡ first_of (clash_at (composition_tree composition.now) (map left_tree lefts.now)) numbers.now) }
{
    let names = names_of(alloc, lefts)?;
    for number in numbers {
        match clash_at(alloc, composition, &names, *number)? {
            Some(name) => return Ok(Some(name)),
            None => {}
        }
    }
    Ok(None)
}
