//! What a wire gives, and whether it fits.

ghost use Rattle.std.specs.Prelude.{◌≡◌, ◌<◌, ℕ, Bool, List, length, map, IfOk};
ghost use Rattle.comp_entity.specs.Entity.{Entries, EntityTree, ShapeTree};
ghost use Rattle.comp_entity.specs.Names.{Change};
ghost use Rattle.comp_fit.specs.Known.{AreNames, IsShownEntity};
ghost use Rattle.comp_table.specs.Plain.{plain_entity, plain_entries};
ghost use Rattle.comp_table.specs.Shown.{AreShown, IsShown};
ghost use Rattle.comp_table.specs.Trees.{IsBelow, Stands, tree_at, trees_of};
ghost use Rattle.compose_fit.specs.Fit.{first_unfit, fits_under, why_unfit};
ghost use Rattle.compose_fit.specs.Seen.{AreSeen, AreSomething, IsGiven, IsGivenFound, plainly};
ghost use Rattle.compose_fit.specs.Wires.{Given, Export, Whole, given_by};
ghost use Rattle.compose_fit.specs.declared.wire.GivenNumber.TheVariants as GivenNumber;

use crate::entries::{entry_in, is_instance};
use crate::misfit::Unfit;
use crate::numbered::ShapeNumbers;
use comp_fit::{entry_at, fits_as_named, names_of};
use comp_table::{TypeNumber, TypeTable};
use compose_left::Wire;
use std::alloc::Global;
use std::collections::BTreeMap;
use warg_values::{Memory, Text};

/// What a wire gives, by number.
#[derive(Clone, Copy)]
pub enum GivenNumber<'a> {
    /// An instance as a whole.
    Whole(usize),
    /// The export of this name.
    Export(&'a Text, usize),
}

/// What a wire gives, where it is there.
pub fn given_by<'a>(
    table: &'a TypeTable,
    seen: &[ShapeNumbers],
    wire: Wire,
) -> Option<GivenNumber<'a>>
    requires { AreSomething table.now seen.now }
    ensures { (c : ℕ → Change) (shapes : List ShapeTree) → AreSeen table.now c 0 seen.now shapes
        → IsGivenFound table.now (c wire.source) result (given_by shapes wire) }
{
    if wire.source >= seen.len() {
        return None;
    }
    let exports = seen[wire.source].exports;
    match wire.export {
        None => Some(GivenNumber::Whole(exports)),
        Some(place) => {
            let (name, entity) = entry_in(table, exports, place)?;
            Some(GivenNumber::Export(name, entity))
        }
    }
}

/// Whether an export that is asked for is there under its name, and fits.
fn fits_under(
    table: &TypeTable,
    alloc: Global,
    names: &BTreeMap<Text, usize>,
    name: &Text,
    asked: usize,
) -> Result<bool, Memory>
    requires names { (given : Entries) × AreNames table.now given names.now }
    requires asked { IsShownEntity table.now asked }
    ensures { IfOk result (λ fits. (given : Entries) (e : EntityTree) → AreNames table.now given names.now
        → Stands table.now asked (plain_entity e) → IsShown e → fits ≡ fits_under plainly 0 given 0 name.now e) }
{
    match names.get(name) {
        Some(given) => {
            let fits = fits_as_named(table, alloc, TypeNumber(*given), TypeNumber(asked))?;
            Ok(fits)
        }
        None => Ok(false),
    }
}

/// The first export that is asked for and is not there, or does not fit.
fn first_unfit(
    table: &TypeTable,
    alloc: Global,
    names: &BTreeMap<Text, usize>,
    parts: &[usize],
) -> Result<Option<Text>, Memory>
    requires below { IsBelow (length table.now) parts.now }
    requires names { (given : Entries) × AreNames table.now given names.now }
    requires asked { (asked : Entries)
        × (trees_of (map (tree_at table.now) parts.now) ≡ plain_entries asked) × AreShown asked }
    ensures { IfOk result (λ found. (given asked : Entries) → AreNames table.now given names.now
        → trees_of (map (tree_at table.now) parts.now) ≡ plain_entries asked → AreShown asked
        → found ≡ first_unfit plainly 0 given 0 asked) }
{
    for part in parts {
        let (name, asked) = entry_at(table, *part);
        let fits = fits_under(table, alloc, names, name, asked)?;
        if !fits {
            return Ok(Some(name.try_clone(alloc)?));
        }
    }
    Ok(None)
}

/// Why an instance does not fit what is asked for, where it does not.
fn whole_unfit(
    table: &TypeTable,
    alloc: Global,
    given: usize,
    asked: usize,
) -> Result<Option<Unfit>, Memory>
    requires given { (es : Entries) × IsGiven table.now (GivenNumber.Whole given) (Whole es) }
    requires asked { IsShownEntity table.now asked }
    ensures { IfOk result (λ why. (es : Entries) (e : EntityTree)
        → IsGiven table.now (GivenNumber.Whole given) (Whole es) → Stands table.now asked (plain_entity e) → IsShown e
        → why ≡ why_unfit plainly 0 (Whole es) 0 e) }
{
    if !is_instance(table, asked) {
        return Ok(Some(Unfit::NotInstance));
    }
    let names = names_of(table, alloc, table.parts(given))?;
    let unfit = first_unfit(table, alloc, &names, table.parts(asked))?;
    match unfit {
        Some(name) => Ok(Some(Unfit::Export(name))),
        None => Ok(None),
    }
}

/// Why an export does not fit what is asked for, where it does not.
fn export_unfit(
    table: &TypeTable,
    alloc: Global,
    name: &Text,
    given: usize,
    asked: usize,
) -> Result<Option<Unfit>, Memory>
    requires given { (e : EntityTree) × Stands table.now given (plain_entity e) }
    requires asked { IsShownEntity table.now asked }
    ensures { IfOk result (λ why. (x e : EntityTree) → Stands table.now given (plain_entity x)
        → Stands table.now asked (plain_entity e) → IsShown e → why ≡ why_unfit plainly 0 (Export name.now x) 0 e) }
{
    let fits = fits_as_named(table, alloc, TypeNumber(given), TypeNumber(asked))?;
    if fits {
        Ok(None)
    } else {
        Ok(Some(Unfit::Export(name.try_clone(alloc)?)))
    }
}

/// Why what is given does not fit what is asked for, where it does not.
pub fn why_unfit(
    table: &TypeTable,
    alloc: Global,
    given: GivenNumber<'_>,
    asked: usize,
) -> Result<Option<Unfit>, Memory>
    requires given { (g : Given) × IsGiven table.now given g }
    requires asked { IsShownEntity table.now asked }
    ensures { IfOk result (λ why. (g : Given) (e : EntityTree) → IsGiven table.now given.entry g
        → Stands table.now asked (plain_entity e) → IsShown e → why ≡ why_unfit plainly 0 g 0 e) }
{
    match given {
        GivenNumber::Whole(number) => {
            let why = whole_unfit(table, alloc, number, asked)?;
            Ok(why)
        }
        GivenNumber::Export(name, number) => {
            let why = export_unfit(table, alloc, name, number, asked)?;
            Ok(why)
        }
    }
}
