//! What components import and export by number, all resources being taken as one.

ghost use Rattle.std.specs.Prelude.{◌≡◌, ℕ, List, Some, slice_get, IfOk};
ghost use Rattle.comp_entity.specs.Entity.{EntityTree, ShapeTree};
ghost use Rattle.comp_entity.specs.Fits.{fits_loosely};
ghost use Rattle.comp_entity.specs.Views.{entries_of, shape_tree};
ghost use Rattle.comp_table.specs.Shown.{AreShown};
ghost use Rattle.comp_table.specs.Trees.{Extends};
ghost use Rattle.compose_fit.specs.Wires.{Given, given_of};
ghost use Rattle.compose_graph.specs.Graph.{given_entity};
ghost use Rattle.compose_graph.specs.Loose.{IsEntryNumber, IsGivenNumber, IsLoosened, StandsForAll};

use comp_entity::Shape;
use comp_fit::{entry_at, fits_loosely, loosened};
use comp_table::{TypeNumber, TypeTable};
use compose_fit::ShapeNumbers;
use std::alloc::Global;
use warg_values::Memory;

/// The numbers of what a component of this shape imports and exports. They are added to the table.
pub fn loose_numbers(
    table: &mut TypeTable,
    alloc: Global,
    shape: &Shape,
) -> Result<ShapeNumbers, Memory>
    ensures kept { Extends table.old table.new }
    ensures numbers { IfOk result (λ n. IsLoosened table.new n (shape_tree shape.now)) }
{
    let numbers = ShapeNumbers::of(table, alloc, shape)?;
    let imports = loosened(table, alloc, numbers.imports)?;
    let exports = loosened(table, alloc, numbers.exports)?;
    Ok(ShapeNumbers { imports, exports })
}

/// The number of the import or the export of this place, where there is one.
fn entry_number(table: &TypeTable, instance: usize, place: usize) -> Option<usize>
    requires { (es : List (List ℕ × EntityTree)) × StandsForAll table.now instance es }
    ensures { (es : List (List ℕ × EntityTree)) → StandsForAll table.now instance es
        → IsEntryNumber table.now result (slice_get es place) }
{
    let parts = table.parts(instance);
    if place >= parts.len() {
        return None;
    }
    let (_, entity) = entry_at(table, parts[place]);
    Some(entity)
}

/// The number of what is given: of all exports, or of one of them, where it is there.
fn given_number(table: &TypeTable, exports: usize, export: Option<usize>) -> Option<usize>
    requires { (es : List (List ℕ × EntityTree)) × StandsForAll table.now exports es }
    ensures { (s : ShapeTree) → StandsForAll table.now exports s.exports
        → IsGivenNumber table.now result (given_of s export) }
{
    match export {
        None => Some(exports),
        Some(place) => entry_number(table, exports, place),
    }
}

/// Whether what one component exports fits what another one imports, where both are there.
pub fn is_fit(
    table: &TypeTable,
    alloc: Global,
    source: ShapeNumbers,
    export: Option<usize>,
    target: ShapeNumbers,
    import: usize,
) -> Result<bool, Memory>
    requires source { (s : ShapeTree) × IsLoosened table.now source s }
    requires target { (t : ShapeTree) × IsLoosened table.now target t }
    ensures { IfOk result (λ fits. (s t : ShapeTree) (given : Given) (asked : List ℕ × EntityTree)
        → IsLoosened table.now source s → IsLoosened table.now target t
        → given_of s export ≡ Some given → slice_get t.imports import ≡ Some asked
        → fits ≡ fits_loosely (given_entity given) asked.1) }
{
    let Some(given) = given_number(table, source.exports, export) else {
        return Ok(false);
    };
    let Some(asked) = entry_number(table, target.imports, import) else {
        return Ok(false);
    };
    let fits = fits_loosely(table, alloc, TypeNumber(given), TypeNumber(asked))?;
    Ok(fits)
}
