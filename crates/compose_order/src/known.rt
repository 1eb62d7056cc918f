//! Left imports, found by maps.

ghost use Rattle.std.specs.Prelude.{◌≡◌, ◌++◌, ◌∷◌, [], map, length, IfOk};
ghost use Rattle.compose_order.specs.Known.{AreKnown, FindsImports, Imports, IsKnown, left_tree};

use crate::calls::{Calls, calls_of};
use crate::left::LeftImport;
use compose_needs::{Leaf, leaves_at};
use std::alloc::Global;
use std::collections::BTreeMap;
use warg_values::{Memory, Text};

/// A left import, with what is found of it.
#[derive(Drop)]
pub struct Known<'a> {
    /// The import.
    pub import: &'a LeftImport,
    /// What those that need it name there.
    pub calls: Calls,
    /// What stands in it.
    pub leaves: Vec<Leaf>,
}

/// Left imports, with what is found of them.
#[derive(Drop)]
pub struct AllKnown<'a> {
    /// The imports, in the order in which they are needed first.
    pub list: Vec<Known<'a>>,
    /// The number of the first import of each name.
    pub places: BTreeMap<Text, usize>,
}

/// A left import, with what is found of it.
fn known_import<'a>(alloc: Global, import: &'a LeftImport) -> Result<Known<'a>, Memory>
    ensures known { IfOk result (λ known. IsKnown known) }
    ensures import { IfOk result (λ known. known.import.now ≡ import.now) }
{
    let calls = calls_of(alloc, &import.calls)?;
    let leaves = leaves_at(alloc, &import.entity)?;
    Ok(Known {
        import,
        calls,
        leaves,
    })
}

/// Notes the number of an import, where none is noted of its name.
fn note_import(
    alloc: Global,
    places: &mut BTreeMap<Text, usize>,
    import: &LeftImport,
    number: usize,
) -> Result<(), Memory>
    ensures { (ls : Imports) → FindsImports places.old ls → number ≡ length ls
        → IfOk result (λ done. FindsImports places.new (ls ++ left_tree import.now ∷ [])) }
{
    match places.get(&import.name) {
        Some(_) => Ok(()),
        None => {
            places.insert(import.name.try_clone(alloc)?, number)?;
            Ok(())
        }
    }
}

/// Left imports, with what is found of them.
pub fn all_known<'a>(alloc: Global, lefts: &'a [LeftImport]) -> Result<AllKnown<'a>, Memory>
    ensures { IfOk result (λ all. AreKnown all (map left_tree lefts.now)) }
{
    let mut list = Vec::new(alloc);
    let mut places = BTreeMap::new(alloc);
    for (number, import) in lefts.iter().enumerate() {
        note_import(alloc, &mut places, import, number)?;
        list.push(known_import(alloc, import)?)?;
    }
    Ok(AllKnown { list, places })
}
