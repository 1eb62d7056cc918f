//! The order in which left imports are written.

ghost use Rattle.std.specs.Prelude.{◌≡◌, ◌<◌, length, map, Err, IfOk};
ghost use Rattle.compose_left.specs.Numbers.{AreOrigins};
ghost use Rattle.compose_left.specs.Wiring.{Wiring};
ghost use Rattle.compose_order.specs.Agreed.{AreOrdered, Bytes, IsCaseClash, HasNoPlace};
ghost use Rattle.compose_order.specs.Agreed.{IsNamedAt, IsNumbered, IsUnbrought, NoClash, in_turn};
ghost use Rattle.compose_order.specs.Known.{AreNumbers, AreThere, HoldsBetween, left_tree, merged_left};
ghost use Rattle.compose_needs.specs.Lefts.{lefts_of};
ghost use Rattle.compose_order.specs.declared.error.OrderError.TheVariants as OrderError;

use crate::clash::first_clash;
use crate::error::OrderError;
use crate::known::all_known;
use crate::left::{LeftImport, left_imports};
use crate::needs::{all_needs, first_unbrought};
use compose_agree::{Order, order_of};
use compose_left::{MergedImport, Origins};
use std::alloc::Global;
use std::collections::BTreeMap;
use warg_values::{Memory, Text};

/// The name of the import of a number.
fn name_at(alloc: Global, lefts: &[LeftImport], number: usize) -> Result<Text, Memory>
    requires { number < length lefts.now }
    ensures { IfOk result (λ name. IsNamedAt (map left_tree lefts.now) number name) }
{
    let name = lefts[number].name.try_clone(alloc)?;
    Ok(name)
}

/// The numbers of imports, in the order in which they are written.
fn numbers_in_order(
    alloc: Global,
    origins: &Origins,
    lefts: &[LeftImport],
) -> Result<Vec<usize>, OrderError>
    ensures order { (w : Wiring) → AreOrigins origins.now w
        → IfOk result (λ order. IsNumbered (lefts_of w) (map left_tree lefts.now) order.items) }
    ensures unbrought { (w : Wiring) → AreOrigins origins.now w → (n : Bytes)
        → result ≡ Err (OrderError.NeedsUnbrought n)
        → IsUnbrought (lefts_of w) (map left_tree lefts.now) n }
    ensures circle { (w : Wiring) → AreOrigins origins.now w → (n : Bytes) → result ≡ Err (OrderError.Circle n)
        → HasNoPlace (lefts_of w) (map left_tree lefts.now) n }
    ensures case { (a b : Bytes) → result ≡ Err (OrderError.CaseClash a b) → ⊥ }
    ensures numbers { IfOk result (λ order. AreNumbers (length lefts.now) order.items) }
{
    let all = all_known(alloc, lefts)?;
    match first_unbrought(alloc, origins, &all)? {
        Some(number) => {
            let name = name_at(alloc, lefts, number)?;
            Err(OrderError::NeedsUnbrought(name))
        }
        None => {
            let needs = all_needs(alloc, origins, &all)?;
            match order_of(alloc, &needs)? {
                Order::Whole(order) => Ok(order),
                Order::Circle(number) => {
                    let name = name_at(alloc, lefts, number)?;
                    Err(OrderError::Circle(name))
                }
            }
        }
    }
}

/// Imports by their numbers.
fn by_number(alloc: Global, lefts: Vec<LeftImport>) -> Result<BTreeMap<usize, LeftImport>, Memory>
    ensures there { IfOk result (λ slots. AreThere slots (map left_tree lefts.items)) }
    ensures all { IfOk result (λ slots. HoldsBetween slots 0 (length lefts.items)) }
{
    let mut left = lefts;
    let mut slots = BTreeMap::new(alloc);
    while let Some(import) = left.pop() {
        slots.insert(left.len(), import)?;
    }
    Ok(slots)
}

/// The imports of some numbers, in this order.
fn in_turn(
    alloc: Global,
    lefts: Vec<LeftImport>,
    order: &[usize],
) -> Result<Vec<LeftImport>, Memory>
    requires { AreNumbers (length lefts.items) order.now }
    ensures { IfOk result (λ out. map left_tree out.items ≡ in_turn (map left_tree lefts.items) order.now) }
{
    let mut slots = by_number(alloc, lefts)?;
    let mut out = Vec::new(alloc);
    for number in order {
        let Some(import) = slots.remove(number) else {
            // No number stands twice in an order, so each import is still there.
            unreachable!()
        };
        out.push(import)?;
    }
    Ok(out)
}

/// Left imports in the order in which they are written: of those of which all that they need is written, always the one
/// that is needed first.
///
/// The list has one merged import for each name of a left import, in the order in which they are needed first, with the
/// numbers of these origins in place. Of what refuses it the first is the error: `CaseClash` where two names of
/// imports, or of the exports of one, differ in letter case alone; `NeedsUnbrought` where an import mentions a resource
/// or a named type that it brings or exports only later or that no left import has, or where a component within it hides
/// what it mentions; `Circle` where an import has no place, since what it needs comes in a circle or is not in the list.
pub fn ordered(
    alloc: Global,
    origins: &Origins,
    list: Vec<MergedImport>,
) -> Result<Vec<LeftImport>, OrderError>
    ensures apart { IfOk result (λ out. NoClash (map merged_left list.items)) }
    ensures ordered { (w : Wiring) → AreOrigins origins.now w
        → IfOk result (λ out. AreOrdered (lefts_of w) (map merged_left list.items) (map left_tree out.items)) }
    ensures clash { (a b : Bytes) → result ≡ Err (OrderError.CaseClash a b)
        → IsCaseClash (map merged_left list.items) a b }
    ensures unbrought { (w : Wiring) → AreOrigins origins.now w → (n : Bytes)
        → result ≡ Err (OrderError.NeedsUnbrought n)
        → NoClash (map merged_left list.items) × IsUnbrought (lefts_of w) (map merged_left list.items) n }
    ensures circle { (w : Wiring) → AreOrigins origins.now w → (n : Bytes) → result ≡ Err (OrderError.Circle n)
        → NoClash (map merged_left list.items) × HasNoPlace (lefts_of w) (map merged_left list.items) n }
{
    let lefts = left_imports(alloc, list)?;
    match first_clash(alloc, &lefts)? {
        Some((earlier, later)) => Err(OrderError::CaseClash(earlier, later)),
        None => match numbers_in_order(alloc, origins, &lefts) {
            Ok(order) => {
                let out = in_turn(alloc, lefts, &order)?;
                Ok(out)
            }
            Err(error) => Err(error),
        },
    }
}
