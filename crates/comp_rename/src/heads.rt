//! Heads in other names.

ghost use Rattle.std.specs.Prelude.{◌≡◌, ◌+◌, ◌<◌, IfOk};
ghost use Rattle.comp_entity.specs.Names.{changing};
ghost use Rattle.comp_table.specs.Changes.{head_by, scopes_in};

use crate::names::{Renaming, renamed_place, renamed_resource};
use comp_table::Head;
use std::alloc::Global;
use warg_values::Memory;

/// How many levels more may lie within what lies where so many may.
pub fn inner(levels: usize) -> Result<usize, Memory>
    ensures { IfOk result (λ n. n < levels) }
{
    match levels.checked_sub(1) {
        Some(levels) => Ok(levels),
        None => Err(Memory),
    }
}

/// A depth that is so much larger.
fn deeper(depth: usize, scopes: usize) -> Result<usize, Memory>
    ensures { IfOk result (λ d. d ≡ depth + scopes) }
{
    match depth.checked_add(scopes) {
        Some(depth) => Ok(depth),
        None => Err(Memory),
    }
}

/// How deep the parts of a head stand that stands so deep.
pub fn depth_within(head: &Head, depth: usize) -> Result<usize, Memory>
    ensures { IfOk result (λ d. d ≡ scopes_in head.now depth) }
{
    match head {
        Head::InstanceType => deeper(depth, 1),
        Head::ComponentType => deeper(depth, 2),
        Head::Component => deeper(depth, 2),
        _ => Ok(depth),
    }
}

/// A head that stands so many scopes deep, in other names.
pub fn renamed_head<R: Renaming>(
    alloc: Global,
    renaming: &R,
    depth: usize,
    head: &Head,
) -> Result<Head, Memory>
    ensures { IfOk result
        (λ h. h ≡ head_by (changing (R.resources renaming.now) (R.places renaming.now)) depth head.now) }
{
    match head {
        Head::RecordOf(place) => Ok(Head::RecordOf(renamed_place(renaming, depth, *place)?)),
        Head::VariantOf(place) => Ok(Head::VariantOf(renamed_place(renaming, depth, *place)?)),
        Head::FlagsOf(place) => Ok(Head::FlagsOf(renamed_place(renaming, depth, *place)?)),
        Head::EnumOf(place) => Ok(Head::EnumOf(renamed_place(renaming, depth, *place)?)),
        Head::Own(name) => Ok(Head::Own(renamed_resource(renaming, depth, *name)?)),
        Head::Borrow(name) => Ok(Head::Borrow(renamed_resource(renaming, depth, *name)?)),
        Head::Resource(name) => Ok(Head::Resource(renamed_resource(renaming, depth, *name)?)),
        other => other.try_clone(alloc),
    }
}
