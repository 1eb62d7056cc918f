//! What heads mention.

ghost use Rattle.std.specs.Prelude.{◌≡◌, ◌==◌, ◌+◌, ◌<◌, IfOk, option_to_list};
ghost use Rattle.comp_entity.specs.Names.{numbers_at};
ghost use Rattle.comp_mention.specs.Mentions.{head_mentions, is_func_type, picked_in};
ghost use Rattle.comp_table.specs.Changes.{scopes_in};

use crate::what::What;
use comp_entity::{ResourceNo, TypeNo};
use comp_table::Head;
use warg_values::Memory;

/// How many levels more may lie within what lies where so many may.
pub fn inner(levels: usize) -> Result<usize, Memory>
    ensures { IfOk result (λ n. n < levels) }
{
    match levels.checked_sub(1) {
        Some(levels) => Ok(levels),
        None => Err(Memory),
    }
}

/// A depth that is so much larger.
fn deeper(depth: usize, scopes: usize) -> Result<usize, Memory>
    ensures { IfOk result (λ d. d ≡ depth + scopes) }
{
    match depth.checked_add(scopes) {
        Some(depth) => Ok(depth),
        None => Err(Memory),
    }
}

/// How deep the parts of a head stand that stands so deep.
pub fn depth_within(head: &Head, depth: usize) -> Result<usize, Memory>
    ensures { IfOk result (λ d. d ≡ scopes_in head.now depth) }
{
    match head {
        Head::InstanceType => deeper(depth, 1),
        Head::ComponentType => deeper(depth, 2),
        Head::Component => deeper(depth, 2),
        _ => Ok(depth),
    }
}

/// Whether a head is that of a type of functions.
pub fn is_func_type(head: &Head) -> bool
    ensures { result ≡ is_func_type head.now }
{
    matches!(head, Head::FuncType)
}

/// Whether a name that is mentioned so many scopes deep is of the scope so far out.
fn is_of(out: usize, depth: usize, name_out: usize) -> bool
    ensures { result ≡ (name_out == out + depth) }
{
    match name_out.checked_sub(depth) {
        Some(rest) => rest == out,
        None => false,
    }
}

/// The number of a resource that is mentioned so many scopes deep, where it is of the scope so far out.
fn resource_of(out: usize, depth: usize, name: ResourceNo) -> Option<usize>
    ensures { option_to_list result ≡ numbers_at out depth name }
{
    if is_of(out, depth, name.out()) {
        Some(name.number())
    } else {
        None
    }
}

/// The number of a place that named a type which is mentioned so many scopes deep, where it is of the scope so far out.
fn place_of(out: usize, depth: usize, name: TypeNo) -> Option<usize>
    ensures { option_to_list result ≡ numbers_at out depth name }
{
    if is_of(out, depth, name.out()) {
        Some(name.number())
    } else {
        None
    }
}

/// The number of what a head mentions that stands so many scopes deep, where it is one of those that are looked for.
pub fn mentioned_by(head: &Head, what: What, out: usize, depth: usize) -> Option<usize>
    ensures { option_to_list result ≡ picked_in what out (head_mentions depth head.now) }
{
    match (what, head) {
        (What::Resources, Head::Own(name)) => resource_of(out, depth, *name),
        (What::Resources, Head::Borrow(name)) => resource_of(out, depth, *name),
        (What::Resources, Head::Resource(name)) => resource_of(out, depth, *name),
        (What::Places, Head::RecordOf(Some(place))) => place_of(out, depth, *place),
        (What::Places, Head::VariantOf(Some(place))) => place_of(out, depth, *place),
        (What::Places, Head::FlagsOf(Some(place))) => place_of(out, depth, *place),
        (What::Places, Head::EnumOf(Some(place))) => place_of(out, depth, *place),
        _ => None,
    }
}
