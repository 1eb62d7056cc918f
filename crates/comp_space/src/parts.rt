//! The parts of types, by the index space of types in which they are named.

ghost use Rattle.std.specs.Prelude.{◌≡◌, ◌<◌, ◌&&◌, IfOk, List, length, true};
ghost use Rattle.warg_values.specs.Answers.{Gives};
ghost use Rattle.comp_entity.specs.Entity.{EntityTree};
ghost use Rattle.comp_scope.specs.Spaces.{Spaces, at_index};
ghost use Rattle.comp_scope.specs.Values.{as_resource, as_value, part_of, payload_of, resource_of};
ghost use Rattle.comp_space.specs.Faults.{Finds, fault_of};
ghost use Rattle.comp_space.specs.Heads.{has_name, is_value_head};
ghost use Rattle.comp_space.specs.Rows.{ShowsRows, all_of, case_of, field_of, plain_case};
ghost use Rattle.comp_space.specs.Standings.{AllShow, AreThere, Shows};
ghost use Rattle.comp_table.specs.Plain.{plain_entity, plain_param, plain_payload, plain_value};
ghost use Rattle.comp_table.specs.Trees.{Extends, IsBelow, Stands};

use crate::error::ScopeError;
use crate::nodes::{leaf, under};
use crate::standing::Standing;
use comp_entity::ResourceNo;
use comp_format::ValType;
use comp_table::{Head, TypeTable};
use std::alloc::Global;
use warg_values::Text;

/// Types by number, in order, and whether all of them have the naming bit.
#[derive(Debug, Drop)]
pub struct Parts {
    /// The numbers, in order.
    pub numbers: Vec<usize>,
    /// Whether all of them have the naming bit.
    pub named: bool,
}

/// Whether a value type has this root.
pub fn is_value(head: &Head) -> bool
    ensures { result ≡ is_value_head head.now }
{
    matches!(
        head,
        Head::Primitive(_)
            | Head::RecordOf(_)
            | Head::VariantOf(_)
            | Head::FlagsOf(_)
            | Head::EnumOf(_)
            | Head::ListOf
            | Head::TupleOf
            | Head::OptionOf
            | Head::ResultOf
            | Head::Own(_)
            | Head::Borrow(_)
    )
}

/// Whether a value type of this root has the naming bit where its parts have it.
fn has_name(head: &Head) -> bool
    ensures { result ≡ has_name head.now }
{
    !matches!(
        head,
        Head::RecordOf(None) | Head::VariantOf(None) | Head::FlagsOf(None) | Head::EnumOf(None)
    )
}

/// Whether both are so.
pub fn both(a: bool, b: bool) -> bool
    ensures { result ≡ a && b }
{
    a && b
}

/// What an index stands for.
pub fn standing_at(standings: &[Standing], index: u32) -> Result<Standing, ScopeError>
    ensures { Gives fault_of (λ s. s) result (at_index standings.now index) }
{
    let index = index as usize;
    if index < standings.len() {
        Ok(standings[index])
    } else {
        Err(ScopeError::Index)
    }
}

/// What an index stands for as a value type, with its naming bit.
fn value_standing(table: &TypeTable, standing: Standing) -> Result<Standing, ScopeError>
    requires { standing.number < length table.now }
    ensures there { IfOk result (λ x. x.number < length table.now) }
    ensures found { (e : EntityTree) → Stands table.now standing.number (plain_entity e)
        → Finds (Shows plain_value table.now) result (as_value (e, standing.named)) }
{
    let head = table.head(standing.number);
    if !is_value(head) {
        return Err(ScopeError::Index);
    }
    Ok(Standing {
        number: standing.number,
        named: both(standing.named, has_name(head)),
    })
}

/// What an index stands for as a resource, with its naming bit.
fn resource_standing(
    table: &TypeTable,
    standing: Standing,
) -> Result<(ResourceNo, bool), ScopeError>
    requires { standing.number < length table.now }
    ensures { (e : EntityTree) → Stands table.now standing.number (plain_entity e)
        → Gives fault_of (λ r. (r.0, r.1)) result (as_resource (e, standing.named)) }
{
    match table.head(standing.number) {
        Head::Resource(resource) => Ok((*resource, standing.named)),
        _ => Err(ScopeError::Index),
    }
}

/// The resource that an index stands for, with its naming bit.
pub fn resource_of(
    table: &TypeTable,
    types: &[Standing],
    index: u32,
) -> Result<(ResourceNo, bool), ScopeError>
    requires { AreThere table.now types.now }
    ensures { (s : Spaces) → AllShow table.now types.now s.types
        → Gives fault_of (λ r. (r.0, r.1)) result (resource_of s index) }
{
    let standing = standing_at(types, index)?;
    resource_standing(table, standing)
}

/// The value type that a part names, with its naming bit.
pub fn part_of(
    table: &mut TypeTable,
    alloc: Global,
    types: &[Standing],
    part: &ValType,
) -> Result<Standing, ScopeError>
    requires { AreThere table.old types.now }
    ensures extends { Extends table.old table.new }
    ensures there { IfOk result (λ x. x.number < length table.new) }
    ensures found { (s : Spaces) → AllShow table.old types.now s.types
        → Finds (Shows plain_value table.new) result (part_of s part.now) }
{
    match part {
        ValType::Primitive(primitive) => {
            let number = leaf(table, alloc, Head::Primitive(*primitive))?;
            Ok(Standing {
                number,
                named: true,
            })
        }
        ValType::Index(index) => {
            let standing = standing_at(types, *index)?;
            value_standing(table, standing)
        }
    }
}

/// What a case, a side of a result or a function's result holds, where it holds something, with its naming bit.
pub fn payload_of(
    table: &mut TypeTable,
    alloc: Global,
    types: &[Standing],
    payload: &Option<ValType>,
) -> Result<Standing, ScopeError>
    requires { AreThere table.old types.now }
    ensures extends { Extends table.old table.new }
    ensures there { IfOk result (λ x. x.number < length table.new) }
    ensures found { (s : Spaces) → AllShow table.old types.now s.types
        → Finds (Shows plain_payload table.new) result (payload_of s payload.now) }
{
    match payload {
        Some(part) => part_of(table, alloc, types, part),
        None => {
            let number = leaf(table, alloc, Head::Absent)?;
            Ok(Standing {
                number,
                named: true,
            })
        }
    }
}

/// The value types that the parts of a tuple name.
pub fn parts_of(
    table: &mut TypeTable,
    alloc: Global,
    types: &[Standing],
    parts: &[ValType],
) -> Result<Parts, ScopeError>
    requires { AreThere table.old types.now }
    ensures extends { Extends table.old table.new }
    ensures there { IfOk result (λ p. IsBelow (length table.new) p.numbers.items) }
    ensures found { (s : Spaces) → AllShow table.old types.now s.types
        → Finds (ShowsRows plain_value table.new) result (all_of (part_of s) parts.now) }
{
    let mut numbers = Vec::new(alloc);
    let mut named = true;
    for part in parts {
        let standing = part_of(table, alloc, types, part)?;
        named = both(named, standing.named);
        numbers.push(standing.number)?;
    }
    Ok(Parts { numbers, named })
}

/// A field of a record, or a parameter, under its label.
fn field_of(
    table: &mut TypeTable,
    alloc: Global,
    types: &[Standing],
    label: &Text,
    part: &ValType,
) -> Result<Standing, ScopeError>
    requires { AreThere table.old types.now }
    ensures extends { Extends table.old table.new }
    ensures there { IfOk result (λ x. x.number < length table.new) }
    ensures found { (s : Spaces) → AllShow table.old types.now s.types
        → Finds (Shows plain_param table.new) result (field_of s (label.now, part.now)) }
{
    let standing = part_of(table, alloc, types, part)?;
    let number = under(table, alloc, label, standing.number)?;
    Ok(Standing {
        number,
        named: standing.named,
    })
}

/// A case of a variant, under its label.
fn case_of(
    table: &mut TypeTable,
    alloc: Global,
    types: &[Standing],
    label: &Text,
    payload: &Option<ValType>,
) -> Result<Standing, ScopeError>
    requires { AreThere table.old types.now }
    ensures extends { Extends table.old table.new }
    ensures there { IfOk result (λ x. x.number < length table.new) }
    ensures found { (s : Spaces) → AllShow table.old types.now s.types
        → Finds (Shows plain_case table.new) result (case_of s (label.now, payload.now)) }
{
    let standing = payload_of(table, alloc, types, payload)?;
    let number = under(table, alloc, label, standing.number)?;
    Ok(Standing {
        number,
        named: standing.named,
    })
}

/// The fields of a record, or the parameters of a function.
pub fn fields_of(
    table: &mut TypeTable,
    alloc: Global,
    types: &[Standing],
    fields: &[(Text, ValType)],
) -> Result<Parts, ScopeError>
    requires { AreThere table.old types.now }
    ensures extends { Extends table.old table.new }
    ensures there { IfOk result (λ p. IsBelow (length table.new) p.numbers.items) }
    ensures found { (s : Spaces) → AllShow table.old types.now s.types
        → Finds (ShowsRows plain_param table.new) result (all_of (field_of s) fields.now) }
{
    let mut numbers = Vec::new(alloc);
    let mut named = true;
    for field in fields {
        let standing = field_of(table, alloc, types, &field.0, &field.1)?;
        named = both(named, standing.named);
        numbers.push(standing.number)?;
    }
    Ok(Parts { numbers, named })
}

/// The cases of a variant.
pub fn cases_of(
    table: &mut TypeTable,
    alloc: Global,
    types: &[Standing],
    cases: &[(Text, Option<ValType>)],
) -> Result<Parts, ScopeError>
    requires { AreThere table.old types.now }
    ensures extends { Extends table.old table.new }
    ensures there { IfOk result (λ p. IsBelow (length table.new) p.numbers.items) }
    ensures found { (s : Spaces) → AllShow table.old types.now s.types
        → Finds (ShowsRows plain_case table.new) result (all_of (case_of s) cases.now) }
{
    let mut numbers = Vec::new(alloc);
    let mut named = true;
    for case in cases {
        let standing = case_of(table, alloc, types, &case.0, &case.1)?;
        named = both(named, standing.named);
        numbers.push(standing.number)?;
    }
    Ok(Parts { numbers, named })
}
