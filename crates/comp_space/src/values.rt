//! Types of values and of functions, their indices followed.

ghost use Rattle.std.specs.Prelude.{◌≡◌, ◌<◌, ◌∷◌, IfOk, length};
ghost use Rattle.comp_format.specs.declared.types.DefinedType.TheVariants as DefinedType;
ghost use Rattle.comp_scope.specs.Spaces.{Spaces};
ghost use Rattle.comp_scope.specs.Values.{func_of, value_of};
ghost use Rattle.comp_space.specs.Faults.{Finds};
ghost use Rattle.comp_space.specs.Standings.{AllShow, AreThere, Shows};
ghost use Rattle.comp_table.specs.Plain.{plain_func, plain_value};
ghost use Rattle.comp_table.specs.Trees.{Extends};

use crate::error::ScopeError;
use crate::nodes::{around, around_two, labelled, leaf, node};
use crate::parts::{Parts, both, cases_of, fields_of, part_of, parts_of, payload_of, resource_of};
use crate::standing::Standing;
use comp_format::{DefinedType, FuncType, ValType};
use comp_table::{Head, TypeTable};
use std::alloc::Global;
use warg_values::{Memory, Text};

/// A type of values, its indices followed, with its naming bit where it has one of itself: `types` are what the indices
/// of types stand for. Whatever the answer, the numbers given so far keep their meaning.
pub fn value_of(
    table: &mut TypeTable,
    alloc: Global,
    types: &[Standing],
    defined: &DefinedType,
) -> Result<Standing, ScopeError>
    requires { AreThere table.old types.now }
    ensures extends { Extends table.old table.new }
    ensures there { IfOk result (λ x. x.number < length table.new) }
    ensures found { (s : Spaces) → AllShow table.old types.now s.types
        → Finds (Shows plain_value table.new) result (value_of s defined.now) }
{
    match defined {
        DefinedType::Primitive(primitive) => {
            part_of(table, alloc, types, &ValType::Primitive(*primitive))
        }
        DefinedType::RecordOf(fields) => record_of(table, alloc, types, fields.as_slice()),
        DefinedType::VariantOf(cases) => variant_of(table, alloc, types, cases.as_slice()),
        DefinedType::ListOf(item) => list_of(table, alloc, types, item),
        DefinedType::TupleOf(parts) => tuple_of(table, alloc, types, parts.as_slice()),
        DefinedType::FlagsOf(labels) => flags_of(table, alloc, labels.as_slice()),
        DefinedType::EnumOf(labels) => enum_of(table, alloc, labels.as_slice()),
        DefinedType::OptionOf(item) => option_of(table, alloc, types, item),
        DefinedType::ResultOf { ok, err } => result_of(table, alloc, types, ok, err),
        DefinedType::Own(index) => own_of(table, alloc, types, *index),
        DefinedType::Borrow(index) => borrow_of(table, alloc, types, *index),
    }
}

/// A record of these fields.
fn record_of(
    table: &mut TypeTable,
    alloc: Global,
    types: &[Standing],
    fields: &[(Text, ValType)],
) -> Result<Standing, ScopeError>
    requires { AreThere table.old types.now }
    ensures extends { Extends table.old table.new }
    ensures there { IfOk result (λ x. x.number < length table.new) }
    ensures found { (s : Spaces) → AllShow table.old types.now s.types
        → Finds (Shows plain_value table.new) result (value_of s (DefinedType.RecordOf fields.now)) }
{
    let Parts { numbers, named } = fields_of(table, alloc, types, fields)?;
    let number = node(table, alloc, Head::RecordOf(None), numbers)?;
    Ok(Standing { number, named })
}

/// A variant of these cases.
fn variant_of(
    table: &mut TypeTable,
    alloc: Global,
    types: &[Standing],
    cases: &[(Text, Option<ValType>)],
) -> Result<Standing, ScopeError>
    requires { AreThere table.old types.now }
    ensures extends { Extends table.old table.new }
    ensures there { IfOk result (λ x. x.number < length table.new) }
    ensures found { (s : Spaces) → AllShow table.old types.now s.types
        → Finds (Shows plain_value table.new) result (value_of s (DefinedType.VariantOf cases.now)) }
{
    let Parts { numbers, named } = cases_of(table, alloc, types, cases)?;
    let number = node(table, alloc, Head::VariantOf(None), numbers)?;
    Ok(Standing { number, named })
}

/// A list of such items.
fn list_of(
    table: &mut TypeTable,
    alloc: Global,
    types: &[Standing],
    item: &ValType,
) -> Result<Standing, ScopeError>
    requires { AreThere table.old types.now }
    ensures extends { Extends table.old table.new }
    ensures there { IfOk result (λ x. x.number < length table.new) }
    ensures found { (s : Spaces) → AllShow table.old types.now s.types
        → Finds (Shows plain_value table.new) result (value_of s (DefinedType.ListOf item.now)) }
{
    let part = part_of(table, alloc, types, item)?;
    let number = around(table, alloc, Head::ListOf, part.number)?;
    Ok(Standing {
        number,
        named: part.named,
    })
}

/// A tuple of these parts.
fn tuple_of(
    table: &mut TypeTable,
    alloc: Global,
    types: &[Standing],
    parts: &[ValType],
) -> Result<Standing, ScopeError>
    requires { AreThere table.old types.now }
    ensures extends { Extends table.old table.new }
    ensures there { IfOk result (λ x. x.number < length table.new) }
    ensures found { (s : Spaces) → AllShow table.old types.now s.types
        → Finds (Shows plain_value table.new) result (value_of s (DefinedType.TupleOf parts.now)) }
{
    let Parts { numbers, named } = parts_of(table, alloc, types, parts)?;
    let number = node(table, alloc, Head::TupleOf, numbers)?;
    Ok(Standing { number, named })
}

/// Flags of these labels.
fn flags_of(table: &mut TypeTable, alloc: Global, labels: &[Text]) -> Result<Standing, ScopeError>
    ensures extends { Extends table.old table.new }
    ensures there { IfOk result (λ x. x.number < length table.new) }
    ensures found { (s : Spaces)
        → Finds (Shows plain_value table.new) result (value_of s (DefinedType.FlagsOf labels.now)) }
{
    let number = labelled(table, alloc, Head::FlagsOf(None), labels)?;
    Ok(Standing {
        number,
        named: true,
    })
}

/// An enum of these labels.
fn enum_of(table: &mut TypeTable, alloc: Global, labels: &[Text]) -> Result<Standing, ScopeError>
    ensures extends { Extends table.old table.new }
    ensures there { IfOk result (λ x. x.number < length table.new) }
    ensures found { (s : Spaces)
        → Finds (Shows plain_value table.new) result (value_of s (DefinedType.EnumOf labels.now)) }
{
    let number = labelled(table, alloc, Head::EnumOf(None), labels)?;
    Ok(Standing {
        number,
        named: true,
    })
}

/// An option of such an item.
fn option_of(
    table: &mut TypeTable,
    alloc: Global,
    types: &[Standing],
    item: &ValType,
) -> Result<Standing, ScopeError>
    requires { AreThere table.old types.now }
    ensures extends { Extends table.old table.new }
    ensures there { IfOk result (λ x. x.number < length table.new) }
    ensures found { (s : Spaces) → AllShow table.old types.now s.types
        → Finds (Shows plain_value table.new) result (value_of s (DefinedType.OptionOf item.now)) }
{
    let part = part_of(table, alloc, types, item)?;
    let number = around(table, alloc, Head::OptionOf, part.number)?;
    Ok(Standing {
        number,
        named: part.named,
    })
}

/// A result of these sides.
fn result_of(
    table: &mut TypeTable,
    alloc: Global,
    types: &[Standing],
    ok: &Option<ValType>,
    err: &Option<ValType>,
) -> Result<Standing, ScopeError>
    requires { AreThere table.old types.now }
    ensures extends { Extends table.old table.new }
    ensures there { IfOk result (λ x. x.number < length table.new) }
    ensures found { (s : Spaces) → AllShow table.old types.now s.types
        → Finds (Shows plain_value table.new) result (value_of s (DefinedType.ResultOf ok.now err.now)) }
{
    let first = payload_of(table, alloc, types, ok)?;
    let second = payload_of(table, alloc, types, err)?;
    let number = around_two(table, alloc, Head::ResultOf, first.number, second.number)?;
    Ok(Standing {
        number,
        named: both(first.named, second.named),
    })
}

/// An owned handle of the resource of this index.
fn own_of(
    table: &mut TypeTable,
    alloc: Global,
    types: &[Standing],
    index: u32,
) -> Result<Standing, ScopeError>
    requires { AreThere table.old types.now }
    ensures extends { Extends table.old table.new }
    ensures there { IfOk result (λ x. x.number < length table.new) }
    ensures found { (s : Spaces) → AllShow table.old types.now s.types
        → Finds (Shows plain_value table.new) result (value_of s (DefinedType.Own index)) }
{
    let (resource, named) = resource_of(table, types, index)?;
    let number = leaf(table, alloc, Head::Own(resource))?;
    Ok(Standing { number, named })
}

/// A borrowed handle of the resource of this index.
fn borrow_of(
    table: &mut TypeTable,
    alloc: Global,
    types: &[Standing],
    index: u32,
) -> Result<Standing, ScopeError>
    requires { AreThere table.old types.now }
    ensures extends { Extends table.old table.new }
    ensures there { IfOk result (λ x. x.number < length table.new) }
    ensures found { (s : Spaces) → AllShow table.old types.now s.types
        → Finds (Shows plain_value table.new) result (value_of s (DefinedType.Borrow index)) }
{
    let (resource, named) = resource_of(table, types, index)?;
    let number = leaf(table, alloc, Head::Borrow(resource))?;
    Ok(Standing { number, named })
}

/// A number, and others behind it.
fn with_first(alloc: Global, first: usize, others: &[usize]) -> Result<Vec<usize>, Memory>
    ensures { IfOk result (λ all. all.items ≡ first ∷ others.now) }
{
    let mut all = Vec::new(alloc);
    all.push(first)?;
    all.extend_from_slice(others)?;
    Ok(all)
}

/// A type of functions, its indices followed, with whether all its parts have the naming bit: `types` are what the
/// indices of types stand for. Whatever the answer, the numbers given so far keep their meaning.
pub fn func_of(
    table: &mut TypeTable,
    alloc: Global,
    types: &[Standing],
    func: &FuncType,
) -> Result<Standing, ScopeError>
    requires { AreThere table.old types.now }
    ensures extends { Extends table.old table.new }
    ensures there { IfOk result (λ x. x.number < length table.new) }
    ensures found { (s : Spaces) → AllShow table.old types.now s.types
        → Finds (Shows plain_func table.new) result (func_of s func.now) }
{
    let params = fields_of(table, alloc, types, func.params.as_slice())?;
    let result = payload_of(table, alloc, types, &func.result)?;
    let parts = with_first(alloc, result.number, &params.numbers)?;
    let number = node(table, alloc, Head::FuncType, parts)?;
    Ok(Standing {
        number,
        named: both(params.named, result.named),
    })
}
