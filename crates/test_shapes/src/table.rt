//! Types and entities stand once in a table, with their sizes beside them. The rows were counted and written by hand.

ghost use Rattle.std.specs.Prelude.{◌<◌, ◌≤◌, length, IfOk};
ghost use Rattle.comp_entity.specs.Names.{deeper};

use crate::entity::entity;
use comp_entity::{Primitive, ResourceNo, TypeNo};
use comp_rename::{Renaming, renamed};
use comp_table::{Head, Numbers, TypeNumber, TypeTable};
use std::alloc::Global;
use std::test::Fail;
use warg_values::Memory;

/// Two entities, whether they have one number, and whether they are equal by their numbers.
const ROWS: &[(&str, &str, bool, bool)] = &[
    ("bool", "bool", true, true),
    ("named", "named", true, true),
    ("named", "renamed", false, true),
    ("named", "list", false, false),
    ("file-first", "file-first", true, true),
    ("file-first", "file-second", false, false),
    ("module", "module", true, true),
    ("first", "second", false, false),
];

/// The number of a tuple of two parts, each of the type of this number.
fn pair_of(alloc: Global, table: &mut TypeTable, part: usize) -> Result<usize, Memory>
    requires { part < length table.old }
    ensures there { IfOk result (λ n. n < length table.new) }
    ensures kept { length table.old ≤ length table.new }
{
    let mut parts = Vec::new(alloc);
    parts.push(part)?;
    parts.push(part)?;
    table.number_of(alloc, Head::TupleOf, Numbers::from_vec(parts))
}

#[test]
fn a_type_stands_once_with_its_size(rt: HostRuntime) -> Result<(), Fail> {
    let alloc = rt.alloc();
    let mut table = TypeTable::new(alloc);
    let none = Numbers::from_vec(Vec::new(alloc));
    let truth = table.number_of(alloc, Head::Primitive(Primitive::Bool), none)?;
    let pair = pair_of(alloc, &mut table, truth)?;
    let again = pair_of(alloc, &mut table, truth)?;
    let four = pair_of(alloc, &mut table, again)?;
    assert_eq!(rt; again, pair);
    assert!(rt; !table.is_same(four, again));
    assert_eq!(rt; table.size(four), 7);
    assert_eq!(rt; table.depth(four), 3);
    assert_eq!(rt; table.parts(four).len(), 2);
    assert!(rt; matches!(table.head(four), Head::TupleOf));
    Ok(())
}

/// The number of the entity of a word in a row.
fn number_in(alloc: Global, table: &mut TypeTable, word: &str) -> Result<TypeNumber, Fail>
    ensures there { IfOk result (λ n. n.0 < length table.new) }
    ensures kept { length table.old ≤ length table.new }
{
    let entity = entity(alloc, word)?;
    Ok(table.intern(alloc, &entity)?)
}

/// Whether the two entities of a row have one number, and whether they are equal by their numbers.
fn found(alloc: Global, first: &str, second: &str) -> Result<(bool, bool), Fail> {
    let mut table = TypeTable::new(alloc);
    let first = number_in(alloc, &mut table, first)?;
    let second = number_in(alloc, &mut table, second)?;
    Ok((first == second, table.equal(first, second)))
}

/// Fails at the first row that is found otherwise.
fn are_found(alloc: Global, rows: &[(&str, &str, bool, bool)]) -> Result<(), Fail> {
    for (first, second, is_one, is_equal) in rows {
        if found(alloc, first, second)? != (*is_one, *is_equal) {
            return Err(Fail::new(format_args!("of {first} and {second}")));
        }
    }
    Ok(())
}

#[test]
fn entities_have_one_number_and_are_equal_by_it(rt: HostRuntime) -> Result<(), Fail> {
    are_found(rt.alloc(), ROWS)
}

/// Names as they are called three scopes further in.
#[derive(Clone, Copy, Debug)]
struct Deeper;

impl Renaming for Deeper {
    ghost resources = { λ d. deeper 3 };

    ghost places = { λ d. deeper 3 };

    fn resource(&self, resource: ResourceNo) -> Option<ResourceNo> {
        let out = resource.out().checked_add(3)?;
        ResourceNo::new(out, resource.number())
    }

    fn place(&self, place: TypeNo) -> Option<TypeNo> {
        let out = place.out().checked_add(3)?;
        TypeNo::new(out, place.number())
    }
}

/// The number of a pair of handles of a resource that is so many scopes further out.
fn handles(alloc: Global, table: &mut TypeTable, out: usize) -> Result<usize, Memory>
    ensures { IfOk result (λ n. n < length table.new) }
{
    let none = Numbers::from_vec(Vec::new(alloc));
    let head = match ResourceNo::new(out, 5) {
        Some(resource) => Head::Own(resource),
        None => Head::OwnModule,
    };
    let handle = table.number_of(alloc, head, none)?;
    pair_of(alloc, table, handle)
}

#[test]
fn a_type_in_other_names_is_the_type_of_the_other_names(rt: HostRuntime) -> Result<(), Fail> {
    let alloc = rt.alloc();
    let mut table = TypeTable::new(alloc);
    let near = handles(alloc, &mut table, 1)?;
    let moved = renamed(&mut table, alloc, &Deeper, near)?;
    let far = handles(alloc, &mut table, 4)?;
    assert_eq!(rt; moved, far);
    assert!(rt; moved != near);
    Ok(())
}
