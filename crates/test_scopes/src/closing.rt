//! Components that differ in how they call the resources of their own are one. The rows were written by hand from the
//! Component Model's `Explainer.md`, "Type Checking".

use crate::reading::{component_bytes, scope_of};
use comp_define::component;
use comp_reader::read_items;
use comp_table::TypeTable;
use std::alloc::Global;
use std::test::Fail;

/// Sections of two components in hexadecimal digits, parted by `/`, and whether the components are one.
///
/// In the first rows instances that export own resources are imported: of one resource, and of the second of two; of
/// both of two, in either order; and of both, and twice of the first. Then a resource is imported under two names, and
/// beside one that nothing mentions.
const ROWS: [&str; 5] = [
    "0712023f7f004202020302010004000172030000 0a060100016e0501 / 0715033f7f003f7f004202020302010104000172030000 0a060100016e0502 = one",
    "0723043f7f003f7f0042020203020100040001720300004202020302010104000172030000 0a0b0200016e050200016d0503 / 0723043f7f003f7f0042020203020101040001720300004202020302010004000172030000 0a0b0200016e050200016d0503 = one",
    "0723043f7f003f7f0042020203020100040001720300004202020302010104000172030000 0a0b0200016e050200016d0503 / 0723043f7f003f7f0042020203020100040001720300004202020302010004000172030000 0a0b0200016e050200016d0503 = two",
    "0a06010001720301 / 0a06010001730301 = two",
    "0a06010001720301 / 0704013f7f00 0a06010001720301 = one",
];

/// The number of the component of sections in hexadecimal digits.
fn number_of(alloc: Global, table: &mut TypeTable, sections: &str) -> Result<usize, Fail> {
    let bytes = component_bytes(alloc, sections)?;
    let items = read_items(alloc, &bytes)?;
    let scope = scope_of(table, alloc, &items)?;
    Ok(component(table, alloc, &scope)?)
}

/// Whether two components of sections in hexadecimal digits are one, in words.
fn outcome(alloc: Global, first: &str, second: &str) -> Result<&'static str, Fail> {
    let mut table = TypeTable::new(alloc);
    let one = number_of(alloc, &mut table, first)?;
    let other = number_of(alloc, &mut table, second)?;
    Ok(if one == other { "one" } else { "two" })
}

#[test]
fn how_own_resources_are_called_makes_no_difference(rt: HostRuntime) -> Result<(), Fail> {
    for row in ROWS {
        let (components, want) = row.split_once(" = ").unwrap_or((row, ""));
        let (first, second) = components.split_once(" / ").unwrap_or((components, ""));
        assert_eq!(rt; outcome(rt.alloc(), first, second)?, want);
    }
    Ok(())
}
