//! Types, aliases and imports of components, by which types are one in the table. The rows were written by hand from
//! the Component Model's `Explainer.md` and `Binary.md`.

use crate::reading::{component_bytes, scope_of};
use comp_reader::read_items;
use comp_space::Standing;
use comp_table::TypeTable;
use std::alloc::Global;
use std::test::Fail;

/// Sections in hexadecimal digits, and for each type in the scope behind them the first type that is the same.
const READ: [&str; 16] = [
    "0a06010001720301 = 0",
    "0a0b0200017203010001730301 = 0 1",
    "0703014200 = 0",
    "07050242004200 = 0 0",
    "0707023f7f003f7f00 = 0 1",
    "070d053f7f003f7f00690069016900 = 0 1 2 3 2",
    "0706017201016179 0a0701000172030000 07050140000001 0a06010001660102 = 0 1 2",
    "0706017201016179 0a0701000172030000 0a0701000173030001 = 0 1 1",
    "0712023f7f004202020302010004000172030000 0a060100016e0501 = 0 1",
    "070f014202016d01016504000174030000 0a060100016d0500 0606010300000174 070f014202020302010104000174030000 0a060100016e0502 = 0 1 2",
    "0709027f41010203020100 = 0 1",
    "070d033f7f00690042010203020101 = 0 1 2",
    "070c014102014200030001690500 = 0",
    "070f014102030001610301040001410301 = 0",
    "031002600000500202100101000301660000 =",
    "030401600000 07110141020200100201000050010210010100 = 0",
];

/// Sections in hexadecimal digits, and why there is no scope behind them.
const REFUSED: [&str; 9] = [
    "070a027201016179400000000a06010001660101 = Index",
    "071002420104000172030141010203020100 = Index",
    "070d033f7f00690041010203020101 = Index",
    "071301410303000169050000600000040001720301 = Index",
    "070f014202040001610301040001410301 = Index",
    "0319015004016000000210010100030167037e0103017502010102 = Index",
    "0705013f7f0107 = Index",
    "0703016900 = Index",
    "0606010300000174 = Index",
];

/// The place of the first of some types that has this number.
fn first_place(types: &[Standing], number: usize) -> usize {
    for place in 0..types.len() {
        if types[place].number == number {
            return place;
        }
    }
    types.len()
}

/// For each of some types the first one that is the same.
fn first_places(alloc: Global, types: &[Standing]) -> Result<String, Fail> {
    let mut text = String::new(alloc);
    for ty in types {
        let first = first_place(types, ty.number);
        text = format!(in alloc; "{text} {first}")?;
    }
    Ok(text)
}

/// What is found of the types of a component of sections in hexadecimal digits, written out.
fn outcome(alloc: Global, sections: &str) -> Result<String, Fail> {
    let bytes = component_bytes(alloc, sections)?;
    let items = read_items(alloc, &bytes)?;
    let mut table = TypeTable::new(alloc);
    match scope_of(&mut table, alloc, &items) {
        Ok(scope) => first_places(alloc, &scope.space.types),
        Err(error) => Ok(format!(in alloc; " {error:?}")?),
    }
}

#[test]
fn types_stand_once_in_the_table(rt: HostRuntime) -> Result<(), Fail> {
    for row in READ {
        let (sections, want) = row.split_once(" =").unwrap_or((row, ""));
        assert_eq!(rt; outcome(rt.alloc(), sections)?.as_str(), want);
    }
    Ok(())
}

#[test]
fn types_that_break_a_rule_are_refused(rt: HostRuntime) -> Result<(), Fail> {
    for row in REFUSED {
        let (sections, want) = row.split_once(" =").unwrap_or((row, ""));
        assert_eq!(rt; outcome(rt.alloc(), sections)?.as_str(), want);
    }
    Ok(())
}

/// The bytes of a component with one type, so many types of instances that lie within each other.
fn nested(alloc: Global, depth: u8) -> Result<String, Fail> {
    let mut types = String::new(alloc);
    for _ in 1..depth {
        types = format!(in alloc; "{types}420101")?;
    }
    let len = types.len() / 2 + 3;
    Ok(format!(in alloc; "07{len:02x}01{types}4200")?)
}

#[test]
fn at_most_32_scopes_are_open(rt: HostRuntime) -> Result<(), Fail> {
    let alloc = rt.alloc();
    assert_eq!(rt; outcome(alloc, &nested(alloc, 31)?)?.as_str(), " 0");
    assert_eq!(rt; outcome(alloc, &nested(alloc, 32)?)?.as_str(), " TooDeep");
    Ok(())
}
