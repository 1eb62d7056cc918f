//! The order in which left imports are written, and what refuses them. The rows were worked by hand.

use crate::graph::{graph_of, origins_of};
use crate::imports::left_open;
use compose_naming::first_without_bit;
use compose_order::{LeftImport, OrderError, ordered};
use std::alloc::Global;
use std::test::Fail;
use test_check::is_row;

/// Wired instances, and the names of what is left open in the order in which it is written, or an error.
const ROWS: &[(&str, &str)] = &[
    ("", ""),
    // what is needed comes first
    ("m=e1 n=f1", "m n"),
    ("n=e2 ; m=e1 n=e2,f1", "m n"),
    ("n=e2 ; m=x1 n=x1,o1", "m n"),
    // a type that is only exported again is no need
    ("n=e2 ; m=e1 n=e1", "n m"),
    ("m=e1 n=e1 ; n=e2", "m n"),
    // it is exported before what mentions it
    ("m=e1 n=e1,f1", "m n"),
    ("m=e1 n=f1,e1", "unbrought n"),
    // one place of a type, by which two instances call two types
    ("api=e1,g1 ; types=e1 api=e1,f1", "api types"),
    // they need each other
    ("m=e1 n=e2,f1 ; n=e2 m=e1,g2", "circle m"),
    // a record of which the first instance knows no name of the enum in it, and a function over it
    ("types=r2 ; types=e1,r2:1,h2:1", "nameless types"),
    ("types=e1,r2:1,h2:1 ; types=r2", "types"),
    // the same along a wire
    (
        "types=r2,e1 >t=r2,e1 ; t<0=e1,r2:1 api=h2:1",
        "nameless api",
    ),
    (
        "types=e1,r2:1 >t=e1,r2:1 ; t<0=e1,r2:1 api=h2:1",
        "types api",
    ),
    // a resource that an instance makes, exported again
    (">p=x5 ; p<0=x1 n=x1,o1", "unbrought n"),
    // a component that hides a resource
    ("m=c0", "unbrought m"),
    // names that differ in letter case alone
    ("b=e1 a=e2 B=e3", "clash b B"),
    ("m=e1,E1", "clash e1 E1"),
    // which error is first
    ("m=e1,E1 b=e2 B=e3", "clash b B"),
    ("m=f1,e1 M=e2", "clash m M"),
    ("m=e1 n=e2,f1 ; n=e2 m=e1,g2 ; z=c0", "unbrought z"),
];

/// The names of imports, between blanks.
fn names(alloc: Global, lefts: &[LeftImport]) -> Result<String, Fail> {
    let mut names = String::new(alloc);
    for left in lefts {
        if !names.is_empty() {
            names.push_str(" ")?;
        }
        names.push_str(left.name.as_str())?;
    }
    Ok(names)
}

/// An error in the words of a row.
fn refusal(alloc: Global, error: &OrderError) -> Result<String, Fail> {
    match error {
        OrderError::CaseClash(first, other) => Ok(format!(in alloc; "clash {first} {other}")?),
        OrderError::NeedsUnbrought(name) => Ok(format!(in alloc; "unbrought {name}")?),
        OrderError::Circle(name) => Ok(format!(in alloc; "circle {name}")?),
        OrderError::Memory => Err(Fail::new("no memory")),
    }
}

/// Left imports in order, in the words of a row: their names, or the first with a function without the naming bit.
fn written(alloc: Global, lefts: &[LeftImport]) -> Result<String, Fail> {
    match first_without_bit(alloc, lefts)? {
        Some(number) => Ok(format!(in alloc; "nameless {}", lefts[number].name)?),
        None => names(alloc, lefts),
    }
}

/// An order in the words of a row.
fn told(alloc: Global, answer: Result<Vec<LeftImport>, OrderError>) -> Result<String, Fail> {
    match answer {
        Ok(lefts) => written(alloc, &lefts),
        Err(error) => refusal(alloc, &error),
    }
}

/// The order of what is left open in a row, in its words.
fn order(alloc: Global, row: &str) -> Result<String, Fail> {
    let graph = graph_of(alloc, row)?;
    let origins = origins_of(alloc, &graph)?;
    let list = left_open(alloc, &origins, &graph)?;
    told(alloc, ordered(alloc, &origins, list))
}

/// Fails at the first row whose order is another one.
fn are_ordered(alloc: Global, rows: &[(&str, &str)]) -> Result<(), Fail> {
    for (row, wanted) in rows {
        let found = order(alloc, row)?;
        is_row(row, found.as_str(), wanted)?;
    }
    Ok(())
}

#[test]
fn left_imports_have_an_order_or_are_refused(rt: HostRuntime) -> Result<(), Fail> {
    are_ordered(rt.alloc(), ROWS)
}
