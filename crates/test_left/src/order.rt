//! The order of things that need each other, and names that differ in letter case alone. The rows were worked by hand.

use compose_agree::{CaseClash, Order, case_clash, order_of};
use std::alloc::Global;
use std::test::Fail;
use warg_values::Text;

/// What each thing needs, a word for each with the numbers of what it needs as digits, or `-`; and the order as digits, or
/// `stuck` and the number of the first one without a place.
const ORDERS: &[(&str, &str)] = &[
    ("", ""),
    ("- - -", "012"),
    ("1 - 0", "102"),
    ("2 0 -", "201"),
    ("12 2 -", "210"),
    ("- 0 1 0", "0123"),
    ("1 0 -", "stuck 0"),
    ("- 2 1 0", "stuck 1"),
    ("- 1", "stuck 1"),
];

/// Names, and the numbers of the first two that are alike, or `none`.
const NAMES: &[(&str, &str)] = &[
    ("", "none"),
    ("a b c", "none"),
    ("a A", "0 1"),
    ("x a-B y A-b X", "1 3"),
    ("A x a A", "0 2"),
    ("ä Ä", "none"),
];

/// The numbers of a word's digits.
fn digits(alloc: Global, word: &str) -> Result<Vec<usize>, Fail> {
    let mut numbers = Vec::new(alloc);
    for byte in word.bytes() {
        if byte.is_ascii_digit() {
            numbers.push((byte - b'0') as usize)?;
        }
    }
    Ok(numbers)
}

/// What each thing of a row needs.
fn needs(alloc: Global, row: &str) -> Result<Vec<Vec<usize>>, Fail> {
    let mut needs = Vec::new(alloc);
    for word in row.split_whitespace() {
        needs.push(digits(alloc, word)?)?;
    }
    Ok(needs)
}

/// Numbers, one after the other.
fn numbers_text(alloc: Global, numbers: &[usize]) -> Result<String, Fail> {
    let mut text = String::new(alloc);
    for number in numbers {
        let digits = format!(in alloc; "{number}")?;
        text.push_str(&digits)?;
    }
    Ok(text)
}

/// An order in the words of a row.
fn order_text(alloc: Global, order: &Order) -> Result<String, Fail> {
    match order {
        Order::Whole(numbers) => numbers_text(alloc, numbers),
        Order::Circle(number) => Ok(format!(in alloc; "stuck {number}")?),
    }
}

/// The order of the things of a row, in its words.
fn order(alloc: Global, row: &str) -> Result<String, Fail> {
    let needs = needs(alloc, row)?;
    let order = order_of(alloc, &needs)?;
    order_text(alloc, &order)
}

/// The names of a row.
fn names(alloc: Global, row: &str) -> Result<Vec<Text>, Fail> {
    let mut names = Vec::new(alloc);
    for name in row.split_whitespace() {
        names.push(Text::copy_of(alloc, name)?)?;
    }
    Ok(names)
}

/// The first two names of a row that are alike, in its words.
fn clash(alloc: Global, row: &str) -> Result<String, Fail> {
    let names = names(alloc, row)?;
    match case_clash(alloc, &names)? {
        Some(CaseClash { earlier, later }) => Ok(format!(in alloc; "{earlier} {later}")?),
        None => Ok(String::from_str(alloc, "none")?),
    }
}

/// Fails at the first row whose order is another one.
fn are_ordered(alloc: Global, rows: &[(&str, &str)]) -> Result<(), Fail> {
    for (needs, expected) in rows {
        let text = order(alloc, needs)?;
        if text.as_str() != *expected {
            return Err(Fail::new(format_args!("{text} of {needs}")));
        }
    }
    Ok(())
}

#[test]
fn what_is_needed_comes_first_or_a_circle_is_found(rt: HostRuntime) -> Result<(), Fail> {
    are_ordered(rt.alloc(), ORDERS)
}

/// Fails at the first row of which other names are alike.
fn are_alike(alloc: Global, rows: &[(&str, &str)]) -> Result<(), Fail> {
    for (names, expected) in rows {
        let text = clash(alloc, names)?;
        if text.as_str() != *expected {
            return Err(Fail::new(format_args!("{text} of {names}")));
        }
    }
    Ok(())
}

#[test]
fn names_are_alike_where_only_ascii_letter_case_differs(rt: HostRuntime) -> Result<(), Fail> {
    are_alike(rt.alloc(), NAMES)
}
