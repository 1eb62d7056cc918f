//! Whether graphs can be written. The bytes were written out by hand from the binary format.

use compose_graph::{
    Component, ComponentId, CompositionGraph, ExportIndex, ImportIndex, InstanceId,
};
use std::alloc::Global;
use std::test::Fail;

/// A component that imports an instance of a function `f` as `x`, and exports it as `y`.
pub const THROUGH: &[u8] =
    b"\0asm\r\0\x01\0\x07\x0e\x01\x42\x02\x01\x40\0\x01\0\x04\0\x01f\x01\0\x0a\x06\x01\0\x01x\x05\0\x0b\x07\x01\0\x01y\x05\0\0";

/// A component that imports a function as `x`, and one that imports it as `X`.
pub const FUNCTION: &[u8] = b"\0asm\r\0\x01\0\x07\x05\x01\x40\0\x01\0\x0a\x06\x01\0\x01x\x01\0";

const CAPITAL: &[u8] = b"\0asm\r\0\x01\0\x07\x05\x01\x40\0\x01\0\x0a\x06\x01\0\x01X\x01\0";

/// A component that imports `types`, in which stands `r`, a record of an enum without a name.
const NAMELESS: &[u8] =
    b"\0asm\r\0\x01\0\x07\x15\x01B\x03\x01m\x01\x01e\x01r\x01\x01f\0\x04\0\x01r\x03\0\x01\n\n\x01\0\
      \x05types\x05\0";

/// One that imports `types`, in which stand the enum as `e`, `r` as a record of `e`, and a function of `r`.
const NAMED: &[u8] =
    b"\0asm\r\0\x01\0\x07+\x01B\x06\x01m\x01\x01e\x04\0\x01e\x03\0\0\x01r\x01\x01f\x01\x04\0\x01r\x03\
      \0\x02\x01@\x01\x01p\x03\x01\0\x04\0\x02fn\x01\x04\n\n\x01\0\x05types\x05\0";

/// One that imports `types`, in which stand `r`, as in the first, and the enum as `e`, and exports it as `t`.
const GIVING: &[u8] =
    b"\0asm\r\0\x01\0\x07!\x01B\x05\x01m\x01\x01e\x01r\x01\x01f\0\x04\0\x01r\x03\0\x01\x01m\x01\x01e\
      \x04\0\x01e\x03\0\x03\n\n\x01\0\x05types\x05\0\x0b\x07\x01\0\x01t\x05\0\0";

/// One that imports `t`, in which stand `e` and `r` as in the second, and `api`, in which stands a function of `r`.
const TAKING: &[u8] =
    b"\0asm\r\0\x01\0\x07\x1c\x01B\x04\x01m\x01\x01e\x04\0\x01e\x03\0\0\x01r\x01\x01f\x01\x04\0\x01r\
      \x03\0\x02\n\x06\x01\0\x01t\x05\0\x06\x06\x01\x03\0\0\x01r\x07\x17\x01B\x03\x02\x03\x02\x01\x01\
      \x01@\x01\x01p\0\x01\0\x04\0\x02fn\x01\x01\n\x08\x01\0\x03api\x05\x02";

/// The components of a row by their letters.
const COMPONENTS: &[(char, &[u8])] = &[
    ('t', THROUGH),
    ('f', FUNCTION),
    ('c', CAPITAL),
    ('l', NAMELESS),
    ('n', NAMED),
    ('g', GIVING),
    ('k', TAKING),
];

/// Graphs, and what their check answers: the letters of the components, of each of which an instance is made; the
/// connections as pairs of digits, of the instance whose first export is given, and of that to whose first import it
/// goes; and the answer.
const ROWS: &[(&str, &str, &str)] = &[
    ("", "", "can be written"),
    ("t", "", "can be written"),
    ("tt", "", "can be written"),
    ("ttt", "01 12", "can be written"),
    (
        "tf",
        "",
        "what is asked under the name `x` differs: connect one of these imports, or take other releases",
    ),
    (
        "fc",
        "",
        "`x` and `X` differ in the case of letters alone: connect one of them, or give it another name",
    ),
    (
        "cf",
        "",
        "`X` and `x` differ in the case of letters alone: connect one of them, or give it another name",
    ),
    (
        "tttt",
        "01 10 23",
        "instance 1, of the component `1`, is given what needs it: take one connection on this way away",
    ),
    (
        "tttt",
        "12 21 10 03",
        "instance 2, of the component `2`, is given what needs it: take one connection on this way away",
    ),
    // a function over a record of which a part has no name where it is written
    (
        "ln",
        "",
        "the import `types` mentions a type that it can't have there: connect it, or take another release of it",
    ),
    ("nl", "", "can be written"),
    (
        "gk",
        "01",
        "the import `api` mentions a type that it can't have there: connect it, or take another release of it",
    ),
];

/// The component of a letter under the name of its place.
fn component(alloc: Global, letter: char, place: usize) -> Result<Component<'static>, Fail> {
    let name = format!(in alloc; "{place}")?;
    for (other, bytes) in COMPONENTS {
        if letter == *other {
            return Ok(Component::from_bytes(alloc, name.as_str(), bytes)?);
        }
    }
    Err(Fail::new("no component has this letter"))
}

/// A graph with one instance of each component of a row.
fn made(alloc: Global, letters: &str) -> Result<CompositionGraph<'static>, Fail> {
    let mut graph = CompositionGraph::new(alloc);
    for (place, letter) in letters.chars().enumerate() {
        let _id = graph.add_component(alloc, component(alloc, letter, place)?)?;
        let _id = graph.instantiate(ComponentId(place))?;
    }
    Ok(graph)
}

/// The instance of a digit of a pair.
fn instance(pair: &str, at: usize) -> Result<InstanceId, Fail> {
    match pair.chars().nth(at).and_then(|digit| digit.to_digit(10)) {
        Some(number) => Ok(InstanceId(number as usize)),
        None => Err(Fail::new("no digit")),
    }
}

/// Makes the connections of a row.
fn connect(alloc: Global, graph: &mut CompositionGraph<'_>, pairs: &str) -> Result<(), Fail> {
    for pair in pairs.split_whitespace() {
        let source = instance(pair, 0)?;
        let target = instance(pair, 1)?;
        graph.connect(alloc, source, Some(ExportIndex(0)), target, ImportIndex(0))?;
    }
    Ok(())
}

/// What the check of a graph answers.
fn answer(alloc: Global, graph: &CompositionGraph<'_>) -> Result<String, Fail> {
    match graph.check(alloc) {
        Ok(()) => Ok(String::from_str(alloc, "can be written")?),
        Err(error) => Ok(format!(in alloc; "{error}")?),
    }
}

/// Fails at the first row that is answered otherwise.
fn are_checked(alloc: Global, rows: &[(&str, &str, &str)]) -> Result<(), Fail> {
    for (letters, pairs, want) in rows {
        let mut graph = made(alloc, letters)?;
        connect(alloc, &mut graph, pairs)?;
        let found = answer(alloc, &graph)?;
        if found.as_str() != *want {
            return Err(Fail::new(format_args!("{letters} {pairs}: {found}")));
        }
    }
    Ok(())
}

#[test]
fn graphs_can_be_written_or_the_first_cause_is_told(rt: HostRuntime) -> Result<(), Fail> {
    are_checked(rt.alloc(), ROWS)
}
