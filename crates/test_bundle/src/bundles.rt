//! What components are bundled as. The bytes were written out by hand from the binary format.

ghost use Rattle.std.specs.Prelude.{IfOk, OnOk};
ghost use Rattle.compose_bundle.specs.Bundled.{AreComponents, content_in};

use comp_shape::read_items;
use compose_bundle::bundle;
use indexmap::IndexMap;
use std::alloc::Global;
use std::test::Fail;
use warg_values::Text;

/// A component without items.
const EMPTY: &[u8] = b"\0asm\r\0\x01\0";

/// A component that has a type of components without imports and exports.
const TYPED: &[u8] = b"\0asm\r\0\x01\0\x07\x03\x01\x41\0";

/// A component that imports components as `a` and `b`, with a function as `x` between them, and makes an instance of each.
const LOCK: &[u8] =
    b"\0asm\r\0\x01\0\x07\x07\x02\x41\0\x40\0\x01\0\x0a\x10\x03\0\x01a\x04\0\0\x01x\x01\x01\0\x01b\x04\0\x05\x07\x02\0\0\0\0\x01\0";

/// The same with EMPTY for `a` and TYPED for `b`.
const BUNDLE: &[u8] =
    b"\0asm\r\0\x01\0\x07\x07\x02\x41\0\x40\0\x01\0\x04\x08\0asm\r\0\x01\0\x0a\x06\x01\0\x01x\x01\x01\x04\x0d\0asm\r\0\x01\0\x07\x03\x01\x41\0\x05\x07\x02\0\0\0\0\x01\0";

/// The same with TYPED for `b`, and `a` still imported.
const HALF: &[u8] =
    b"\0asm\r\0\x01\0\x07\x07\x02\x41\0\x40\0\x01\0\x0a\x0b\x02\0\x01a\x04\0\0\x01x\x01\x01\x04\x0d\0asm\r\0\x01\0\x07\x03\x01\x41\0\x05\x07\x02\0\0\0\0\x01\0";

/// A component in which a component stands that imports a component as `a`.
const NESTED: &[u8] =
    b"\0asm\r\0\x01\0\x04\x15\0asm\r\0\x01\0\x07\x03\x01\x41\0\x0a\x06\x01\0\x01a\x04\0";

/// TYPED, in which the length of the section and the number of its items have two bytes each.
const PADDED: &[u8] = b"\0asm\r\0\x01\0\x07\x84\0\x81\0\x41\0";

/// The bytes of a component, the contents under their names, and what it is bundled as.
type Bundled = (
    &'static [u8],
    &'static [(&'static str, &'static [u8])],
    &'static [u8],
);

const BUNDLED: &[Bundled] = &[
    (EMPTY, &[], EMPTY),
    (LOCK, &[("a", EMPTY), ("b", TYPED)], BUNDLE),
    (LOCK, &[("b", TYPED), ("a", EMPTY)], BUNDLE),
    (LOCK, &[("b", TYPED)], HALF),
    // a name under which nothing is imported, and one under which no component is
    (LOCK, &[("c", EMPTY), ("x", EMPTY)], LOCK),
    (LOCK, &[], LOCK),
    (BUNDLE, &[("a", TYPED)], BUNDLE),
    (NESTED, &[("a", EMPTY)], NESTED),
    (PADDED, &[], TYPED),
];

/// What is refused, and with which text.
const REFUSED: &[(&[u8], &str)] = &[
    (
        b"",
        "the bytes at 0 are no part of a component: check that the file is whole, and a component",
    ),
    // a core module
    (
        b"\0asm\x01\0\0\0",
        "the bytes at 4 are no part of a component: check that the file is whole, and a component",
    ),
    // a section that is shorter than it says
    (
        b"\0asm\r\0\x01\0\x07\x04\x01\x41\0",
        "the bytes at 9 are no part of a component: check that the file is whole, and a component",
    ),
    // a section of values
    (
        b"\0asm\r\0\x01\0\x0c\x01\0",
        "the bytes at 8 are of a form that is not supported: leave out what uses it",
    ),
];

/// Adds a content, which is a component, under its name.
fn add(
    alloc: Global,
    contents: &mut IndexMap<Text, &'static [u8]>,
    name: &str,
    bytes: &'static [u8],
) -> Result<(), Fail>
    requires { AreComponents (content_in contents.old) }
    ensures { OnOk result (AreComponents (content_in contents.new)) }
{
    let _items = read_items(alloc, bytes)?;
    let name = Text::copy_of(alloc, name)?;
    let _old = contents.insert(name, bytes)?;
    Ok(())
}

/// The contents of a row as a map.
fn contents(
    alloc: Global,
    row: &[(&'static str, &'static [u8])],
) -> Result<IndexMap<Text, &'static [u8]>, Fail>
    ensures { IfOk result (λ contents. AreComponents (content_in contents)) }
{
    let mut contents = IndexMap::new(alloc);
    for (name, bytes) in row {
        add(alloc, &mut contents, name, *bytes)?;
    }
    Ok(contents)
}

/// Fails at the first component that is bundled otherwise.
fn are_bundled(alloc: Global, rows: &[Bundled]) -> Result<(), Fail> {
    for (number, (bytes, row, want)) in rows.iter().enumerate() {
        let contents = contents(alloc, row)?;
        let found = bundle(alloc, bytes, &contents)?;
        if found.as_slice() != *want {
            return Err(Fail::new(format_args!("row {number}")));
        }
    }
    Ok(())
}

#[test]
fn puts_contents_in_the_place_of_imports(rt: HostRuntime) -> Result<(), Fail> {
    are_bundled(rt.alloc(), BUNDLED)
}

/// Fails at the first row that is bundled, or refused with another text.
fn are_refused(alloc: Global, rows: &[(&[u8], &str)]) -> Result<(), Fail> {
    let contents = contents(alloc, &[])?;
    for (bytes, want) in rows {
        let Err(error) = bundle(alloc, bytes, &contents) else {
            return Err(Fail::new(format_args!("bundled: {want}")));
        };
        let text = format!(in alloc; "{error}")?;
        if text.as_str() != *want {
            return Err(Fail::new(format_args!("{want}: {text}")));
        }
    }
    Ok(())
}

#[test]
fn refuses_what_is_no_component(rt: HostRuntime) -> Result<(), Fail> {
    are_refused(rt.alloc(), REFUSED)
}
