//! Components from bytes and from files. The bytes were written out by hand from the binary format.

use std::alloc::Global;
use std::test::Fail;
use warg_base::{Files, MemoryFiles};
use wasm_compose::ComponentError;
use wasm_compose::graph::{Component, ExportIndex};

/// The header of a component.
const EMPTY: &[u8] = b"\0asm\r\0\x01\0";

/// A component that exports the tuple of two `u32` as `t`.
const TUPLE: &[u8] = b"\0asm\r\0\x01\0\x07\x05\x01\x6f\x02\x79\x79\x0b\x07\x01\0\x01t\x03\0\0";

/// A component with a custom section.
const CUSTOM: &[u8] = b"\0asm\r\0\x01\0\0\x04\x01xxx";

/// A component that imports a component `c` of a type without declarations.
const IMPORTS: &[u8] = b"\0asm\r\0\x01\0\x07\x03\x01\x41\0\x0a\x06\x01\0\x01c\x04\0";

/// A component that exports the tuple of two `u32` twice, as `t` and as `T`.
const TWICE: &[u8] =
    b"\0asm\r\0\x01\0\x07\x05\x01\x6f\x02\x79\x79\x0b\x0d\x02\0\x01t\x03\0\0\0\x01T\x03\0\0";

/// The name and the bytes of a component, and what taking it answers.
const TAKEN: &[(&str, &[u8], &str)] = &[
    ("a", EMPTY, "taken"),
    ("", EMPTY, "BadName"),
    ("a", CUSTOM, "taken"),
    ("a", IMPORTS, "taken"),
    ("a", TWICE, "BadComponent(Index(24))"),
    ("", TWICE, "BadName"),
    ("a", b"\0asm\x01\0\0\0", "BadComponent(Form(4))"),
];

/// The number of the call that fails, the name of the component, the path, and what taking the file answers. The first
/// call writes the file.
const FROM_FILES: &[(u64, &str, &str, &str)] = &[
    (3, "a", "root.wasm", "taken"),
    (3, "a", "other.wasm", "File(Missing)"),
    (2, "a", "root.wasm", "File(Failed)"),
    (2, "", "root.wasm", "BadName"),
    (3, "a", "twice.wasm", "BadComponent(Index(24))"),
];

/// An answer in the words of a row.
fn answer_text(
    alloc: Global,
    answer: &Result<Component<'_>, ComponentError>,
) -> Result<String, Fail> {
    match answer {
        Ok(_) => Ok(String::from_str(alloc, "taken")?),
        Err(error) => Ok(format!(in alloc; "{error:?}")?),
    }
}

/// What taking these bytes answers.
fn taken(alloc: Global, name: &str, bytes: &[u8]) -> Result<String, Fail> {
    let answer = Component::from_bytes(alloc, name, bytes);
    answer_text(alloc, &answer)
}

/// Files of which one is written, and the later call that fails.
fn files(alloc: Global, path: &str, bytes: &[u8], call: u64) -> Result<MemoryFiles, Fail> {
    let mut files = MemoryFiles::new(alloc);
    files.write(alloc, path, bytes)?;
    files.fail_at(call)?;
    Ok(files)
}

/// The files of a row that asks for this path.
fn files_for(alloc: Global, path: &str, call: u64) -> Result<MemoryFiles, Fail> {
    if path == "twice.wasm" {
        files(alloc, path, TWICE, call)
    } else {
        files(alloc, "root.wasm", TUPLE, call)
    }
}

/// What taking the file at this path answers, where this call fails.
fn from_file(alloc: Global, call: u64, name: &str, path: &str) -> Result<String, Fail> {
    let mut files = files_for(alloc, path, call)?;
    let answer = Component::from_file(alloc, &mut files, name, path);
    answer_text(alloc, &answer)
}

/// Fails at the first bytes of which taking them answers something else.
fn are_taken(alloc: Global, rows: &[(&str, &[u8], &str)]) -> Result<(), Fail> {
    for (name, bytes, want) in rows {
        let text = taken(alloc, name, bytes)?;
        if text.as_str() != *want {
            return Err(Fail::new(format_args!("{text} in place of {want}")));
        }
    }
    Ok(())
}

/// Fails at the first file of which taking it answers something else.
fn are_taken_from_files(alloc: Global, rows: &[(u64, &str, &str, &str)]) -> Result<(), Fail> {
    for (call, name, path, want) in rows {
        let text = from_file(alloc, *call, name, path)?;
        if text.as_str() != *want {
            return Err(Fail::new(format_args!("{path} at call {call}: {text}")));
        }
    }
    Ok(())
}

#[test]
fn components_are_taken_from_bytes_and_files(rt: HostRuntime) -> Result<(), Fail> {
    are_taken(rt.alloc(), TAKEN)?;
    are_taken_from_files(rt.alloc(), FROM_FILES)
}

/// Whether a component shows its name, its bytes and that it has one export.
fn is_shown(component: &Component<'_>) -> bool {
    component.name() == "a"
        && component.path().is_none()
        && component.bytes() == TUPLE
        && component.exports().count() == 1
        && component.export(ExportIndex(1)).is_none()
}

/// The first export of a component, written out.
fn export_text(alloc: Global, component: &Component<'_>) -> Result<String, Fail> {
    let shown = component.export(ExportIndex(0));
    Ok(format!(in alloc; "{shown:?}")?)
}

#[test]
fn a_component_shows_what_it_exports(rt: HostRuntime) -> Result<(), Fail> {
    let component = Component::from_bytes(rt.alloc(), "a", TUPLE)?;
    assert!(rt; is_shown(&component));
    let text = export_text(rt.alloc(), &component)?;
    assert_eq!(rt; text.as_str(), "Some((\"t\", Ty, 0))");
    Ok(())
}
