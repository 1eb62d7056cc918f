//! `compose ROOT CONFIG OUT` over files and an output in memory. The components and the expected bytes are written out by
//! hand from the binary format, and the hash is that of `sha256sum`.

use crate::runs::end_of;
use std::alloc::Global;
use std::rt::HostRuntime;
use std::test::Fail;
use warg_base::{Files, MemoryFiles};

/// A component without items.
const EMPTY: &[u8] = b"\0asm\r\0\x01\0";

/// One that imports an instance of a function `f` as `b`, and exports it as `b`.
const TAKES: &[u8] =
    b"\0asm\r\0\x01\0\x07\x0e\x01\x42\x02\x01\x40\0\x01\0\x04\0\x01f\x01\0\x0a\x06\x01\0\x01b\x05\0\x0b\x07\x01\0\x01b\x05\0\0";

/// One that imports a function `g`, and exports it as `f`.
const GIVES: &[u8] =
    b"\0asm\r\0\x01\0\x07\x05\x01\x40\0\x01\0\x0a\x06\x01\0\x01g\x01\0\x0b\x07\x01\0\x01f\x01\0\0";

/// What composes [`TAKES`] of [`GIVES`]: `g` is imported; both are nested; an instance of the second is given `g`, and one
/// of the first that; and `b` of this one is exported.
const COMPOSED: &[u8] =
    b"\0asm\r\0\x01\0\x07\x05\x01\x40\0\x01\0\x0a\x06\x01\0\x01g\x01\0\x04\x29\0asm\r\0\x01\0\x07\x0e\x01\x42\x02\x01\x40\0\x01\0\x04\0\x01f\x01\0\x0a\x06\x01\0\x01b\x05\0\x0b\x07\x01\0\x01b\x05\0\0\x04\x20\0asm\r\0\x01\0\x07\x05\x01\x40\0\x01\0\x0a\x06\x01\0\x01g\x01\0\x0b\x07\x01\0\x01f\x01\0\0\x05\x0f\x02\0\x01\x01\x01g\x01\0\0\0\x01\x01b\x05\0\x06\x06\x01\x05\0\x01\x01b\x0b\x07\x01\0\x01b\x05\x02\0";

const COMPOSED_LINE: &str =
    "bytes 134 e68f145912631daa80d7016d6978de49ad8a85dd4fef756a55bdd8b87fffd3f9\n";

/// The words of the command.
const WORDS: &[&str] = &["compose", "root.wasm", "plan.yaml", "out.wasm"];

/// A configuration that names no folder beside its own.
const NEAR: &[u8] = b"search-paths: []\n";

/// The files that are there, each written by one call, the status, and the line. OUT is not written.
type Row = (&'static [(&'static str, &'static [u8])], u8, &'static str);

const REFUSED: &[Row] = &[
    (&[], 3, "missing root.wasm\n"),
    (&[("plan.yaml", NEAR)], 3, "missing root.wasm\n"),
    (&[("root.wasm", TAKES)], 3, "missing plan.yaml\n"),
    // CONFIG is judged before ROOT is read.
    (
        &[("root.wasm", b""), ("plan.yaml", b"colour: red\n")],
        6,
        "refused Yaml\n",
    ),
    (
        &[("root.wasm", b""), ("plan.yaml", b"\xff")],
        6,
        "refused NotUtf8\n",
    ),
    (
        &[("root.wasm", b""), ("plan.yaml", NEAR)],
        6,
        "refused BadComponent\n",
    ),
    (
        &[("root.wasm", TAKES), ("plan.yaml", NEAR)],
        6,
        "refused NoDependencies\n",
    ),
    (
        &[
            ("root.wasm", TAKES),
            ("plan.yaml", b"dependencies:\n  b: x.wasm\n"),
        ],
        6,
        "refused File\n",
    ),
    (
        &[("root.wasm", TAKES), ("plan.yaml", NEAR), ("b.wasm", EMPTY)],
        6,
        "refused NotCompatible\n",
    ),
    (
        &[
            ("root.wasm", TAKES),
            ("plan.yaml", b"definitions: [root.wasm]\n"),
        ],
        6,
        "refused NameExists\n",
    ),
];

/// The files of which a component is composed.
const GOOD: &[(&str, &[u8])] = &[("root.wasm", TAKES), ("plan.yaml", NEAR), ("b.wasm", GIVES)];

/// Files that are there, of which the call of this number fails, counted from 1.
fn files_of(
    alloc: Global,
    there: &[(&str, &[u8])],
    failing: Option<u64>,
) -> Result<MemoryFiles, Fail> {
    let mut files = MemoryFiles::new(alloc);
    for (path, bytes) in there {
        files.write(alloc, path, bytes)?;
    }
    if let Some(call) = failing {
        files.fail_at(call)?;
    }
    Ok(files)
}

/// Fails at the first row that ends otherwise.
fn are_refused(alloc: Global, rows: &[Row]) -> Result<(), Fail> {
    for (there, status, line) in rows {
        let end = end_of(alloc, WORDS, files_of(alloc, there, None)?, None)?;
        if !end.is(*status, line, None) {
            return Err(Fail::new(format_args!("{line}")));
        }
    }
    Ok(())
}

#[test]
fn a_component_is_composed_of_what_stands_beside_the_configuration(
    rt: HostRuntime,
) -> Result<(), Fail> {
    let alloc = rt.alloc();
    let end = end_of(alloc, WORDS, files_of(alloc, GOOD, None)?, None)?;
    assert!(rt; end.is(0, COMPOSED_LINE, Some(COMPOSED)));
    Ok(())
}

#[test]
fn what_is_not_composed_is_refused_by_its_variant(rt: HostRuntime) -> Result<(), Fail> {
    are_refused(rt.alloc(), REFUSED)
}

#[test]
fn files_and_lines_that_fail_in_a_composition_are_faults(rt: HostRuntime) -> Result<(), Fail> {
    let alloc = rt.alloc();
    // Behind three writes: whether ROOT is there, CONFIG, ROOT, whether `b.wasm` is there, `b.wasm`, whether `g.wasm` is
    // there, and OUT.
    for call in 4..11 {
        let end = end_of(alloc, WORDS, files_of(alloc, GOOD, Some(call))?, None)?;
        assert!(rt; end.is(4, "fault\n", None), "call {call}");
    }
    let end = end_of(alloc, WORDS, files_of(alloc, GOOD, None)?, Some(1))?;
    assert!(rt; end.is(4, "fault\n", Some(COMPOSED)), "the line");
    Ok(())
}
