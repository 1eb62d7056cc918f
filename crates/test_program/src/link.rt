//! `link ROOT OUT` over files and an output in memory. The expected bytes are written out by hand from the binary
//! format, and the hashes are those of `sha256sum`.

use crate::runs::end_of;
use std::alloc::Global;
use std::rt::HostRuntime;
use std::test::Fail;
use warg_base::{Files, MemoryFiles};

/// The header of a component.
const EMPTY: &[u8] = b"\0asm\r\0\x01\0";

/// A component that exports the tuple of two `u32` as `t`.
const TUPLE: &[u8] = b"\0asm\r\0\x01\0\x07\x05\x01\x6f\x02\x79\x79\x0b\x07\x01\0\x01t\x03\0\0";

/// A component with a custom section.
const CUSTOM: &[u8] = b"\0asm\r\0\x01\0\0\x04\x01xxx";

/// A component that imports a component `c` of a type without declarations.
const IMPORTS: &[u8] = b"\0asm\r\0\x01\0\x07\x03\x01\x41\0\x0a\x06\x01\0\x01c\x04\0";

/// A component that exports a resource as `r`.
const RESOURCE: &[u8] = b"\0asm\r\0\x01\0\x07\x04\x01\x3f\x7f\0\x0b\x07\x01\0\x01r\x03\0\0";

/// A component that makes a resource, and imports an instance `n` that exports this resource as `r`.
const BOUND: &[u8] =
    b"\0asm\r\0\x01\0\x07\x12\x02\x3f\x7f\0\x42\x02\x02\x03\x02\x01\0\x04\0\x01r\x03\0\0\x0a\x06\x01\0\x01n\x05\x01";

/// What links [`EMPTY`]: it is nested, and has one instance.
const EMPTY_LINKED: &[u8] = b"\0asm\r\0\x01\0\x04\x08\0asm\r\0\x01\0\x05\x04\x01\0\0\0";

/// What links [`TUPLE`]: it is nested, has one instance, and `t` of that is exported again.
const TUPLE_LINKED: &[u8] =
    b"\0asm\r\0\x01\0\x04\x18\0asm\r\0\x01\0\x07\x05\x01\x6f\x02\x79\x79\x0b\x07\x01\0\x01t\x03\0\0\x05\x04\x01\0\0\0\x06\x06\x01\x03\0\0\x01t\x0b\x07\x01\0\x01t\x03\0\0";

/// What links [`CUSTOM`]: it is nested, and has one instance.
const CUSTOM_LINKED: &[u8] =
    b"\0asm\r\0\x01\0\x04\x0e\0asm\r\0\x01\0\0\x04\x01xxx\x05\x04\x01\0\0\0";

/// What links [`IMPORTS`]: `c` is imported, and given to the instance of what is nested.
const IMPORTS_LINKED: &[u8] =
    b"\0asm\r\0\x01\0\x07\x03\x01\x41\0\x0a\x06\x01\0\x01c\x04\0\x04\x15\0asm\r\0\x01\0\x07\x03\x01\x41\0\x0a\x06\x01\0\x01c\x04\0\x05\x08\x01\0\x01\x01\x01c\x04\0";

/// What links [`RESOURCE`]: it is nested, has one instance, and `r` of that is exported again.
const RESOURCE_LINKED: &[u8] =
    b"\0asm\r\0\x01\0\x04\x17\0asm\r\0\x01\0\x07\x04\x01\x3f\x7f\0\x0b\x07\x01\0\x01r\x03\0\0\x05\x04\x01\0\0\0\x06\x06\x01\x03\0\0\x01r\x0b\x07\x01\0\x01r\x03\0\0";

/// The lines of these five.
const EMPTY_LINE: &str =
    "bytes 24 251c41b4a061e17112655e1ae12d851da9dbdef7499d0bd5b11cb933ca4fa8cd\n";

const TUPLE_LINE: &str =
    "bytes 57 e41da149a1013026158395250a1d4b819ead3f2e0d47a57de1fd964442c5d451\n";

const CUSTOM_LINE: &str =
    "bytes 30 6698ba91dd3f88a69b6b2992e9723daddd355c1864c6f07c9f8f4119bc42fb4e\n";

const IMPORTS_LINE: &str =
    "bytes 54 67fe70aaa3058ee522d94471beb5fce9b34a0ab8d05f65212076216aa598b5c3\n";

const RESOURCE_LINE: &str =
    "bytes 56 06fda475ede42663551e476fe9653a740c812c38d87b50cc7911baee1486aff6\n";

/// What a run is given.
#[derive(Clone, Copy)]
struct Given<'a> {
    words: &'a [&'a str],
    /// The bytes of the file `root.wasm`, where there is one.
    root: Option<&'a [u8]>,
    /// The calls of the files and of the output that fail, counted from 1.
    failing_file: Option<u64>,
    failing_line: Option<u64>,
}

const LINK: &[&str] = &["link", "root.wasm", "out.wasm"];

/// A link of these bytes, in which no call fails.
fn of_root(root: &[u8]) -> Given<'_> {
    Given {
        words: LINK,
        root: Some(root),
        failing_file: None,
        failing_line: None,
    }
}

/// Whether a run ends with this status and this line, and leaves these bytes in OUT, or no OUT. The file `root.wasm` is
/// written by the first call of the files.
fn ends(
    alloc: Global,
    given: Given<'_>,
    status: u8,
    line: &str,
    written: Option<&[u8]>,
) -> Result<bool, Fail> {
    let mut files = MemoryFiles::new(alloc);
    if let Some(root) = given.root {
        files.write(alloc, "root.wasm", root)?;
    }
    if let Some(call) = given.failing_file {
        files.fail_at(call)?;
    }
    let end = end_of(alloc, given.words, files, given.failing_line)?;
    Ok(end.is(status, line, written))
}

#[test]
fn a_component_is_nested_and_given_what_it_imports_and_exports_what_it_exports(
    rt: HostRuntime,
) -> Result<(), Fail> {
    let rows = [
        (EMPTY, EMPTY_LINE, EMPTY_LINKED),
        (TUPLE, TUPLE_LINE, TUPLE_LINKED),
        (CUSTOM, CUSTOM_LINE, CUSTOM_LINKED),
        (IMPORTS, IMPORTS_LINE, IMPORTS_LINKED),
        (RESOURCE, RESOURCE_LINE, RESOURCE_LINKED),
    ];
    for (root, line, written) in rows {
        assert!(rt;
            ends(rt.alloc(), of_root(root), 0, line, Some(written))?,
            "{line}"
        );
    }
    Ok(())
}

#[test]
fn what_is_no_component_or_imports_a_resource_of_its_own_is_refused(
    rt: HostRuntime,
) -> Result<(), Fail> {
    let rows: [(&str, &[u8], &str); 2] = [
        (
            "a core module",
            b"\0asm\x01\0\0\0",
            "refused BadComponent\n",
        ),
        (
            "an import of its own resource",
            BOUND,
            "refused Incompatible\n",
        ),
    ];
    for (name, root, line) in rows {
        assert!(rt; ends(rt.alloc(), of_root(root), 6, line, None)?, "{name}");
    }
    Ok(())
}

#[test]
fn a_missing_component_is_named(rt: HostRuntime) -> Result<(), Fail> {
    let missing = Given {
        root: None,
        ..of_root(EMPTY)
    };
    let not_told = Given {
        failing_line: Some(1),
        ..missing
    };
    assert!(rt; ends(rt.alloc(), missing, 3, "missing root.wasm\n", None)?);
    assert!(rt;
        ends(rt.alloc(), not_told, 3, "", None)?,
        "its line is not taken"
    );
    Ok(())
}

#[test]
fn files_and_lines_that_fail_are_faults(rt: HostRuntime) -> Result<(), Fail> {
    let rows = [
        ("the read", Some(2), None, None),
        ("the write", Some(3), None, None),
        (
            "the line, once OUT is written",
            None,
            Some(1),
            Some(EMPTY_LINKED),
        ),
    ];
    for (name, failing_file, failing_line, written) in rows {
        let given = Given {
            failing_file,
            failing_line,
            ..of_root(EMPTY)
        };
        assert!(rt; ends(rt.alloc(), given, 4, "fault\n", written)?, "{name}");
    }
    Ok(())
}

#[test]
fn other_words_are_no_command(rt: HostRuntime) -> Result<(), Fail> {
    let rows: [&[&str]; 2] = [&["link", "root.wasm"], &["join", "root.wasm", "out.wasm"]];
    for words in rows {
        let given = Given {
            words,
            ..of_root(EMPTY)
        };
        assert!(rt; ends(rt.alloc(), given, 2, "usage\n", None)?);
    }
    Ok(())
}
