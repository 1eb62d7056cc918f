//! Scans of lines, each with ample memory.

use std::alloc::Global;
use std::test::Fail;
use test_check::is_row;
use yaml_scan::{Head, QuoteError, Quoted, block_scalar, double_quoted, single_quoted};

/// The text of a quoted scalar, a bar, and what stands behind it.
fn parts(alloc: Global, quoted: Quoted<'_>) -> Result<String, Fail> {
    let mut out = String::from_utf8(quoted.text).ok().ok_or("no text")?;
    let rest = str::from_utf8(quoted.rest)?;
    out.push_str("|")?;
    out.push_str(rest)?;
    Ok(out)
}

/// The same of a single-quoted or double-quoted scalar behind its quote, or why there is none.
fn quoted(alloc: Global, double: bool, line: &str) -> Result<String, Fail> {
    let found = if double {
        double_quoted(alloc, line.as_bytes())
    } else {
        single_quoted(alloc, line.as_bytes())
    };
    match found {
        Ok(quoted) => parts(alloc, quoted),
        Err(QuoteError::Open) => Ok(String::from_str(alloc, "open")?),
        Err(QuoteError::Bad(left)) => Ok(format!(in alloc; "bad {left}")?),
        Err(QuoteError::Memory) => Err(Fail::from("no memory")),
    }
}

/// Fails at the first line in which something else is found.
fn are_found(alloc: Global, table: &[(bool, &str, &str)]) -> Result<(), Fail> {
    for (double, line, want) in table {
        is_row(line, &quoted(alloc, *double, line)?, want)?;
    }
    Ok(())
}

#[test]
fn quoted_scalars_are_found(rt: HostRuntime) -> Result<(), Fail> {
    are_found(rt.alloc(), QUOTED)
}

/// The text of a block of two spaces' indentation.
fn block(alloc: Global, head: Head, lines: &str) -> Result<String, Fail> {
    match block_scalar(alloc, head, 2, Some(lines.as_bytes())) {
        Ok(found) => Ok(String::from_utf8(found.text).ok().ok_or("no text")?),
        Err(_) => Err(Fail::from("no block")),
    }
}

/// Fails at the first lines that make another text.
fn are_blocks(alloc: Global, table: &[(Head, &str, &str)]) -> Result<(), Fail> {
    for (head, lines, want) in table {
        is_row(lines, &block(alloc, *head, lines)?, want)?;
    }
    Ok(())
}

#[test]
fn blocks_are_put_together(rt: HostRuntime) -> Result<(), Fail> {
    are_blocks(rt.alloc(), BLOCKS)
}

/// Whether the quotes are double, a line behind a quote, and what is found in it.
const QUOTED: &[(bool, &str, &str)] = &[
    (false, "it''s' # x", "it's| # x"),
    (false, "a", "open"),
    (false, "a\u{1}b'", "bad 3"),
    (true, "\\x41\\u263a\\U0001f600\\/\"", "A\u{263a}\u{1f600}/|"),
    (true, "a\\", "open"),
    (true, "\\ud800\"", "bad 7"),
    (true, "\\U00110000\"", "bad 11"),
    (true, "\\x4", "bad 3"),
];

/// A head, lines, and their text.
const BLOCKS: &[(Head, &str, &str)] = &[
    (
        Head {
            folded: false,
            strip: false,
        },
        "  a\n  b\nc",
        "a\nb\n",
    ),
    (
        Head {
            folded: false,
            strip: true,
        },
        "  a\n\n  b\n",
        "a\n\nb",
    ),
    (
        Head {
            folded: true,
            strip: false,
        },
        "  a\n  b\n",
        "a b\n",
    ),
    (
        Head {
            folded: true,
            strip: true,
        },
        "  a\n\n  b\n   c\n",
        "a\nb\n c",
    ),
];
