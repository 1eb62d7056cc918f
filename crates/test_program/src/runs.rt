//! Runs of words over files and an output in memory.

use std::alloc::Global;
use std::test::Fail;
use warg_base::{Files, MemoryFiles, MemoryOut};
use warg_program::run;

/// How a run ended: its status, what it printed, and the bytes of `out.wasm`, where there is such a file.
#[derive(Drop)]
pub struct End {
    status: u8,
    printed: String,
    written: Option<Vec<u8>>,
}

impl End {
    /// Whether it is this status and this line, and these bytes are in OUT, or there is no OUT.
    pub fn is(&self, status: u8, line: &str, written: Option<&[u8]>) -> bool {
        let is_written = match (&self.written, written) {
            (None, None) => true,
            (Some(bytes), Some(expected)) => bytes.as_slice() == expected,
            _ => false,
        };
        self.status == status && self.printed.as_str() == line && is_written
    }
}

/// Runs words over files. Of the output the call of this number fails, counted from 1.
pub fn end_of(
    alloc: Global,
    words: &[&str],
    mut files: MemoryFiles,
    failing_line: Option<u64>,
) -> Result<End, Fail> {
    let mut out = MemoryOut::new(alloc);
    if let Some(call) = failing_line {
        out.fail_at(call)?;
    }
    let mut owned = Vec::new(alloc);
    for word in words {
        owned.push(String::from_str(alloc, word)?)?;
    }
    let status = run(alloc, &owned, &mut files, &mut out);
    let written = match files.read(alloc, "out.wasm") {
        Ok(bytes) => Some(bytes),
        Err(_) => None,
    };
    Ok(End {
        status,
        printed: String::from_utf8_lossy(alloc, out.bytes())?,
        written,
    })
}
