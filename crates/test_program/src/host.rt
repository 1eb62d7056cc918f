//! Files on the disk, in the folder that the tests run in, and standard output.

use std::alloc::Global;
use std::rt::HostRuntime;
use std::test::Fail;
use warg_base::{FileError, Files, HostFiles, HostOut, Out};

/// The bytes of a file, or the error, as a text of its kind.
fn read_by(rt: &HostRuntime, path: &str) -> Result<Vec<u8>, FileError> {
    let mut files = HostFiles::new(rt);
    files.read(rt.alloc(), path)
}

/// Writes a file.
fn write_by(rt: &HostRuntime, path: &str, bytes: &[u8]) -> Result<(), FileError> {
    let mut files = HostFiles::new(rt);
    files.write(rt.alloc(), path, bytes)
}

/// So many bytes, of growing values.
fn many(alloc: Global, count: usize) -> Result<Vec<u8>, Fail> {
    let mut bytes = Vec::new(alloc);
    for i in 0..count {
        bytes.push((i % 251) as u8)?;
    }
    Ok(bytes)
}

#[test]
fn a_file_is_read_as_it_was_written_last(rt: HostRuntime) -> Result<(), Fail> {
    for count in [0, 1, 65_535, 65_536, 65_537, 200_000, 3] {
        let bytes = many(rt.alloc(), count)?;
        write_by(&rt, "folder/of/tests/file", &bytes)?;
        let read = read_by(&rt, "folder/of/tests/file")?;
        assert!(rt; read.as_slice() == bytes.as_slice(), "{count}");
    }
    Ok(())
}

#[test]
fn a_missing_file_is_missing_and_a_folder_is_a_fault(rt: HostRuntime) -> Result<(), Fail> {
    write_by(&rt, "folder/of/faults/file", b"here")?;
    assert!(rt;
        matches!(
            read_by(&rt, "folder/of/faults/other"),
            Err(FileError::Missing)
        )
    );
    assert!(rt; matches!(read_by(&rt, "folder/of/faults"), Err(FileError::Failed)));
    assert!(rt;
        matches!(
            write_by(&rt, "folder/of/faults", b"x"),
            Err(FileError::Failed)
        )
    );
    assert!(rt; matches!(write_by(&rt, "/dev/full", b"x"), Err(FileError::Failed)));
    Ok(())
}

#[test]
fn standard_output_takes_a_line(rt: HostRuntime) -> Result<(), Fail> {
    let mut out = HostOut::new(&rt);
    assert!(rt; out.write_all(rt.alloc(), b"a line\n").is_ok());
    Ok(())
}
