//! The calls of files, over memory and over the disk: both give the same answers.

use std::alloc::Global;
use std::rt::HostRuntime;
use std::test::Fail;
use warg_base::{FileError, Files, HostFiles, MemoryFiles};

/// The paths under a folder, with a space behind each.
fn paths_of<F: Files>(alloc: Global, files: &mut F, folder: &str) -> Result<String, Fail> {
    let mut line = String::new(alloc);
    for path in files.list(alloc, folder)? {
        line.push_str(path.as_str())?;
        line.push_str(" ")?;
    }
    Ok(line)
}

/// Which of some paths are files, a letter for each.
fn kinds_of<F: Files>(alloc: Global, files: &mut F, paths: &[&str]) -> Result<String, Fail> {
    let mut line = String::new(alloc);
    for path in paths {
        let kind = if files.is_file(alloc, path)? {
            "f"
        } else {
            "-"
        };
        line.push_str(kind)?;
    }
    Ok(line)
}

/// Writes four files below a folder.
fn plant<F: Files>(alloc: Global, files: &mut F) -> Result<(), Fail> {
    for path in ["tree/b/d", "tree/a", "tree/b/c", "treetop"] {
        files.write(alloc, path, path.as_bytes())?;
    }
    Ok(())
}

/// What is there after each of some removals, as lines.
fn told_by<F: Files>(alloc: Global, files: &mut F) -> Result<String, Fail> {
    let mut text = String::new(alloc);
    plant(alloc, files)?;
    for removed in ["nothing", "tree/b/x", "tree/b", "tree/a", "tree", "treetop"] {
        files.remove(alloc, removed)?;
        let paths = paths_of(alloc, files, "tree")?;
        let kinds = kinds_of(
            alloc,
            files,
            &["tree/a", "tree/b", "tree/b/c", "tree/a/c", "treetop"],
        )?;
        text.push_str(format!(in alloc; "{removed}: {paths}{kinds}\n")?.as_str())?;
    }
    Ok(text)
}

const TOLD: &str = "nothing: tree/a tree/b/c tree/b/d f-f-f
tree/b/x: tree/a tree/b/c tree/b/d f-f-f
tree/b: tree/a f---f
tree/a: ----f
tree: ----f
treetop: -----
";

#[test]
fn files_in_memory_are_found_listed_and_removed(rt: HostRuntime) -> Result<(), Fail> {
    let mut files = MemoryFiles::new(rt.alloc());
    assert_eq!(rt; told_by(rt.alloc(), &mut files)?.as_str(), TOLD);
    Ok(())
}

#[test]
fn files_on_the_disk_are_found_listed_and_removed(rt: HostRuntime) -> Result<(), Fail> {
    let mut files = HostFiles::new(&rt);
    assert_eq!(rt; told_by(rt.alloc(), &mut files)?.as_str(), TOLD);
    Ok(())
}

/// How the call of a number answers that was listed to fail, of five calls of different kinds, and how the next one does.
fn fault_of(alloc: Global, call: u64) -> Result<String, Fail> {
    let mut files = MemoryFiles::new(alloc);
    files.fail_at(call)?;
    let mut text = String::new(alloc);
    for kind in 1..6u64 {
        let answer = match kind {
            1 => files.write(alloc, "a", b"a").is_ok(),
            2 => files.is_file(alloc, "a").is_ok(),
            3 => files.list(alloc, "").is_ok(),
            4 => matches!(files.read(alloc, "b"), Err(FileError::Missing)),
            _ => files.remove(alloc, "a").is_ok(),
        };
        text.push_str(if answer { "." } else { "!" })?;
    }
    Ok(text)
}

#[test]
fn only_the_listed_call_fails(rt: HostRuntime) -> Result<(), Fail> {
    for (call, answers) in [
        (1, "!...."),
        (2, ".!..."),
        (3, "..!.."),
        (4, "...!."),
        (5, "....!"),
        (6, "....."),
    ] {
        assert_eq!(rt; fault_of(rt.alloc(), call)?.as_str(), answers);
    }
    Ok(())
}
