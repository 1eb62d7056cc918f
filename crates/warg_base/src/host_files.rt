//! The host's files. No clause says what a disk holds: this is the trusted edge.

ghost use Rattle.std.specs.Prelude.{◌≡◌, ◌≤◌, length, None, IfOk};
ghost use Rattle.warg_values.specs.Faults.{Rose};

use crate::files::{FileError, Files};
use std::alloc::Global;
use std::fs::{File, OpenFile, OpenOptions};
use std::io::{ErrorKind, Read, Write};
use std::rt::Files as RuntimeFiles;
use std::{fs, io};
use warg_values::Text;

/// How many bytes one turn of reading asks for.
const CHUNK: usize = 65_536;

/// How many bytes of names one turn asks for. No name is cut, since none is longer than 255 bytes.
const NAMES: usize = 4_096;

/// A file that has not ended after so many turns of reading is a fault.
const TURNS: u64 = 4_294_967_296;

/// The host's files. It tells nothing of what they hold, and counts its faults.
#[derive(Drop)]
pub struct HostFiles<'r, R: RuntimeFiles<File = File>> {
    rt: &'r R,
    faults: u64,
}

impl<'r, R: RuntimeFiles<File = File>> HostFiles<'r, R> {
    /// The files that the runtime reaches.
    pub fn new(rt: &'r R) -> Self {
        HostFiles { rt, faults: 0 }
    }

    /// Counts a fault, but for want of memory, which is none.
    fn fault_of(&mut self, error: io::Error) -> FileError
        ensures never_falls { self.old.faults ≤ self.new.faults }
        ensures counted { result ≡ FileError.Failed → Rose self.old.faults self.new.faults }
        ensures not_missing { result ≡ FileError.Missing → ⊥ }
    {
        if error.kind() == ErrorKind::OutOfMemory {
            return FileError::Memory;
        }
        self.faults = self.faults.saturating_add(1);
        FileError::Failed
    }
}

fn is_missing(error: &io::Error) -> bool {
    error.kind() == ErrorKind::NotFound
}

/// Whether nothing is at a path, or a file stands where a folder of the path should.
fn is_absent(error: &io::Error) -> bool {
    matches!(error.kind(), ErrorKind::NotFound | ErrorKind::NotADirectory)
}

/// One turn of reading: a call that was interrupted before it read anything is made again.
fn turn<R: Read>(file: &mut R, buffer: &mut [u8]) -> io::Result<usize>
    ensures { IfOk result (λ count. count ≤ length buffer.old) }
{
    for _ in 0..u64::MAX {
        match file.read(buffer) {
            Err(error) if error.kind() == ErrorKind::Interrupted => {}
            answer => return answer,
        }
    }
    Err(io::Error::from(ErrorKind::Interrupted))
}

/// The bytes that are left in an open file.
fn rest_of(alloc: Global, file: &mut File) -> io::Result<Vec<u8>> {
    let mut buffer = vec![in alloc; 0u8; CHUNK]?;
    let mut bytes = Vec::new(alloc);
    for _ in 0..TURNS {
        match turn(file, &mut buffer)? {
            0 => return Ok(bytes),
            count => bytes.extend_from_slice(&buffer[..count])?,
        }
    }
    Err(io::Error::from(ErrorKind::Other))
}

/// Makes the folder of a path, and those above it.
fn make_folders<R: RuntimeFiles>(rt: &R, path: &str) -> io::Result<()> {
    match path.rsplit_once('/') {
        Some((folder, _)) if !folder.is_empty() => fs::create_dir_all(rt, folder),
        _ => Ok(()),
    }
}

/// Makes `bytes` the file at a path.
fn replace<R: RuntimeFiles<File = File>>(rt: &R, path: &str, bytes: &[u8]) -> io::Result<()> {
    make_folders(rt, path)?;
    let mut file = OpenOptions::new()
        .write(true)
        .create(true)
        .truncate(true)
        .open(rt, path)?;
    file.write_all(bytes)
}

/// Takes a file away, or a folder with all that lies under it.
fn remove_all<R: RuntimeFiles>(alloc: Global, rt: &R, path: &str) -> io::Result<()> {
    match fs::symlink_metadata(rt, path) {
        Ok(found) if found.is_dir() => rt.remove_dir_all(alloc, path),
        Ok(_) => rt.remove_file(path),
        Err(error) if is_absent(&error) => Ok(()),
        Err(error) => Err(error),
    }
}

/// The names in a folder, but its own and that of the folder above.
fn names_in<R: RuntimeFiles>(alloc: Global, rt: &R, folder: &str) -> io::Result<Vec<String>> {
    let mut reader = rt.open_dir(folder)?;
    let mut buffer = vec![in alloc; 0u8; NAMES]?;
    let mut names = Vec::new(alloc);
    for _ in 0..TURNS {
        let count = turn(&mut reader, &mut buffer)?;
        if count == 0 {
            return Ok(names);
        }
        push_names(alloc, &mut names, &buffer[..count])?;
    }
    Err(io::Error::from(ErrorKind::Other))
}

/// Adds names, each of which a NUL ends. One that is no UTF-8 is a fault, since no path can name it.
fn push_names(alloc: Global, names: &mut Vec<String>, bytes: &[u8]) -> io::Result<()> {
    for name in bytes.split(|byte| *byte == 0) {
        if name.is_empty() || name == b".".as_slice() || name == b"..".as_slice() {
            continue;
        }
        match str::from_utf8(name) {
            Ok(name) => names.push(String::from_str(alloc, name)?)?,
            Err(_) => return Err(io::Error::from(ErrorKind::InvalidData)),
        }
    }
    Ok(())
}

/// The paths of the files under a folder and its folders, ascending. Each folder is opened once.
fn files_under<R: RuntimeFiles>(alloc: Global, rt: &R, path: &str) -> io::Result<Vec<Text>> {
    let mut folders = Vec::new(alloc);
    folders.push(format!(in alloc; "{path}/")?)?;
    let mut files = Vec::new(alloc);
    for _ in 0..TURNS {
        let Some(folder) = folders.pop() else {
            files.sort()?;
            return Ok(files);
        };
        push_files(alloc, rt, &folder, &mut folders, &mut files)?;
    }
    Err(io::Error::from(ErrorKind::Other))
}

/// Adds the files of a folder, whose path ends with a slash, and its folders. One that is missing has none.
fn push_files<R: RuntimeFiles>(
    alloc: Global,
    rt: &R,
    folder: &String,
    folders: &mut Vec<String>,
    files: &mut Vec<Text>,
) -> io::Result<()> {
    let names = match names_in(alloc, rt, folder.as_str()) {
        Ok(names) => names,
        Err(error) if is_absent(&error) => return Ok(()),
        Err(error) => return Err(error),
    };
    for name in names {
        let path = format!(in alloc; "{folder}{name}")?;
        if fs::symlink_metadata(rt, path.as_str())?.is_dir() {
            folders.push(format!(in alloc; "{path}/")?)?;
        } else {
            files.push(Text::new(path))?;
        }
    }
    Ok(())
}

impl<'r, R: RuntimeFiles<File = File>> Files for HostFiles<'r, R> {
    ghost faults = { λ h. h.faults };

    ghost told = { λ _. None };

    fn read(&mut self, alloc: Global, path: &str) -> Result<Vec<u8>, FileError> {
        let mut file = match File::open(self.rt, path) {
            Ok(file) => file,
            Err(error) if is_missing(&error) => return Err(FileError::Missing),
            Err(error) => return Err(self.fault_of(error)),
        };
        match rest_of(alloc, &mut file) {
            Ok(bytes) => Ok(bytes),
            Err(error) => Err(self.fault_of(error)),
        }
    }

    fn write(&mut self, _alloc: Global, path: &str, bytes: &[u8]) -> Result<(), FileError> {
        match replace(self.rt, path, bytes) {
            Ok(()) => Ok(()),
            Err(error) => Err(self.fault_of(error)),
        }
    }

    fn is_file(&mut self, _alloc: Global, path: &str) -> Result<bool, FileError> {
        match fs::metadata(self.rt, path) {
            Ok(found) => Ok(found.is_file()),
            Err(error) if is_absent(&error) => Ok(false),
            Err(error) => Err(self.fault_of(error)),
        }
    }

    fn remove(&mut self, alloc: Global, path: &str) -> Result<(), FileError> {
        match remove_all(alloc, self.rt, path) {
            Ok(()) => Ok(()),
            Err(error) => Err(self.fault_of(error)),
        }
    }

    fn list(&mut self, alloc: Global, path: &str) -> Result<Vec<Text>, FileError> {
        match files_under(alloc, self.rt, path) {
            Ok(paths) => Ok(paths),
            Err(error) => Err(self.fault_of(error)),
        }
    }
}
