//! A file that is locked. No clause says that it keeps others out: this is the trusted edge.

ghost use Rattle.std.specs.Prelude.{◌≡◌, IfOk, IfSome};

use crate::locks::LockError;
use std::alloc::Global;
use std::fs::{File, OpenFile, OpenOptions, TryLockError};
use std::io::{ErrorKind, Read, Seek, SeekFrom, Write};
use std::marker::Model;
use std::rt::Files as RuntimeFiles;
use std::{fs, io};
use warg_values::Text;

/// How a file is locked.
#[derive(Clone, Copy)]
enum Access {
    /// By several at once, to read.
    Shared,
    /// By one alone, to read and to write.
    Exclusive,
}

/// A file that is open and locked. The lock goes when this is dropped. A clause sees its path.
#[derive(Debug, Drop)]
pub struct FileLock {
    file: File,
    path: Text,
}

impl Model for FileLock {
    ghost use Rattle.std.specs.Prelude.{ℕ, List};

    ghost Value = { List ℕ };

    ghost view = { λ l. l.path };
}

/// Want of memory is `Memory`, and any other error of the host a fault.
fn lock_error(error: io::Error) -> LockError {
    if error.kind() == ErrorKind::OutOfMemory {
        LockError::Memory
    } else {
        LockError::Failed
    }
}

/// Makes the folder of a path, and those above it.
fn make_folders<R: RuntimeFiles>(rt: &R, path: &str) -> io::Result<()> {
    match path.rsplit_once('/') {
        Some((folder, _)) if !folder.is_empty() => fs::create_dir_all(rt, folder),
        _ => Ok(()),
    }
}

/// Opens a file to be locked. For one alone the file and its folders are made.
fn open<R: RuntimeFiles<File = File>>(rt: &R, path: &str, access: Access) -> io::Result<File> {
    match access {
        Access::Shared => File::open(rt, path),
        Access::Exclusive => {
            make_folders(rt, path)?;
            OpenOptions::new()
                .read(true)
                .write(true)
                .create(true)
                .open(rt, path)
        }
    }
}

/// Locks an open file, unless somebody else holds it.
fn try_lock(file: &File, access: Access) -> Result<bool, LockError> {
    let answer = match access {
        Access::Shared => file.try_lock_shared(),
        Access::Exclusive => file.try_lock(),
    };
    match answer {
        Ok(()) => Ok(true),
        Err(TryLockError::WouldBlock) => Ok(false),
        Err(TryLockError::Error(error)) => Err(lock_error(error)),
    }
}

impl FileLock {
    /// Opens and locks a file for one alone, unless somebody holds it: then the answer is `None`. The file and its
    /// folders are made.
    pub fn try_open_rw<R: RuntimeFiles<File = File>>(
        rt: &R,
        alloc: Global,
        path: &str,
    ) -> Result<Option<FileLock>, LockError>
        ensures { IfOk result (λ found. IfSome found (λ lock. lock ≡ path.now)) }
    {
        FileLock::try_open(rt, alloc, path, Access::Exclusive)
    }

    /// The same, but waits while somebody holds it.
    pub fn open_rw<R: RuntimeFiles<File = File>>(
        rt: &R,
        alloc: Global,
        path: &str,
    ) -> Result<FileLock, LockError>
        ensures { IfOk result (λ lock. lock ≡ path.now) }
    {
        FileLock::open(rt, alloc, path, Access::Exclusive)
    }

    /// Opens and locks a file that is there, for several at once to read, unless one alone holds it: then the answer
    /// is `None`.
    pub fn try_open_ro<R: RuntimeFiles<File = File>>(
        rt: &R,
        alloc: Global,
        path: &str,
    ) -> Result<Option<FileLock>, LockError>
        ensures { IfOk result (λ found. IfSome found (λ lock. lock ≡ path.now)) }
    {
        FileLock::try_open(rt, alloc, path, Access::Shared)
    }

    /// The same, but waits while one alone holds it.
    pub fn open_ro<R: RuntimeFiles<File = File>>(
        rt: &R,
        alloc: Global,
        path: &str,
    ) -> Result<FileLock, LockError>
        ensures { IfOk result (λ lock. lock ≡ path.now) }
    {
        FileLock::open(rt, alloc, path, Access::Shared)
    }

    /// Opens and locks a file, unless somebody holds it.
    fn try_open<R: RuntimeFiles<File = File>>(
        rt: &R,
        alloc: Global,
        path: &str,
        access: Access,
    ) -> Result<Option<FileLock>, LockError>
        ensures { IfOk result (λ found. IfSome found (λ lock. lock ≡ path.now)) }
    {
        let name = Text::copy_of(alloc, path)?;
        let file = open(rt, path, access).map_err(lock_error)?;
        if try_lock(&file, access)? {
            Ok(Some(FileLock { file, path: name }))
        } else {
            Ok(None)
        }
    }

    /// Opens and locks a file, and waits while somebody holds it.
    fn open<R: RuntimeFiles<File = File>>(
        rt: &R,
        alloc: Global,
        path: &str,
        access: Access,
    ) -> Result<FileLock, LockError>
        ensures { IfOk result (λ lock. lock ≡ path.now) }
    {
        let name = Text::copy_of(alloc, path)?;
        let file = open(rt, path, access).map_err(lock_error)?;
        match access {
            Access::Shared => file.lock_shared().map_err(lock_error)?,
            Access::Exclusive => file.lock().map_err(lock_error)?,
        }
        Ok(FileLock { file, path: name })
    }

    /// The file.
    pub fn file(&self) -> &File {
        &self.file
    }

    /// Its path.
    pub fn path(&self) -> &str
        ensures { result.now ≡ self.now }
    {
        self.path.as_str()
    }

    /// The path of its folder, which is empty where the path names none.
    pub fn parent(&self) -> &str {
        match self.path.as_str().rsplit_once('/') {
            Some((folder, _)) => folder,
            None => "",
        }
    }
}

impl Read for FileLock {
    fn read(&mut self, buffer: &mut [u8]) -> io::Result<usize> {
        self.file.read(buffer)
    }
}

impl Write for FileLock {
    fn write(&mut self, bytes: &[u8]) -> io::Result<usize> {
        self.file.write(bytes)
    }

    fn flush(&mut self) -> io::Result<()> {
        self.file.flush()
    }
}

impl Seek for FileLock {
    fn seek(&mut self, place: SeekFrom) -> io::Result<u64> {
        self.file.seek(place)
    }
}
