//! Files, as the outside gives and takes them.

ghost use Rattle.std.specs.Prelude.{◌≡◌, ◌≤◌, ℕ, Option, Some, None, is_some, IfOk, IfSome, IsErrOf, OnOk, OnErr};
ghost use Rattle.warg_values.specs.Faults.{Rose};
ghost use Rattle.warg_base.specs.Files.{FileMap, LeavesPartlyRemoved, LeavesPartlyWritten, file_at, paths_under, with_file, without_path};
ghost use Rattle.warg_base.specs.declared.files.FileError.TheVariants.{Memory as no_memory};

use std::alloc::{AllocError, AllocFailed, Global};
use thiserror::Error;
use warg_values::{Memory, Text};

/// Why a file could not be read or written.
#[derive(Clone, Copy, Debug, PartialEq, Eq, Error)]
pub enum FileError {
    /// Only a read answers this: no file has the path.
    #[error("there is no such file: check the path")]
    Missing,
    /// The outside failed, and the count of faults rose.
    #[error("the file could not be read or written: check its permissions and the disk")]
    Failed,
    /// No memory was left.
    #[error("out of memory: free some, or give the program more, and try again")]
    Memory,
}

impl From<AllocError> for FileError {
    ghost from_gives = { λ _ e. e ≡ no_memory };

    fn from(_error: AllocError) -> FileError {
        FileError::Memory
    }
}

impl<T: Drop> From<AllocFailed<T>> for FileError {
    ghost from_gives = { λ _ e. e ≡ no_memory };

    fn from(_error: AllocFailed<T>) -> FileError {
        FileError::Memory
    }
}

impl From<Memory> for FileError {
    ghost from_gives = { λ _ e. e ≡ no_memory };

    fn from(_error: Memory) -> FileError {
        FileError::Memory
    }
}

/// Files by their paths, with `/` between the parts of a path.
///
/// An implementation in memory tells which files there are. One over a disk tells nothing, and each
/// has a count of faults, by which a caller knows that the outside failed.
pub trait Files {
    /// How many calls failed so far.
    ghost faults: { Self → ℕ };

    /// The files that are there, where the object tells them.
    ghost told: { Self → Option FileMap };

    /// The bytes of the file at `path`.
    fn read(&mut self, alloc: Global, path: &str) -> Result<Vec<u8>, FileError>
        ensures never_falls { faults self.old ≤ faults self.new }
        ensures kept { told self.new ≡ told self.old }

        ensures found { IfOk result (λ bytes. IfSome (told self.old) (λ files. file_at files path.now ≡ Some bytes.items)) }
        ensures missing { IsErrOf result FileError.Missing → IfSome (told self.old) (λ files. file_at files path.now ≡ None) }
        ensures failed { IsErrOf result FileError.Failed → Rose (faults self.old) (faults self.new) };

    /// Makes `bytes` the file at `path`, and makes the folders above it.
    fn write(&mut self, alloc: Global, path: &str, bytes: &[u8]) -> Result<(), FileError>
        ensures never_falls { faults self.old ≤ faults self.new }

        ensures written { OnOk result (IfSome (told self.old) (λ files. told self.new ≡ Some (with_file files path.now bytes.now))) }
        ensures refused { OnErr result (LeavesPartlyWritten (told self.old) (told self.new) path.now bytes.now) }
        ensures not_missing { IsErrOf result FileError.Missing → ⊥ }
        ensures failed { IsErrOf result FileError.Failed → Rose (faults self.old) (faults self.new) };

    /// Whether a file has this path. A folder is none.
    fn is_file(&mut self, alloc: Global, path: &str) -> Result<bool, FileError>
        ensures never_falls { faults self.old ≤ faults self.new }
        ensures kept { told self.new ≡ told self.old }

        ensures answer { IfOk result (λ there. IfSome (told self.old) (λ files. there ≡ is_some (file_at files path.now))) }
        ensures not_missing { IsErrOf result FileError.Missing → ⊥ }
        ensures failed { IsErrOf result FileError.Failed → Rose (faults self.old) (faults self.new) };

    /// Takes the file at `path` away, or the folder at `path` with all that lies under it. One that is missing is none.
    fn remove(&mut self, alloc: Global, path: &str) -> Result<(), FileError>
        ensures never_falls { faults self.old ≤ faults self.new }

        ensures removed { OnOk result (IfSome (told self.old) (λ files. told self.new ≡ Some (without_path files path.now))) }
        ensures refused { OnErr result (LeavesPartlyRemoved (told self.old) (told self.new) path.now) }
        ensures not_missing { IsErrOf result FileError.Missing → ⊥ }
        ensures failed { IsErrOf result FileError.Failed → Rose (faults self.old) (faults self.new) };

    /// The paths of the files under the folder at `path`, and under its folders, ascending by their bytes. A folder that is
    /// missing has none.
    fn list(&mut self, alloc: Global, path: &str) -> Result<Vec<Text>, FileError>
        ensures never_falls { faults self.old ≤ faults self.new }
        ensures kept { told self.new ≡ told self.old }

        ensures listed { IfOk result (λ paths. IfSome (told self.old) (λ files. paths.items ≡ paths_under files path.now)) }
        ensures not_missing { IsErrOf result FileError.Missing → ⊥ }
        ensures failed { IsErrOf result FileError.Failed → Rose (faults self.old) (faults self.new) };
}
