//! The host's locks. No clause says that they keep others out: this is the trusted edge.

ghost use Rattle.std.specs.Prelude.{◌≡◌, ◌≤◌};
ghost use Rattle.warg_values.specs.Faults.{Rose};

use crate::file_lock::FileLock;
use crate::locks::{LockError, Locks};
use std::alloc::Global;
use std::fs::File;
use std::rt::Files as RuntimeFiles;

/// The host's locks, each on a file that is made for it. It counts its faults, and the paths that it met held.
#[derive(Drop)]
pub struct HostLocks<'r, R: RuntimeFiles<File = File>> {
    rt: &'r R,
    faults: u64,
    met: u64,
}

impl<'r, R: RuntimeFiles<File = File>> HostLocks<'r, R> {
    /// The locks that the runtime reaches.
    pub fn new(rt: &'r R) -> Self {
        HostLocks {
            rt,
            faults: 0,
            met: 0,
        }
    }

    /// Counts a fault, but for want of memory, which is none.
    fn counted(&mut self, error: LockError) -> LockError
        ensures same { result ≡ error }
        ensures met { self.new.met ≡ self.old.met }
        ensures never_falls { self.old.faults ≤ self.new.faults }
        ensures counted { result ≡ LockError.Failed → Rose self.old.faults self.new.faults }
    {
        if error == LockError::Failed {
            self.faults = self.faults.saturating_add(1);
        }
        error
    }
}

impl<'r, R: RuntimeFiles<File = File>> Locks for HostLocks<'r, R> {
    type Lock = FileLock;

    ghost faults = { λ h. h.faults };

    ghost met = { λ h. h.met };

    ghost locked = { λ l. l };

    fn try_lock(&mut self, alloc: Global, path: &str) -> Result<Option<FileLock>, LockError> {
        match FileLock::try_open_rw(self.rt, alloc, path) {
            Ok(Some(lock)) => Ok(Some(lock)),
            Ok(None) => {
                self.met = self.met.saturating_add(1);
                Ok(None)
            }
            Err(error) => Err(self.counted(error)),
        }
    }

    fn lock(&mut self, alloc: Global, path: &str) -> Result<FileLock, LockError> {
        match FileLock::open_rw(self.rt, alloc, path) {
            Ok(lock) => Ok(lock),
            Err(error) => Err(self.counted(error)),
        }
    }
}
