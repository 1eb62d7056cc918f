//! The host's standard output. No clause says what a terminal shows: this is the trusted edge.

ghost use Rattle.std.specs.Prelude.{None};

use crate::out::{Out, OutError};
use std::alloc::Global;
use std::io::{ErrorKind, Print};

/// Standard output. It tells nothing of what it took, and counts its faults.
#[derive(Drop)]
pub struct HostOut<'r, R: Print> {
    rt: &'r R,
    faults: u64,
}

impl<'r, R: Print> HostOut<'r, R> {
    /// The output that the runtime prints to.
    pub fn new(rt: &'r R) -> Self {
        HostOut { rt, faults: 0 }
    }
}

impl<'r, R: Print> Out for HostOut<'r, R> {
    ghost faults = { λ h. h.faults };

    ghost told = { λ _. None };

    fn write_all(&mut self, _alloc: Global, bytes: &[u8]) -> Result<(), OutError> {
        match self.rt.write_all(bytes) {
            Ok(()) => Ok(()),
            Err(error) if error.kind() == ErrorKind::OutOfMemory => Err(OutError::Memory),
            Err(_) => {
                self.faults = self.faults.saturating_add(1);
                Err(OutError::Failed)
            }
        }
    }
}
