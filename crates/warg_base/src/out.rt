//! Where printed lines go.

ghost use Rattle.std.specs.Prelude.{◌≡◌, ◌≤◌, ◌++◌, ℕ, List, Option, Some, IfSome, IsErrOf, OnOk, OnErr};
ghost use Rattle.warg_values.specs.Faults.{Rose};
ghost use Rattle.warg_base.specs.Out.{LeavesPartlyAdded};
ghost use Rattle.warg_base.specs.declared.out.OutError.TheVariants.{Memory as no_memory};

use std::alloc::{AllocError, Global};
use thiserror::Error;
use warg_values::Memory;

/// Why bytes could not be written.
#[derive(Clone, Copy, Debug, PartialEq, Eq, Error)]
pub enum OutError {
    /// The outside failed, and the count of faults rose.
    #[error("the output could not be written: check where it goes")]
    Failed,
    /// No memory was left.
    #[error("out of memory: free some, or give the program more, and try again")]
    Memory,
}

impl From<AllocError> for OutError {
    ghost from_gives = { λ _ e. e ≡ no_memory };

    fn from(_error: AllocError) -> OutError {
        OutError::Memory
    }
}

impl From<Memory> for OutError {
    ghost from_gives = { λ _ e. e ≡ no_memory };

    fn from(_error: Memory) -> OutError {
        OutError::Memory
    }
}

/// An output that takes bytes one after the other, as a terminal or a pipe does.
pub trait Out {
    /// How many calls failed so far.
    ghost faults: { Self → ℕ };

    /// The bytes written so far, where the object tells them.
    ghost told: { Self → Option (List ℕ) };

    /// Writes all of `bytes`. A refused call has written a front of them.
    fn write_all(&mut self, alloc: Global, bytes: &[u8]) -> Result<(), OutError>
        ensures never_falls { faults self.old ≤ faults self.new }

        ensures written { OnOk result (IfSome (told self.old) (λ before. told self.new ≡ Some (before ++ bytes.now))) }
        ensures refused { OnErr result (LeavesPartlyAdded (told self.old) (told self.new) bytes.now) }
        ensures failed { IsErrOf result OutError.Failed → Rose (faults self.old) (faults self.new) };
}
