//! Why a reading ended, before the place of the fault is known.

ghost use Rattle.std.specs.Prelude.{◌≡◌};
ghost use Rattle.comp_reader.specs.Refusal.{SameFault, IsPlaced};
ghost use Rattle.comp_reader.specs.declared.refusal.Refusal.TheVariants.{Memory as no_memory};

use crate::error::ReadError;
use std::alloc::{AllocError, AllocFailed};
use warg_values::Memory;

/// Why bytes could not be read. The number is how many bytes are left where the fault stands, to the end of those that
/// were given.
#[derive(Clone, Copy, Debug)]
pub enum Refusal {
    /// No form of the format stands there.
    Form(usize),
    /// A form stands there that is not carried.
    NotCarried(usize),
    /// No memory was left, or more scopes were open at one place than are followed.
    Memory,
}

impl Refusal {
    /// The refusal of bytes behind which so many stand.
    pub fn before(self, behind: usize) -> Self
        ensures { SameFault self result }
    {
        match self {
            Refusal::Form(left) => Refusal::Form(left.saturating_add(behind)),
            Refusal::NotCarried(left) => Refusal::NotCarried(left.saturating_add(behind)),
            Refusal::Memory => Refusal::Memory,
        }
    }

    /// The refusal as an error, with its place in so many bytes.
    pub fn placed(self, len: usize) -> ReadError
        ensures { IsPlaced self result }
    {
        match self {
            Refusal::Form(left) => ReadError::Form(len.saturating_sub(left)),
            Refusal::NotCarried(left) => ReadError::NotCarried(len.saturating_sub(left)),
            Refusal::Memory => ReadError::Memory,
        }
    }
}

impl From<AllocError> for Refusal {
    ghost from_gives = { λ _ refusal. refusal ≡ no_memory };

    fn from(_error: AllocError) -> Refusal {
        Refusal::Memory
    }
}

impl<T: Drop> From<AllocFailed<T>> for Refusal {
    ghost from_gives = { λ _ refusal. refusal ≡ no_memory };

    fn from(_error: AllocFailed<T>) -> Refusal {
        Refusal::Memory
    }
}

impl From<Memory> for Refusal {
    ghost from_gives = { λ _ refusal. refusal ≡ no_memory };

    fn from(_error: Memory) -> Refusal {
        Refusal::Memory
    }
}
