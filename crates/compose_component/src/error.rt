//! Why a component could not be taken.

ghost use Rattle.std.specs.Prelude.{◌≡◌};
ghost use Rattle.compose_component.specs.declared.error.ComponentError.TheVariants.{Memory as no_memory};

use comp_shape::ShapeError;
use std::alloc::AllocFailed;
use thiserror::Error;
use warg_base::{FileError, Memory};

/// Why bytes or a file are no component.
#[derive(Clone, Copy, Debug, PartialEq, Eq, Error)]
pub enum ComponentError {
    /// The name is empty.
    #[error("a component needs a name: give it one")]
    BadName,
    /// The bytes have no shape.
    #[error("no component: {0}")]
    BadComponent(ShapeError),
    /// The file could not be read.
    #[error("the component's file: {0}")]
    File(FileError),
    /// No memory was left.
    #[error("out of memory: free some, or give the program more, and try again")]
    Memory,
}

impl From<Memory> for ComponentError {
    ghost from_gives = { λ _ e. e ≡ no_memory };

    fn from(_error: Memory) -> ComponentError {
        ComponentError::Memory
    }
}

impl<T: Drop> From<AllocFailed<T>> for ComponentError {
    ghost from_gives = { λ _ e. e ≡ no_memory };

    fn from(_error: AllocFailed<T>) -> ComponentError {
        ComponentError::Memory
    }
}
