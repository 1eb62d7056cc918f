//! Why a text is no carried document.

ghost use Rattle.std.specs.Prelude.{◌≡◌};
ghost use Rattle.yaml_small.specs.declared.error.ScanError.TheVariants.{Memory};

use crate::event::Marker;
use std::alloc::{AllocError, AllocFailed};
use thiserror::Error;
use warg_values::Memory as OutOfMemory;

/// Why no carried document goes on at a place of a text.
#[derive(Clone, Copy, Debug, PartialEq, Eq, Error)]
pub enum ScanError {
    /// The text is no YAML in one of the carried forms.
    #[error("the text is not well-formed YAML at {0}; correct it there")]
    Form(Marker),
    /// A form of YAML stands here that is not supported: an anchor, an alias, a tag, a directive, a `? ` key, a tab
    /// as indentation or between `---` and a node on its line, a plain or quoted scalar over several lines, an
    /// indentation indicator, a key directly within a flow list, or a second document.
    #[error("the form of YAML at {0} is not supported; write it in another way")]
    NotCarried(Marker),
    /// A list or map is nested more than 64 deep.
    #[error("lists and maps are nested more than 64 deep at {0}; nest them less deep")]
    TooDeep(Marker),
    /// No memory was left.
    #[error("out of memory: free some, or give the program more, and try again")]
    Memory,
}

impl From<AllocError> for ScanError {
    ghost from_gives = { λ _ e. e ≡ Memory };

    fn from(_error: AllocError) -> ScanError {
        ScanError::Memory
    }
}

impl<T: Drop> From<AllocFailed<T>> for ScanError {
    ghost from_gives = { λ _ e. e ≡ Memory };

    fn from(_error: AllocFailed<T>) -> ScanError {
        ScanError::Memory
    }
}

impl From<OutOfMemory> for ScanError {
    ghost from_gives = { λ _ e. e ≡ Memory };

    fn from(_error: OutOfMemory) -> ScanError {
        ScanError::Memory
    }
}
