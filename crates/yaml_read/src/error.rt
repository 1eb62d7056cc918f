//! Why a value was not read.

ghost use Rattle.std.specs.Prelude.{◌≡◌};
ghost use Rattle.yaml_read.specs.declared.error.DeError.TheVariants.{Memory};
ghost use Rattle.yaml_read.specs.Conversions.{from_scan};

use std::alloc::{AllocError, AllocFailed};
use thiserror::Error;
use warg_values::{Memory as OutOfMemory, Text};
use yaml_small::{Event, Marker, ScanError};

/// Why a value was not read.
#[derive(Debug, Drop, PartialEq, Eq, Error)]
pub enum DeError {
    /// A scalar's text is not what the read takes: what was expected, the text, and its place.
    #[error("expected {0}, and `{1}` stands at {2}; correct it")]
    UnexpectedScalar(Text, Text, Marker),
    /// An event is not what the read takes: what was expected, the event, and its place.
    #[error("expected {0}, and {1} stands at {2}; correct it")]
    UnexpectedEvent(Text, Event, Marker),
    /// No document of a carried form goes on.
    #[error("{0}")]
    Scan(ScanError),
    /// A plain scalar is no number in the type's range: its text.
    #[error("`{0}` is no number that fits here; correct it")]
    ParseNumber(Text),
    /// Texts and bytes are never lent: read a text that is owned.
    #[error("this kind of value is not supported; read an owned text")]
    Unsupported,
    /// A real number has no value here: its place.
    #[error("the real number at {0} is not supported; write an integer")]
    RealForm(Marker),
    /// More stands behind the value: where.
    #[error("the text continues behind the value at {0}; remove what stands there")]
    NotEnded(Marker),
    /// A map has a field that the type does not have: its name.
    #[error("there is no field `{0}`; correct its name or remove it")]
    UnknownField(Text),
    /// A map lacks a field without a default: its name.
    #[error("the field `{0}` is missing; add it")]
    MissingField(Text),
    /// No memory was left.
    #[error("out of memory: free some, or give the program more, and try again")]
    Memory,
}

impl From<AllocError> for DeError {
    ghost from_gives = { λ _ e. e ≡ Memory };

    fn from(_error: AllocError) -> DeError {
        DeError::Memory
    }
}

impl<T: Drop> From<AllocFailed<T>> for DeError {
    ghost from_gives = { λ _ e. e ≡ Memory };

    fn from(_error: AllocFailed<T>) -> DeError {
        DeError::Memory
    }
}

impl From<OutOfMemory> for DeError {
    ghost from_gives = { λ _ e. e ≡ Memory };

    fn from(_error: OutOfMemory) -> DeError {
        DeError::Memory
    }
}

impl From<ScanError> for DeError {
    ghost from_gives = { λ error e. e ≡ from_scan error };

    fn from(error: ScanError) -> DeError {
        match error {
            ScanError::Memory => DeError::Memory,
            ScanError::Form(_) | ScanError::NotCarried(_) | ScanError::TooDeep(_) => DeError::Scan(
                error,
            ),
        }
    }
}
