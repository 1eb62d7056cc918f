//! Why compositions are not encoded.

ghost use Rattle.std.specs.Prelude.{◌≡◌};
ghost use Rattle.compose_encode.specs.Errors.{as_composition, of_check};
ghost use Rattle.compose_encode.specs.declared.refused.CompositionError.TheVariants.{Memory as no_memory};

use comp_format::EncodeError;
use compose_check::CheckError;
use thiserror::Error;
use warg_values::{Memory, Text};

/// Why a composition is not encoded.
#[derive(Debug, Drop, Error)]
pub enum CompositionError {
    /// What is joined, left open or shown does not go together.
    #[error("{0}")]
    Refused(CheckError),
    /// A component that is imported has the name of an import that is left open.
    #[error("a component and an import are both called `{0}`: give the component another name, or define it")]
    ImportNameClash(Text),
    /// This length, count or index to be written, or number of items of one index space, is above 2^32 - 1.
    #[error("{0} is more than a component can count: make the components smaller")]
    TooLarge(u64),
    /// No memory was left.
    #[error("out of memory: free some, or give the program more, and try again")]
    Memory,
}

impl From<Memory> for CompositionError {
    ghost from_gives = { λ _ e. e ≡ no_memory };

    fn from(_error: Memory) -> CompositionError {
        CompositionError::Memory
    }
}

impl From<EncodeError> for CompositionError {
    ghost from_gives = { λ error e. e ≡ as_composition error };

    fn from(error: EncodeError) -> CompositionError {
        match error {
            EncodeError::TooLarge(number) => CompositionError::TooLarge(number),
            EncodeError::Memory => CompositionError::Memory,
        }
    }
}

impl From<CheckError> for CompositionError {
    ghost from_gives = { λ error e. e ≡ of_check error };

    fn from(error: CheckError) -> CompositionError {
        match error {
            CheckError::Cycle(instance, name) => {
                CompositionError::Refused(CheckError::Cycle(instance, name))
            }
            CheckError::Incompatible(why) => {
                CompositionError::Refused(CheckError::Incompatible(why))
            }
            CheckError::Memory => CompositionError::Memory,
        }
    }
}
