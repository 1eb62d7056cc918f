//! Why graphs are not encoded.

ghost use Rattle.std.specs.Prelude.{◌≡◌};
ghost use Rattle.compose_graph.specs.declared.compose_error.ComposeError.TheVariants.{Memory as no_memory};

use comp_shape::ShapeError;
use compose_check::CheckError;
use thiserror::Error;
use warg_base::{Memory, Text};

/// Why a graph is not encoded.
#[derive(Debug, Drop, Error)]
pub enum ComposeError {
    /// The instance that is to be exported is not there.
    #[error("there is no such instance to be exported: make it first, or export another one")]
    NoExportInstance,
    /// What is connected, left open or shown does not go together.
    #[error("{0}")]
    Check(CheckError),
    /// A component that is imported has the name of an import that is left open.
    #[error("a component and an import are both called `{0}`: give the component another name, or define it")]
    ImportNameClash(Text),
    /// This length, count or index to be written is above 2^32 - 1.
    #[error("{0} is more than a component can count: make the components smaller")]
    TooLarge(u64),
    /// The output is no component that can be read again.
    #[error("the output can't be read again: {0}")]
    InvalidOutput(ShapeError),
    /// No memory was left.
    #[error("out of memory: free some, or give the program more, and try again")]
    Memory,
}

impl From<Memory> for ComposeError {
    ghost from_gives = { λ _ e. e ≡ no_memory };

    fn from(_error: Memory) -> ComposeError {
        ComposeError::Memory
    }
}
