//! Why a configuration could not be read or written.

ghost use Rattle.std.specs.Prelude.{◌≡◌};
ghost use Rattle.warg_config.specs.declared.error.ClientConfigError.TheVariants.{Memory as no_memory};

use std::alloc::{AllocError, AllocFailed};
use thiserror::Error;
use warg_base::FileError;
use warg_values::Memory;

/// Why a configuration could not be read or written, or names no folder.
#[derive(Clone, Copy, Debug, PartialEq, Eq, Error)]
pub enum ClientConfigError {
    /// The file is missing, or the outside failed.
    #[error("{0}")]
    File(FileError),
    /// The file's bytes are not the JSON of a configuration.
    #[error("the file is no configuration: write one JSON object, of texts for paths, and true or false for flags")]
    Form,
    /// No folder was handed in, and the configuration names none.
    #[error("there is no folder for this: name one in the configuration, or set the machine's own")]
    NoDirectory,
    /// The path of the file has no folder.
    #[error("the path of the configuration has no folder: give the path of a file")]
    NoParent,
    /// No memory was left.
    #[error("out of memory: free some, or give the program more, and try again")]
    Memory,
}

impl From<Memory> for ClientConfigError {
    ghost from_gives = { λ _ e. e ≡ no_memory };

    fn from(_memory: Memory) -> ClientConfigError {
        ClientConfigError::Memory
    }
}

impl From<AllocError> for ClientConfigError {
    ghost from_gives = { λ _ e. e ≡ no_memory };

    fn from(_error: AllocError) -> ClientConfigError {
        ClientConfigError::Memory
    }
}

impl<T: Drop> From<AllocFailed<T>> for ClientConfigError {
    ghost from_gives = { λ _ e. e ≡ no_memory };

    fn from(_error: AllocFailed<T>) -> ClientConfigError {
        ClientConfigError::Memory
    }
}
