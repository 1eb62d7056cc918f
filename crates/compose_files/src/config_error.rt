//! Why no configuration is read.

ghost use Rattle.std.specs.Prelude.{◌≡◌};
ghost use Rattle.compose_files.specs.declared.config_error.ConfigError.TheVariants.{Memory as no_memory};

use std::fmt;
use thiserror::Error;
use warg_base::{FileError, Memory};
use yaml_read::{DeError, Marker};

/// Why no configuration is read from a file.
#[derive(Debug, Drop, Error)]
pub enum ConfigError {
    /// The file is missing or can't be read.
    #[error("the configuration: {0}")]
    File(FileError),
    /// The file's bytes are no UTF-8.
    #[error("the configuration is no UTF-8 text: save it as UTF-8")]
    NotUtf8,
    /// The file's text holds no configuration.
    #[error("the configuration: {0}")]
    Yaml(DeError),
    /// No memory was left.
    #[error("out of memory: free some, or give the program more, and try again")]
    Memory,
}

impl From<Memory> for ConfigError {
    ghost from_gives = { λ _ e. e ≡ no_memory };

    fn from(_error: Memory) -> ConfigError {
        ConfigError::Memory
    }
}

/// Why no configuration is read from a file, and where in its text reading ended.
#[derive(Debug, Drop)]
pub struct ConfigRefusal {
    /// Why.
    pub error: ConfigError,
    /// The place of the last part that was read, where the error itself tells none.
    pub place: Option<Marker>,
}

impl From<ConfigError> for ConfigRefusal {
    ghost from_gives = { λ error refusal. refusal.error ≡ error };

    fn from(error: ConfigError) -> ConfigRefusal {
        ConfigRefusal { error, place: None }
    }
}

impl fmt::Display for ConfigRefusal {
    fn fmt<W: fmt::Write>(&self, f: &mut fmt::Formatter<W>) -> fmt::Result {
        let error = &self.error;
        match self.place {
            Some(place) => write!(f, "{place}: {error}"),
            None => write!(f, "{error}"),
        }
    }
}
