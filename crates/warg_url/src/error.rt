//! Why a text is no registry's URL.

ghost use Rattle.std.specs.Prelude.{◌≡◌};
ghost use Rattle.warg_url.specs.declared.error.UrlError.TheVariants.{Memory as WantsMemory};

use std::alloc::{AllocError, AllocFailed};
use thiserror::Error;
use warg_values::Memory;

/// Why a text is no registry's URL.
#[derive(Clone, Copy, Debug, PartialEq, Eq, Error)]
pub enum UrlError {
    /// The text is no URL.
    #[error("the text is no URL: write it as `https://HOST/`")]
    NotUrl,
    /// The URL has another scheme than `https` and `http`.
    #[error("the URL has another scheme: a registry is reached by `https`")]
    NotHttps,
    /// The URL's scheme is `http`, and its host is another machine.
    #[error("`http` is taken to this machine alone, as `localhost` or `127.0.0.1`: write `https`")]
    Insecure,
    /// No memory was left.
    #[error("out of memory: free some, or give the program more, and try again")]
    Memory,
}

impl From<Memory> for UrlError {
    ghost from_gives = { λ _ e. e ≡ WantsMemory };

    fn from(_memory: Memory) -> UrlError {
        UrlError::Memory
    }
}

impl From<AllocError> for UrlError {
    ghost from_gives = { λ _ e. e ≡ WantsMemory };

    fn from(_error: AllocError) -> UrlError {
        UrlError::Memory
    }
}
