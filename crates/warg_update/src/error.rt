//! Why an update does not go on.

ghost use Rattle.std.specs.Prelude.{◌≡◌};
ghost use Rattle.warg_update.specs.Errors.{ask_error, call_error, page_error, presence_error, signature_error};
ghost use Rattle.warg_update.specs.declared.error.AskError.TheVariants.{Memory as WantsMemory};

use crate::signature::SignatureError;
use thiserror::Error;
use warg_api::ClientError;
use warg_hash::PackageName;
use warg_page::{PageError, PresenceError};
use warg_url::HeaderError;
use warg_values::Memory;

/// Why an update asks nothing, though it is not over.
#[derive(Clone, Copy, Debug, PartialEq, Eq, Error)]
pub enum AskError {
    /// A page is to be asked for, and no more pages may be.
    #[error("the registry sends more pages than the limit allows: raise the limit, or tell the registry's operator")]
    RoundLimit,
    /// The registry's name, or the client's token, is no value of a header.
    #[error("the registry's name or the token can't be sent in a header: take out their control characters")]
    BadHeader,
    /// No memory was left.
    #[error("out of memory: free some, or give the program more, and try again")]
    Memory,
}

impl From<HeaderError> for AskError {
    ghost from_gives = { λ e told. told ≡ ask_error e };

    fn from(error: HeaderError) -> AskError {
        match error {
            HeaderError::BadHeader => AskError::BadHeader,
            HeaderError::Memory => AskError::Memory,
        }
    }
}

impl From<Memory> for AskError {
    ghost from_gives = { λ _ e. e ≡ WantsMemory };

    fn from(_memory: Memory) -> AskError {
        AskError::Memory
    }
}

/// Why a reply is refused that an update asked for.
#[derive(Debug, Drop, Error)]
pub enum UpdateError {
    /// Nothing was asked: the update is over, or its next page may not be asked for.
    #[error("no reply was awaited: ask for the next request first")]
    NotAsked,
    /// The reply does not give what was asked, or its proofs do not show it.
    #[error("{0}")]
    Api(ClientError),
    /// The registry does not find the log of a package, and no hint at another registry is followed.
    #[error("the registry has no package {name}: check the package's name and the registry")]
    PackageDoesNotExist {
        /// The package's name.
        name: PackageName,
    },
    /// The registry does not find the log of a package, and tells of another registry.
    #[error("the registry tells of another registry for {name}, and such hints are not supported: name that registry")]
    NotBuilt {
        /// The package's name.
        name: PackageName,
    },
    /// A page brings a record that is refused.
    #[error("{0}")]
    Page(PageError),
    /// The last page leaves a log without a record.
    #[error("{0}")]
    Presence(PresenceError),
    /// The checkpoint is not the operator's.
    #[error("{0}")]
    Signature(SignatureError),
    /// The checkpoint is of a shorter log than the stored one.
    #[error("the registry's log has {to} records, and had {from} before: do not trust this registry")]
    Rewound {
        /// The stored length, in records.
        from: u64,
        /// The new length, in records.
        to: u64,
    },
    /// The checkpoint has the stored one's length, and another root.
    #[error("the registry's log of {log_length} records is another one than before: do not trust this registry")]
    Changed {
        /// The length, in records.
        log_length: u64,
    },
    /// No memory was left.
    #[error("out of memory: free some, or give the program more, and try again")]
    Memory,
}

impl From<ClientError> for UpdateError {
    ghost from_gives = { λ e told. told ≡ call_error e };

    fn from(error: ClientError) -> UpdateError {
        match error {
            ClientError::Memory => UpdateError::Memory,
            error => UpdateError::Api(error),
        }
    }
}

impl From<PageError> for UpdateError {
    ghost from_gives = { λ e told. told ≡ page_error e };

    fn from(error: PageError) -> UpdateError {
        match error {
            PageError::Memory => UpdateError::Memory,
            error => UpdateError::Page(error),
        }
    }
}

impl From<PresenceError> for UpdateError {
    ghost from_gives = { λ e told. told ≡ presence_error e };

    fn from(error: PresenceError) -> UpdateError {
        match error {
            PresenceError::Memory => UpdateError::Memory,
            error => UpdateError::Presence(error),
        }
    }
}

impl From<SignatureError> for UpdateError {
    ghost from_gives = { λ e told. told ≡ signature_error e };

    fn from(error: SignatureError) -> UpdateError {
        match error {
            SignatureError::Memory => UpdateError::Memory,
            error => UpdateError::Signature(error),
        }
    }
}
