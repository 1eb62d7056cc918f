//! Why an update over a link proves nothing.

ghost use Rattle.std.specs.Prelude.{◌≡◌};
ghost use Rattle.warg_session.specs.Refusals.{ask_refusal, ids_refusal};

use thiserror::Error;
use warg_hash::LogId;
use warg_page::IdsError;
use warg_update::{AskError, UpdateError};

/// Why an update over a link proves nothing.
#[derive(Debug, Drop, Error)]
pub enum UpdateRefusal {
    /// Two packages have the log of this id.
    #[error("two of the packages have the log `{0}`: name each package once")]
    SameLog(LogId),
    /// The link gave no reply.
    #[error("the link to the registry failed: try again")]
    LinkFault,
    /// A page is to be asked for, and no more pages may be.
    #[error("the registry sends more pages than the limit allows: raise the limit, or tell the registry's operator")]
    RoundLimit,
    /// The registry's name, or the client's token, is no value of a header.
    #[error("the registry's name or the token can't be sent in a header: take out their control characters")]
    BadHeader,
    /// A reply is refused.
    #[error("{0}")]
    Reply(UpdateError),
    /// No memory was left.
    #[error("out of memory: free some, or give the program more, and try again")]
    Memory,
}

impl From<AskError> for UpdateRefusal {
    ghost from_gives = { λ e refusal. refusal ≡ ask_refusal e };

    fn from(error: AskError) -> UpdateRefusal {
        match error {
            AskError::RoundLimit => UpdateRefusal::RoundLimit,
            AskError::BadHeader => UpdateRefusal::BadHeader,
            AskError::Memory => UpdateRefusal::Memory,
        }
    }
}

impl From<IdsError> for UpdateRefusal {
    ghost from_gives = { λ e refusal. refusal ≡ ids_refusal e };

    fn from(error: IdsError) -> UpdateRefusal {
        match error {
            IdsError::SameLog(id) => UpdateRefusal::SameLog(id),
            IdsError::Memory => UpdateRefusal::Memory,
        }
    }
}
