//! The errors of updates, as a client tells them.

ghost use Rattle.std.specs.Prelude.{◌≡◌};
ghost use Rattle.warg_error.specs.Updates.{fetch_refusal, operator_refusal, package_refusal, page_refusal, presence_refusal, reply_refusal, signature_refusal, update_refusal};

use crate::error::{ClientError, Other};
use warg_hash::PackageName;
use warg_info::TakeError;
use warg_learn::{FetchError, UpdateRefusal};
use warg_page::{PageError, PresenceError};
use warg_update::{SignatureError, UpdateError};

/// That a record of the log of a registry's operator is refused.
fn of_operator(error: TakeError) -> ClientError
    ensures { result ≡ operator_refusal error }
{
    match error {
        TakeError::BadEnvelope => ClientError::Other(Other::BadEnvelope),
        TakeError::Unlawful(inner) => ClientError::OperatorValidationFailed { inner },
        TakeError::Memory => ClientError::Memory,
    }
}

/// That a record of a package's log is refused.
fn of_package(name: PackageName, error: TakeError) -> ClientError
    ensures { result ≡ package_refusal name error }
{
    match error {
        TakeError::BadEnvelope => ClientError::Other(Other::BadEnvelope),
        TakeError::Unlawful(inner) => ClientError::PackageValidationFailed { name, inner },
        TakeError::Memory => ClientError::Memory,
    }
}

impl From<PageError> for ClientError {
    ghost from_gives = { λ e told. told ≡ page_refusal e };

    fn from(error: PageError) -> ClientError {
        match error {
            PageError::Operator(error) => of_operator(error),
            PageError::Package { name, error } => of_package(name, error),
            PageError::UnknownLog(id) => ClientError::Other(Other::UnknownLog(id)),
            PageError::Memory => ClientError::Memory,
        }
    }
}

impl From<PresenceError> for ClientError {
    ghost from_gives = { λ e told. told ≡ presence_refusal e };

    fn from(error: PresenceError) -> ClientError {
        match error {
            PresenceError::NoOperatorRecords => ClientError::NoOperatorRecords,
            PresenceError::PackageLogEmpty { name } => ClientError::PackageLogEmpty { name },
            PresenceError::Memory => ClientError::Memory,
        }
    }
}

impl From<SignatureError> for ClientError {
    ghost from_gives = { λ e told. told ≡ signature_refusal e };

    fn from(error: SignatureError) -> ClientError {
        match error {
            SignatureError::UnknownKey { key_id } => {
                ClientError::InvalidCheckpointKeyId { key_id }
            }
            SignatureError::BadSignature => ClientError::InvalidCheckpointSignature,
            SignatureError::Memory => ClientError::Memory,
        }
    }
}

impl From<UpdateError> for ClientError {
    ghost from_gives = { λ e told. told ≡ reply_refusal e };

    fn from(error: UpdateError) -> ClientError {
        match error {
            // An update over a link feeds the replies alone that it asked for.
            UpdateError::NotAsked => ClientError::Memory,
            UpdateError::Api(error) => ClientError::from(error),
            UpdateError::PackageDoesNotExist { name } => ClientError::PackageDoesNotExist { name },
            UpdateError::NotBuilt { .. } => ClientError::NotBuilt,
            UpdateError::Page(error) => ClientError::from(error),
            UpdateError::Presence(error) => ClientError::from(error),
            UpdateError::Signature(error) => ClientError::from(error),
            UpdateError::Rewound { from, to } => {
                ClientError::CheckpointLogLengthRewind { from, to }
            }
            UpdateError::Changed { log_length } => {
                ClientError::CheckpointChangedLogRootOrMapRoot { log_length }
            }
            UpdateError::Memory => ClientError::Memory,
        }
    }
}

impl From<UpdateRefusal> for ClientError {
    ghost from_gives = { λ e told. told ≡ update_refusal e };

    fn from(error: UpdateRefusal) -> ClientError {
        match error {
            // An update of one package has no other package with its log.
            UpdateRefusal::SameLog(_) => ClientError::Memory,
            UpdateRefusal::LinkFault => ClientError::LinkFault,
            UpdateRefusal::RoundLimit => ClientError::RoundLimit,
            UpdateRefusal::BadHeader => ClientError::Other(Other::BadHeader),
            UpdateRefusal::Reply(error) => ClientError::from(error),
            UpdateRefusal::Memory => ClientError::Memory,
        }
    }
}

impl From<FetchError> for ClientError {
    ghost from_gives = { λ e told. told ≡ fetch_refusal e };

    fn from(error: FetchError) -> ClientError {
        match error {
            FetchError::Store(refusal) => ClientError::from(refusal),
            FetchError::Update(refusal) => ClientError::from(refusal),
            FetchError::Memory => ClientError::Memory,
        }
    }
}
