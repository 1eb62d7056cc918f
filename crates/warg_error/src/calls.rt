//! Want of memory, and the errors of URLs, of stores and of calls of a registry, as a client tells them.

ghost use Rattle.std.specs.Prelude.{◌≡◌};
ghost use Rattle.warg_error.specs.Calls.{call_refusal, content_refusal, load_refusal, other_refusal, store_refusal, url_refusal};
ghost use Rattle.warg_error.specs.declared.error.ClientError.TheVariants.{Memory as WantsMemory};

use crate::error::{ClientError, Other};
use warg_api::{ClientError as CallError, Other as CallOther};
use warg_exchange::{ContentError, ServiceError};
use warg_learn::LoadError;
use warg_store::StoreError;
use warg_url::UrlError;
use warg_values::Memory;

impl From<Memory> for ClientError {
    ghost from_gives = { λ _ e. e ≡ WantsMemory };

    fn from(_memory: Memory) -> ClientError {
        ClientError::Memory
    }
}

impl From<UrlError> for ClientError {
    ghost from_gives = { λ e told. told ≡ url_refusal e };

    fn from(error: UrlError) -> ClientError {
        match error {
            UrlError::Memory => ClientError::Memory,
            error => ClientError::Other(Other::BadUrl(error)),
        }
    }
}

impl From<StoreError> for ClientError {
    ghost from_gives = { λ e told. told ≡ store_refusal e };

    fn from(error: StoreError) -> ClientError {
        match error {
            StoreError::Failed => ClientError::StoreFault,
            StoreError::Damaged(kind) => ClientError::Damaged(kind),
            StoreError::IncorrectContent { digest, expected } => {
                ClientError::IncorrectContent { digest, expected }
            }
            StoreError::Memory => ClientError::Memory,
        }
    }
}

impl From<CallOther> for ClientError {
    ghost from_gives = { λ e told. told ≡ other_refusal e };

    fn from(error: CallOther) -> ClientError {
        match error {
            CallOther::BadHeader => ClientError::Other(Other::BadHeader),
            CallOther::BadUrl => ClientError::Api(CallError::Other(CallOther::BadUrl)),
        }
    }
}

impl From<ContentError> for ClientError {
    ghost from_gives = { λ e told. told ≡ content_refusal e };

    fn from(refused: ContentError) -> ClientError {
        if let ServiceError::ContentDigestNotFound { digest } = &refused.error {
            return ClientError::ContentNotFound { digest: *digest };
        }
        ClientError::Api(CallError::Content(refused))
    }
}

impl From<CallError> for ClientError {
    ghost from_gives = { λ e told. told ≡ call_refusal e };

    fn from(error: CallError) -> ClientError {
        match error {
            CallError::LinkFault => ClientError::LinkFault,
            CallError::Content(refused) => ClientError::from(refused),
            CallError::Other(other) => ClientError::from(other),
            CallError::Memory => ClientError::Memory,
            error => ClientError::Api(error),
        }
    }
}

impl From<LoadError> for ClientError {
    ghost from_gives = { λ e told. told ≡ load_refusal e };

    fn from(error: LoadError) -> ClientError {
        match error {
            LoadError::Store(refusal) => ClientError::from(refusal),
            LoadError::Call(refusal) => ClientError::from(refusal),
            LoadError::Memory => ClientError::Memory,
        }
    }
}
