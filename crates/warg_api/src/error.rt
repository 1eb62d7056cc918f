//! Why a call of a registry gives no value.

ghost use Rattle.std.specs.Prelude.{◌≡◌};
ghost use Rattle.warg_api.specs.Errors.{url_error, inclusion_error as inclusion_error_of, consistency_error as consistency_error_of};

use http_header::HeaderValue;
use thiserror::Error;
use warg_exchange::{
    ContentError, FetchError, LedgerError, MonitorError, PackageError, ServiceError,
};
use warg_hash::{AnyHash, LogId};
use warg_proof::ProofFault;
use warg_url::UrlError;
use warg_values::Text;

/// Why a registry gives no proof.
#[derive(Debug, Drop, Error)]
pub enum ProofError {
    /// A bundle of proofs has another form, or holds other proofs than those that were asked for.
    #[error("{0}")]
    BundleFailure(ProofFault),
    /// A proof of inclusion gives another root.
    #[error("a proof gives the root {found} in place of {root}: do not trust this registry")]
    IncorrectProof {
        /// The root that was asked for.
        root: AnyHash,
        /// The root that the proof gives.
        found: AnyHash,
    },
    /// The registry answered an error.
    #[error("{0}")]
    Service(ServiceError),
}

/// What is wrong with a text that a call is given, or that a registry gives.
#[derive(Clone, Copy, Debug, PartialEq, Eq, Error)]
pub enum Other {
    /// The registry's name, or the client's token, is no value of a header.
    #[error("the registry's name or the token can't be sent in a header: take out their control characters")]
    BadHeader,
    /// The place of an upload is no URL, or that of a configuration is the URL of no registry.
    #[error("the registry names a place that is no URL, or none to which anything is sent: ask its operator")]
    BadUrl,
}

/// Why a call of a registry gives no value.
#[derive(Debug, Drop, Error)]
pub enum ClientError {
    /// The registry refuses a request for a checkpoint, for logs or for names.
    #[error("{0}")]
    Fetch(FetchError),
    /// The registry refuses a request that publishes.
    #[error("{0}")]
    Package(PackageError),
    /// The registry refuses a request for the sources of a content.
    #[error("{0}")]
    Content(ContentError),
    /// The registry refuses a request for proofs.
    #[error("{0}")]
    Proof(ProofError),
    /// The monitor refuses a request that verifies.
    #[error("{0}")]
    Monitor(MonitorError),
    /// The registry refuses a request for the sources of its log.
    #[error("{0}")]
    Ledger(LedgerError),
    /// A proof of inclusion is for another length or leaf, or lacks a hash.
    #[error("{0}")]
    InclusionProof(ProofFault),
    /// A proof of consistency is for other lengths, or lacks a hash.
    #[error("{0}")]
    ConsistencyProof(ProofFault),
    /// A proof of consistency gives another root.
    #[error("a proof gives the root {found} in place of {root}: do not trust this registry")]
    IncorrectConsistencyProof {
        /// The root that was asked for.
        root: AnyHash,
        /// The root that the proof gives.
        found: AnyHash,
    },
    /// The link gave no reply.
    #[error("the registry could not be reached: check the network and the registry's URL")]
    LinkFault,
    /// The reply is not of the form that is asked.
    #[error("{message} (status {status})")]
    UnexpectedResponse {
        /// The reply's status code.
        status: u16,
        /// What is wrong.
        message: &'static str,
    },
    /// A text in the reply that is to name a hash names none.
    #[error("`{0}` is not the text of a hash: check that this is the URL of a registry")]
    Hash(Text),
    /// No source that the registry lists gave the content of this digest.
    #[error("no source gave the content {0}: try again later, or ask the registry's operator")]
    AllSourcesFailed(AnyHash),
    /// A content is to be sent by a method that is neither `POST` nor `PUT`.
    #[error("a content can't be sent by `{0}`: ask the registry's operator to name `POST` or `PUT`")]
    InvalidHttpMethod(Text),
    /// A content is to be sent with a header, of this name and value, that is none of an upload.
    #[error("the header `{0}` with the value `{1}` can't be sent with a content: ask the registry's operator")]
    InvalidHttpHeader(Text, Text),
    /// The configuration at the well-known place of the registry with this label has another form.
    #[error("registry `{0}` has a configuration of another form: check that this is the URL of a registry")]
    InvalidWellKnownConfig(Text),
    /// The registry has no such log, and tells of another registry: its header's value.
    #[error("the registry has no log `{0}`, and tells of another registry")]
    LogNotFoundWithHint(LogId, HeaderValue),
    /// A text that is needed is of no use.
    #[error("{0}")]
    Other(Other),
    /// No memory was left.
    #[error("out of memory: free some, or give the program more, and try again")]
    Memory,
}

/// Why a text that a registry gives is no URL to which anything is sent.
impl From<UrlError> for ClientError {
    ghost from_gives = { λ e told. told ≡ url_error e };

    fn from(error: UrlError) -> ClientError {
        match error {
            UrlError::Memory => ClientError::Memory,
            UrlError::NotUrl | UrlError::NotHttps | UrlError::Insecure => {
                ClientError::Other(Other::BadUrl)
            }
        }
    }
}

/// How a call tells why bundles do not show that leaves are in a checkpoint's log and map.
pub fn inclusion_error(fault: ProofFault) -> ClientError
    ensures { result ≡ inclusion_error_of fault }
{
    match fault {
        ProofFault::Form | ProofFault::WrongCount => {
            ClientError::Proof(ProofError::BundleFailure(fault))
        }
        ProofFault::OtherRoot { root, found } => {
            ClientError::Proof(ProofError::IncorrectProof { root, found })
        }
        ProofFault::WrongLeaf | ProofFault::WrongLength | ProofFault::MissingHash => {
            ClientError::InclusionProof(fault)
        }
        ProofFault::Memory => ClientError::Memory,
    }
}

/// How a call tells why a bundle does not show that a log continues an older one.
pub fn consistency_error(fault: ProofFault) -> ClientError
    ensures { result ≡ consistency_error_of fault }
{
    match fault {
        ProofFault::Form | ProofFault::WrongCount => {
            ClientError::Proof(ProofError::BundleFailure(fault))
        }
        ProofFault::OtherRoot { root, found } => {
            ClientError::IncorrectConsistencyProof { root, found }
        }
        ProofFault::WrongLeaf | ProofFault::WrongLength | ProofFault::MissingHash => {
            ClientError::ConsistencyProof(fault)
        }
        ProofFault::Memory => ClientError::Memory,
    }
}
