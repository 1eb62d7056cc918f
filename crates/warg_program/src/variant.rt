//! The errors of a client, by the names of their variants.

ghost use Rattle.std.specs.Prelude.{◌≡◌};
ghost use Rattle.warg_program.specs.Variants as spec;

use warg_api::ClientError as CallError;
use warg_replay::{ClientError, Other};

/// The name of an error of a registry's reply.
fn call_variant(error: &CallError) -> &'static str
    ensures { result.now ≡ spec.call_variant error.now }
{
    match error {
        CallError::Fetch(..) => "Api/Fetch",
        CallError::Package(..) => "Api/Package",
        CallError::Content(..) => "Api/Content",
        CallError::Proof(..) => "Api/Proof",
        CallError::Monitor(..) => "Api/Monitor",
        CallError::Ledger(..) => "Api/Ledger",
        CallError::InclusionProof(..) => "Api/InclusionProof",
        CallError::ConsistencyProof(..) => "Api/ConsistencyProof",
        CallError::IncorrectConsistencyProof { .. } => "Api/IncorrectConsistencyProof",
        CallError::LinkFault => "Api/LinkFault",
        CallError::UnexpectedResponse { .. } => "Api/UnexpectedResponse",
        CallError::Hash(..) => "Api/Hash",
        CallError::AllSourcesFailed(..) => "Api/AllSourcesFailed",
        CallError::InvalidHttpMethod(..) => "Api/InvalidHttpMethod",
        CallError::InvalidHttpHeader(..) => "Api/InvalidHttpHeader",
        CallError::InvalidWellKnownConfig(..) => "Api/InvalidWellKnownConfig",
        CallError::LogNotFoundWithHint(..) => "Api/LogNotFoundWithHint",
        CallError::Other(..) => "Api/Other",
        CallError::Memory => "Api/Memory",
    }
}

/// The name of an error of a text.
fn other_variant(error: &Other) -> &'static str
    ensures { result.now ≡ spec.other_variant error.now }
{
    match error {
        Other::UnknownLog(_) => "Other/UnknownLog",
        Other::BadEnvelope => "Other/BadEnvelope",
        Other::BadHeader => "Other/BadHeader",
        Other::BadUrl(_) => "Other/BadUrl",
    }
}

/// The name of an error, behind that of its kind where it is one of a registry's reply or of a text.
pub fn variant(error: &ClientError) -> &'static str
    ensures { result.now ≡ spec.variant error.now }
{
    match error {
        ClientError::Api(error) => call_variant(error),
        ClientError::Other(error) => other_variant(error),
        ClientError::BadPlan(..) => "BadPlan",
        ClientError::BadComponent(..) => "BadComponent",
        ClientError::BadImportName(..) => "BadImportName",
        ClientError::DependencyCycle(..) => "DependencyCycle",
        ClientError::ImportsDisallowed(..) => "ImportsDisallowed",
        ClientError::Incompatible(..) => "Incompatible",
        ClientError::NotBuilt => "NotBuilt",
        ClientError::PackageDoesNotExist { .. } => "PackageDoesNotExist",
        ClientError::PackageVersionRequirementDoesNotExist { .. } =>
            "PackageVersionRequirementDoesNotExist",
        ClientError::PackageValidationFailed { .. } => "PackageValidationFailed",
        ClientError::OperatorValidationFailed { .. } => "OperatorValidationFailed",
        ClientError::PackageLogEmpty { .. } => "PackageLogEmpty",
        ClientError::NoOperatorRecords => "NoOperatorRecords",
        ClientError::InvalidCheckpointKeyId { .. } => "InvalidCheckpointKeyId",
        ClientError::InvalidCheckpointSignature => "InvalidCheckpointSignature",
        ClientError::CheckpointLogLengthRewind { .. } => "CheckpointLogLengthRewind",
        ClientError::CheckpointChangedLogRootOrMapRoot { .. } =>
            "CheckpointChangedLogRootOrMapRoot",
        ClientError::ContentNotFound { .. } => "ContentNotFound",
        ClientError::IncorrectContent { .. } => "IncorrectContent",
        ClientError::RoundLimit => "RoundLimit",
        ClientError::TooLarge(..) => "TooLarge",
        ClientError::Damaged(..) => "Damaged",
        ClientError::LinkFault => "LinkFault",
        ClientError::StoreFault => "StoreFault",
        ClientError::Memory => "Memory",
    }
}
