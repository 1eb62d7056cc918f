//! Reading replies that came by some other way than a call's link.

ghost use Rattle.std.specs.Prelude.{◌≡◌, ◌≢◌, Ok, Err, IfOk, IfErr};
ghost use Rattle.warg_exchange.specs.Replies.{says, checkpoint_in, page_in, bundles_in, proof_in};
ghost use Rattle.warg_exchange.specs.Views.{page_view};
ghost use Rattle.warg_api.specs.Calls.{IsReplyFault};
ghost use Rattle.warg_api.specs.Errors.{fetch_error, logs_error, proof_error};
ghost use Rattle.warg_api.specs.declared.error.ClientError.TheVariants.{LinkFault as Faulted};

use crate::error::{ClientError, ProofError};
use crate::service::{Logs, Service};
use std::alloc::Global;
use warg_exchange::{
    ConsistencyResponse, FetchError, FetchLogsResponse, InclusionResponse, Reply, SignedCheckpoint,
};
use warg_json::{BodyError, FromBody, ReplyError, read_reply};
use warg_values::Memory;

/// What is wrong with a reply that is not of the form that is asked.
pub const UNEXPECTED: &str =
    "the reply is not the JSON that was asked for: check that this is the URL of a registry";

/// What a reply says, or the error of a call of this service.
pub fn read_as<T: FromBody, S: Service>(alloc: Global, reply: &Reply) -> Result<T, ClientError>
    ensures ok { IfOk result (λ value. says T.meaning reply.now ≡ Ok (T.plain value)) }
    ensures err { IfErr result (λ e. IsReplyFault S.told e reply.now T.meaning) }
    ensures no_link_fault { result ≢ Err Faulted }
{
    match read_reply(alloc, reply) {
        Ok(value) => Ok(value),
        Err(ReplyError::NoMeaning(BodyError::Memory)) => Err(ClientError::Memory),
        Err(ReplyError::NoMeaning(BodyError::NoHash(text))) => Err(ClientError::Hash(text)),
        Err(ReplyError::NoMeaning(BodyError::Unexpected)) => Err(ClientError::UnexpectedResponse {
            status: reply.status,
            message: UNEXPECTED,
        }),
        Err(ReplyError::Refused(error)) => match S::client_error(error, reply) {
            Ok(error) => Err(error),
            Err(Memory) => Err(ClientError::Memory),
        },
    }
}

/// The checkpoint that a reply to the request for the latest one gives.
///
/// The errors are those of `Client::latest_checkpoint` for such a reply.
pub fn read_checkpoint(alloc: Global, reply: &Reply) -> Result<SignedCheckpoint, ClientError>
    ensures ok { IfOk result (λ checkpoint. says checkpoint_in reply.now ≡ Ok checkpoint) }
    ensures err { IfErr result (λ e. IsReplyFault fetch_error e reply.now checkpoint_in) }
{
    read_as::<SignedCheckpoint, FetchError>(alloc, reply)
}

/// The page that a reply to a request for logs gives.
///
/// The errors are those of `Client::fetch_logs` for such a reply.
pub fn read_logs(alloc: Global, reply: &Reply) -> Result<FetchLogsResponse, ClientError>
    ensures ok { IfOk result (λ page. says page_in reply.now ≡ Ok (page_view page)) }
    ensures err { IfErr result (λ e. IsReplyFault logs_error e reply.now page_in) }
{
    read_as::<FetchLogsResponse, Logs>(alloc, reply)
}

/// The bundles that a reply to a request for proofs of inclusion gives. They are not verified yet.
///
/// The errors are those of `Client::prove_inclusion` for such a reply.
pub fn read_inclusion(alloc: Global, reply: &Reply) -> Result<InclusionResponse, ClientError>
    ensures ok { IfOk result (λ bundles. says bundles_in reply.now ≡ Ok bundles) }
    ensures err { IfErr result (λ e. IsReplyFault proof_error e reply.now bundles_in) }
{
    read_as::<InclusionResponse, ProofError>(alloc, reply)
}

/// The bundle that a reply to a request for a proof of consistency gives. It is not verified yet.
///
/// The errors are those of `Client::prove_log_consistency` for such a reply.
pub fn read_consistency(alloc: Global, reply: &Reply) -> Result<ConsistencyResponse, ClientError>
    ensures ok { IfOk result (λ shown. says proof_in reply.now ≡ Ok shown) }
    ensures err { IfErr result (λ e. IsReplyFault proof_error e reply.now proof_in) }
{
    read_as::<ConsistencyResponse, ProofError>(alloc, reply)
}
