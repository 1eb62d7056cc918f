//! How calls tell what registries answer in place of what was asked.

ghost use Rattle.std.specs.Prelude.{◌≡◌, ◌≢◌, IfOk};
ghost use Rattle.warg_exchange.specs.declared.exchange.Reply.{Reply as Replied};
ghost use Rattle.warg_exchange.specs.declared.service.ServiceError.{ServiceError as Answer};
ghost use Rattle.warg_api.specs.Errors.{fetch_error, package_error, content_error, monitor_error, ledger_error, proof_error, logs_error};
ghost use Rattle.warg_api.specs.declared.error.ClientError.{ClientError as Told};
ghost use Rattle.warg_api.specs.declared.error.ClientError.TheVariants.{LinkFault};

use crate::error::{ClientError, ProofError};
use warg_exchange::{
    ContentError, FetchError, LedgerError, MonitorError, PackageError, Reply, ServiceError,
};
use warg_json::first_header;
use warg_values::Memory;

/// A service of a registry.
pub trait Service {
    /// How a call of the service tells a registry's error in a reply.
    ghost told: { Replied → Answer → Told };

    /// The error of a call whose reply names this one.
    fn client_error(error: ServiceError, reply: &Reply) -> Result<ClientError, Memory>
        ensures told { IfOk result (λ e. e ≡ told reply.now error) }
        ensures no_fault { IfOk result (λ e. e ≢ LinkFault) };
}

impl Service for FetchError {
    ghost told = { fetch_error };

    fn client_error(error: ServiceError, _reply: &Reply) -> Result<ClientError, Memory> {
        Ok(ClientError::Fetch(FetchError { error }))
    }
}

impl Service for PackageError {
    ghost told = { package_error };

    fn client_error(error: ServiceError, _reply: &Reply) -> Result<ClientError, Memory> {
        Ok(ClientError::Package(PackageError { error }))
    }
}

impl Service for ContentError {
    ghost told = { content_error };

    fn client_error(error: ServiceError, _reply: &Reply) -> Result<ClientError, Memory> {
        Ok(ClientError::Content(ContentError { error }))
    }
}

impl Service for MonitorError {
    ghost told = { monitor_error };

    fn client_error(error: ServiceError, _reply: &Reply) -> Result<ClientError, Memory> {
        Ok(ClientError::Monitor(MonitorError { error }))
    }
}

impl Service for LedgerError {
    ghost told = { ledger_error };

    fn client_error(error: ServiceError, _reply: &Reply) -> Result<ClientError, Memory> {
        Ok(ClientError::Ledger(LedgerError { error }))
    }
}

impl Service for ProofError {
    ghost told = { proof_error };

    fn client_error(error: ServiceError, _reply: &Reply) -> Result<ClientError, Memory> {
        Ok(ClientError::Proof(ProofError::Service(error)))
    }
}

/// The service that gives logs, and tells of other registries.
#[derive(Clone, Copy)]
pub struct Logs;

impl Service for Logs {
    ghost told = { logs_error };

    fn client_error(error: ServiceError, reply: &Reply) -> Result<ClientError, Memory> {
        let Some(hint) = first_header("warg-registry-hint", reply) else {
            return Ok(ClientError::Fetch(FetchError { error }));
        };
        match error {
            ServiceError::LogNotFound { id } => {
                Ok(ClientError::LogNotFoundWithHint(id, hint.clone()?))
            }
            error => Ok(ClientError::Fetch(FetchError { error })),
        }
    }
}
