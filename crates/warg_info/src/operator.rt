//! What is kept of the log of a registry's operator.

ghost use Rattle.std.specs.Prelude.{◌≡◌, None, [], IfOk};
ghost use Rattle.warg_info.specs.Info.{operator_log, IsSoundOperator};

use crate::log::LogInfo;
use crate::registry::domain_clone;
use std::alloc::Global;
use warg_exchange::Checkpoint;
use warg_record::OperatorEntry;
use warg_url::RegistryDomain;
use warg_values::Memory;

/// What is kept of the log of a registry's operator.
#[derive(Debug, Drop)]
pub struct OperatorInfo {
    /// The registry's name, which the home registry has not.
    pub registry: Option<RegistryDomain>,
    /// The checkpoint under which the log was proved last.
    pub checkpoint: Option<Checkpoint>,
    /// The log.
    pub log: LogInfo<OperatorEntry>,
}

impl OperatorInfo {
    /// What is kept of a registry's operator before anything is known: an empty log.
    pub fn new(alloc: Global, registry: Option<RegistryDomain>) -> Self
        ensures registry { result.registry ≡ registry }
        ensures checkpoint { result.checkpoint ≡ None }
        ensures empty { operator_log result ≡ [] }
        ensures sound { IsSoundOperator result }
    {
        OperatorInfo {
            registry,
            checkpoint: None,
            log: LogInfo::new(alloc),
        }
    }

    /// An equal info of its own.
    pub fn try_clone(&self, alloc: Global) -> Result<Self, Memory>
        ensures registry { IfOk result (λ copy. copy.registry ≡ self.now.registry) }
        ensures checkpoint { IfOk result (λ copy. copy.checkpoint ≡ self.now.checkpoint) }
        ensures log { IfOk result (λ copy. operator_log copy ≡ operator_log self.now) }
        ensures sound { IfOk result (λ copy. IsSoundOperator self.now → IsSoundOperator copy) }
    {
        Ok(OperatorInfo {
            registry: domain_clone(alloc, self.registry.as_ref())?,
            checkpoint: self.checkpoint,
            log: self.log.try_clone(alloc)?,
        })
    }
}
