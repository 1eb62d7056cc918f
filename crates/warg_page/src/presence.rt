//! Whether each log of an update has a record.

ghost use Rattle.std.specs.Prelude.{◌≡◌, ◌⊎◌, OnOk, IfErr};
ghost use Rattle.warg_page.specs.declared.presence.PresenceError.TheVariants.{Memory as WantsMemory, PackageLogEmpty as LogEmpty};
ghost use Rattle.warg_log.specs.Rules.{Accepts};
ghost use Rattle.warg_page.specs.Logs.{AreLawful};
ghost use Rattle.warg_page.specs.Presence.{IsPresenceFault};
ghost use Rattle.warg_page.specs.Steps.{IsGoodOperator, AreGood};
ghost use Rattle.warg_page.specs.Views.{logs_view};

use std::alloc::Global;
use thiserror::Error;
use warg_hash::PackageName;
use warg_info::{OperatorInfo, PackageInfo};

/// That a log has no record.
#[derive(Debug, Drop, Error)]
pub enum PresenceError {
    /// The operator's log has none.
    #[error("the registry sends no record of its operator's log: check the registry's URL")]
    NoOperatorRecords,
    /// A package's log has none.
    #[error("the registry sends no record of {name}: check the package's name")]
    PackageLogEmpty {
        /// The package's name.
        name: PackageName,
    },
    /// No memory was left.
    #[error("out of memory: free some, or give the program more, and try again")]
    Memory,
}

/// That a package's log has no record.
pub fn empty_log(alloc: Global, info: &PackageInfo) -> PresenceError
    ensures { (result ≡ WantsMemory) ⊎ (result ≡ LogEmpty info.now.name) }
{
    match info.name.try_clone(alloc) {
        Ok(name) => PresenceError::PackageLogEmpty { name },
        Err(_) => PresenceError::Memory,
    }
}

/// Whether each log has a record: the operator's, and then the packages', in order.
pub fn check_presence(
    alloc: Global,
    operator: &OperatorInfo,
    packages: &[PackageInfo],
) -> Result<(), PresenceError>
    ensures ok { OnOk result ((accepts : Accepts) → IsGoodOperator accepts operator.now → AreGood accepts packages.now
        → AreLawful accepts (logs_view operator.now packages.now)) }
    ensures err { IfErr result (λ e. IsPresenceFault e (logs_view operator.now packages.now)) }
{
    if operator.log.records().is_empty() {
        return Err(PresenceError::NoOperatorRecords);
    }
    for info in packages {
        if info.log.records().is_empty() {
            return Err(empty_log(alloc, info));
        }
    }
    Ok(())
}
