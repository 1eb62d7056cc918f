//! The ids of packages' logs, by which a page's lists are found.

ghost use Rattle.std.specs.Prelude.{◌≡◌, IfOk, IfErr, map};
ghost use Rattle.warg_page.specs.Steps.{id_of, HaveIds};
ghost use Rattle.warg_page.specs.IdFaults.{IsIdsFault};
ghost use Rattle.warg_page.specs.declared.ids.IdsError.TheVariants.{Memory as WantsMemory};

use indexmap::IndexSet;
use std::alloc::{AllocFailed, Global};
use thiserror::Error;
use warg_hash::LogId;
use warg_info::PackageInfo;

/// That packages can't be updated together.
#[derive(Clone, Copy, Debug, PartialEq, Eq, Error)]
pub enum IdsError {
    /// Two packages have the log of this id: they have one name, or names of equal SHA-256.
    #[error("two of the packages have the log `{0}`: name each package once")]
    SameLog(LogId),
    /// No memory was left.
    #[error("out of memory: free some, or give the program more, and try again")]
    Memory,
}

impl<T: Drop> From<AllocFailed<T>> for IdsError {
    ghost from_gives = { λ _ e. e ≡ WantsMemory };

    fn from(_error: AllocFailed<T>) -> IdsError {
        IdsError::Memory
    }
}

/// The ids of the packages' logs, in order. Packages of which two have one log are refused.
pub fn log_ids(alloc: Global, packages: &[PackageInfo]) -> Result<IndexSet<LogId>, IdsError>
    ensures ok { IfOk result (λ ids. HaveIds ids.keys packages.now) }
    ensures err { IfErr result (λ e. IsIdsFault e (map id_of packages.now)) }
{
    let mut ids = IndexSet::new(alloc);
    for package in packages {
        let id = LogId::package_log(&package.name);
        let added = ids.insert(id)?;
        if !added {
            return Err(IdsError::SameLog(id));
        }
    }
    Ok(ids)
}
