//! The last records of logs, whose inclusion is asked for.

ghost use Rattle.std.specs.Prelude.{◌≡◌, ◌++◌, ◌∷◌, [], OnOk, IfOk, map};
ghost use Rattle.std.specs.List.{filter_map};
ghost use Rattle.warg_info.specs.Info.{kept_of, IsSound};
ghost use Rattle.warg_page.specs.Logs.{head_in, index_in, leaf_in, indices_of, leafs_of};
ghost use Rattle.warg_page.specs.Views.{logs_view, AreSound};

use std::alloc::Global;
use warg_hash::LogId;
use warg_info::{LogInfo, OperatorInfo, PackageInfo};
use warg_log::JudgedEntry;
use warg_proof::LogLeaf;
use warg_values::Memory;

/// The last records of logs.
#[derive(Debug, Drop)]
pub struct LogHeads {
    /// The places of the records in the registry's log, counted from 0.
    pub indices: Vec<u64>,
    /// The records, as entries of the registry's log.
    pub leafs: Vec<LogLeaf>,
}

impl LogHeads {
    /// Adds the last record of a log, where there is one.
    fn push<E: JudgedEntry>(&mut self, id: LogId, log: &LogInfo<E>) -> Result<(), Memory>
        ensures indices { OnOk result (IsSound E.kind E.plain log.now → self.new.indices.items
            ≡ self.old.indices.items ++ map index_in (filter_map head_in ((id, kept_of E.plain log.now) ∷ []))) }
        ensures leafs { OnOk result (IsSound E.kind E.plain log.now → self.new.leafs.items
            ≡ self.old.leafs.items ++ map leaf_in (filter_map head_in ((id, kept_of E.plain log.now) ∷ []))) }
    {
        let (Some(index), Some(head)) = (log.head_registry_index(), log.state().head()) else {
            return Ok(());
        };
        self.indices.push(index)?;
        self.leafs.push(LogLeaf {
            log_id: id,
            record_id: head.digest,
        })?;
        Ok(())
    }
}

/// The last records of the operator's log and of the packages' logs, in order, of the logs that have one.
pub fn heads_of(
    alloc: Global,
    operator: &OperatorInfo,
    packages: &[PackageInfo],
) -> Result<LogHeads, Memory>
    ensures indices { IfOk result (λ heads. AreSound operator.now packages.now
        → heads.indices.items ≡ indices_of (logs_view operator.now packages.now)) }
    ensures leafs { IfOk result (λ heads. AreSound operator.now packages.now
        → heads.leafs.items ≡ leafs_of (logs_view operator.now packages.now)) }
{
    let mut heads = LogHeads {
        indices: Vec::new(alloc),
        leafs: Vec::new(alloc),
    };
    heads.push(LogId::operator_log(), &operator.log)?;
    for package in packages {
        heads.push(LogId::package_log(&package.name), &package.log)?;
    }
    Ok(heads)
}
