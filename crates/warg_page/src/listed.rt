//! Whether each log that a page lists has a record.

ghost use Rattle.std.specs.Prelude.{◌≡◌, [], true, false, List, Contains, OnOk, IfErr, map};
ghost use Rattle.warg_exchange.specs.declared.logs.PublishedRecord.{PublishedRecord as Published};
ghost use Rattle.warg_info.specs.Info.{package_log};
ghost use Rattle.warg_page.specs.Logs.{LeavesNoneEmpty};
ghost use Rattle.warg_page.specs.Presence.{IsListedEmpty};
ghost use Rattle.warg_page.specs.Steps.{id_of};
ghost use Rattle.warg_page.specs.Views.{package_view};

use crate::presence::{PresenceError, empty_log};
use indexmap::IndexMap;
use std::alloc::Global;
use warg_exchange::PublishedRecord;
use warg_hash::LogId;
use warg_info::PackageInfo;
use warg_values::Sequence;

/// Whether a page lists the log of this id.
fn is_listed(listed: &IndexMap<LogId, Sequence<PublishedRecord>>, id: &LogId) -> bool
    ensures listed { result ≡ true → (records : List Published) × Contains listed.now.entries (id.now, records) }
    ensures absent { result ≡ false → (records : List Published) → Contains listed.now.entries (id.now, records) → ⊥ }
{
    listed.contains_key(id)
}

/// Whether a package that a page lists has no record.
fn is_left_empty(info: &PackageInfo, listed: &IndexMap<LogId, Sequence<PublishedRecord>>) -> bool
    ensures empty { result ≡ true → package_log info.now ≡ [] }
    ensures listed { result ≡ true
        → (records : List Published) × Contains listed.now.entries (id_of info.now, records) }
    ensures kept { result ≡ false → package_log info.now ≡ []
        → (records : List Published) → Contains listed.now.entries (id_of info.now, records) → ⊥ }
{
    info.log.records().is_empty() && is_listed(listed, &LogId::package_log(&info.name))
}

/// Whether each package that a page lists has a record, in the packages' order.
///
/// The first that has none is `PackageLogEmpty`.
pub fn check_listed(
    alloc: Global,
    packages: &[PackageInfo],
    listed: &IndexMap<LogId, Sequence<PublishedRecord>>,
) -> Result<(), PresenceError>
    ensures ok { OnOk result (LeavesNoneEmpty (map package_view packages.now) listed.now.entries) }
    ensures err { IfErr result (λ e. IsListedEmpty e (map package_view packages.now) listed.now.entries) }
{
    for info in packages {
        if is_left_empty(info, listed) {
            return Err(empty_log(alloc, info));
        }
    }
    Ok(())
}
