//! What a page brings for the logs of an update.

ghost use Rattle.std.specs.Prelude.{◌≡◌, ◌≢◌, ◌⊎◌, ℕ, ◌∷◌, [], Some, IfSome, IfNone, OnOk, IfErr, map, slice_get};
ghost use Rattle.std.specs.List.{All, AllByRecursion};
ghost use Rattle.warg_record.specs.Record.{Package};
ghost use Rattle.warg_info.specs.Kept.{Grows};
ghost use Rattle.warg_info.specs.Info.{package_log, IsSoundPackage};
ghost use Rattle.warg_exchange.specs.Views.{page_view};
ghost use Rattle.warg_page.specs.Logs.{IsOfPackage, EachGrows, Brings};
ghost use Rattle.warg_page.specs.Views.{package_view, logs_view, AreSound};
ghost use Rattle.warg_page.specs.Steps.{HaveIds, IsGood, AreGood, IsGoodOperator};
ghost use Rattle.warg_page.specs.PageFaults.{IsPackageFault, IsListedFault, FirstListedFault, IsPageFault};
ghost use Rattle.warg_page.specs.declared.page.PageError.TheVariants.{Memory as WantsMemory, Package as OfPackage};

use indexmap::{IndexMap, IndexSet};
use std::alloc::Global;
use thiserror::Error;
use warg_exchange::{FetchLogsResponse, PublishedRecord};
use warg_hash::{LogId, PackageName};
use warg_info::laws::growth_goes_on;
use warg_info::{OperatorInfo, PackageInfo, TakeError};
use warg_log::Verifier;
use warg_values::Sequence;

/// Why a page is refused.
#[derive(Debug, Drop, Error)]
pub enum PageError {
    /// A record of the operator's log is refused.
    #[error("{0}")]
    Operator(TakeError),
    /// A record of a package's log is refused.
    #[error("the log of {name}: {error}")]
    Package {
        /// The package's name.
        name: PackageName,
        /// Why it is refused.
        error: TakeError,
    },
    /// The page brings records of a log that was not asked for.
    #[error("the registry sends the log `{0}`, which was not asked for: tell its operator")]
    UnknownLog(LogId),
    /// No memory was left.
    #[error("out of memory: free some, or give the program more, and try again")]
    Memory,
}

/// That records of a package are refused.
fn refused(alloc: Global, info: &PackageInfo, error: TakeError) -> PageError
    ensures { (result ≡ WantsMemory) ⊎ (result ≡ OfPackage info.now.name error) }
{
    match info.name.try_clone(alloc) {
        Ok(name) => PageError::Package { name, error },
        Err(_) => PageError::Memory,
    }
}

/// Takes the records that a page lists for a package.
fn take_package<V: Verifier>(
    alloc: Global,
    verifier: &V,
    info: &mut PackageInfo,
    records: &[PublishedRecord],
) -> Result<(), PageError>
    ensures same_name { info.new.name ≡ info.old.name }
    ensures sound { IsSoundPackage info.old → IsSoundPackage info.new }
    ensures good { IsGood (V.good verifier.now) info.old → IsGood (V.good verifier.now) info.new }
    ensures grows { OnOk result (IsGood (V.good verifier.now) info.old
        → Grows Package (package_log info.old) records.now (package_log info.new)) }
    ensures fault { IfErr result (λ e. IsGood (V.good verifier.now) info.old
        → IsPackageFault e (V.good verifier.now) info.old.name (package_log info.old) records.now) }
{
    match info.log.take(alloc, verifier, records) {
        Ok(()) => Ok(()),
        Err(TakeError::Memory) => Err(PageError::Memory),
        Err(error) => Err(refused(alloc, info, error)),
    }
}

/// The place of an id, as of the log of a package.
pub fn place_of(ids: &IndexSet<LogId>, id: &LogId) -> Option<usize>
    ensures found { IfSome result (λ at. slice_get ids.now.keys at ≡ Some id.now) }
    ensures absent { IfNone result ((i : ℕ) → slice_get ids.now.keys i ≢ Some id.now) }
{
    ids.get_index_of(id)
}

/// Takes the records that a page lists for the log with this id.
fn take_listed<V: Verifier>(
    alloc: Global,
    verifier: &V,
    ids: &IndexSet<LogId>,
    packages: &mut Vec<PackageInfo>,
    id: &LogId,
    records: &[PublishedRecord],
) -> Result<(), PageError>
    ensures ids { HaveIds ids.now.keys packages.old.items → HaveIds ids.now.keys packages.new.items }
    ensures sound { All IsSoundPackage packages.old.items → All IsSoundPackage packages.new.items }
    ensures good { AreGood (V.good verifier.now) packages.old.items → AreGood (V.good verifier.now) packages.new.items }
    ensures grows { OnOk result (HaveIds ids.now.keys packages.old.items
        → AreGood (V.good verifier.now) packages.old.items
        → EachGrows ((id.now, records.now) ∷ []) (map package_view packages.old.items)
        (map package_view packages.new.items)) }
    ensures asked { OnOk result (HaveIds ids.now.keys packages.old.items
        → IsOfPackage (map package_view packages.old.items) (id.now, records.now)) }
    ensures fault { IfErr result (λ e. HaveIds ids.now.keys packages.old.items
        → AreGood (V.good verifier.now) packages.old.items
        → IsListedFault e (V.good verifier.now) (map package_view packages.old.items) (id.now, records.now)) }
{
    let Some(at) = place_of(ids, id) else {
        return if records.is_empty() {
            Ok(())
        } else {
            Err(PageError::UnknownLog(*id))
        };
    };
    if at >= packages.len() {
        return Err(PageError::Memory);
    }
    take_package(alloc, verifier, &mut packages[at], records)?;
    Ok(())
}

/// Takes what a page lists for packages, log by log.
fn take_packages<V: Verifier>(
    alloc: Global,
    verifier: &V,
    ids: &IndexSet<LogId>,
    packages: &mut Vec<PackageInfo>,
    listed: &IndexMap<LogId, Sequence<PublishedRecord>>,
) -> Result<(), PageError>
    ensures ids { HaveIds ids.now.keys packages.old.items → HaveIds ids.now.keys packages.new.items }
    ensures sound { All IsSoundPackage packages.old.items → All IsSoundPackage packages.new.items }
    ensures good { AreGood (V.good verifier.now) packages.old.items → AreGood (V.good verifier.now) packages.new.items }
    ensures grows { OnOk result (HaveIds ids.now.keys packages.old.items
        → AreGood (V.good verifier.now) packages.old.items
        → EachGrows listed.now.entries (map package_view packages.old.items) (map package_view packages.new.items)) }
    ensures asked { OnOk result (HaveIds ids.now.keys packages.old.items
        → AreGood (V.good verifier.now) packages.old.items
        → AllByRecursion (IsOfPackage (map package_view packages.old.items)) listed.now.entries) }
    ensures fault { IfErr result (λ e. HaveIds ids.now.keys packages.old.items
        → AreGood (V.good verifier.now) packages.old.items
        → FirstListedFault e (V.good verifier.now) (map package_view packages.old.items) listed.now.entries) }
{
    growth_goes_on();
    for (id, records) in listed {
        take_listed(alloc, verifier, ids, packages, id, records.as_slice())?;
    }
    Ok(())
}

/// Takes what a page brings: the operator's records in order, and then those of packages, log by log in the page's order.
///
/// The first fault is answered: a record that can't be read or breaks a rule, or a log with records that was not asked for.
pub fn take_page<V: Verifier>(
    alloc: Global,
    verifier: &V,
    ids: &IndexSet<LogId>,
    operator: &mut OperatorInfo,
    packages: &mut Vec<PackageInfo>,
    page: &FetchLogsResponse,
) -> Result<(), PageError>
    ensures ids { HaveIds ids.now.keys packages.old.items → HaveIds ids.now.keys packages.new.items }
    ensures sound { AreSound operator.old packages.old.items → AreSound operator.new packages.new.items }
    ensures operator { IsGoodOperator (V.good verifier.now) operator.old
        → IsGoodOperator (V.good verifier.now) operator.new }
    ensures packages { AreGood (V.good verifier.now) packages.old.items
        → AreGood (V.good verifier.now) packages.new.items }
    ensures brings { OnOk result (HaveIds ids.now.keys packages.old.items
        → IsGoodOperator (V.good verifier.now) operator.old
        → AreGood (V.good verifier.now) packages.old.items
        → Brings (logs_view operator.old packages.old.items) (page_view page.now)
        (logs_view operator.new packages.new.items)) }
    ensures fault { IfErr result (λ e. HaveIds ids.now.keys packages.old.items
        → IsGoodOperator (V.good verifier.now) operator.old
        → AreGood (V.good verifier.now) packages.old.items
        → IsPageFault e (V.good verifier.now) (logs_view operator.old packages.old.items) (page_view page.now)) }
{
    match operator.log.take(alloc, verifier, page.operator.as_slice()) {
        Ok(()) => {}
        Err(TakeError::Memory) => return Err(PageError::Memory),
        Err(error) => return Err(PageError::Operator(error)),
    }
    take_packages(alloc, verifier, ids, packages, &page.packages)?;
    Ok(())
}
