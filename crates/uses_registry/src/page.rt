//! A caller of `warg_page`.

ghost use Rattle.std.specs.Prelude.{OnOk, map};
ghost use Rattle.warg_exchange.specs.Views.{page_view};
ghost use Rattle.warg_page.specs.Logs.{LeavesNoneEmpty};
ghost use Rattle.warg_page.specs.Views.{package_view};

use std::alloc::Global;
use warg_exchange::FetchLogsResponse;
use warg_info::PackageInfo;
use warg_page::{PresenceError, check_listed};

/// Tells the first package that a page lists and leaves without a record.
pub fn check_page(
    alloc: Global,
    packages: &[PackageInfo],
    page: &FetchLogsResponse,
) -> Result<(), PresenceError>
    ensures { OnOk result (LeavesNoneEmpty (map package_view packages.now) (page_view page.now).packages) }
{
    check_listed(alloc, packages, &page.packages)?;
    Ok(())
}
