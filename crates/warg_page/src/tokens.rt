//! What a request for a page says of the logs that are known.

ghost use Rattle.std.specs.Prelude.{◌≡◌, IfOk, map, option_copied};
ghost use Rattle.warg_info.specs.Info.{operator_log};
ghost use Rattle.warg_info.specs.Kept.{last_token};
ghost use Rattle.warg_page.specs.Logs.{tokens_of};
ghost use Rattle.warg_page.specs.Steps.{id_of, AreDistinct};
ghost use Rattle.warg_page.specs.Views.{package_view};

use indexmap::IndexMap;
use std::alloc::Global;
use warg_exchange::FetchLogsRequest;
use warg_hash::LogId;
use warg_info::{OperatorInfo, PackageInfo};
use warg_values::{Memory, Text};

/// An equal token of its own, where there is one.
fn token_clone(alloc: Global, token: Option<&Text>) -> Result<Option<Text>, Memory>
    ensures { IfOk result (λ copy. copy ≡ option_copied token.entry) }
{
    match token {
        Some(token) => Ok(Some(token.try_clone(alloc)?)),
        None => Ok(None),
    }
}

/// The packages' logs, each by its id, with the token of its last record.
fn package_tokens(
    alloc: Global,
    packages: &[PackageInfo],
) -> Result<IndexMap<LogId, Option<Text>>, Memory>
    ensures { IfOk result (λ tokens. AreDistinct (map id_of packages.now)
        → tokens.entries ≡ tokens_of (map package_view packages.now)) }
{
    let mut tokens = IndexMap::new(alloc);
    for package in packages {
        let token = token_clone(alloc, package.log.head_fetch_token())?;
        tokens.insert(LogId::package_log(&package.name), token)?;
    }
    Ok(tokens)
}

/// The request for a page of a registry's log of a length, behind the logs' last records.
pub fn logs_behind(
    alloc: Global,
    log_length: u64,
    operator: &OperatorInfo,
    packages: &[PackageInfo],
) -> Result<FetchLogsRequest, Memory>
    ensures log_length { IfOk result (λ r. r.log_length ≡ log_length) }
    ensures operator { IfOk result (λ r. r.operator ≡ last_token (operator_log operator.now)) }
    ensures packages { IfOk result (λ r. AreDistinct (map id_of packages.now)
        → r.packages.entries ≡ tokens_of (map package_view packages.now)) }
{
    Ok(FetchLogsRequest {
        log_length,
        operator: token_clone(alloc, operator.log.head_fetch_token())?,
        packages: package_tokens(alloc, packages)?,
    })
}
