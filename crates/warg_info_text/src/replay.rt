//! The logs that stored records are.

ghost use Rattle.std.specs.Prelude.{◌≡◌, IfOk, IfSome, nat_eq, option_map, option_copied, bytes_eq};
ghost use Rattle.std.specs.Option.{option_eq};
ghost use Rattle.warg_info.specs.Info.{IsSound, kept_of};
ghost use Rattle.warg_info_text.specs.Shown.{stored_view};
ghost use Rattle.warg_info_text.specs.StoredLogs.{log_in};
ghost use Rattle.warg_info_text.specs.StoredTexts.{has_head as has_head_of, log_of};

use crate::stored::StoredInfo;
use std::alloc::Global;
use warg_exchange::PublishedRecord;
use warg_info::{LogInfo, ReplayError};
use warg_log::JudgedEntry;
use warg_record::laws::key_texts_are_tested;
use warg_values::{Memory, Text};

/// The log of stored records, and none where they are none.
fn replayed<E: JudgedEntry>(
    alloc: Global,
    records: &[PublishedRecord],
) -> Result<Option<LogInfo<E>>, Memory>
    ensures log { IfOk result (λ o. option_map (kept_of E.plain) o ≡ log_in E.kind records.now) }
    ensures sound { IfOk result (λ o. IfSome o (IsSound E.kind E.plain)) }
{
    key_texts_are_tested();
    match LogInfo::replay(alloc, records) {
        Ok(log) => Ok(Some(log)),
        Err(ReplayError::NotAscending) => Ok(None),
        Err(ReplayError::BadEnvelope) => Ok(None),
        Err(ReplayError::Unlawful(_)) => Ok(None),
        Err(ReplayError::Memory) => Err(Memory),
    }
}

/// Whether two tokens are the same, or both are missing.
fn is_token(stored: Option<&Text>, last: Option<&Text>) -> bool
    ensures { result ≡ option_eq bytes_eq (option_copied stored.entry) (option_copied last.entry) }
{
    match (stored, last) {
        (Some(stored), Some(last)) => stored == last,
        (None, None) => true,
        _ => false,
    }
}

/// Whether the place and the token that are stored are those of the log's last record.
fn has_head<E: JudgedEntry>(stored: &StoredInfo, log: &LogInfo<E>) -> bool
    ensures { result ≡ has_head_of (stored_view stored.now) (kept_of E.plain log.now) }
{
    stored.head_registry_index == log.head_registry_index()
        && is_token(stored.head_fetch_token.as_ref(), log.head_fetch_token())
}

/// The log that is stored, and none where what is stored is none.
pub fn log_of_stored<E: JudgedEntry>(
    alloc: Global,
    stored: &StoredInfo,
) -> Result<Option<LogInfo<E>>, Memory>
    ensures log { IfOk result (λ o. option_map (kept_of E.plain) o ≡ log_of E.kind (stored_view stored.now)) }
    ensures sound { IfOk result (λ o. IfSome o (IsSound E.kind E.plain)) }
{
    let Some(log) = replayed(alloc, stored.records.as_slice())? else {
        return Ok(None);
    };
    if has_head(stored, &log) {
        Ok(Some(log))
    } else {
        Ok(None)
    }
}
