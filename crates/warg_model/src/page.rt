//! Records as they are published.

ghost use Rattle.std.specs.Prelude.{◌≡◌, ◌≢◌, ◌<◌, ◌^◌, ◌&&◌, ◌++◌, ◌∷◌, [], ℕ, Some, bytes_eq, decimal, IfOk, IfSome, IfNone, OnOk};
ghost use Rattle.warg_record.specs.View.{envelope_view};
ghost use Rattle.warg_info.specs.Kept.{is_above};
ghost use Rattle.warg_model.specs.Pages.{published_at, published_behind};

use std::alloc::Global;
use warg_exchange::PublishedRecord;
use warg_hash::LogId;
use warg_log::JudgedEntry;
use warg_record::{Envelope, Record};
use warg_values::{Memory, Sequence, Text};

/// The number that a text is read as. The text need not be that number in decimal.
fn place_of_token(token: &str) -> Option<u64>
    ensures { (place : ℕ) → place < 2 ^ 64 → token.now ≡ decimal place → result ≡ Some place }
{
    match token.parse::<u64>() {
        Ok(place) => Some(place),
        Err(_) => None,
    }
}

/// The place that a token names: its text is that number, as it is published.
pub fn place_named(alloc: Global, token: &Text) -> Result<Option<u64>, Memory>
    ensures named { IfOk result (λ found. IfSome found (λ place. token.now ≡ decimal place)) }
    ensures none { IfOk result (λ found. IfNone found ((place : ℕ) → place < 2 ^ 64 → token.now ≢ decimal place)) }
{
    let Some(place) = place_of_token(token.as_str()) else {
        return Ok(None);
    };
    let text = Text::new(format!(in alloc; "{place}")?);
    if text == *token {
        Ok(Some(place))
    } else {
        Ok(None)
    }
}

/// A record as it is published at a place.
fn published_record<E: JudgedEntry>(
    alloc: Global,
    place: u64,
    env: &Envelope<Record<E>>,
) -> Result<PublishedRecord, Memory>
    ensures { IfOk result (λ p. p ≡ published_at place (envelope_view E.plain env.now)) }
{
    let token = format!(in alloc; "{place}")?;
    Ok(PublishedRecord {
        content_bytes: Sequence::from_vec(Vec::from_slice(alloc, env.contents.as_slice())?),
        key_id: env.key_id.text(alloc)?,
        signature: Text::copy_of(alloc, env.signature.as_str())?,
        registry_index: place,
        fetch_token: Text::new(token),
    })
}

/// Whether a place is behind another, where there is one.
fn is_behind(place: u64, after: Option<u64>) -> bool
    ensures { result ≡ is_above place after }
{
    match after {
        Some(after) => after < place,
        None => true,
    }
}

/// Whether a record is of the log with this id, and stands behind a place.
fn is_asked(id: &LogId, after: Option<u64>, log_id: &LogId, place: u64) -> bool
    ensures { result ≡ (bytes_eq log_id.now id.now && is_above place after) }
{
    log_id == id && is_behind(place, after)
}

/// Pushes the record at a place, where it is of the log with this id and stands behind a place.
pub fn push_behind<E: JudgedEntry>(
    alloc: Global,
    out: &mut Vec<PublishedRecord>,
    id: &LogId,
    after: Option<u64>,
    log_id: &LogId,
    place: u64,
    env: &Envelope<Record<E>>,
) -> Result<(), Memory>
    ensures { OnOk result (out.new.items
        ≡ out.old.items ++ published_behind id.now after place ((log_id.now, envelope_view E.plain env.now) ∷ [])) }
{
    if is_asked(id, after, log_id, place) {
        out.push(published_record(alloc, place, env)?)?;
    }
    Ok(())
}
