//! Records, and reading them.

ghost use Rattle.std.specs.Prelude.{◌≡◌, IfOk, map, length, option_map};
ghost use Rattle.warg_record.specs.Reading as reading;
ghost use Rattle.warg_record.specs.Answer.{GivesOrForm};
ghost use Rattle.warg_record.specs.View.{record_view};

use crate::entry::LogEntry;
use crate::error::EnvelopeError;
use crate::fields::hash_of;
use crate::operator::OperatorEntry;
use crate::package::PackageEntry;
use crate::wire::{field_of, number_of, optional_of};
use std::alloc::Global;
use warg_hash::RecordId;
use warg_values::{Memory, Moment};

/// One record of a log.
#[derive(Debug, Drop)]
pub struct Record<E> {
    /// The id of the record before it, which the first record of a log has not.
    pub prev: Option<RecordId>,
    /// The version of the record's form, which is 0.
    pub version: u64,
    /// When the record was made.
    pub time: Moment,
    /// What the record says, in order.
    pub entries: Vec<E>,
}

impl<E: LogEntry> Record<E> {
    /// An equal record of its own.
    pub fn try_clone(&self, alloc: Global) -> Result<Self, Memory>
        ensures { IfOk result (λ copy. record_view E.plain copy ≡ record_view E.plain self.now) }
    {
        Ok(Record {
            prev: self.prev,
            version: self.version,
            time: self.time,
            entries: copies_of(alloc, self.entries.as_slice())?,
        })
    }
}

/// Equal entries, in the same order.
fn copies_of<E: LogEntry>(alloc: Global, entries: &[E]) -> Result<Vec<E>, Memory>
    ensures { IfOk result (λ copies. map E.plain copies.items ≡ map E.plain entries.now) }
{
    let mut copies = Vec::new(alloc);
    for entry in entries {
        copies.push(entry.try_clone(alloc)?)?;
    }
    Ok(copies)
}

/// One record of a package's log.
pub type PackageRecord = Record<PackageEntry>;

/// One record of a registry operator's log.
pub type OperatorRecord = Record<OperatorEntry>;

/// A moment's message.
#[tactic(auto, unfolding(crate::specs::Reading::moment_of))]
fn moment_of(bytes: &[u8]) -> Result<Moment, EnvelopeError>
    ensures { GivesOrForm (λ time. time) result (reading.moment_of bytes.now) }
{
    let (seconds, rest) = number_of(1, bytes)?;
    let (nanos, rest) = number_of(2, rest)?;
    if !rest.is_empty() || nanos >= 1_000_000_000 {
        return Err(EnvelopeError::Form);
    }
    Ok(Moment {
        seconds,
        nanos: nanos as u32,
    })
}

/// The id of the record before.
#[tactic(auto, unfolding(crate::specs::Reading::optional_hash_of))]
fn prev_of(alloc: Global, bytes: Option<&[u8]>) -> Result<Option<RecordId>, EnvelopeError>
    ensures { GivesOrForm (λ id. id) result (reading.optional_hash_of (option_map (λ b. b.now) bytes.entry)) }
{
    match bytes {
        None => Ok(None),
        Some(bytes) => {
            let hash = hash_of(alloc, bytes)?;
            Ok(Some(RecordId::from(hash)))
        }
    }
}

/// Entries, one field 4 for each, to the end.
fn each_entry<E: LogEntry>(alloc: Global, bytes: &[u8]) -> Result<Vec<E>, EnvelopeError>
    ensures { GivesOrForm (λ es. map E.plain es.items) result (reading.each_field (reading.entry_at E.kind) 4
        (length bytes.now) bytes.now) }
{
    let mut entries = Vec::new(alloc);
    let mut rest = bytes;
    while !rest.is_empty() {
        let (field, after) = field_of(4, rest)?;
        entries.push(E::read(alloc, field)?)?;
        rest = after;
    }
    Ok(entries)
}

/// One entry or more.
#[tactic(auto, unfolding(crate::specs::Reading::some_fields))]
fn some_entries<E: LogEntry>(alloc: Global, bytes: &[u8]) -> Result<Vec<E>, EnvelopeError>
    ensures { GivesOrForm (λ es. map E.plain es.items) result
        (reading.some_fields (reading.entry_at E.kind) 4 bytes.now) }
{
    if bytes.is_empty() {
        return Err(EnvelopeError::Form);
    }
    each_entry(alloc, bytes)
}

/// A record's message.
#[tactic(auto, unfolding(crate::specs::Reading::record_of))]
pub fn record_of<E: LogEntry>(alloc: Global, bytes: &[u8]) -> Result<Record<E>, EnvelopeError>
    ensures { GivesOrForm (record_view E.plain) result (reading.record_of E.kind bytes.now) }
{
    let (prev, rest) = optional_of(1, bytes)?;
    let (version, rest) = number_of(2, rest)?;
    let (time, rest) = field_of(3, rest)?;
    let prev = prev_of(alloc, prev)?;
    let time = moment_of(time)?;
    let entries = some_entries(alloc, rest)?;
    Ok(Record {
        prev,
        version,
        time,
        entries,
    })
}
