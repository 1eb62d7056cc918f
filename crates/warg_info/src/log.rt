//! A log that is kept.

ghost use Rattle.std.specs.Prelude.{◌≡◌, ◌++◌, ◌∷◌, [], true, IfOk, IfErr, OnOk, OnErr, map, option_copied};
ghost use Rattle.warg_record.specs.Envelope.{IsEnvelopeOf};
ghost use Rattle.warg_record.specs.View.{envelope_view};
ghost use Rattle.warg_log.specs.Follows.{Follows};
ghost use Rattle.warg_log.specs.Lawful.{IsRead};
ghost use Rattle.warg_info.specs.Kept.{Grows, is_above as is_above_of, last_index, last_token, signed_log};
ghost use Rattle.warg_info.specs.Info.{kept_view, kept_of, IsSound, IsLawfulLog};
ghost use Rattle.warg_info.specs.Faults.{IsReadFault, IsTakeFault, FirstFault, IsKeepFault};

use crate::error::TakeError;
use std::alloc::Global;
use warg_exchange::PublishedRecord;
use warg_log::laws::{accepted_is_lawful, lawful_record_by_record};
use warg_log::{JudgedEntry, LogState, Verifier};
use warg_record::{Envelope, EnvelopeError, Record};
use warg_values::{Memory, Text};

/// A record of a log, and where it stands.
#[derive(Debug, Drop)]
pub struct KeptRecord<E> {
    /// The signed record.
    pub envelope: Envelope<Record<E>>,
    /// Its place in the registry's log, counted from 0.
    pub registry_index: u64,
    /// The text by which requests name it.
    pub fetch_token: Text,
}

/// What is kept of a log: its records, and the state that they make.
#[derive(Debug, Drop)]
pub struct LogInfo<E> {
    records: Vec<KeptRecord<E>>,
    state: LogState<E>,
}

/// Whether a place is above that of the record kept before.
pub fn is_above(index: u64, before: Option<u64>) -> bool
    ensures { result ≡ is_above_of index before }
{
    match before {
        Some(before) => before < index,
        None => true,
    }
}

impl<E: JudgedEntry> KeptRecord<E> {
    /// An equal record of its own.
    pub fn try_clone(&self, alloc: Global) -> Result<Self, Memory>
        ensures { IfOk result (λ copy. kept_view E.plain copy ≡ kept_view E.plain self.now) }
    {
        Ok(KeptRecord {
            envelope: self.envelope.try_clone(alloc)?,
            registry_index: self.registry_index,
            fetch_token: self.fetch_token.try_clone(alloc)?,
        })
    }
}

/// Equal records, in the same order.
fn copies_of<E: JudgedEntry>(
    alloc: Global,
    records: &[KeptRecord<E>],
) -> Result<Vec<KeptRecord<E>>, Memory>
    ensures { IfOk result (λ copies. map (kept_view E.plain) copies.items ≡ map (kept_view E.plain) records.now) }
{
    let mut copies = Vec::new(alloc);
    for record in records {
        copies.push(record.try_clone(alloc)?)?;
    }
    Ok(copies)
}

/// The envelope of a published record.
fn envelope_of<E: JudgedEntry>(
    alloc: Global,
    published: &PublishedRecord,
) -> Result<Envelope<Record<E>>, TakeError>
    ensures ok { IfOk result (λ env. IsEnvelopeOf E.kind published.now.content_bytes published.now.key_id
        published.now.signature (envelope_view E.plain env)) }
    ensures read { IfOk result (λ env. IsRead E.kind (envelope_view E.plain env)) }
    ensures fault { IfErr result (λ e. IsReadFault e E.kind published.now) }
{
    match Envelope::read(
        alloc,
        published.content_bytes.as_slice(),
        published.key_id.as_str(),
        published.signature.as_str(),
    ) {
        Ok(envelope) => Ok(envelope),
        Err(EnvelopeError::Form) => Err(TakeError::BadEnvelope),
        Err(EnvelopeError::Memory) => Err(TakeError::Memory),
    }
}

impl<E: JudgedEntry> LogInfo<E> {
    /// An empty log.
    pub fn new(alloc: Global) -> Self
        ensures empty { kept_of E.plain result ≡ [] }
        ensures sound { IsSound E.kind E.plain result }
    {
        LogInfo {
            records: Vec::new(alloc),
            state: LogState::new(alloc),
        }
    }

    /// The records, in order.
    pub fn records(&self) -> &[KeptRecord<E>]
        ensures { map (kept_view E.plain) result.now ≡ kept_of E.plain self.now }
    {
        self.records.as_slice()
    }

    /// The state that the records make.
    pub fn state(&self) -> &LogState<E>
        ensures { IsSound E.kind E.plain self.now
            → Follows E.kind result.now (signed_log (kept_of E.plain self.now)) }
    {
        &self.state
    }

    /// The place of the last record.
    pub fn head_registry_index(&self) -> Option<u64>
        ensures { result ≡ last_index (kept_of E.plain self.now) }
    {
        let last = self.records.as_slice().last()?;
        Some(last.registry_index)
    }

    /// The token of the last record.
    pub fn head_fetch_token(&self) -> Option<&Text>
        ensures { option_copied result ≡ last_token (kept_of E.plain self.now) }
    {
        let last = self.records.as_slice().last()?;
        Some(&last.fetch_token)
    }

    /// An equal log of its own.
    pub fn try_clone(&self, alloc: Global) -> Result<Self, Memory>
        ensures same { IfOk result (λ copy. kept_of E.plain copy ≡ kept_of E.plain self.now) }
        ensures sound { IfOk result (λ copy. IsSound E.kind E.plain self.now → IsSound E.kind E.plain copy) }
    {
        Ok(LogInfo {
            records: copies_of(alloc, self.records.as_slice())?,
            state: self.state.try_clone(alloc)?,
        })
    }

    /// Keeps a record behind the others, where it breaks no rule. A refusal changes nothing.
    fn keep<V: Verifier>(
        &mut self,
        alloc: Global,
        verifier: &V,
        kept: KeptRecord<E>,
    ) -> Result<(), TakeError>
        ensures kept { OnOk result (kept_of E.plain self.new
            ≡ kept_of E.plain self.old ++ kept_view E.plain kept ∷ []) }
        ensures sound { IsSound E.kind E.plain self.old
            → IsRead E.kind (envelope_view E.plain kept.envelope)
            → is_above_of kept.registry_index (last_index (kept_of E.plain self.old)) ≡ true
            → IsSound E.kind E.plain self.new }
        ensures lawful { IsSound E.kind E.plain self.old
            → IsLawfulLog E.kind (V.good verifier.now) (kept_of E.plain self.old)
            → IsLawfulLog E.kind (V.good verifier.now) (kept_of E.plain self.new) }
        ensures fault { IfErr result (λ e. IsSound E.kind E.plain self.old
            → IsKeepFault e E.kind (V.good verifier.now) (kept_of E.plain self.old)
            (envelope_view E.plain kept.envelope)) }
        ensures same { OnErr result (kept_of E.plain self.new ≡ kept_of E.plain self.old) }
    {
        accepted_is_lawful();
        lawful_record_by_record();
        self.records.reserve(1)?;
        self.state.validate(alloc, verifier, &kept.envelope)?;
        self.records.push(kept)?;
        Ok(())
    }

    /// Takes a published record, unless its place is not above that of the last one. A refusal changes nothing.
    fn take_one<V: Verifier>(
        &mut self,
        alloc: Global,
        verifier: &V,
        published: &PublishedRecord,
    ) -> Result<(), TakeError>
        ensures grows { OnOk result (IsSound E.kind E.plain self.old
            → Grows E.kind (kept_of E.plain self.old) (published.now ∷ []) (kept_of E.plain self.new)) }
        ensures sound { IsSound E.kind E.plain self.old → IsSound E.kind E.plain self.new }
        ensures lawful { IsSound E.kind E.plain self.old
            → IsLawfulLog E.kind (V.good verifier.now) (kept_of E.plain self.old)
            → IsLawfulLog E.kind (V.good verifier.now) (kept_of E.plain self.new) }
        ensures fault { IfErr result (λ e. IsSound E.kind E.plain self.old
            → IsTakeFault e E.kind (V.good verifier.now) (kept_of E.plain self.old) published.now) }
        ensures same { OnErr result (kept_of E.plain self.new ≡ kept_of E.plain self.old) }
    {
        let envelope = envelope_of(alloc, published)?;
        let above = is_above(published.registry_index, self.head_registry_index());
        if !above {
            return Ok(());
        }
        let fetch_token = published.fetch_token.try_clone(alloc)?;
        self.keep(
            alloc,
            verifier,
            KeptRecord {
                envelope,
                registry_index: published.registry_index,
                fetch_token,
            },
        )
    }

    /// Takes published records, in order, without those whose place is not above that of the one kept before.
    ///
    /// Each is read before it is passed over. The first that can't be read or breaks a rule is refused, and those before
    /// it are kept.
    pub fn take<V: Verifier>(
        &mut self,
        alloc: Global,
        verifier: &V,
        published: &[PublishedRecord],
    ) -> Result<(), TakeError>
        ensures grows { OnOk result (IsSound E.kind E.plain self.old
            → Grows E.kind (kept_of E.plain self.old) published.now (kept_of E.plain self.new)) }
        ensures sound { IsSound E.kind E.plain self.old → IsSound E.kind E.plain self.new }
        ensures lawful { IsSound E.kind E.plain self.old
            → IsLawfulLog E.kind (V.good verifier.now) (kept_of E.plain self.old)
            → IsLawfulLog E.kind (V.good verifier.now) (kept_of E.plain self.new) }
        ensures fault { IfErr result (λ e. IsSound E.kind E.plain self.old
            → FirstFault e E.kind (V.good verifier.now) (kept_of E.plain self.old) published.now
            (kept_of E.plain self.new)) }
    {
        for record in published {
            self.take_one(alloc, verifier, record)?;
        }
        Ok(())
    }
}
