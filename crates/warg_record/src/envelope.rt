//! Envelopes: records with their signatures.

ghost use Rattle.std.specs.Prelude.{◌≡◌, ◌++◌, IfOk, IfErr, OnOk, Err, List, ℕ, map};
ghost use Rattle.warg_hash.specs.Hash.{IsHashText};
ghost use Rattle.warg_record.specs.Key.{IsKeyText};
ghost use Rattle.warg_record.specs.Wire.{fields};
ghost use Rattle.warg_record.specs.Record.{PlainRecord, IsRecord, entry_text, moment_text, record_text};
ghost use Rattle.warg_record.specs.Envelope.{IsMessageOf, IsEnvelopeOf, Signed};
ghost use Rattle.warg_record.specs.View.{record_view, envelope_view};
ghost use Rattle.warg_record.specs.declared.error.EnvelopeError.TheVariants.{Form};

use crate::entry::LogEntry;
use crate::error::EnvelopeError;
use crate::key::Signature;
use crate::record::{Record, record_of};
use crate::writing::{push_field, push_number};
use std::alloc::Global;
use warg_hash::{KeyId, NameError};
use warg_values::{Memory, Moment};

/// A record, its message, and who signed it.
#[derive(Debug, Drop)]
pub struct Envelope<T> {
    /// The record.
    pub rec: T,
    /// The record's message, as it was signed.
    pub contents: Vec<u8>,
    /// The id of the key that signed it.
    pub key_id: KeyId,
    /// The signature.
    pub signature: Signature,
}

/// The id of a key, by its text.
fn key_id_of(alloc: Global, text: &str) -> Result<KeyId, EnvelopeError>
    ensures ok { IfOk result (λ id. IsHashText text.now id) }
    ensures form { IfErr result (λ e. e ≡ Form → (digest : List ℕ) → IsHashText text.now digest → ⊥) }
{
    match KeyId::from_text(alloc, text) {
        Ok(id) => Ok(id),
        Err(NameError::Form) => Err(EnvelopeError::Form),
        Err(NameError::Memory) => Err(EnvelopeError::Memory),
    }
}

/// A signature, by its text.
fn signature_of(alloc: Global, text: &str) -> Result<Signature, EnvelopeError>
    ensures ok { IfOk result (λ signature. (signature ≡ text.now) × IsKeyText text.now) }
    ensures form { IfErr result (λ e. e ≡ Form → ¬ (IsKeyText text.now)) }
{
    match Signature::new(alloc, text) {
        Ok(signature) => Ok(signature),
        Err(NameError::Form) => Err(EnvelopeError::Form),
        Err(NameError::Memory) => Err(EnvelopeError::Memory),
    }
}

/// A record, by its message.
fn checked_record_of<E: LogEntry>(
    alloc: Global,
    contents: &[u8],
) -> Result<Record<E>, EnvelopeError>
    ensures ok { IfOk result (λ r. IsMessageOf E.kind contents.now (record_view E.plain r)) }
    ensures form { IfErr result (λ e. e ≡ Form → (r : PlainRecord) → IsMessageOf E.kind contents.now r → ⊥) }
{
    record_of(alloc, contents)
}

/// A moment's message.
fn moment_message(alloc: Global, time: Moment) -> Result<Vec<u8>, Memory>
    ensures { IfOk result (λ message. message.items ≡ moment_text time) }
{
    let mut message = Vec::new(alloc);
    push_number(&mut message, 1, time.seconds)?;
    push_number(&mut message, 2, u64::from(time.nanos))?;
    Ok(message)
}

/// The messages of entries, one field 4 for each.
fn push_entries<E: LogEntry>(alloc: Global, out: &mut Vec<u8>, entries: &[E]) -> Result<(), Memory>
    ensures { OnOk result (out.new.items ≡ out.old.items ++ fields 4 (map entry_text (map E.plain entries.now))) }
{
    for entry in entries {
        let message = entry.message(alloc)?;
        push_field(out, 4, &message)?;
    }
    Ok(())
}

impl<E: LogEntry> Envelope<Record<E>> {
    /// Reads an envelope: a record's message, the text of the id of the key that signed it, and the text of the
    /// signature.
    ///
    /// A message is a protocol buffer's (the encoding guide) with its fields ascending, every number in its shortest
    /// form, defaults left out and nothing unknown. Anything else is `Form`.
    pub fn read(
        alloc: Global,
        contents: &[u8],
        key_id: &str,
        signature: &str,
    ) -> Result<Self, EnvelopeError>
        ensures ok { IfOk result (λ env.
            IsEnvelopeOf E.kind contents.now key_id.now signature.now (envelope_view E.plain env)) }
        ensures form { (result ≡ Err Form)
            → (s : Signed) → IsEnvelopeOf E.kind contents.now key_id.now signature.now s → ⊥ }
    {
        let rec = checked_record_of(alloc, contents)?;
        let key_id = key_id_of(alloc, key_id)?;
        let signature = signature_of(alloc, signature)?;
        Ok(Envelope {
            rec,
            contents: Vec::from_slice(alloc, contents)?,
            key_id,
            signature,
        })
    }

    /// Writes a record's message, which `read` reads again where the record has the form.
    pub fn write(alloc: Global, rec: &Record<E>) -> Result<Vec<u8>, Memory>
        ensures text { IfOk result (λ contents. contents.items ≡ record_text (record_view E.plain rec.now)) }
        ensures message { IfOk result (λ contents. IsRecord E.kind (record_view E.plain rec.now)
            → IsMessageOf E.kind contents.items (record_view E.plain rec.now)) }
    {
        let mut contents = Vec::new(alloc);
        if let Some(prev) = &rec.prev {
            push_field(&mut contents, 1, prev.hash().text_bytes().as_slice())?;
        }
        push_number(&mut contents, 2, rec.version)?;
        let time = moment_message(alloc, rec.time)?;
        push_field(&mut contents, 3, &time)?;
        push_entries(alloc, &mut contents, &rec.entries)?;
        Ok(contents)
    }

    /// An equal envelope of its own.
    pub fn try_clone(&self, alloc: Global) -> Result<Self, Memory>
        ensures { IfOk result (λ copy. envelope_view E.plain copy ≡ envelope_view E.plain self.now) }
    {
        Ok(Envelope {
            rec: self.rec.try_clone(alloc)?,
            contents: Vec::from_slice(alloc, self.contents.as_slice())?,
            key_id: self.key_id,
            signature: self.signature.try_clone(alloc)?,
        })
    }
}
