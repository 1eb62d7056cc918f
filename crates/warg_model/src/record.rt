//! Records as a registry makes them.

ghost use Rattle.std.specs.Prelude.{◌≡◌, ◌∷◌, ◌++◌, [], List, None, IfOk, OnOk};
ghost use Rattle.warg_record.specs.Envelope.{Signed};
ghost use Rattle.warg_record.specs.Record.{IsRecord};
ghost use Rattle.warg_record.specs.View.{envelope_view, record_view};
ghost use Rattle.warg_log.specs.Follows.{Follows};
ghost use Rattle.warg_log.specs.Lawful.{IsRead};
ghost use Rattle.warg_log.specs.Rules.{breach_of, signed_text};
ghost use Rattle.warg_model.specs.Records.{accepted_by, record_at, signed_by};

use crate::key::SigningKey;
use std::alloc::Global;
use warg_log::{JudgedEntry, LogState};
use warg_record::{Envelope, Record};
use warg_values::{Memory, Moment};

/// The record of one entry that comes next behind the records that a state follows, as a key signs it at a place of its
/// registry's list. The state then follows it too.
pub fn next_record<E: JudgedEntry>(
    alloc: Global,
    key: &SigningKey,
    state: &mut LogState<E>,
    place: u64,
    entry: E,
) -> Result<Envelope<Record<E>>, Memory>
    ensures made { IfOk result (λ env. (log : List Signed) → Follows E.kind state.old log
        → envelope_view E.plain env ≡ signed_by key.now (record_at place log (E.plain entry))) }
    ensures obeys { IfOk result (λ env. (log : List Signed) → Follows E.kind state.old log
        → breach_of E.kind (accepted_by key.now) log (envelope_view E.plain env) ≡ None) }
    ensures follows { IfOk result (λ env. (log : List Signed) → Follows E.kind state.old log
        → Follows E.kind state.new (log ++ envelope_view E.plain env ∷ [])) }
    ensures read { IfOk result (λ env. IsRecord E.kind (record_view E.plain env.rec)
        → IsRead E.kind (envelope_view E.plain env)) }
{
    let prev = match state.head() {
        Some(head) => Some(head.digest),
        None => None,
    };
    let mut entries = Vec::with_capacity(alloc, 1)?;
    entries.push(entry)?;
    let time = Moment {
        seconds: place,
        nanos: 0,
    };
    let rec = Record {
        prev,
        version: 0,
        time,
        entries,
    };
    let contents = Envelope::write(alloc, &rec)?;
    let env = Envelope {
        rec,
        contents,
        key_id: key.key.id(),
        signature: key.signature.try_clone(alloc)?,
    };
    follow(alloc, key, state, &env)?;
    Ok(env)
}

/// Has a state follow one record more, which a key signed.
pub fn follow<E: JudgedEntry>(
    alloc: Global,
    key: &SigningKey,
    state: &mut LogState<E>,
    env: &Envelope<Record<E>>,
) -> Result<(), Memory>
    ensures obeys { OnOk result ((log : List Signed) → Follows E.kind state.old log
        → breach_of E.kind (accepted_by key.now) log (envelope_view E.plain env.now) ≡ None) }
    ensures follows { OnOk result ((log : List Signed) → Follows E.kind state.old log
        → Follows E.kind state.new (log ++ envelope_view E.plain env.now ∷ [])) }
{
    // A registry's own records break no rule, so only memory can be wanting.
    match state.validate(alloc, key, env) {
        Ok(()) => Ok(()),
        Err(_) => Err(Memory),
    }
}

/// The text of a record that is signed: what it is for, and the record's message.
pub fn signed_text_of<E: JudgedEntry>(
    alloc: Global,
    env: &Envelope<Record<E>>,
) -> Result<Vec<u8>, Memory>
    ensures { IfOk result (λ text. text.items ≡ signed_text E.kind env.now.contents.items) }
{
    let mut text = Vec::new(alloc);
    text.extend_from_slice(E::signature_prefix().as_bytes())?;
    text.extend_from_slice(env.contents.as_slice())?;
    Ok(text)
}
