//! Stored records, and the log that they make.

ghost use Rattle.std.specs.Prelude.{◌≡◌, IfOk, IfErr};
ghost use Rattle.warg_info.specs.Kept.{AreKeptAs};
ghost use Rattle.warg_info.specs.Info.{kept_of, IsSound};
ghost use Rattle.warg_info.specs.Faults.{ascends as ascends_of, IsReplayFault};

use crate::error::ReplayError;
use crate::log::{LogInfo, is_above};
use std::alloc::Global;
use warg_exchange::PublishedRecord;
use warg_log::{JudgedEntry, Verifier};
use warg_record::{PublicKey, Signature};

/// Takes each signature as good: those of stored records were judged before they were stored.
struct AnySignature;

impl Verifier for AnySignature {
    ghost use Rattle.warg_log.specs.Rules.{any_signature};

    ghost good = { λ v. any_signature };

    fn accepts(&self, _key: &PublicKey, _text: &[u8], _signature: &Signature) -> bool {
        true
    }
}

/// Whether each place is above the one before it.
fn ascends(published: &[PublishedRecord]) -> bool
    ensures { result ≡ ascends_of published.now }
{
    let mut before = None;
    for record in published {
        if !is_above(record.registry_index, before) {
            return false;
        }
        before = Some(record.registry_index);
    }
    true
}

impl<E: JudgedEntry> LogInfo<E> {
    /// The log of stored records, each as it was published, where their places ascend and each is read and obeys all rules
    /// but that of the signature. Else it answers the first fault: the places are looked at before the records.
    pub fn replay(alloc: Global, published: &[PublishedRecord]) -> Result<Self, ReplayError>
        ensures kept { IfOk result (λ log. AreKeptAs E.kind published.now (kept_of E.plain log)) }
        ensures sound { IfOk result (λ log. IsSound E.kind E.plain log) }
        ensures fault { IfErr result (λ e. IsReplayFault e E.kind published.now) }
    {
        if !ascends(published) {
            return Err(ReplayError::NotAscending);
        }
        let mut log = LogInfo::new(alloc);
        log.take(alloc, &AnySignature, published)?;
        Ok(log)
    }
}
