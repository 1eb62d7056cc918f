//! What is to be published of a package.

ghost use Rattle.std.specs.Prelude.{◌≡◌, ◌≤◌, ◌<◌, ◌^◌, List, ℕ, map, true, false, IfOk, IfSome, IsErr, IsErrOf, OnOk, option_copied};
ghost use Rattle.std.specs.List.{AllByRecursion, list_any};
ghost use Rattle.sha2.specs.Sha256.{sha256};
ghost use Rattle.warg_values.specs.Faults.{Rose};
ghost use Rattle.warg_hash.specs.Hash.{IsDigest, hash_text};
ghost use Rattle.warg_record.specs.Key.{IsKeyText};
ghost use Rattle.warg_record.specs.Record.{IsRecord, Package, record_text};
ghost use Rattle.warg_record.specs.Envelope.{IsEnvelopeOf};
ghost use Rattle.warg_record.specs.View.{envelope_view, package_entry_view, record_view};
ghost use Rattle.warg_log.specs.Rules.{signed_text};
ghost use Rattle.warg_publish.specs.Formed.{IsFormed};
ghost use Rattle.warg_publish.specs.Publish.{IsPublishable, is_init, is_initializing, record_entry, record_of};
ghost use Rattle.warg_publish.specs.Shown.{entry_view, info_view};

use crate::entry::{PublishEntry, is_digest};
use std::alloc::Global;
use warg_hash::{PackageName, RecordId};
use warg_log::{JudgedEntry, SignError, Signer};
use warg_record::{Envelope, PackageEntry, PackageRecord, PublicKey, Record, Signature};
use warg_values::{Memory, Moment};

/// The version of the form of records.
const RECORD_VERSION: u64 = 0;

/// What is to be published of a package: the entries of one record.
#[derive(Debug, Drop)]
pub struct PublishInfo {
    /// The package's name.
    pub name: PackageName,
    /// The id of the last record of the package's log, which a package that is made has not.
    pub head: Option<RecordId>,
    /// The entries, in order.
    pub entries: Vec<PublishEntry>,
}

/// Whether one of these entries is Init.
fn has_init(entries: &[PublishEntry]) -> bool
    ensures { result ≡ list_any (λ e. is_init (entry_view e)) entries.now }
{
    entries.iter().any(|entry| entry.is_init())
}

/// Equal entries, in the same order.
fn copies_of(alloc: Global, entries: &[PublishEntry]) -> Result<Vec<PublishEntry>, Memory>
    ensures { IfOk result (λ copies. map entry_view copies.items ≡ map entry_view entries.now) }
{
    let mut copies = Vec::new(alloc);
    for entry in entries {
        copies.push(entry.try_clone(alloc)?)?;
    }
    Ok(copies)
}

/// The entries of a record that a key signs, in order.
fn record_entries(
    alloc: Global,
    signer: &PublicKey,
    entries: Vec<PublishEntry>,
) -> Result<Vec<PackageEntry>, Memory>
    ensures entries { IfOk result (λ made. map package_entry_view made.items
        ≡ map (record_entry signer.now) (map entry_view entries.items)) }
    ensures formed { OnOk result (AllByRecursion (IsFormed signer.now) (map entry_view entries.items)) }
{
    let mut made = Vec::new(alloc);
    for entry in entries {
        made.push(entry.into_record_entry(alloc, signer)?)?;
    }
    Ok(made)
}

/// The id of a record is a digest.
fn head_is_digest(head: Option<&RecordId>)
    ensures { IfSome (option_copied head.entry) IsDigest }
{
    if let Some(head) = head {
        is_digest(head.hash());
    }
}

/// A signature has the form that is asked of it.
fn has_form(signature: &Signature)
    ensures { IsKeyText signature.now }
{
    let _text = signature.as_str();
}

/// The text of a record that is signed: what it is for, and the record's message.
fn text_to_sign(alloc: Global, contents: &[u8]) -> Result<Vec<u8>, Memory>
    ensures { IfOk result (λ text. text.items ≡ signed_text Package contents.now) }
{
    let mut text = Vec::new(alloc);
    text.extend_from_slice(PackageEntry::signature_prefix().as_bytes())?;
    text.extend_from_slice(contents)?;
    Ok(text)
}

impl PublishInfo {
    /// Whether the package is made: whether an entry is Init.
    pub fn initializing(&self) -> bool
        ensures { result ≡ is_initializing (info_view self.now) }
    {
        has_init(self.entries.as_slice())
    }

    /// An equal info of its own.
    pub fn try_clone(&self, alloc: Global) -> Result<Self, Memory>
        ensures { IfOk result (λ copy. info_view copy ≡ info_view self.now) }
    {
        Ok(PublishInfo {
            name: self.name.try_clone(alloc)?,
            head: self.head,
            entries: copies_of(alloc, self.entries.as_slice())?,
        })
    }

    /// The record that a key signs at a moment.
    fn into_record(
        self,
        alloc: Global,
        signer: &PublicKey,
        now: Moment,
    ) -> Result<PackageRecord, Memory>
        ensures record { IfOk result (λ rec.
            record_view package_entry_view rec ≡ record_of signer.now now (info_view self)) }
        ensures formed { OnOk result (IsPublishable (info_view self) → now.nanos < 10 ^ 9
            → IsRecord Package (record_of signer.now now (info_view self))) }
    {
        head_is_digest(self.head.as_ref());
        Ok(Record {
            prev: self.head,
            version: RECORD_VERSION,
            time: now,
            entries: record_entries(alloc, signer, self.entries)?,
        })
    }

    /// The record of the entries, made at this moment and signed: with the head as the record before it, and the
    /// signer's key and `sha256` where an entry is Init.
    ///
    /// Where it is refused, the info is dropped. `Failed` comes only where the signer was asked to sign this record's
    /// text, and failed.
    pub fn finalize<S: Signer>(
        self,
        alloc: Global,
        signer: &mut S,
        now: Moment,
    ) -> Result<Envelope<PackageRecord>, SignError>
        ensures never_falls { S.faults signer.old ≤ S.faults signer.new }
        ensures same_key { S.key signer.new ≡ S.key signer.old }
        ensures kept { S.told signer.new ≡ S.told signer.old }
        ensures record { IfOk result (λ env. record_view package_entry_view env.rec
            ≡ record_of (S.key signer.old) now (info_view self)) }
        ensures contents { IfOk result (λ env. env.contents.items
            ≡ record_text (record_of (S.key signer.old) now (info_view self))) }
        ensures key_id { IfOk result (λ env. env.key_id ≡ sha256 (S.key signer.old)) }
        ensures read { IfOk result (λ env. IsPublishable (info_view self) → now.nanos < 10 ^ 9
            → IsEnvelopeOf Package env.contents.items (hash_text env.key_id) env.signature
            (envelope_view package_entry_view env)) }
        ensures signed { IfOk result (λ env. IfSome (S.told signer.old) (λ gives. gives (signed_text Package
            (record_text (record_of (S.key signer.old) now (info_view self)))) env.signature ≡ true)) }
        ensures refused { IsErrOf result SignError.Failed
            → ¬ (S.is_due signer.old)
            → IfSome (S.told signer.old) (λ gives. (signature : List ℕ) → gives (signed_text Package
            (record_text (record_of (S.key signer.old) now (info_view self)))) signature ≡ false) }
        ensures due { S.is_due signer.old → IsErr result }
        ensures failed { IsErrOf result SignError.Failed → Rose (S.faults signer.old) (S.faults signer.new) }
    {
        let key = signer.public_key();
        let key_id = key.id();
        let rec = self.into_record(alloc, key, now)?;
        let contents = Envelope::write(alloc, &rec)?;
        let text = text_to_sign(alloc, &contents)?;
        let signature = signer.sign(alloc, &text)?;
        is_digest(key_id.hash());
        has_form(&signature);
        Ok(Envelope {
            rec,
            contents,
            key_id,
            signature,
        })
    }
}
