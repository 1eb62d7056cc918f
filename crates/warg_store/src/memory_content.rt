//! Contents in memory.

ghost use Rattle.std.specs.Prelude.{◌≡◌, ◌≢◌, ◌≤◌, ◌-◌, length, take, false, ◌++◌, ◌∷◌, ◌↔◌, [], ℕ, List, Err, Some, None, is_some, IfOk, IfErr, IfSome, IsSome, IsSomeAnd, IsErrOf, OnOk, OnErr, option_copied, option_map};
ghost use Rattle.sha2.specs.Sha256.{sha256};
ghost use Rattle.warg_store.specs.Contents.{SameContents, TellsContents, LeavesContent, LeavesCleared, AreContentsAfter, AreClearedAfter, IsContentFault, IsStoreContentFault, with_content};
ghost use Rattle.warg_store.specs.Entry.{IsStoreFault};
ghost use Rattle.warg_store.specs.Faults.{planned, after_call, has_store_failed};
ghost use Rattle.warg_store.specs.MemoryContents.{contents_in, content_schedule, location_of};
ghost use Rattle.warg_store.specs.declared.error.StoreError.TheVariants.{IncorrectContent as IsIncorrect};

use crate::after::After;
use crate::content::ContentStorage;
use crate::error::StoreError;
use crate::schedule::StoreSchedule;
use indexmap::IndexMap;
use std::alloc::Global;
use warg_hash::AnyHash;
use warg_values::{Memory, Sequence, Text};

/// Contents in memory, which tell what they hold.
#[derive(Debug, Drop)]
pub struct MemoryContent {
    contents: IndexMap<AnyHash, Sequence<u8>>,
    schedule: StoreSchedule,
}

/// The location of a digest's content.
fn location(alloc: Global, digest: &AnyHash) -> Result<Text, Memory>
    ensures { IfOk result (λ text. text ≡ location_of digest.now) }
{
    let digits = hex::encode(alloc, digest.bytes())?;
    let mut text = String::from_str(alloc, "sha256/")?;
    text.push_str(&digits)?;
    Ok(Text::new(text))
}

/// Refuses a digest that is not the one that is expected, where one is.
fn expect(digest: AnyHash, expected: Option<&AnyHash>) -> Result<(), StoreError>
    ensures same { OnOk result (IfSome (option_copied expected.entry) (λ wanted. wanted ≡ digest)) }
    ensures other { IfErr result (λ e. (wanted : List ℕ) × (option_copied expected.entry ≡ Some wanted)
        × (digest ≢ wanted) × (e ≡ IsIncorrect digest wanted)) }
{
    match expected {
        Some(wanted) if *wanted != digest => Err(StoreError::IncorrectContent {
            digest,
            expected: *wanted,
        }),
        _ => Ok(()),
    }
}

/// The bytes without the last one, where there is one.
fn without_last(bytes: &[u8]) -> &[u8]
    ensures { result.now ≡ take (length bytes.now - 1) bytes.now }
{
    &bytes[..bytes.len().saturating_sub(1)]
}

impl MemoryContent {
    /// No contents, and no call that is to fail.
    pub fn new(alloc: Global) -> Self
        ensures empty { SameContents (contents_in result) (λ _. None) }
        ensures schedule { content_schedule result ≡ record { calls = 0; failing = []; faults = 0 } }
    {
        MemoryContent {
            contents: IndexMap::new(alloc),
            schedule: StoreSchedule::new(alloc),
        }
    }

    /// Has the call of this number fail, counted from 1 over all calls, and leave this. A refusal changes nothing.
    ///
    /// A store that leaves what can't be read keeps the bytes without the last one. A clearing leaves no such content.
    pub fn fail_at(&mut self, call: u64, after: After) -> Result<(), Memory>
        ensures listed { OnOk result (content_schedule self.new ≡ record (content_schedule self.old)
            { failing = (content_schedule self.old).failing ++ (call, after) ∷ [] }) }
        ensures unchanged { OnErr result (content_schedule self.new ≡ content_schedule self.old) }
        ensures same { SameContents (contents_in self.new) (contents_in self.old) }
    {
        self.schedule.fail_at(call, after)
    }

    /// How many calls have failed.
    pub fn faults(&self) -> u64
        ensures { result ≡ (content_schedule self.now).faults }
    {
        self.schedule.faults()
    }

    /// Holds these bytes for a digest. A refusal changes nothing.
    fn insert(&mut self, alloc: Global, digest: AnyHash, bytes: &[u8]) -> Result<(), Memory>
        ensures inserted { OnOk result (SameContents (contents_in self.new)
            (with_content (contents_in self.old) digest bytes.now)) }
        ensures unchanged { OnErr result (SameContents (contents_in self.new) (contents_in self.old)) }
        ensures schedule { content_schedule self.new ≡ content_schedule self.old }
    {
        let bytes = Sequence::from_vec(Vec::from_slice(alloc, bytes)?);
        self.contents.insert(digest, bytes)?;
        Ok(())
    }

    /// Keeps a content, or leaves what a call that is to fail leaves. A refusal changes nothing.
    fn put(
        &mut self,
        alloc: Global,
        digest: AnyHash,
        bytes: &[u8],
        failing: Option<After>,
    ) -> Result<(), Memory>
        ensures put { OnOk result (AreContentsAfter failing (contents_in self.old) digest bytes.now
            (contents_in self.new)) }
        ensures unchanged { OnErr result (SameContents (contents_in self.new) (contents_in self.old)) }
        ensures schedule { content_schedule self.new ≡ content_schedule self.old }
    {
        match failing {
            None | Some(After::New) => self.insert(alloc, digest, bytes),
            Some(After::Old) => Ok(()),
            Some(After::Unreadable) => self.insert(alloc, digest, without_last(bytes)),
        }
    }

    /// Takes all contents away, or leaves what a call that is to fail leaves.
    fn take_away(&mut self, failing: Option<After>)
        ensures cleared { AreClearedAfter failing (contents_in self.old) (contents_in self.new) }
        ensures schedule { content_schedule self.new ≡ content_schedule self.old }
    {
        match failing {
            None | Some(After::New) => self.contents.clear(),
            Some(After::Old | After::Unreadable) => {}
        }
    }

    /// A copy of the content of a digest.
    fn copy_of(&self, alloc: Global, digest: &AnyHash) -> Result<Option<Vec<u8>>, StoreError>
        ensures found { IfOk result (λ o. contents_in self.now digest.now ≡ option_map (λ bytes. bytes.items) o) }
        ensures whole { IfOk result (λ o. IfSome o (λ bytes. sha256 bytes.items ≡ digest.now)) }
        ensures fault { (before after : ℕ) → IfErr result (λ e. IsContentFault e digest.now before after
            (Some (contents_in self.now digest.now))) }
        ensures no_failure { has_store_failed result ≡ false }
    {
        let Some(bytes) = self.contents.get(digest) else {
            return Ok(None);
        };
        let found = AnyHash::sha256_of(bytes.as_slice());
        if found != *digest {
            return Err(StoreError::IncorrectContent {
                digest: found,
                expected: *digest,
            });
        }
        Ok(Some(Vec::from_slice(alloc, bytes.as_slice())?))
    }

    /// The location of the content of a digest, where there is one.
    fn location_in(&self, alloc: Global, digest: &AnyHash) -> Result<Option<Text>, StoreError>
        ensures found { IfOk result (λ o. is_some o ≡ is_some (contents_in self.now digest.now)) }
        ensures location { IfOk result (λ o. IfSome o (λ text. text ≡ location_of digest.now)) }
        ensures fault { (before after : ℕ) → IfErr result (λ e. IsStoreFault e before after) }
        ensures no_failure { has_store_failed result ≡ false }
    {
        if self.contents.get(digest).is_none() {
            return Ok(None);
        }
        Ok(Some(location(alloc, digest)?))
    }
}

impl ContentStorage for MemoryContent {
    ghost faults = { λ m. (content_schedule m).faults };

    ghost told = { λ m. Some (contents_in m) };

    fn clear(&mut self, _alloc: Global) -> Result<(), StoreError>
        ensures never_falls { (content_schedule self.old).faults ≤ (content_schedule self.new).faults }
        ensures cleared { OnOk result (TellsContents (Some (contents_in self.new)) (λ _. None)) }
        ensures refused { OnErr result (LeavesCleared (Some (contents_in self.new)) (contents_in self.old)) }
        ensures fault { IfErr result (λ e. IsStoreFault e (content_schedule self.old).faults
            (content_schedule self.new).faults) }
        ensures left { IsErrOf result StoreError.Failed → IsSomeAnd (planned (content_schedule self.old)) (λ after.
            AreClearedAfter (Some after) (contents_in self.old) (contents_in self.new)) }
        ensures failed { IsErrOf result StoreError.Failed ↔ IsSome (planned (content_schedule self.old)) }
        ensures scheduled { content_schedule self.new
            ≡ after_call (content_schedule self.old) (has_store_failed result) }
    {
        let failing = self.schedule.planned();
        self.take_away(failing);
        self.schedule.finish(failing, Ok(()))
    }

    fn content_location(
        &mut self,
        alloc: Global,
        digest: &AnyHash,
    ) -> Result<Option<Text>, StoreError>
        ensures never_falls { (content_schedule self.old).faults ≤ (content_schedule self.new).faults }
        ensures kept { TellsContents (Some (contents_in self.new)) (contents_in self.old) }
        ensures found { IfOk result (λ o. is_some o ≡ is_some (contents_in self.old digest.now)) }
        ensures location { IfOk result (λ o. IfSome o (λ text. text ≡ location_of digest.now)) }
        ensures fault { IfErr result (λ e. IsStoreFault e (content_schedule self.old).faults
            (content_schedule self.new).faults) }
        ensures failed { IsErrOf result StoreError.Failed ↔ IsSome (planned (content_schedule self.old)) }
        ensures scheduled { content_schedule self.new
            ≡ after_call (content_schedule self.old) (has_store_failed result) }
    {
        if self.schedule.fails_now() {
            return Err(StoreError::Failed);
        }
        self.location_in(alloc, digest)
    }

    fn load_content(
        &mut self,
        alloc: Global,
        digest: &AnyHash,
    ) -> Result<Option<Vec<u8>>, StoreError>
        ensures never_falls { (content_schedule self.old).faults ≤ (content_schedule self.new).faults }
        ensures kept { TellsContents (Some (contents_in self.new)) (contents_in self.old) }
        ensures found { IfOk result (λ o. contents_in self.old digest.now ≡ option_map (λ bytes. bytes.items) o) }
        ensures whole { IfOk result (λ o. IfSome o (λ bytes. sha256 bytes.items ≡ digest.now)) }
        ensures fault { IfErr result (λ e. IsContentFault e digest.now (content_schedule self.old).faults
            (content_schedule self.new).faults (Some (contents_in self.old digest.now))) }
        ensures failed { IsErrOf result StoreError.Failed ↔ IsSome (planned (content_schedule self.old)) }
        ensures scheduled { content_schedule self.new
            ≡ after_call (content_schedule self.old) (has_store_failed result) }
    {
        if self.schedule.fails_now() {
            return Err(StoreError::Failed);
        }
        self.copy_of(alloc, digest)
    }

    fn store_content(
        &mut self,
        alloc: Global,
        bytes: &[u8],
        expected: Option<&AnyHash>,
    ) -> Result<AnyHash, StoreError>
        ensures never_falls { (content_schedule self.old).faults ≤ (content_schedule self.new).faults }
        ensures digest { IfOk result (λ digest. digest ≡ sha256 bytes.now) }
        ensures expected { IfOk result (λ digest. IfSome (option_copied expected.entry) (λ wanted. wanted ≡ digest)) }
        ensures stored { OnOk result (TellsContents (Some (contents_in self.new))
            (with_content (contents_in self.old) (sha256 bytes.now) bytes.now)) }
        ensures refused { OnErr result (LeavesContent (Some (contents_in self.new)) (contents_in self.old) bytes.now) }
        ensures incorrect { (found wanted : List ℕ) → result ≡ Err (IsIncorrect found wanted)
            → TellsContents (Some (contents_in self.new)) (contents_in self.old) }
        ensures fault { IfErr result (λ e. IsStoreContentFault e bytes.now (option_copied expected.entry)
            (content_schedule self.old).faults (content_schedule self.new).faults) }
        ensures left { IsErrOf result StoreError.Failed → IsSomeAnd (planned (content_schedule self.old)) (λ after.
            AreContentsAfter (Some after) (contents_in self.old) (sha256 bytes.now) bytes.now
            (contents_in self.new)) }
        ensures unchanged { IsErrOf result StoreError.Memory
            → SameContents (contents_in self.new) (contents_in self.old) }
        ensures unplanned { OnOk result (planned (content_schedule self.old) ≡ None) }
        ensures scheduled { content_schedule self.new
            ≡ after_call (content_schedule self.old) (has_store_failed result) }
    {
        let digest = AnyHash::sha256_of(bytes);
        if let Err(error) = expect(digest, expected) {
            self.schedule.count(false);
            return Err(error);
        }
        let failing = self.schedule.planned();
        let done = self.put(alloc, digest, bytes, failing);
        self.schedule.finish(failing, done)?;
        Ok(digest)
    }
}
