//! A signer that gives listed signatures.

ghost use Rattle.std.specs.Prelude.{◌≡◌, ◌≤◌, ◌↔◌, ◌⊎◌, ◌++◌, ◌∷◌, [], List, ℕ, Some, true, false, IfOk, IfSome, IfNone, IsErrOf, OnOk, OnErr};
ghost use Rattle.std.specs.List.{list_any};
ghost use Rattle.std.specs.List.Sorted.{IsPermutation};
ghost use Rattle.warg_values.specs.Faults.{one_more};
ghost use Rattle.warg_log.specs.Listed.{is_signature_of, is_signature_listed, IsDue, IsUnlisted};

use crate::signer::{SignError, Signer};
use std::alloc::Global;
use std::marker::Model;
use warg_hash::AnyHash;
use warg_record::{PublicKey, Signature};
use warg_values::{FaultSchedule, Memory};

/// Gives the listed signatures, each for the text of its digest, and fails at any other text.
///
/// Where a digest is listed with several signatures, it gives one of them.
#[derive(Debug, Drop)]
pub struct ListedSigner {
    key: PublicKey,
    listed: Vec<(AnyHash, Signature)>,
    schedule: FaultSchedule,
    faults: u64,
}

impl Model for ListedSigner {
    ghost use Rattle.std.specs.List.Sorted.{IsSortedByKey};
    ghost use Rattle.std.specs.Cmp.Lexicographic.{slice_cmp};
    ghost use Rattle.std.specs.Ordering.{nat_cmp};
    ghost use Rattle.warg_log.specs.Listed.{SignerHeld};

    ghost Value = { SignerHeld };

    ghost view = { λ s. record { key = s.key; listed = s.listed.items; schedule = s.schedule; faults = s.faults } };

    ghost invariant = { λ s. IsSortedByKey (λ l. l.0) (slice_cmp nat_cmp) s.listed.items };
}

impl ListedSigner {
    /// A signer with this key, which gives these signatures.
    pub fn new(alloc: Global, key: PublicKey, mut list: Vec<(AnyHash, Signature)>) -> Self
        ensures key { result.key ≡ key }
        ensures listed { IsPermutation list.items result.listed }
        ensures schedule { result.schedule ≡ record { calls = 0; failing = []; faults = 0 } }
        ensures faults { result.faults ≡ 0 }
    {
        list.sort_unstable_by_key(|listed| listed.0);
        ListedSigner {
            key,
            listed: list,
            schedule: FaultSchedule::new(alloc),
            faults: 0,
        }
    }

    /// Has the call of this number fail, counted from 1 over all calls of `sign`. A refusal changes nothing.
    pub fn fail_at(&mut self, call: u64) -> Result<(), Memory>
        ensures listed { OnOk result (self.new
            ≡ record self.old {
              schedule = record self.old.schedule {
                failing = self.old.schedule.failing
                    ++ call ∷ [];
              };
            }) }
        ensures unchanged { OnErr result (self.new ≡ self.old) }
    {
        self.schedule.fail_at(call)
    }

    /// A signature that is listed for a digest.
    fn signature_of(&self, digest: &AnyHash) -> Option<&Signature>
        ensures found { IfSome result (λ signature. list_any (is_signature_of digest.now signature.now) self.now.listed
            ≡ true) }
        ensures none { IfNone result ((signature : List ℕ)
            → list_any (is_signature_of digest.now signature) self.now.listed ≡ false) }
    {
        match self.listed.binary_search_by_key(digest, |listed| listed.0) {
            Ok(place) => Some(&self.listed[place].1),
            Err(_) => None,
        }
    }
}

impl Signer for ListedSigner {
    ghost use Rattle.warg_log.specs.Listed.{is_signature_listed, IsDue};

    ghost faults = { λ s. s.faults };

    ghost key = { λ s. s.key };

    ghost told = { λ s. Some (is_signature_listed s.listed) };

    ghost is_due = { λ s. IsDue s.schedule };

    fn public_key(&self) -> &PublicKey
        ensures { result.now ≡ self.now.key }
    {
        &self.key
    }

    /// The signature that is listed for the SHA-256 of `text`. A call that is to fail, and one with another text, is
    /// `Failed`.
    fn sign(&mut self, alloc: Global, text: &[u8]) -> Result<Signature, SignError>
        ensures never_falls { self.old.faults ≤ self.new.faults }
        ensures key { self.new.key ≡ self.old.key }
        ensures listed { self.new.listed ≡ self.old.listed }

        ensures signed { IfOk result (λ signature. is_signature_listed self.old.listed text.now signature ≡ true) }
        ensures failed { IsErrOf result SignError.Failed
            ↔ (IsDue self.old.schedule ⊎ IsUnlisted self.old.listed text.now) }
        ensures counted { IsErrOf result SignError.Failed → self.new.faults ≡ one_more self.old.faults }
        ensures steady { ¬ (IsErrOf result SignError.Failed) → self.new.faults ≡ self.old.faults }
        ensures calls { self.new.schedule.calls ≡ one_more self.old.schedule.calls }
        ensures failing { self.new.schedule.failing ≡ self.old.schedule.failing }
    {
        if self.schedule.fails_now() {
            self.faults = self.faults.saturating_add(1);
            return Err(SignError::Failed);
        }
        let Some(signature) = self.signature_of(&AnyHash::sha256_of(text)) else {
            self.faults = self.faults.saturating_add(1);
            return Err(SignError::Failed);
        };
        Ok(signature.try_clone(alloc)?)
    }
}
