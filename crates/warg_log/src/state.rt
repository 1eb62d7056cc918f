//! The state of a log.

ghost use Rattle.std.specs.Prelude.{◌≡◌, ◌↔◌, ◌∷◌, ◌++◌, [], List, Option, Some, None, IfOk, IfErr, OnOk, OnErr, MatchOption, false, map, is_some, not, option_copied, option_map, find};
ghost use Rattle.warg_log.specs.Rules.{Accepts, any_signature, signed_text, head_from, breach_of, head_rules, broken, FirstEntryNotInit, signature_breach, Breach, head_of, entries_of};
ghost use Rattle.warg_record.specs.Envelope.{Signed};
ghost use Rattle.warg_log.specs.Breaches.{IsBreach};
ghost use Rattle.warg_log.specs.Lawful.{IsLawful};
ghost use Rattle.warg_log.specs.Facts.{known_by, known_steps, known_entries_breach, lacks_opening, signer_by};
ghost use Rattle.warg_record.specs.View.{envelope_view};
ghost use Rattle.warg_log.specs.Follows.{Follows, IsReplayOf};
ghost use Rattle.warg_log.specs.History.{key_with, releases_of, same_version, namespace_of};
ghost use Rattle.warg_log.specs.Places.{release_view, release_views};
ghost use Rattle.warg_log.specs.Namespaces.{namespace_view};
ghost use Rattle.warg_log.specs.Choice.{IsChosen, choice};
ghost use Rattle.semver.specs.Identifiers.{parts_of, comparator_view};

use crate::choice::{Candidate, greatest};
use crate::error::ValidationError;
use crate::facts::Facts;
use crate::head::Head;
use crate::judged::{JudgedEntry, enter_all};
use crate::namespaces::NamespaceState;
use crate::release::Release;
use crate::verifier::Verifier;
use semver::{Version, VersionReq};
use std::alloc::Global;
use std::marker::PhantomData;
use warg_hash::{AnyHash, KeyId, RecordId};
use warg_record::{Envelope, PublicKey, Record};
use warg_values::Memory;

/// What the accepted records of a log say.
#[derive(Debug, Drop)]
pub struct LogState<E> {
    pub(crate) head: Option<Head>,
    pub(crate) facts: Facts,
    entries: PhantomData<E>,
}

/// The rules of a record against the head: its version, the record before it, and its time.
fn check_head<E: JudgedEntry>(
    head: &Option<Head>,
    env: &Envelope<Record<E>>,
) -> Result<(), ValidationError>
    ensures ok { OnOk result ((next : Option Breach) → head_rules head.now (envelope_view E.plain env.now) next
        ≡ next) }
    ensures err { IfErr result (λ e. (next : Option Breach)
        → IsBreach e (head_rules head.now (envelope_view E.plain env.now) next)) }
{
    let rec = &env.rec;
    if rec.version != 0 {
        return Err(ValidationError::ProtocolVersion {
            version: rec.version,
        });
    }
    let expected = match head {
        Some(last) => Some(last.digest),
        None => None,
    };
    if expected != rec.prev {
        return Err(ValidationError::PreviousRecord {
            expected,
            found: rec.prev,
        });
    }
    if let Some(last) = head {
        let time = rec.time;
        if time.seconds < last.time.seconds
            || time.seconds == last.time.seconds && time.nanos < last.time.nanos
        {
            return Err(ValidationError::TimeLower {
                head: last.time,
                time,
            });
        }
    }
    Ok(())
}

/// The key that signs a record.
fn signer_of<'a, E: JudgedEntry>(
    head: &Option<Head>,
    facts: &'a Facts,
    env: &'a Envelope<Record<E>>,
) -> Result<&'a PublicKey, ValidationError>
    ensures lacks { IfOk result (λ key. lacks_opening head.now (envelope_view E.plain env.now) ≡ false) }
    ensures key { IfOk result (λ key. signer_by head.now (known_by facts.now) (envelope_view E.plain env.now)
        ≡ Some key.now) }
    ensures err { IfErr result (λ e. (accepts : Accepts)
        → IsBreach e (broken (lacks_opening head.now (envelope_view E.plain env.now)) FirstEntryNotInit
        (signature_breach E.kind accepts (envelope_view E.plain env.now) (signer_by head.now (known_by facts.now)
        (envelope_view E.plain env.now))))) }
{
    if head.is_some() {
        let Some(known) = facts.keys.get(&env.key_id) else {
            return Err(ValidationError::UnknownKey { key_id: env.key_id });
        };
        return Ok(&known.key);
    }
    let Some(first) = env.rec.entries.as_slice().first() else {
        return Err(ValidationError::FirstEntryNotInit);
    };
    let Some(key) = first.opening_key() else {
        return Err(ValidationError::FirstEntryNotInit);
    };
    if key.id() != env.key_id {
        return Err(ValidationError::UnknownKey { key_id: env.key_id });
    }
    Ok(key)
}

/// Whether the verifier accepts a record's signature as this key's.
fn is_signed<E: JudgedEntry, V: Verifier>(
    alloc: Global,
    verifier: &V,
    key: &PublicKey,
    env: &Envelope<Record<E>>,
) -> Result<bool, Memory>
    ensures { IfOk result (λ good. good
        ≡ V.good verifier.now key.now (signed_text E.kind env.now.contents.items) env.now.signature) }
{
    let mut text = Vec::new(alloc);
    text.extend_from_slice(E::signature_prefix().as_bytes())?;
    text.extend_from_slice(env.contents.as_slice())?;
    Ok(verifier.accepts(key, text.as_slice(), &env.signature))
}

impl<E: JudgedEntry> LogState<E> {
    /// The state of an empty log.
    pub fn new(alloc: Global) -> Self
        ensures { Follows E.kind result [] }
    {
        LogState {
            head: None,
            facts: Facts::new(alloc),
            entries: PhantomData,
        }
    }

    /// An equal state of its own: it follows the lists that this one follows, and no others.
    pub fn try_clone(&self, alloc: Global) -> Result<Self, Memory>
        ensures { IfOk result (λ copy. (log : List Signed) → Follows E.kind copy log ↔ Follows E.kind self.now log) }
    {
        let facts = self.facts.try_clone(alloc)?;
        Ok(LogState {
            head: self.head,
            facts,
            entries: PhantomData,
        })
    }

    /// Enters the entries of a record and makes it the head, where its entries obey the rules.
    fn enter(&mut self, alloc: Global, env: &Envelope<Record<E>>) -> Result<(), ValidationError>
        ensures ok { OnOk result (known_entries_breach E.kind env.now.key_id (not (is_some self.old.head))
            (known_by self.old.facts) (map E.plain env.now.rec.entries.items) ≡ None) }
        ensures after { OnOk result (known_by self.new.facts
            ≡ known_steps E.kind (known_by self.old.facts) (map E.plain env.now.rec.entries.items)) }
        ensures head { OnOk result (self.new.head ≡ Some (head_from (envelope_view E.plain env.now))) }
        ensures err { IfErr result (λ e. IsBreach e (known_entries_breach E.kind env.now.key_id (not
            (is_some self.old.head)) (known_by self.old.facts) (map E.plain env.now.rec.entries.items))) }
        ensures same { OnErr result (known_by self.new.facts ≡ known_by self.old.facts) }
        ensures same_head { OnErr result (self.new.head ≡ self.old.head) }
    {
        let opens = self.head.is_none();
        enter_all(
            alloc,
            &mut self.facts,
            &env.key_id,
            opens,
            env.rec.entries.as_slice(),
        )?;
        self.head = Some(Head {
            digest: RecordId::of(env.contents.as_slice()),
            time: env.rec.time,
        });
        Ok(())
    }

    /// Accepts a record that obeys the rules after those that were accepted. Where it breaks one, the error is the
    /// first, and nothing changes.
    ///
    /// The signature is judged over the contents, and the entries are those of the record: only of an envelope as
    /// `Envelope::read` gives it are they those that were signed.
    pub fn validate<V: Verifier>(
        &mut self,
        alloc: Global,
        verifier: &V,
        env: &Envelope<Record<E>>,
    ) -> Result<(), ValidationError>
        ensures ok { OnOk result ((log : List Signed)
            → Follows E.kind self.old log
            → breach_of E.kind (V.good verifier.now) log (envelope_view E.plain env.now) ≡ None) }
        ensures follows { OnOk result ((log : List Signed)
            → Follows E.kind self.old log
            → Follows E.kind self.new (log ++ envelope_view E.plain env.now ∷ [])) }
        ensures err { IfErr result (λ e. (log : List Signed)
            → Follows E.kind self.old log
            → IsBreach e (breach_of E.kind (V.good verifier.now) log (envelope_view E.plain env.now))) }
        ensures same { OnErr result ((log : List Signed) → Follows E.kind self.old log → Follows E.kind self.new log) }
    {
        check_head(&self.head, env)?;
        let key = signer_of(&self.head, &self.facts, env)?;
        if !is_signed(alloc, verifier, key, env)? {
            return Err(ValidationError::BadSignature { key_id: env.key_id });
        }
        self.enter(alloc, env)
    }

    /// Accepts a record that obeys all rules but that of the signature.
    fn follow(&mut self, alloc: Global, env: &Envelope<Record<E>>) -> Result<(), ValidationError>
        ensures ok { OnOk result ((log : List Signed)
            → Follows E.kind self.old log
            → breach_of E.kind any_signature log (envelope_view E.plain env.now) ≡ None) }
        ensures follows { OnOk result ((log : List Signed)
            → Follows E.kind self.old log
            → Follows E.kind self.new (log ++ envelope_view E.plain env.now ∷ [])) }
        ensures err { IfErr result (λ e. (log : List Signed)
            → Follows E.kind self.old log
            → IsBreach e (breach_of E.kind any_signature log (envelope_view E.plain env.now))) }
    {
        check_head(&self.head, env)?;
        signer_of(&self.head, &self.facts, env)?;
        self.enter(alloc, env)
    }

    /// The state of a list of records, where they obey all rules but that of the signature.
    ///
    /// The records are taken as they are: only of envelopes as `Envelope::read` gives them are the entries those that
    /// were signed.
    pub fn replay(alloc: Global, envs: &[Envelope<Record<E>>]) -> Result<Option<Self>, Memory>
        ensures { IfOk result (λ o. MatchOption o
            (IsLawful E.kind any_signature (map (envelope_view E.plain) envs.now) → ⊥)
            (λ state. IsReplayOf E.kind state (map (envelope_view E.plain) envs.now))) }
    {
        let mut state = LogState::new(alloc);
        for env in envs {
            if let Err(error) = state.follow(alloc, env) {
                return if error.wants_memory() {
                    Err(Memory)
                } else {
                    Ok(None)
                };
            }
        }
        Ok(Some(state))
    }

    /// The last record's id and time.
    pub fn head(&self) -> Option<&Head>
        ensures { (log : List Signed) → Follows E.kind self.now log → option_copied result ≡ head_of log }
    {
        self.head.as_ref()
    }

    /// The key with this id.
    pub fn public_key(&self, id: &KeyId) -> Option<&PublicKey>
        ensures { (log : List Signed)
            → Follows E.kind self.now log
            → option_copied result ≡ key_with id.now (entries_of log) }
    {
        let known = self.facts.keys.get(id)?;
        Some(&known.key)
    }

    /// The releases, in the order of the log.
    pub fn releases(&self) -> &[Release]
        ensures { (log : List Signed)
            → Follows E.kind self.now log
            → release_views result.now ≡ releases_of (entries_of log) }
    {
        self.facts.releases.as_slice()
    }

    /// The release of this version.
    pub fn release(&self, version: &Version) -> Option<&Release>
        ensures { (log : List Signed)
            → Follows E.kind self.now log
            → option_map release_view (option_copied result)
            ≡ find (λ r. same_version (parts_of version.now) r.0) (releases_of (entries_of log)) }
    {
        self.facts.releases.get(version)
    }

    /// The greatest of the releases that are not yanked and meet a requirement, by precedence and then by build
    /// metadata.
    pub fn find_latest_release(&self, req: &VersionReq) -> Option<&Release>
        ensures value { (log : List Signed) → Follows E.kind self.now log
            → option_map release_view (option_copied result)
            ≡ choice (map comparator_view req.now.comparators.items) None None (releases_of (entries_of log)) }
        ensures chosen { (log : List Signed) → Follows E.kind self.now log
            → IsChosen (map comparator_view req.now.comparators.items) None None
            (releases_of (entries_of log)) (option_map release_view (option_copied result)) }
    {
        self.find_release(req, None, None)
    }

    /// The greatest of the releases that are not yanked and meet a requirement, as `find_latest_release`, of those of
    /// this very version and of this digest where they are given.
    pub fn find_release(
        &self,
        req: &VersionReq,
        exact: Option<&Version>,
        digest: Option<&AnyHash>,
    ) -> Option<&Release>
        ensures value { (log : List Signed) → Follows E.kind self.now log
            → option_map release_view (option_copied result)
            ≡ choice (map comparator_view req.now.comparators.items) (option_map parts_of (option_copied exact.entry))
            (option_copied digest.entry) (releases_of (entries_of log)) }
        ensures chosen { (log : List Signed) → Follows E.kind self.now log
            → IsChosen (map comparator_view req.now.comparators.items) (option_map parts_of (option_copied exact.entry))
            (option_copied digest.entry) (releases_of (entries_of log))
            (option_map release_view (option_copied result)) }
    {
        let wanted = Candidate { req, exact, digest };
        greatest(&wanted, self.facts.releases.as_slice())
    }

    /// What is known of a namespace.
    pub fn namespace_state(&self, namespace: &str) -> Option<&NamespaceState>
        ensures { (log : List Signed)
            → Follows E.kind self.now log
            → option_map namespace_view (option_copied result) ≡ namespace_of namespace.now (entries_of log) }
    {
        self.facts.namespaces.get(namespace)
    }
}
