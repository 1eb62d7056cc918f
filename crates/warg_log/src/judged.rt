//! Judging the entries of a record.

ghost use Rattle.std.specs.Prelude.{◌≡◌, ◌∷◌, [], Some, None, IfOk, IfErr, OnOk, OnErr, map, option_copied};
ghost use Rattle.warg_log.specs.Rules.{opening_key, signature_prefix};
ghost use Rattle.warg_log.specs.Breaches.{IsBreach};
ghost use Rattle.warg_log.specs.Facts.{known_by, known_breach, known_step, known_entries_breach, known_steps, undone, undone_all, CanUndo, CanUndoAll};

use crate::error::ValidationError;
use crate::facts::{Facts, Undo};
use crate::namespaces::NamespaceState;
use crate::permissions::PermissionSet;
use std::alloc::Global;
use warg_hash::KeyId;
use warg_record::{LogEntry, OperatorEntry, PackageEntry, PublicKey};

/// An entry that the rules of its log judge.
pub trait JudgedEntry: LogEntry {
    /// The key of an Init.
    fn opening_key(&self) -> Option<&PublicKey>
        ensures { option_copied result ≡ opening_key (Self.plain self.now ∷ []) };

    /// What stands before a record's message in the text that is signed.
    fn signature_prefix() -> &'static str
        ensures { result.now ≡ signature_prefix Self.kind };

    /// Enters the entry, signed by this key, which opens its log or does not.
    fn enter(
        &self,
        alloc: Global,
        facts: &mut Facts,
        signer: &KeyId,
        opens: bool,
    ) -> Result<Undo, ValidationError>
        ensures ok { OnOk result (known_breach signer.now opens (known_by facts.old) (Self.plain self.now) ≡ None) }
        ensures after { OnOk result (known_by facts.new
            ≡ known_step Self.kind (known_by facts.old) (Self.plain self.now)) }
        ensures undo { IfOk result (λ u. undone u (known_by facts.new) ≡ known_by facts.old) }
        ensures can { IfOk result (λ u. CanUndo u (known_by facts.new)) }
        ensures err { IfErr result (λ e. IsBreach e (known_breach signer.now opens (known_by facts.old)
            (Self.plain self.now))) }
        ensures same { OnErr result (known_by facts.new ≡ known_by facts.old) };
}

impl JudgedEntry for PackageEntry {
    fn opening_key(&self) -> Option<&PublicKey> {
        match self {
            PackageEntry::Init { key, .. } => Some(key),
            _ => None,
        }
    }

    fn signature_prefix() -> &'static str {
        "WARG-PACKAGE-RECORD-SIGNATURE-V0:"
    }

    fn enter(
        &self,
        alloc: Global,
        facts: &mut Facts,
        signer: &KeyId,
        opens: bool,
    ) -> Result<Undo, ValidationError> {
        match self {
            PackageEntry::Init {
                key,
                hash_algorithm,
            } => {
                let permissions = PermissionSet::all_of_package();
                facts.enter_init(alloc, opens, key, hash_algorithm, permissions)
            }
            PackageEntry::GrantFlat { key, permissions } => {
                facts.enter_grant(alloc, signer, key, permissions)
            }
            PackageEntry::RevokeFlat {
                key_id,
                permissions,
            } => facts.enter_revoke(signer, key_id, permissions),
            PackageEntry::Release { version, content } => {
                facts.enter_release(signer, version, content)
            }
            PackageEntry::Yank { version } => facts.enter_yank(signer, version),
        }
    }
}

impl JudgedEntry for OperatorEntry {
    fn opening_key(&self) -> Option<&PublicKey> {
        match self {
            OperatorEntry::Init { key, .. } => Some(key),
            _ => None,
        }
    }

    fn signature_prefix() -> &'static str {
        "WARG-OPERATOR-RECORD-SIGNATURE-V0:"
    }

    fn enter(
        &self,
        alloc: Global,
        facts: &mut Facts,
        signer: &KeyId,
        opens: bool,
    ) -> Result<Undo, ValidationError> {
        match self {
            OperatorEntry::Init {
                key,
                hash_algorithm,
            } => {
                let permissions = PermissionSet::all_of_operator();
                facts.enter_init(alloc, opens, key, hash_algorithm, permissions)
            }
            OperatorEntry::GrantFlat { key, permissions } => {
                facts.enter_grant(alloc, signer, key, permissions)
            }
            OperatorEntry::RevokeFlat {
                key_id,
                permissions,
            } => facts.enter_revoke(signer, key_id, permissions),
            OperatorEntry::DefineNamespace { namespace } => facts.enter_namespace(
                alloc,
                signer,
                "defineNamespace",
                namespace,
                NamespaceState::Defined,
            ),
            OperatorEntry::ImportNamespace {
                namespace,
                registry,
            } => {
                let registry = registry.try_clone(alloc)?;
                let state = NamespaceState::Imported { registry };
                facts.enter_namespace(alloc, signer, "importNamespace", namespace, state)
            }
        }
    }
}

/// Takes entries back, the last first.
fn undo_all(facts: &mut Facts, undos: &mut Vec<Undo>)
    requires { CanUndoAll undos.old.items (known_by facts.old) }
    ensures { known_by facts.new ≡ undone_all undos.old.items (known_by facts.old) }
{
    while let Some(undo) = undos.pop() {
        facts.undo(&undo);
    }
}

/// Enters entries in order, and notes how each is taken back.
fn enter_each<E: JudgedEntry>(
    alloc: Global,
    facts: &mut Facts,
    signer: &KeyId,
    opens: bool,
    entries: &[E],
    undos: &mut Vec<Undo>,
) -> Result<(), ValidationError>
    requires { CanUndoAll undos.old.items (known_by facts.old) }
    ensures ok { OnOk result (known_entries_breach E.kind signer.now opens (known_by facts.old)
        (map E.plain entries.now) ≡ None) }
    ensures after { OnOk result (known_by facts.new
        ≡ known_steps E.kind (known_by facts.old) (map E.plain entries.now)) }
    ensures err { IfErr result (λ e. IsBreach e (known_entries_breach E.kind signer.now opens (known_by facts.old)
        (map E.plain entries.now))) }
    ensures undo { undone_all undos.new.items (known_by facts.new) ≡ undone_all undos.old.items (known_by facts.old) }
    ensures can { CanUndoAll undos.new.items (known_by facts.new) }
{
    let mut first = opens;
    for entry in entries {
        let undo = entry.enter(alloc, facts, signer, first)?;
        if let Err(full) = undos.push(undo) {
            facts.undo(&full.value);
            return Err(ValidationError::Memory);
        }
        first = false;
    }
    Ok(())
}

/// Enters the entries of a record, each judged after the entries before it. Where one breaks a rule, none is entered.
pub fn enter_all<E: JudgedEntry>(
    alloc: Global,
    facts: &mut Facts,
    signer: &KeyId,
    opens: bool,
    entries: &[E],
) -> Result<(), ValidationError>
    ensures ok { OnOk result (known_entries_breach E.kind signer.now opens (known_by facts.old)
        (map E.plain entries.now) ≡ None) }
    ensures after { OnOk result (known_by facts.new
        ≡ known_steps E.kind (known_by facts.old) (map E.plain entries.now)) }
    ensures err { IfErr result (λ e. IsBreach e (known_entries_breach E.kind signer.now opens (known_by facts.old)
        (map E.plain entries.now))) }
    ensures same { OnErr result (known_by facts.new ≡ known_by facts.old) }
{
    let mut undos = Vec::new(alloc);
    let entered = enter_each(alloc, facts, signer, opens, entries, &mut undos);
    if entered.is_err() {
        undo_all(facts, &mut undos);
    }
    entered
}
