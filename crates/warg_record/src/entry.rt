//! What the entries and the permissions of both kinds of log have in common.

ghost use Rattle.std.specs.Prelude.{◌≡◌, ℕ, List, true, false, Err, MatchOption, IfOk};
ghost use Rattle.warg_record.specs.Record.{Kind, PlainEntry, IsEntryMessageOf, entry_text, is_permission};
ghost use Rattle.warg_record.specs.declared.error.EnvelopeError.TheVariants.{Form};

use crate::error::EnvelopeError;
use std::alloc::Global;
use warg_values::Memory;

/// A permission that a key can hold in one kind of log.
pub trait LogPermission: Copy + PartialEq {
    /// The kind of log.
    ghost kind: { Kind };

    /// The permission's text.
    ghost text_of: { Self → List ℕ };

    /// The permission with this text, where there is one.
    fn from_text(text: &str) -> Option<Self>
        ensures { MatchOption result (is_permission kind text.now ≡ false) (λ p. (is_permission kind text.now ≡ true)
            × (text_of p ≡ text.now)) };

    /// The permission's text.
    fn as_str(self) -> &'static str
        ensures { result.now ≡ text_of self };
}

/// An entry of a record in one kind of log.
pub trait LogEntry: Drop {
    /// The kind of log.
    ghost kind: { Kind };

    /// What clauses see of an entry.
    ghost plain: { Self → PlainEntry };

    /// Reads an entry's message, all of the bytes. Bytes of another form are `Form`.
    fn read(alloc: Global, bytes: &[u8]) -> Result<Self, EnvelopeError>
        ensures ok { IfOk result (λ entry. IsEntryMessageOf kind bytes.now (plain entry)) }
        ensures form { (result ≡ Err Form) → (e : PlainEntry) → IsEntryMessageOf kind bytes.now e → ⊥ };

    /// An equal entry of its own.
    fn try_clone(&self, alloc: Global) -> Result<Self, Memory>
        ensures { IfOk result (λ copy. plain copy ≡ plain self.now) };

    /// Writes the entry's message.
    fn message(&self, alloc: Global) -> Result<Vec<u8>, Memory>
        ensures { IfOk result (λ message. message.items ≡ entry_text (plain self.now)) };
}
