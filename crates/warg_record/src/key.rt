//! Keys and signatures.

ghost use Rattle.std.specs.Prelude.{◌≡◌, ◌&&◌, nat_lt, length, true, false, Some, bytes_eq, IfOk, IfErr, IsOk, OnOk, Err};
ghost use Rattle.std.specs.List.{list_all};
ghost use Rattle.std.proofs.Common.{rules};
ghost use Rattle.std.specs.Cmp.{partial_equiv_from_equiv};
ghost use Rattle.std.specs.Cmp.Lexicographic.{nat_list_eq_equiv};
ghost use Rattle.std.specs.Cmp.Rules.{hashing};
ghost use Rattle.std.specs.Hash as fed;
ghost use Rattle.sha2.specs.Sha256.{sha256};
ghost use Rattle.warg_record.specs.Key.{is_kind_byte, is_key_text, IsKeyText};
ghost use Rattle.warg_hash.specs.declared.name.NameError.TheVariants.{Form};

use base64::DecodeAllocError;
use base64::engine::general_purpose::STANDARD;
use std::alloc::Global;
use std::fmt;
use std::hash::{Hash, Hasher};
use std::marker::Model;
use warg_hash::{KeyId, NameError};
use warg_values::{Memory, Text};

/// The word that names a kind of key: lower-case letters, digits and hyphens, one or more.
fn is_kind(text: &[u8]) -> bool
    ensures { result ≡ (nat_lt 0 (length text.now) && list_all is_kind_byte text.now) }
{
    !text.is_empty()
        && text.iter().all(|b| b.is_ascii_lowercase() || b.is_ascii_digit() || *b == b'-')
}

/// That a text is a word, a colon, and standard base64 with padding.
fn check_form(alloc: Global, text: &str) -> Result<(), NameError>
    ensures ok { OnOk result (is_key_text text.now ≡ true) }
    ensures form { IfErr result (λ e. e ≡ Form → is_key_text text.now ≡ false) }
{
    let Some((kind, code)) = text.split_once(':') else {
        return Err(NameError::Form);
    };
    if !is_kind(kind.as_bytes()) {
        return Err(NameError::Form);
    }
    match STANDARD.decode(alloc, code.as_bytes()) {
        Ok(_) => Ok(()),
        Err(DecodeAllocError::OutOfMemory) => Err(NameError::Memory),
        Err(DecodeAllocError::DecodeError(_)) => Err(NameError::Form),
    }
}

/// A public key: a word of lower-case letters, digits and hyphens that names its kind, a colon, and standard base64
/// with padding (RFC 4648, section 4), as `ecdsa-p256:AA==`.
///
/// It is equal to another and hashes by its text, and a clause sees the text's bytes.
#[derive(Debug, Drop)]
pub struct PublicKey {
    text: Text,
}

impl Model for PublicKey {
    ghost use Rattle.std.specs.Prelude.{◌≡◌, ℕ, List, true};

    ghost Value = { List ℕ };

    ghost use Rattle.warg_record.specs.Key.{is_key_text};

    ghost view = { λ k. k.text };

    ghost invariant = { λ k. is_key_text k.text ≡ true };
}

impl PublicKey {
    /// The key that a text is. A text of another form is `Form`.
    pub fn new(alloc: Global, text: &str) -> Result<Self, NameError>
        ensures ok { IfOk result (λ key. (key ≡ text.now) × IsKeyText text.now) }
        ensures form { (result ≡ Err Form) → ¬ (IsKeyText text.now) }
    {
        check_form(alloc, text)?;
        let text = Text::copy_of(alloc, text)?;
        Ok(PublicKey { text })
    }

    /// The key's text.
    pub fn as_str(&self) -> &str
        ensures value { result.now ≡ self.now }
        ensures form { IsKeyText self.now }
    {
        self.text.as_str()
    }

    /// The key's id: the SHA-256 of the key's text. It takes no memory.
    pub fn key_id(&self, _alloc: Global) -> Result<KeyId, Memory>
        ensures ok { IsOk result }
        ensures value { IfOk result (λ id. id ≡ sha256 self.now) }
    {
        Ok(self.id())
    }

    /// The key's id, as `key_id` gives it.
    pub fn id(&self) -> KeyId
        ensures { result ≡ sha256 self.now }
    {
        KeyId::of(self.as_str())
    }

    /// An equal key of its own.
    pub fn try_clone(&self, alloc: Global) -> Result<Self, Memory>
        ensures { IfOk result (λ copy. copy ≡ self.now) }
    {
        let text = self.text.try_clone(alloc)?;
        Ok(PublicKey { text })
    }
}

impl fmt::Display for PublicKey {
    ghost output = { λ key. Some key };

    fn fmt<W: fmt::Write>(&self, f: &mut fmt::Formatter<W>) -> fmt::Result {
        fmt::Display::fmt(&self.as_str(), f)
    }
}

impl PartialEq for PublicKey {
    ghost eq = { λ a b. bytes_eq a b };

    ghost laws = { partial_equiv_from_equiv nat_list_eq_equiv };

    fn eq(&self, other: &PublicKey) -> bool {
        self.text == other.text
    }
}

impl Eq for PublicKey {
    ghost laws = { nat_list_eq_equiv };
}

impl Hash for PublicKey {
    ghost hash_input = { λ key. fed.str key };

    ghost respects_eq = { Prim.search (hashing, rules) };

    fn hash<H: Hasher>(&self, state: &mut H) {
        self.text.hash(state);
    }
}

/// A signature: a word of lower-case letters, digits and hyphens that names its kind, a colon, and standard base64 with
/// padding (RFC 4648, section 4), as `ecdsa-p256:AA==`.
///
/// It is equal to another and hashes by its text, and a clause sees the text's bytes.
#[derive(Debug, Drop)]
pub struct Signature {
    text: Text,
}

impl Model for Signature {
    ghost use Rattle.std.specs.Prelude.{◌≡◌, ℕ, List, true};

    ghost Value = { List ℕ };

    ghost use Rattle.warg_record.specs.Key.{is_key_text};

    ghost view = { λ k. k.text };

    ghost invariant = { λ k. is_key_text k.text ≡ true };
}

impl Signature {
    /// The signature that a text is. A text of another form is `Form`.
    pub fn new(alloc: Global, text: &str) -> Result<Self, NameError>
        ensures ok { IfOk result (λ signature. (signature ≡ text.now) × IsKeyText text.now) }
        ensures form { (result ≡ Err Form) → ¬ (IsKeyText text.now) }
    {
        check_form(alloc, text)?;
        let text = Text::copy_of(alloc, text)?;
        Ok(Signature { text })
    }

    /// The signature's text.
    pub fn as_str(&self) -> &str
        ensures value { result.now ≡ self.now }
        ensures form { IsKeyText self.now }
    {
        self.text.as_str()
    }

    /// An equal signature of its own.
    pub fn try_clone(&self, alloc: Global) -> Result<Self, Memory>
        ensures { IfOk result (λ copy. copy ≡ self.now) }
    {
        let text = self.text.try_clone(alloc)?;
        Ok(Signature { text })
    }
}

impl fmt::Display for Signature {
    ghost output = { λ signature. Some signature };

    fn fmt<W: fmt::Write>(&self, f: &mut fmt::Formatter<W>) -> fmt::Result {
        fmt::Display::fmt(&self.as_str(), f)
    }
}

impl PartialEq for Signature {
    ghost eq = { λ a b. bytes_eq a b };

    ghost laws = { partial_equiv_from_equiv nat_list_eq_equiv };

    fn eq(&self, other: &Signature) -> bool {
        self.text == other.text
    }
}

impl Eq for Signature {
    ghost laws = { nat_list_eq_equiv };
}

impl Hash for Signature {
    ghost hash_input = { λ signature. fed.str signature };

    ghost respects_eq = { Prim.search (hashing, rules) };

    fn hash<H: Hasher>(&self, state: &mut H) {
        self.text.hash(state);
    }
}
