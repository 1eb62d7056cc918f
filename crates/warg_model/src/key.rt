//! The key of a registry.

ghost use Rattle.std.specs.Prelude.{◌≡◌, IfOk};
ghost use Rattle.warg_record.specs.Key.{IsKeyText};
ghost use Rattle.warg_model.specs.Signatures.{signature_on};

use std::alloc::Global;
use warg_hash::AnyHash;
use warg_log::Verifier;
use warg_record::{PublicKey, Signature};
use warg_values::Memory;

/// A key, and the signature that it gives to every text.
#[derive(Debug, Drop)]
pub struct SigningKey {
    /// The key.
    pub key: PublicKey,
    /// Its signature of every text.
    pub signature: Signature,
}

impl SigningKey {
    /// The texts of the key and of its signature have their form.
    pub fn have_form(&self)
        ensures key { IsKeyText self.now.key }
        ensures signature { IsKeyText self.now.signature }
    {
        self.key.as_str();
        self.signature.as_str();
    }

    /// The key's signature of a text, as a `ListedVerifier` lists it: the key, the text's digest and the signature.
    pub fn sign(
        &self,
        alloc: Global,
        text: &[u8],
    ) -> Result<(PublicKey, AnyHash, Signature), Memory>
        ensures { IfOk result (λ listed. listed ≡ signature_on self.now text.now) }
    {
        let key = self.key.try_clone(alloc)?;
        let signature = self.signature.try_clone(alloc)?;
        Ok((key, AnyHash::sha256_of(text), signature))
    }
}

impl Verifier for SigningKey {
    ghost use Rattle.warg_model.specs.Records.{accepted_by};

    ghost good = { accepted_by };

    fn accepts(&self, key: &PublicKey, _text: &[u8], signature: &Signature) -> bool {
        *key == self.key && *signature == self.signature
    }
}
