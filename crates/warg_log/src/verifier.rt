//! Who says which signatures are good.

use warg_record::{PublicKey, Signature};

/// Tells which signatures of which texts by which keys are good.
pub trait Verifier {
    ghost use Rattle.std.specs.Prelude.{◌≡◌, ℕ, List, Bool};

    /// Which keys, texts and signatures go together.
    ghost good: { Self → List ℕ → List ℕ → List ℕ → Bool };

    /// Whether this is the key's signature of this text.
    fn accepts(&self, key: &PublicKey, text: &[u8], signature: &Signature) -> bool
        ensures { result ≡ good self.now key.now text.now signature.now };
}
