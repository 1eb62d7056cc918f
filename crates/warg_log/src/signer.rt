//! Who signs texts.

ghost use Rattle.std.specs.Prelude.{◌≡◌};
ghost use Rattle.warg_log.specs.declared.signer.SignError.TheVariants.{Memory as no_memory};

use std::alloc::{AllocError, Global};
use thiserror::Error;
use warg_record::{PublicKey, Signature};
use warg_values::Memory;

/// Why a text was not signed.
#[derive(Clone, Copy, Debug, PartialEq, Eq, Error)]
pub enum SignError {
    /// The signer failed, and the count of faults rose.
    #[error("the text could not be signed: check the key and what holds it")]
    Failed,
    /// No memory was left.
    #[error("out of memory: free some, or give the program more, and try again")]
    Memory,
}

impl From<AllocError> for SignError {
    ghost from_gives = { λ _ e. e ≡ no_memory };

    fn from(_error: AllocError) -> SignError {
        SignError::Memory
    }
}

impl From<Memory> for SignError {
    ghost from_gives = { λ _ e. e ≡ no_memory };

    fn from(_error: Memory) -> SignError {
        SignError::Memory
    }
}

/// Signs texts with one key, as a keyring or a device does.
///
/// An implementation over a list of signatures tells which it gives. One over a device tells nothing, and each has a
/// count of faults, by which a caller knows that the signer failed.
pub trait Signer {
    ghost use Rattle.std.specs.Prelude.{◌≤◌, ℕ, List, Bool, Option, true, false, IfOk, IfSome, IsErrOf};
    ghost use Rattle.warg_values.specs.Faults.{Rose};

    /// How many calls failed so far.
    ghost faults: { Self → ℕ };

    /// The text of the key.
    ghost key: { Self → List ℕ };

    /// Which signatures it gives for which texts, where the object tells them.
    ghost told: { Self → Option (List ℕ → List ℕ → Bool) };

    /// That the next call is one that is to fail.
    ghost is_due: { Self → Type 0 };

    /// The key whose signatures it gives.
    fn public_key(&self) -> &PublicKey
        ensures { result.now ≡ key self.now };

    /// The key's signature of a text.
    fn sign(&mut self, alloc: Global, text: &[u8]) -> Result<Signature, SignError>
        ensures never_falls { faults self.old ≤ faults self.new }
        ensures same_key { key self.new ≡ key self.old }
        ensures kept { told self.new ≡ told self.old }

        ensures signed { IfOk result (λ signature. IfSome (told self.old) (λ gives. gives text.now signature ≡ true)) }
        ensures refused { IsErrOf result SignError.Failed
            → ¬ (is_due self.old)
            → IfSome (told self.old) (λ gives. (signature : List ℕ) → gives text.now signature ≡ false) }
        ensures due { is_due self.old → IsErrOf result SignError.Failed }
        ensures failed { IsErrOf result SignError.Failed → Rose (faults self.old) (faults self.new) };
}
