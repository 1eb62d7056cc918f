//! The signature of a checkpoint.

ghost use Rattle.std.specs.Prelude.{◌≡◌, IfOk, IfErr, OnOk, string_bytes};
ghost use Rattle.warg_info.specs.Info.{operator_log, IsSoundOperator};
ghost use Rattle.warg_update.specs.Proved.{IsSigned, checkpoint_text as text_of_checkpoint};
ghost use Rattle.warg_update.specs.Signature.{IsSignatureFault};
ghost use Rattle.warg_update.specs.declared.signature.SignatureError.TheVariants.{Memory as WantsMemory};

use std::alloc::{AllocError, Global};
use thiserror::Error;
use warg_exchange::{Checkpoint, SignedCheckpoint};
use warg_hash::KeyId;
use warg_info::OperatorInfo;
use warg_log::Verifier;
use warg_values::Memory;

/// Why a checkpoint is not the operator's.
#[derive(Clone, Copy, Debug, PartialEq, Eq, Error)]
pub enum SignatureError {
    /// The operator's log has no such key.
    #[error("the checkpoint is signed with the key {key_id}, which the operator's log does not have: do not trust this registry")]
    UnknownKey {
        /// The id of the key that is to have signed.
        key_id: KeyId,
    },
    /// The signature is not that of the key.
    #[error("the checkpoint's signature is not its key's: do not trust this registry")]
    BadSignature,
    /// No memory was left.
    #[error("out of memory: free some, or give the program more, and try again")]
    Memory,
}

impl From<Memory> for SignatureError {
    ghost from_gives = { λ _ e. e ≡ WantsMemory };

    fn from(_memory: Memory) -> SignatureError {
        SignatureError::Memory
    }
}

/// The text of a checkpoint that is signed.
fn checkpoint_text(alloc: Global, checkpoint: &Checkpoint) -> Result<String, Memory>
    ensures { IfOk result (λ text. string_bytes text ≡ text_of_checkpoint checkpoint.now) }
{
    let log_root = checkpoint.log_root.text(alloc)?;
    let map_root = checkpoint.map_root.text(alloc)?;
    let mut text = format!(in alloc; "WARG-CHECKPOINT-SIGNATURE-V0\n{}\n", checkpoint.log_length)?;
    text.push_str(log_root.as_str())?;
    text.push_str("\n")?;
    text.push_str(map_root.as_str())?;
    let time = format!(in alloc; "\n{}\n", checkpoint.timestamp)?;
    text.push_str(&time)?;
    Ok(text)
}

/// Whether a key of the operator's log signed a checkpoint.
///
/// The key is looked up first: where the log has none of the checkpoint's id, the answer is `UnknownKey`, and where the
/// verifier does not accept its signature, `BadSignature`.
pub fn check_signature<V: Verifier>(
    alloc: Global,
    verifier: &V,
    operator: &OperatorInfo,
    checkpoint: &SignedCheckpoint,
) -> Result<(), SignatureError>
    ensures ok { OnOk result (IsSoundOperator operator.now
        → IsSigned (V.good verifier.now) (operator_log operator.now) checkpoint.now) }
    ensures fault { IfErr result (λ e. IsSoundOperator operator.now
        → IsSignatureFault e (V.good verifier.now) (operator_log operator.now) checkpoint.now) }
{
    let Some(key) = operator.log.state().public_key(&checkpoint.key_id) else {
        return Err(SignatureError::UnknownKey {
            key_id: checkpoint.key_id,
        });
    };
    let text = checkpoint_text(alloc, &checkpoint.contents)?;
    if verifier.accepts(key, text.as_bytes(), &checkpoint.signature) {
        Ok(())
    } else {
        Err(SignatureError::BadSignature)
    }
}
