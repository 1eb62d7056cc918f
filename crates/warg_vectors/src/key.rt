//! The keys of registries.

ghost use Rattle.std.specs.Prelude.{◌≡◌, IfOk};
ghost use Rattle.warg_vectors.specs.Named.{key_text as text_of_key};

use base64::engine::general_purpose::STANDARD;
use std::alloc::Global;
use warg_hash::NameError;
use warg_record::{PublicKey, Signature};
use warg_values::{Memory, Text};

/// The text that is the key of the registry of this number, and each of its signatures.
fn key_text(alloc: Global, number: u64) -> Result<Text, Memory>
    ensures { IfOk result (λ text. text ≡ text_of_key number) }
{
    let digits = STANDARD.encode(alloc, number.to_be_bytes().as_slice())?;
    let mut text = String::from_str(alloc, "demo:")?;
    text.push_str(&digits)?;
    Ok(Text::new(text))
}

/// The key of the registry of this number, counted from 0.
pub fn key_of(alloc: Global, number: u64) -> Result<PublicKey, Memory>
    ensures { IfOk result (λ key. key ≡ text_of_key number) }
{
    let text = key_text(alloc, number)?;
    match PublicKey::new(alloc, text.as_str()) {
        Ok(key) => Ok(key),
        // The text has the form of a key, so only memory can be wanting.
        Err(NameError::Form) | Err(NameError::Memory) => Err(Memory),
    }
}

/// The signature under all that the registry of this number says.
pub fn signature_of(alloc: Global, number: u64) -> Result<Signature, Memory>
    ensures { IfOk result (λ signature. signature ≡ text_of_key number) }
{
    let text = key_text(alloc, number)?;
    match Signature::new(alloc, text.as_str()) {
        Ok(signature) => Ok(signature),
        // The text has the form of a signature, so only memory can be wanting.
        Err(NameError::Form) | Err(NameError::Memory) => Err(Memory),
    }
}
