//! Numbers, texts, hashes and bytes.

ghost use Rattle.std.specs.Prelude.{ℕ, List, Bool, IfOk, IsUtf8};
ghost use Rattle.serde_json.specs.View.{view};
ghost use Rattle.warg_hash.specs.Name.{is_package_name};
ghost use Rattle.warg_record.specs.Key.{is_key_text};
ghost use Rattle.warg_exchange.specs.Body.{number_in, flag_in, text_in, formed_in, word_in, digest_in_text, hash_in, bytes_in};
ghost use Rattle.warg_json.specs.Answers.{BodyGives};

use crate::error::BodyError;
use crate::from_body::FromBody;
use base64::DecodeAllocError;
use base64::engine::general_purpose::STANDARD;
use serde_json::Value;
use std::alloc::Global;
use warg_hash::{AnyHash, KeyId, NameError, PackageName, RecordId};
use warg_record::Signature;
use warg_record::laws::key_texts_are_tested;
use warg_values::{Sequence, Text};

impl FromBody for u64 {
    ghost Plain = { ℕ };

    ghost plain = { λ n. n };

    ghost meaning = { number_in };

    fn from_body(_alloc: Global, value: &Value) -> Result<u64, BodyError> {
        match value.as_u64() {
            Some(n) => Ok(n),
            None => Err(BodyError::Unexpected),
        }
    }
}

impl FromBody for bool {
    ghost Plain = { Bool };

    ghost plain = { λ b. b };

    ghost meaning = { flag_in };

    fn from_body(_alloc: Global, value: &Value) -> Result<bool, BodyError> {
        match value.as_bool() {
            Some(b) => Ok(b),
            None => Err(BodyError::Unexpected),
        }
    }
}

/// The text that a value is.
pub fn text_of(value: &Value) -> Result<&str, BodyError>
    ensures meant { BodyGives (λ t. t.now) result (text_in (view value.now)) }
    ensures utf8 { IfOk result (λ t. IsUtf8 t.now) }
{
    match value.as_str() {
        Some(text) => Ok(text),
        None => Err(BodyError::Unexpected),
    }
}

/// That a value is this text.
pub fn expect_word(word: &str, value: &Value) -> Result<(), BodyError>
    ensures { BodyGives (λ _. word.now) result (word_in word.now (view value.now)) }
{
    if text_of(value)? == word {
        Ok(())
    } else {
        Err(BodyError::Unexpected)
    }
}

impl FromBody for Text {
    ghost Plain = { List ℕ };

    ghost plain = { λ t. t };

    ghost meaning = { text_in };

    fn from_body(alloc: Global, value: &Value) -> Result<Text, BodyError> {
        let text = text_of(value)?;
        Ok(Text::copy_of(alloc, text)?)
    }
}

/// The hash that a text names.
pub fn hash_of_text(alloc: Global, text: &str) -> Result<AnyHash, BodyError>
    ensures { BodyGives (λ h. h) result (digest_in_text text.now) }
{
    match AnyHash::from_text(alloc, text) {
        Ok(hash) => Ok(hash),
        Err(NameError::Form) => Err(BodyError::NoHash(Text::copy_of(alloc, text)?)),
        Err(NameError::Memory) => Err(BodyError::Memory),
    }
}

impl FromBody for AnyHash {
    ghost Plain = { List ℕ };

    ghost plain = { λ h. h };

    ghost meaning = { hash_in };

    fn from_body(alloc: Global, value: &Value) -> Result<AnyHash, BodyError> {
        let text = text_of(value)?;
        hash_of_text(alloc, text)
    }
}

impl FromBody for KeyId {
    ghost Plain = { List ℕ };

    ghost plain = { λ id. id };

    ghost meaning = { hash_in };

    fn from_body(alloc: Global, value: &Value) -> Result<KeyId, BodyError> {
        let hash = AnyHash::from_body(alloc, value)?;
        Ok(KeyId::from(hash))
    }
}

impl FromBody for RecordId {
    ghost Plain = { List ℕ };

    ghost plain = { λ id. id };

    ghost meaning = { hash_in };

    fn from_body(alloc: Global, value: &Value) -> Result<RecordId, BodyError> {
        let hash = AnyHash::from_body(alloc, value)?;
        Ok(RecordId::from(hash))
    }
}

impl FromBody for Signature {
    ghost Plain = { List ℕ };

    ghost plain = { λ s. s };

    ghost meaning = { formed_in is_key_text };

    fn from_body(alloc: Global, value: &Value) -> Result<Signature, BodyError> {
        key_texts_are_tested();
        let text = text_of(value)?;
        match Signature::new(alloc, text) {
            Ok(signature) => Ok(signature),
            Err(NameError::Form) => Err(BodyError::Unexpected),
            Err(NameError::Memory) => Err(BodyError::Memory),
        }
    }
}

impl FromBody for PackageName {
    ghost Plain = { List ℕ };

    ghost plain = { λ n. n };

    ghost meaning = { formed_in is_package_name };

    fn from_body(alloc: Global, value: &Value) -> Result<PackageName, BodyError> {
        let text = text_of(value)?;
        match PackageName::new(alloc, text) {
            Ok(name) => Ok(name),
            Err(NameError::Form) => Err(BodyError::Unexpected),
            Err(NameError::Memory) => Err(BodyError::Memory),
        }
    }
}

/// Bytes in standard base64 with padding (RFC 4648, section 4).
#[derive(Debug, Drop)]
pub struct Base64Bytes {
    /// The bytes.
    pub bytes: Sequence<u8>,
}

impl FromBody for Base64Bytes {
    ghost Plain = { List ℕ };

    ghost plain = { λ b. b.bytes };

    ghost meaning = { bytes_in };

    fn from_body(alloc: Global, value: &Value) -> Result<Base64Bytes, BodyError> {
        let text = text_of(value)?;
        match STANDARD.decode(alloc, text.as_bytes()) {
            Ok(bytes) => Ok(Base64Bytes {
                bytes: Sequence::from_vec(bytes),
            }),
            Err(DecodeAllocError::OutOfMemory) => Err(BodyError::Memory),
            Err(DecodeAllocError::DecodeError(_)) => Err(BodyError::Unexpected),
        }
    }
}
