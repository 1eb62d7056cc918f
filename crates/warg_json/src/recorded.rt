//! Recorded replies, and signatures that were checked.

ghost use Rattle.std.specs.Prelude.{ℕ, List};
ghost use Rattle.http_header.specs.FieldValue.{FieldValue};
ghost use Rattle.serde_json.specs.View.{view};
ghost use Rattle.warg_record.specs.Key.{is_key_text};
ghost use Rattle.warg_exchange.specs.Body.{formed_in};
ghost use Rattle.warg_json.specs.Answers.{BodyGives};
ghost use Rattle.warg_json.specs.Recorded.{status_in, name_of_text, value_of_text, header_of_texts, header_in, reply_in, digits_in, checked_in};

use crate::error::BodyError;
use crate::from_body::FromBody;
use crate::members::{member, required};
use crate::value::{Base64Bytes, text_of};
use http_header::{HeaderName, HeaderNameError, HeaderValue, HeaderValueError};
use serde_json::Value;
use std::alloc::Global;
use warg_exchange::Reply;
use warg_hash::{AnyHash, NameError};
use warg_record::laws::key_texts_are_tested;
use warg_record::{PublicKey, Signature};
use warg_values::{Sequence, Text};

impl FromBody for u16 {
    ghost Plain = { ℕ };

    ghost plain = { λ n. n };

    ghost meaning = { status_in };

    fn from_body(alloc: Global, value: &Value) -> Result<u16, BodyError> {
        let number = u64::from_body(alloc, value)?;
        match u16::try_from(number) {
            Ok(status) => Ok(status),
            Err(_) => Err(BodyError::Unexpected),
        }
    }
}

/// A header's name.
fn name_of(alloc: Global, name: &Text) -> Result<HeaderName, BodyError>
    ensures { BodyGives (λ n. n) result (name_of_text name.now) }
{
    match HeaderName::from_bytes(alloc, name.as_str().as_bytes()) {
        Ok(name) => Ok(name),
        Err(HeaderNameError::Invalid) => Err(BodyError::Unexpected),
        Err(HeaderNameError::OutOfMemory) => Err(BodyError::Memory),
    }
}

/// A header's value.
fn value_of(alloc: Global, value: &Text) -> Result<HeaderValue, BodyError>
    ensures { BodyGives (λ v. v) result (value_of_text value.now) }
{
    match HeaderValue::from_str(alloc, value.as_str()) {
        Ok(value) => Ok(value),
        Err(HeaderValueError::Invalid) => Err(BodyError::Unexpected),
        Err(HeaderValueError::OutOfMemory) => Err(BodyError::Memory),
    }
}

/// A header of a name and a value.
fn header_of(alloc: Global, texts: &[Text]) -> Result<(HeaderName, HeaderValue), BodyError>
    ensures { BodyGives (λ h. h) result (header_of_texts texts.now) }
{
    let [name, value] = texts else {
        return Err(BodyError::Unexpected);
    };
    let name = name_of(alloc, name)?;
    let value = value_of(alloc, value)?;
    Ok((name, value))
}

impl FromBody for (HeaderName, HeaderValue) {
    ghost Plain = { List ℕ × FieldValue };

    ghost plain = { λ h. h };

    ghost meaning = { header_in };

    fn from_body(alloc: Global, value: &Value) -> Result<(HeaderName, HeaderValue), BodyError> {
        let texts: Sequence<Text> = Sequence::from_body(alloc, value)?;
        header_of(alloc, texts.as_slice())
    }
}

impl FromBody for Reply {
    ghost use Rattle.warg_exchange.specs.declared.exchange.Reply.{Reply as Replied};

    ghost Plain = { Replied };

    ghost plain = { λ r. r };

    ghost meaning = { reply_in };

    #[tactic(auto, unfolding(crate::specs::Recorded::reply_in))]
    fn from_body(alloc: Global, value: &Value) -> Result<Reply, BodyError> {
        let status = required(alloc, "status", value)?;
        let headers = required(alloc, "headers", value)?;
        let body: Base64Bytes = required(alloc, "body", value)?;
        Ok(Reply {
            status,
            headers,
            body: body.bytes,
        })
    }
}

impl FromBody for PublicKey {
    ghost Plain = { List ℕ };

    ghost plain = { λ k. k };

    ghost meaning = { formed_in is_key_text };

    fn from_body(alloc: Global, value: &Value) -> Result<PublicKey, BodyError> {
        key_texts_are_tested();
        let text = text_of(value)?;
        match PublicKey::new(alloc, text) {
            Ok(key) => Ok(key),
            Err(NameError::Form) => Err(BodyError::Unexpected),
            Err(NameError::Memory) => Err(BodyError::Memory),
        }
    }
}

/// A digest in hexadecimal digits.
fn digest_of(value: &Value) -> Result<AnyHash, BodyError>
    ensures { BodyGives (λ h. h) result (digits_in (view value.now)) }
{
    let text = text_of(value)?;
    let mut digest = [0; 32];
    match hex::decode_to_slice(text, &mut digest) {
        Ok(()) => Ok(AnyHash::from_digest(digest)),
        Err(_) => Err(BodyError::Unexpected),
    }
}

impl FromBody for (PublicKey, AnyHash, Signature) {
    ghost Plain = { List ℕ × List ℕ × List ℕ };

    ghost plain = { λ c. c };

    ghost meaning = { checked_in };

    #[tactic(auto, unfolding(crate::specs::Recorded::checked_in))]
    fn from_body(
        alloc: Global,
        value: &Value,
    ) -> Result<(PublicKey, AnyHash, Signature), BodyError> {
        let key = required(alloc, "key", value)?;
        let digest = digest_of(member("text", value)?)?;
        let signature = required(alloc, "signature", value)?;
        Ok((key, digest, signature))
    }
}
