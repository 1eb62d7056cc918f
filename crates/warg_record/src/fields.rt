//! Reading what the fields of records and entries hold.

ghost use Rattle.std.specs.Prelude.{◌≡◌, true, false, map, length, MatchOption};
ghost use Rattle.std.specs.Str.{is_utf8};
ghost use Rattle.semver.specs.Identifiers.{parts_of};
ghost use Rattle.warg_record.specs.Record.{Init, GrantFlat, RevokeFlat};
ghost use Rattle.warg_record.specs.Reading as reading;
ghost use Rattle.warg_record.specs.Answer.{GivesOrForm};

use crate::entry::LogPermission;
use crate::error::EnvelopeError;
use crate::key::PublicKey;
use crate::wire::{counted_of, field_of};
use semver::Version;
use std::alloc::{AllocError, Global};
use warg_hash::{AnyHash, KeyId, NameError};
use warg_values::Text;

/// The text that the bytes are, if they are UTF-8.
fn as_text(bytes: &[u8]) -> Option<&str>
    ensures { MatchOption result (is_utf8 bytes.now ≡ false) (λ text. (is_utf8 bytes.now ≡ true)
        × (text.now ≡ bytes.now)) }
{
    match str::from_utf8(bytes) {
        Ok(text) => Some(text),
        Err(_) => None,
    }
}

/// A text that is not empty.
#[tactic(auto, unfolding(crate::specs::Reading::text_of))]
pub fn text_of(bytes: &[u8]) -> Result<&str, EnvelopeError>
    ensures { GivesOrForm (λ text. text.now) result (reading.text_of bytes.now) }
{
    match as_text(bytes) {
        Some(text) if !text.is_empty() => Ok(text),
        _ => Err(EnvelopeError::Form),
    }
}

/// A text of its own.
pub fn owned_text_of(alloc: Global, bytes: &[u8]) -> Result<Text, EnvelopeError>
    ensures { GivesOrForm (λ text. text) result (reading.text_of bytes.now) }
{
    let text = text_of(bytes)?;
    Ok(Text::copy_of(alloc, text)?)
}

/// A key.
#[tactic(auto, unfolding(crate::specs::Reading::key_of))]
pub fn key_of(alloc: Global, bytes: &[u8]) -> Result<PublicKey, EnvelopeError>
    ensures { GivesOrForm (λ key. key) result (reading.key_of bytes.now) }
{
    let text = text_of(bytes)?;
    match PublicKey::new(alloc, text) {
        Ok(key) => Ok(key),
        Err(NameError::Form) => Err(EnvelopeError::Form),
        Err(NameError::Memory) => Err(EnvelopeError::Memory),
    }
}

/// The hash that a hash text names.
#[tactic(auto, unfolding(crate::specs::Reading::hash_of))]
pub fn hash_of(alloc: Global, bytes: &[u8]) -> Result<AnyHash, EnvelopeError>
    ensures { GivesOrForm (λ hash. hash) result (reading.hash_of bytes.now) }
{
    let text = text_of(bytes)?;
    match AnyHash::from_text(alloc, text) {
        Ok(hash) => Ok(hash),
        Err(NameError::Form) => Err(EnvelopeError::Form),
        Err(NameError::Memory) => Err(EnvelopeError::Memory),
    }
}

/// A version.
#[tactic(auto, unfolding(crate::specs::Reading::version_of))]
pub fn version_of(alloc: Global, bytes: &[u8]) -> Result<Version, EnvelopeError>
    ensures { GivesOrForm parts_of result (reading.version_of bytes.now) }
{
    let text = text_of(bytes)?;
    match Version::parse(alloc, text) {
        Ok(version) => Ok(version),
        Err(e) if e == semver::Error::from(AllocError) => Err(EnvelopeError::Memory),
        Err(_) => Err(EnvelopeError::Form),
    }
}

/// A permission.
#[tactic(auto, unfolding(crate::specs::Reading::permission_of))]
fn permission_of<P: LogPermission>(bytes: &[u8]) -> Result<P, EnvelopeError>
    ensures { GivesOrForm P.text_of result (reading.permission_of P.kind bytes.now) }
{
    let text = text_of(bytes)?;
    match P::from_text(text) {
        Some(permission) => Ok(permission),
        None => Err(EnvelopeError::Form),
    }
}

/// Permissions, one field 2 for each, to the end.
fn each_permission<P: LogPermission>(alloc: Global, bytes: &[u8]) -> Result<Vec<P>, EnvelopeError>
    ensures { GivesOrForm (λ ps. map P.text_of ps.items) result (reading.each_field (reading.permission_of P.kind) 2
        (length bytes.now) bytes.now) }
{
    let mut permissions = Vec::new(alloc);
    let mut rest = bytes;
    while !rest.is_empty() {
        let (field, after) = field_of(2, rest)?;
        permissions.push(permission_of(field)?)?;
        rest = after;
    }
    Ok(permissions)
}

/// One permission or more.
#[tactic(auto, unfolding(crate::specs::Reading::some_fields))]
fn some_permissions<P: LogPermission>(alloc: Global, bytes: &[u8]) -> Result<Vec<P>, EnvelopeError>
    ensures { GivesOrForm (λ ps. map P.text_of ps.items) result (reading.some_fields
        (reading.permission_of P.kind) 2 bytes.now) }
{
    if bytes.is_empty() {
        return Err(EnvelopeError::Form);
    }
    each_permission(alloc, bytes)
}

/// A message of one field: the field's key, and what it holds.
#[tactic(auto, unfolding(crate::specs::Reading::only_field))]
pub fn only_field(bytes: &[u8]) -> Result<(u8, &[u8]), EnvelopeError>
    ensures { GivesOrForm (λ x. (x.0, x.1.now)) result (reading.only_field bytes.now) }
{
    let [key, rest @ ..] = bytes else {
        return Err(EnvelopeError::Form);
    };
    let (field, rest) = counted_of(rest)?;
    if !rest.is_empty() {
        return Err(EnvelopeError::Form);
    }
    Ok((*key, field))
}

/// A message of field 1 alone.
#[tactic(auto, unfolding(crate::specs::Reading::one_field))]
pub fn one_field(bytes: &[u8]) -> Result<&[u8], EnvelopeError>
    ensures { GivesOrForm (λ x. x.now) result (reading.one_field bytes.now) }
{
    let (field, rest) = field_of(1, bytes)?;
    if !rest.is_empty() {
        return Err(EnvelopeError::Form);
    }
    Ok(field)
}

/// A message of the two fields 1 and 2.
#[tactic(auto, unfolding(crate::specs::Reading::two_fields))]
pub fn two_fields(bytes: &[u8]) -> Result<(&[u8], &[u8]), EnvelopeError>
    ensures { GivesOrForm (λ x. (x.0.now, x.1.now)) result (reading.two_fields bytes.now) }
{
    let (first, rest) = field_of(1, bytes)?;
    let (second, rest) = field_of(2, rest)?;
    if !rest.is_empty() {
        return Err(EnvelopeError::Form);
    }
    Ok((first, second))
}

/// A log's first entry: its key, and its hash algorithm.
#[tactic(auto, unfolding(crate::specs::Reading::init_of))]
pub fn init_of(alloc: Global, bytes: &[u8]) -> Result<(PublicKey, Text), EnvelopeError>
    ensures { GivesOrForm (λ x. Init x.0 x.1) result (reading.init_of bytes.now) }
{
    let (key, algorithm) = two_fields(bytes)?;
    let key = key_of(alloc, key)?;
    let algorithm = owned_text_of(alloc, algorithm)?;
    Ok((key, algorithm))
}

/// A key, and the permissions that it is given.
#[tactic(auto, unfolding(crate::specs::Reading::grant_of))]
pub fn grant_of<P: LogPermission>(
    alloc: Global,
    bytes: &[u8],
) -> Result<(PublicKey, Vec<P>), EnvelopeError>
    ensures { GivesOrForm (λ x. GrantFlat x.0 (map P.text_of x.1.items)) result (reading.grant_of P.kind bytes.now) }
{
    let (key, rest) = field_of(1, bytes)?;
    let key = key_of(alloc, key)?;
    let permissions = some_permissions(alloc, rest)?;
    Ok((key, permissions))
}

/// A key's id, and the permissions that are taken from the key.
#[tactic(auto, unfolding(crate::specs::Reading::revoke_of))]
pub fn revoke_of<P: LogPermission>(
    alloc: Global,
    bytes: &[u8],
) -> Result<(KeyId, Vec<P>), EnvelopeError>
    ensures { GivesOrForm (λ x. RevokeFlat x.0 (map P.text_of x.1.items)) result (reading.revoke_of P.kind bytes.now) }
{
    let (key_id, rest) = field_of(1, bytes)?;
    let key_id = KeyId::from(hash_of(alloc, key_id)?);
    let permissions = some_permissions(alloc, rest)?;
    Ok((key_id, permissions))
}
