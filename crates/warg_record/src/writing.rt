//! Writing the fields of messages.

ghost use Rattle.std.specs.Prelude.{◌≡◌, ◌++◌, ◌<◌, map, OnOk, IfOk};
ghost use Rattle.warg_record.specs.Record.{Init, GrantFlat, RevokeFlat, entry_text};
ghost use Rattle.warg_record.specs.Wire.{varint_in, field, fields, number_field};

use crate::entry::LogPermission;
use crate::key::PublicKey;
use std::alloc::Global;
use warg_hash::KeyId;
use warg_values::Memory;

/// A number in groups of seven bits, in at most `left` bytes.
#[tactic(auto, unfolding(crate::specs::Wire::varint_in))]
fn push_varint(out: &mut Vec<u8>, left: u8, n: u64) -> Result<(), Memory>
    ensures { OnOk result (out.new.items ≡ out.old.items ++ varint_in left n) }
{
    if left == 0 {
        return Ok(());
    }
    if n < 128 {
        out.push(n as u8)?;
        return Ok(());
    }
    out.push(128 + (n % 128) as u8)?;
    push_varint(out, left - 1, n / 128)?;
    Ok(())
}

/// The field of this number that holds bytes.
pub fn push_field(out: &mut Vec<u8>, number: u8, bytes: &[u8]) -> Result<(), Memory>
    requires { number < 16 }
    ensures { OnOk result (out.new.items ≡ out.old.items ++ field number bytes.now) }
{
    out.push(8 * number + 2)?;
    push_varint(out, 10, bytes.len() as u64)?;
    out.extend_from_slice(bytes)?;
    Ok(())
}

/// The field of this number that holds a number, where that is not 0.
pub fn push_number(out: &mut Vec<u8>, number: u8, n: u64) -> Result<(), Memory>
    requires { number < 16 }
    ensures { OnOk result (out.new.items ≡ out.old.items ++ number_field number n) }
{
    if n != 0 {
        out.push(8 * number)?;
        push_varint(out, 10, n)?;
    }
    Ok(())
}

/// A message of the one field of this number.
pub fn message_of(alloc: Global, number: u8, bytes: &[u8]) -> Result<Vec<u8>, Memory>
    requires { number < 16 }
    ensures { IfOk result (λ message. message.items ≡ field number bytes.now) }
{
    let mut message = Vec::new(alloc);
    push_field(&mut message, number, bytes)?;
    Ok(message)
}

/// A message of the two fields 1 and 2.
pub fn two_fields(alloc: Global, first: &[u8], second: &[u8]) -> Result<Vec<u8>, Memory>
    ensures { IfOk result (λ message. message.items ≡ field 1 first.now ++ field 2 second.now) }
{
    let mut message = Vec::new(alloc);
    push_field(&mut message, 1, first)?;
    push_field(&mut message, 2, second)?;
    Ok(message)
}

/// Permissions, one field 2 for each.
fn push_permissions<P: LogPermission>(out: &mut Vec<u8>, permissions: &[P]) -> Result<(), Memory>
    ensures { OnOk result (out.new.items ≡ out.old.items ++ fields 2 (map P.text_of permissions.now)) }
{
    for permission in permissions {
        push_field(out, 2, permission.as_str().as_bytes())?;
    }
    Ok(())
}

/// A message of field 1 and of permissions.
fn with_permissions<P: LogPermission>(
    alloc: Global,
    first: &[u8],
    permissions: &[P],
) -> Result<Vec<u8>, Memory>
    ensures { IfOk result (λ message. message.items ≡ field 1 first.now ++ fields 2 (map P.text_of permissions.now)) }
{
    let mut message = Vec::new(alloc);
    push_field(&mut message, 1, first)?;
    push_permissions(&mut message, permissions)?;
    Ok(message)
}

/// The message of a log's first entry.
pub fn init_message(alloc: Global, key: &PublicKey, algorithm: &str) -> Result<Vec<u8>, Memory>
    ensures { IfOk result (λ message. message.items ≡ entry_text (Init key.now algorithm.now)) }
{
    let body = two_fields(alloc, key.as_str().as_bytes(), algorithm.as_bytes())?;
    message_of(alloc, 1, &body)
}

/// The message of an entry that gives permissions to a key.
pub fn grant_message<P: LogPermission>(
    alloc: Global,
    key: &PublicKey,
    permissions: &[P],
) -> Result<Vec<u8>, Memory>
    ensures { IfOk result (λ message. message.items ≡ entry_text (GrantFlat key.now (map P.text_of permissions.now))) }
{
    let body = with_permissions(alloc, key.as_str().as_bytes(), permissions)?;
    message_of(alloc, 2, &body)
}

/// The message of an entry that takes permissions from a key.
pub fn revoke_message<P: LogPermission>(
    alloc: Global,
    key_id: &KeyId,
    permissions: &[P],
) -> Result<Vec<u8>, Memory>
    ensures { IfOk result (λ message. message.items
        ≡ entry_text (RevokeFlat key_id.now (map P.text_of permissions.now))) }
{
    let body = with_permissions(alloc, key_id.hash().text_bytes().as_slice(), permissions)?;
    message_of(alloc, 3, &body)
}
