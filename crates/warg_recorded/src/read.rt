//! Reading of recorded replies and checked signatures.

ghost use Rattle.std.specs.Prelude.{◌≡◌, ℕ, List, Ok, Err, IfOk, map};
ghost use Rattle.std.specs.List.Sorted.{IsPermutation};
ghost use Rattle.warg_exchange.specs.Body.{BodyFault};
ghost use Rattle.warg_json.specs.Answers.{BodyGives};
ghost use Rattle.warg_recorded.specs.Files.{items_in, replies_in, signatures_in};
ghost use Rattle.warg_recorded.specs.declared.read.FormError.TheVariants.{Form as IsForm};

use std::alloc::Global;
use thiserror::Error;
use warg_exchange::Reply;
use warg_hash::AnyHash;
use warg_json::{BodyError, FromBody, value_in_bytes};
use warg_log::ListedVerifier;
use warg_record::{PublicKey, Signature};
use warg_values::Sequence;

/// Why a file is not read.
#[derive(Clone, Copy, Debug, PartialEq, Eq, Error)]
pub enum FormError {
    /// The bytes are no JSON list of such items.
    #[error("the file is not of the form that is asked: see docs/FORMATS.md")]
    Form,
    /// No memory was left.
    #[error("out of memory: free some, or give the program more, and try again")]
    Memory,
}

/// The items of a list in bytes, and the first fault where there is none.
fn items_of<T: FromBody>(alloc: Global, bytes: &[u8]) -> Result<Sequence<T>, BodyError>
    ensures { BodyGives (λ xs. map T.plain xs) result (items_in T.meaning bytes.now) }
{
    let value = value_in_bytes(alloc, bytes)?;
    Sequence::from_body(alloc, &value)
}

/// The items of a list in bytes.
fn list_of<T: FromBody>(alloc: Global, bytes: &[u8]) -> Result<Vec<T>, FormError>
    ensures ok { IfOk result (λ items. items_in T.meaning bytes.now ≡ Ok (map T.plain items.items)) }
    ensures form { (result ≡ Err IsForm) → (fault : BodyFault) × (items_in T.meaning bytes.now ≡ Err fault) }
{
    match items_of(alloc, bytes) {
        Ok(items) => Ok(items.into_vec()),
        Err(BodyError::Memory) => Err(FormError::Memory),
        Err(BodyError::Unexpected | BodyError::NoHash(_)) => Err(FormError::Form),
    }
}

/// Reads the replies in a file: a JSON list (RFC 8259) of objects with the members `status`, `headers` and `body`.
///
/// The status has 16 bits, a header is a list of its name and its value, and the body is in standard base64 with padding
/// (RFC 4648, section 4). Bytes of another form are `Form`.
pub fn read_replies(alloc: Global, bytes: &[u8]) -> Result<Vec<Reply>, FormError>
    ensures ok { IfOk result (λ replies. replies_in bytes.now ≡ Ok replies.items) }
    ensures form { (result ≡ Err IsForm) → (fault : BodyFault) × (replies_in bytes.now ≡ Err fault) }
{
    list_of(alloc, bytes)
}

/// Reads the signatures in a file, as a verifier that accepts these alone: a JSON list (RFC 8259) of objects with the
/// members `key`, `text` and `signature`.
///
/// The text is the SHA-256 of what was signed, in 64 hexadecimal digits. Bytes of another form are `Form`.
pub fn read_checked(alloc: Global, bytes: &[u8]) -> Result<ListedVerifier, FormError>
    ensures ok { IfOk result (λ verifier. (listed : List (List ℕ × List ℕ × List ℕ))
        × (signatures_in bytes.now ≡ Ok listed) × IsPermutation listed verifier) }
    ensures form { (result ≡ Err IsForm) → (fault : BodyFault) × (signatures_in bytes.now ≡ Err fault) }
{
    let listed: Vec<(PublicKey, AnyHash, Signature)> = list_of(alloc, bytes)?;
    Ok(ListedVerifier::new(listed))
}
