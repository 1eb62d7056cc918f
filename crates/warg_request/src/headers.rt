//! Tokens and registries' names in headers.

ghost use Rattle.std.specs.Prelude.{◌≡◌, ◌++◌, Err, IfOk, string_bytes, codes};
ghost use Rattle.http_header.specs.FieldValue.{plain_value, IsFieldValue};
ghost use Rattle.warg_url.specs.declared.domain.HeaderError.TheVariants.{BadHeader as IsBadHeader};

use http_header::{HeaderValue, HeaderValueError};
use std::alloc::{AllocError, Global};
use warg_url::HeaderError;
use warg_values::Text;

/// A token behind `Bearer `.
fn bearer(alloc: Global, token: &str) -> Result<String, AllocError>
    ensures { IfOk result (λ text. string_bytes text ≡ codes "Bearer " ++ token.now) }
{
    format!(in alloc; "Bearer {token}")
}

/// A token as a header's value (RFC 6750, section 2.1). `BadHeader` comes only where it is none.
pub fn bearer_value(alloc: Global, token: &Text) -> Result<HeaderValue, HeaderError>
    ensures value { IfOk result (λ v. v ≡ plain_value (codes "Bearer " ++ token.now)) }
    ensures bad_header { (result ≡ Err IsBadHeader) → IsFieldValue (codes "Bearer " ++ token.now) → ⊥ }
{
    let text = bearer(alloc, token.as_str())?;
    match HeaderValue::from_str(alloc, &text) {
        Ok(value) => Ok(value),
        Err(HeaderValueError::Invalid) => Err(HeaderError::BadHeader),
        Err(HeaderValueError::OutOfMemory) => Err(HeaderError::Memory),
    }
}
