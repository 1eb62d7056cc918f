//! The value of the header by which a registry tells of another one.

ghost use Rattle.std.specs.Prelude.{ℕ, List, MatchOption};
ghost use Rattle.warg_hint.specs.Hint.{IsHint};

use http_header::HeaderValue;

/// That a namespace's packages are found in another registry.
#[derive(Clone, Copy)]
pub struct RegistryHint<'a> {
    /// The namespace.
    pub namespace: &'a str,
    /// The registry's name.
    pub registry: &'a str,
}

/// The hint that a header's value `NAMESPACE=REGISTRY` gives.
///
/// It is cut at its first `=`. A value that is no text, has no `=` or an empty part, gives none.
pub fn read_hint(value: &HeaderValue) -> Option<RegistryHint<'_>>
    ensures { MatchOption result
        ((namespace registry : List ℕ) → IsHint value.now.bytes namespace registry → ⊥)
        (λ hint. IsHint value.now.bytes hint.namespace.now hint.registry.now) }
{
    let Ok(text) = std::str::from_utf8(value.as_bytes()) else {
        return None;
    };
    let Some((namespace, registry)) = text.split_once('=') else {
        return None;
    };
    if namespace.is_empty() || registry.is_empty() {
        return None;
    }
    Some(RegistryHint {
        namespace,
        registry,
    })
}
