//! What is known of checked contents. A law is the contract of a function that does nothing; as a lemma it stands in
//! `specs/ContentLaws`.

ghost use Rattle.std.specs.Prelude.{◌≡◌, ℕ, List, None, Ok, [], false, map};
ghost use Rattle.std.specs.List.{flat_map};
ghost use Rattle.sha2.specs.Sha256.{sha256};
ghost use Rattle.warg_body.specs.Validated.{Validates};

use crate::error::LinkError;
use bytes::Bytes;
use futures::Stream;

/// A checked content that came to its end without an error is whole: the SHA-256 of all its pieces is the digest that was
/// asked for.
pub fn a_content_without_errors_has_its_digest<S: Stream<Item = Result<Bytes, LinkError>>>(
    source: &S,
)
    ensures { (expected : List ℕ)
        → (pieces : List (List ℕ))
        → Validates (S.yields source.now) expected [] false (map Ok pieces) None
        → sha256 (flat_map (λ p. p) pieces) ≡ expected }
{}
