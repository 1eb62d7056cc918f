//! A verifier that accepts listed signatures.

ghost use Rattle.std.specs.Prelude.{◌≡◌};
ghost use Rattle.std.specs.List.Sorted.{IsPermutation};
ghost use Rattle.warg_log.specs.Listed.{listed_cmp};

use crate::verifier::Verifier;
use std::cmp::Ordering;
use std::marker::Model;
use warg_hash::AnyHash;
use warg_record::{PublicKey, Signature};

/// Accepts the listed signatures: each with its key, and the digest of the text.
///
/// A clause sees it as the list.
#[derive(Debug, Drop)]
pub struct ListedVerifier {
    listed: Vec<(PublicKey, AnyHash, Signature)>,
}

impl Model for ListedVerifier {
    ghost use Rattle.std.specs.Prelude.{ℕ, List};
    ghost use Rattle.std.specs.List.Sorted.{IsSorted};
    ghost use Rattle.warg_log.specs.Listed.{listed_cmp};

    ghost Value = { List (List ℕ × List ℕ × List ℕ) };

    ghost view = { λ v. v.listed.items };

    ghost invariant = { λ v. IsSorted listed_cmp v.listed.items };
}

/// How an entry of the list compares with a key, a digest and a signature.
fn compare(
    listed: &(PublicKey, AnyHash, Signature),
    key: &PublicKey,
    digest: &AnyHash,
    signature: &Signature,
) -> Ordering
    ensures { result ≡ listed_cmp listed.now (key.now, digest.now, signature.now) }
{
    let digests = listed.1.cmp(digest);
    if digests != Ordering::Equal {
        return digests;
    }
    let keys = listed.0.as_str().cmp(&key.as_str());
    keys.then(listed.2.as_str().cmp(&signature.as_str()))
}

impl ListedVerifier {
    /// A verifier that accepts these.
    pub fn new(mut listed: Vec<(PublicKey, AnyHash, Signature)>) -> Self
        ensures { IsPermutation listed.items result }
    {
        listed.sort_unstable_by(|a, b| compare(a, &b.0, &b.1, &b.2));
        ListedVerifier { listed }
    }
}

impl Verifier for ListedVerifier {
    ghost use Rattle.warg_log.specs.Listed.{is_listed};
    ghost use Rattle.std.specs.List.{list_any};
    ghost use Rattle.sha2.specs.Sha256.{sha256};

    ghost good = { λ v key text signature. list_any (is_listed key (sha256 text) signature) v };

    fn accepts(&self, key: &PublicKey, text: &[u8], signature: &Signature) -> bool {
        let digest = AnyHash::sha256_of(text);
        let found = self
            .listed
            .binary_search_by(|listed| compare(listed, key, &digest, signature));
        found.is_ok()
    }
}
