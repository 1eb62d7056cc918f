//! What is known of hash texts and of names. Each law is the contract of a function that does nothing; as lemmas they
//! stand in `specs/HashLaws`, `specs/NameLaws` and `specs/ByteLaws`.

ghost use Rattle.std.specs.Prelude.{◌≡◌, ◌↔◌, ℕ, List, Some, length};
ghost use Rattle.std.specs.Ordering.{nat_cmp};
ghost use Rattle.std.specs.Cmp.Lexicographic.{slice_cmp};
ghost use Rattle.std.specs.List.{before_first, after_first};
ghost use Rattle.sha2.specs.Sha256.{sha256};
ghost use Rattle.warg_hash.specs.Hash.{IsDigest, IsHashText, digest_of, hash_text};
ghost use Rattle.warg_hash.specs.Name.{is_colon, IsNameOf};

/// A text names a digest exactly where it is the digest's text; so it names one digest at most, and `from_text` of a
/// hash's text is that hash.
pub fn a_text_names_one_digest()
    ensures exact { (text digest : List ℕ) → (digest_of text ≡ Some digest) ↔ IsHashText text digest }
    ensures one { (text a b : List ℕ) → IsHashText text a → IsHashText text b → a ≡ b }
{}

/// A hash text has 71 bytes.
pub fn a_hash_text_has_71_bytes()
    ensures { (digest : List ℕ) → IsDigest digest → length (hash_text digest) ≡ 71 }
{}

/// Hash texts are ordered as their digests.
pub fn hash_texts_are_ordered_as_digests()
    ensures { (a b : List ℕ) → IsDigest a → IsDigest b
        → slice_cmp nat_cmp (hash_text a) (hash_text b) ≡ slice_cmp nat_cmp a b }
{}

/// A package's name has one namespace, the text before its colon, and one name in it, the text after its colon.
pub fn a_name_has_one_namespace()
    ensures { (text namespace name : List ℕ) → IsNameOf text namespace name
        → (namespace ≡ before_first is_colon text) × (name ≡ after_first is_colon text) }
{}

/// A SHA-256 is a digest: 32 bytes.
pub fn a_sha256_is_a_digest()
    ensures { (message : List ℕ) → IsDigest (sha256 message) }
{}
