//! Hashes, and the ids of logs, records and keys, which are hashes.

ghost use Rattle.std.specs.Prelude.{◌≡◌, List, ℕ, Some, IfOk, IfErr, Err};
ghost use Rattle.sha2.specs.Sha256.{sha256};
ghost use Rattle.std.specs.Prelude.{None, MatchOption, Ok};
ghost use Rattle.warg_hash.specs.Hash.{IsDigest, IsHashText, digest_of, hash_text, operator_log_id, package_log_id};
ghost use Rattle.warg_hash.specs.declared.name.NameError.TheVariants.{Form};

use crate::name::{NameError, PackageName};
use sha2::{Digest, Sha256};
use std::alloc::Global;
use std::fmt;
use std::marker::Model;
use warg_values::{Memory, Text};

/// A SHA-256 digest (FIPS 180-4), written as `sha256:` and 64 lower-case hex digits.
///
/// A clause sees a hash as its 32 bytes, by which hashes are equal, are ordered and hash. Their texts are ordered
/// alike.
#[derive(Clone, Copy, Debug, PartialEq, Eq, PartialOrd, Ord, Hash)]
pub struct AnyHash {
    digest: [u8; 32],
}

impl Model for AnyHash {
    ghost use Rattle.std.specs.Prelude.{ℕ, List};

    ghost Value = { List ℕ };

    ghost use Rattle.warg_hash.specs.Hash.{IsDigest};

    ghost view = { λ h. h.digest };

    ghost invariant = { λ h. IsDigest h.digest };

    ghost inverse = { λ d. record { digest = d } };
}

impl AnyHash {
    /// The hash with these 32 bytes.
    pub fn from_digest(digest: [u8; 32]) -> Self
        ensures { result ≡ digest }
    {
        AnyHash { digest }
    }

    /// The SHA-256 digest of some bytes.
    pub fn sha256_of(bytes: &[u8]) -> Self
        ensures { result ≡ sha256 bytes.now }
    {
        AnyHash {
            digest: Sha256::digest(bytes),
        }
    }

    /// The hash that a text names: `sha256:`, and 64 hex digits in lower case.
    ///
    /// Any other text is `Form`. No memory is taken.
    pub fn from_text(_alloc: Global, text: &str) -> Result<Self, NameError>
        ensures exact { MatchOption (digest_of text.now) (result ≡ Err Form) (λ digest. result ≡ Ok digest) }
        ensures ok { IfOk result (λ hash. IsHashText text.now hash) }
        ensures form { (result ≡ Err Form) → (digest : List ℕ) → IsHashText text.now digest → ⊥ }
        ensures err { IfErr result (λ e. e ≡ Form) }
    {
        let bytes = text.as_bytes();
        if bytes.len() != 71 {
            return Err(NameError::Form);
        }
        let (_, digits) = bytes.split_at(7);
        let mut digest = [0u8; 32];
        if hex::decode_to_slice(digits, &mut digest).is_err() {
            return Err(NameError::Form);
        }
        let hash = AnyHash { digest };
        if hash.text_bytes().as_slice() != bytes {
            return Err(NameError::Form);
        }
        Ok(hash)
    }

    /// The 32 bytes of the digest.
    pub fn bytes(&self) -> &[u8; 32]
        ensures value { result.now ≡ self.now }
        ensures form { IsDigest self.now }
    {
        &self.digest
    }

    /// The bytes of the hash's text: `sha256:`, and 64 hex digits in lower case.
    pub fn text_bytes(&self) -> [u8; 71]
        ensures { result ≡ hash_text self.now }
    {
        let mut text = *b"sha256:0000000000000000000000000000000000000000000000000000000000000000";
        hex::encode_to_slice(&self.digest, &mut text[7..]).unwrap();
        text
    }

    /// The hash's text.
    pub fn text(&self, alloc: Global) -> Result<Text, Memory>
        ensures { IfOk result (λ text. text ≡ hash_text self.now) }
    {
        let digits = hex::encode(alloc, &self.digest)?;
        let mut text = String::from_str(alloc, "sha256:")?;
        text.push_str(&digits)?;
        Ok(Text::new(text))
    }
}

impl fmt::Display for AnyHash {
    ghost output = { λ hash. Some (hash_text hash) };

    fn fmt<W: fmt::Write>(&self, f: &mut fmt::Formatter<W>) -> fmt::Result {
        let bytes = self.text_bytes();
        let Ok(text) = str::from_utf8(&bytes) else {
            return Err(fmt::Error);
        };
        fmt::Display::fmt(&text, f)
    }
}

/// The id of a log: the hash of a text that names the log.
///
/// A clause sees it as the hash's 32 bytes, by which ids are equal, are ordered and hash.
#[derive(Clone, Copy, Debug, PartialEq, Eq, PartialOrd, Ord, Hash)]
pub struct LogId {
    hash: AnyHash,
}

impl Model for LogId {
    ghost use Rattle.std.specs.Prelude.{ℕ, List};

    ghost Value = { List ℕ };

    ghost use Rattle.warg_hash.specs.Hash.{IsDigest};

    ghost view = { λ id. id.hash };

    ghost invariant = { λ id. IsDigest id.hash };

    ghost inverse = { λ d. record { hash = d } };
}

impl LogId {
    /// The id of a registry's operator log.
    pub fn operator_log() -> Self
        ensures { result ≡ operator_log_id }
    {
        LogId {
            hash: AnyHash::sha256_of(b"WARG-OPERATOR-LOG-ID-V0".as_slice()),
        }
    }

    /// The id of the log of the package with this name.
    pub fn package_log(name: &PackageName) -> Self
        ensures { result ≡ package_log_id name.now }
    {
        let mut hasher = Sha256::new();
        hasher.update("WARG-PACKAGE-ID-V0:");
        hasher.update(name.as_str());
        LogId {
            hash: AnyHash {
                digest: hasher.finalize(),
            },
        }
    }

    /// The id that a hash text names. Any other text is `Form`. No memory is taken.
    pub fn from_text(alloc: Global, text: &str) -> Result<Self, NameError>
        ensures exact { MatchOption (digest_of text.now) (result ≡ Err Form) (λ digest. result ≡ Ok digest) }
        ensures ok { IfOk result (λ id. IsHashText text.now id) }
        ensures form { (result ≡ Err Form) → (digest : List ℕ) → IsHashText text.now digest → ⊥ }
        ensures err { IfErr result (λ e. e ≡ Form) }
    {
        match AnyHash::from_text(alloc, text) {
            Ok(hash) => Ok(LogId { hash }),
            Err(e) => Err(e),
        }
    }

    /// The hash that the id is.
    pub fn hash(&self) -> &AnyHash
        ensures value { result.now ≡ self.now }
        ensures form { IsDigest self.now }
    {
        &self.hash
    }

    /// The id's text, which is that of the hash.
    pub fn text(&self, alloc: Global) -> Result<Text, Memory>
        ensures { IfOk result (λ text. text ≡ hash_text self.now) }
    {
        self.hash.text(alloc)
    }
}

impl From<AnyHash> for LogId {
    ghost from_gives = { λ hash id. id ≡ hash };

    fn from(hash: AnyHash) -> LogId {
        LogId { hash }
    }
}

impl fmt::Display for LogId {
    ghost output = { λ id. Some (hash_text id) };

    fn fmt<W: fmt::Write>(&self, f: &mut fmt::Formatter<W>) -> fmt::Result {
        fmt::Display::fmt(&self.hash, f)
    }
}

/// The id of a record: the hash of the record's contents.
///
/// A clause sees it as the hash's 32 bytes, by which ids are equal, are ordered and hash.
#[derive(Clone, Copy, Debug, PartialEq, Eq, PartialOrd, Ord, Hash)]
pub struct RecordId {
    hash: AnyHash,
}

impl Model for RecordId {
    ghost use Rattle.std.specs.Prelude.{ℕ, List};

    ghost Value = { List ℕ };

    ghost use Rattle.warg_hash.specs.Hash.{IsDigest};

    ghost view = { λ id. id.hash };

    ghost invariant = { λ id. IsDigest id.hash };

    ghost inverse = { λ d. record { hash = d } };
}

impl RecordId {
    /// The id of the record with these contents.
    pub fn of(contents: &[u8]) -> Self
        ensures { result ≡ sha256 contents.now }
    {
        RecordId {
            hash: AnyHash::sha256_of(contents),
        }
    }

    /// The id that a hash text names. Any other text is `Form`. No memory is taken.
    pub fn from_text(alloc: Global, text: &str) -> Result<Self, NameError>
        ensures exact { MatchOption (digest_of text.now) (result ≡ Err Form) (λ digest. result ≡ Ok digest) }
        ensures ok { IfOk result (λ id. IsHashText text.now id) }
        ensures form { (result ≡ Err Form) → (digest : List ℕ) → IsHashText text.now digest → ⊥ }
        ensures err { IfErr result (λ e. e ≡ Form) }
    {
        match AnyHash::from_text(alloc, text) {
            Ok(hash) => Ok(RecordId { hash }),
            Err(e) => Err(e),
        }
    }

    /// The hash that the id is.
    pub fn hash(&self) -> &AnyHash
        ensures value { result.now ≡ self.now }
        ensures form { IsDigest self.now }
    {
        &self.hash
    }

    /// The id's text, which is that of the hash.
    pub fn text(&self, alloc: Global) -> Result<Text, Memory>
        ensures { IfOk result (λ text. text ≡ hash_text self.now) }
    {
        self.hash.text(alloc)
    }
}

impl From<AnyHash> for RecordId {
    ghost from_gives = { λ hash id. id ≡ hash };

    fn from(hash: AnyHash) -> RecordId {
        RecordId { hash }
    }
}

impl fmt::Display for RecordId {
    ghost output = { λ id. Some (hash_text id) };

    fn fmt<W: fmt::Write>(&self, f: &mut fmt::Formatter<W>) -> fmt::Result {
        fmt::Display::fmt(&self.hash, f)
    }
}

/// The id of a key: the hash of the key's text.
///
/// A clause sees it as the hash's 32 bytes, by which ids are equal, are ordered and hash.
#[derive(Clone, Copy, Debug, PartialEq, Eq, PartialOrd, Ord, Hash)]
pub struct KeyId {
    hash: AnyHash,
}

impl Model for KeyId {
    ghost use Rattle.std.specs.Prelude.{ℕ, List};

    ghost Value = { List ℕ };

    ghost use Rattle.warg_hash.specs.Hash.{IsDigest};

    ghost view = { λ id. id.hash };

    ghost invariant = { λ id. IsDigest id.hash };

    ghost inverse = { λ d. record { hash = d } };
}

impl KeyId {
    /// The id of the key with this text.
    pub fn of(key: &str) -> Self
        ensures { result ≡ sha256 key.now }
    {
        KeyId {
            hash: AnyHash::sha256_of(key.as_bytes()),
        }
    }

    /// The id that a hash text names. Any other text is `Form`. No memory is taken.
    pub fn from_text(alloc: Global, text: &str) -> Result<Self, NameError>
        ensures exact { MatchOption (digest_of text.now) (result ≡ Err Form) (λ digest. result ≡ Ok digest) }
        ensures ok { IfOk result (λ id. IsHashText text.now id) }
        ensures form { (result ≡ Err Form) → (digest : List ℕ) → IsHashText text.now digest → ⊥ }
        ensures err { IfErr result (λ e. e ≡ Form) }
    {
        match AnyHash::from_text(alloc, text) {
            Ok(hash) => Ok(KeyId { hash }),
            Err(e) => Err(e),
        }
    }

    /// The hash that the id is.
    pub fn hash(&self) -> &AnyHash
        ensures value { result.now ≡ self.now }
        ensures form { IsDigest self.now }
    {
        &self.hash
    }

    /// The id's text, which is that of the hash.
    pub fn text(&self, alloc: Global) -> Result<Text, Memory>
        ensures { IfOk result (λ text. text ≡ hash_text self.now) }
    {
        self.hash.text(alloc)
    }
}

impl From<AnyHash> for KeyId {
    ghost from_gives = { λ hash id. id ≡ hash };

    fn from(hash: AnyHash) -> KeyId {
        KeyId { hash }
    }
}

impl fmt::Display for KeyId {
    ghost output = { λ id. Some (hash_text id) };

    fn fmt<W: fmt::Write>(&self, f: &mut fmt::Formatter<W>) -> fmt::Result {
        fmt::Display::fmt(&self.hash, f)
    }
}
