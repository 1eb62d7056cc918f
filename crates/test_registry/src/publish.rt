//! What is to be published, signed. The record is bytes that Python wrote, and the digest is computed by Python's
//! `hashlib`.

use semver::Version;
use std::alloc::Global;
use std::test::Fail;
use test_check::{holds, is_text};
use warg_log::{AnyHash, KeyId, ListedSigner, PublicKey, RecordId, SignError, Signature, Signer};
use warg_publish::{Moment, PackageName, Permission, PublishEntry, PublishInfo};

/// The id of the record before.
const HEAD: &str = "sha256:96821d936df6b0494b21fac7f5ef251be58d55d1f6198e13ba57f64a778d05c5";

/// The digest of the content of 1.2.0.
const CONTENT: &str = "sha256:9f77034b1eb57d24f21ac7deb65c9cc99f63b72775e311f1f280ab2b6c2e06a2";

/// The id of the key `k:AA==`.
const KEY_ID: &str = "sha256:4efe654bc30051152bd60218d04e883ec1e6b92f39f8623b4caa049a90f71205";

/// A second and five nanoseconds after the start of 1970, behind that record: Init with the key `k:AA==`, a release of
/// 1.2.0, a yank of 1.1.0, both permissions for the key `k:BA==`, and that to release taken from `k:AA==`.
const RECORD: &[u8] = b"\
    \x0aGsha256:96821d936df6b0494b21fac7f5ef251be58d55d1f6198e13ba57f64a778d05c5\x1a\x04\x08\x01\x10\x05\x22\x12\
    \x0a\x10\x0a\x06k:AA==\x12\x06sha256\x22R\x22P\x0a\x051.2.0\x12Gsha256:9f77034b1eb57d24f21ac7deb65c9cc99f63b72\
    775e311f1f280ab2b6c2e06a2\x22\x09*\x07\x0a\x051.1.0\x22\x19\x12\x17\x0a\x06k:BA==\x12\x07release\x12\x04yank\
    \x22T\x1aR\x0aGsha256:4efe654bc30051152bd60218d04e883ec1e6b92f39f8623b4caa049a90f71205\x12\x07release";

/// The SHA-256 of the text that is signed for it.
const SIGNED_DIGEST: &str =
    "sha256:45270d337f347eb20b7beac693cfc28671481d5c4117af03c0602d145efca26e";

/// One permission, or both.
fn permissions(alloc: Global, with_yank: bool) -> Result<Vec<Permission>, Fail> {
    let mut list = Vec::new(alloc);
    list.push(Permission::Release)?;
    if with_yank {
        list.push(Permission::Yank)?;
    }
    Ok(list)
}

/// The entries of the record.
fn entries(alloc: Global) -> Result<Vec<PublishEntry>, Fail> {
    let mut list = Vec::new(alloc);
    list.push(PublishEntry::Init)?;
    list.push(PublishEntry::Release {
        version: Version::parse(alloc, "1.2.0")?,
        content: AnyHash::from_text(alloc, CONTENT)?,
    })?;
    list.push(PublishEntry::Yank {
        version: Version::parse(alloc, "1.1.0")?,
    })?;
    list.push(PublishEntry::Grant {
        key: PublicKey::new(alloc, "k:BA==")?,
        permissions: permissions(alloc, true)?,
    })?;
    list.push(PublishEntry::Revoke {
        key_id: KeyId::from_text(alloc, KEY_ID)?,
        permissions: permissions(alloc, false)?,
    })?;
    Ok(list)
}

/// What is to be published: the entries of the record, or none.
fn info(alloc: Global, with_entries: bool) -> Result<PublishInfo, Fail> {
    Ok(PublishInfo {
        name: PackageName::new(alloc, "a:b")?,
        head: Some(RecordId::from_text(alloc, HEAD)?),
        entries: if with_entries {
            entries(alloc)?
        } else {
            Vec::new(alloc)
        },
    })
}

/// A signer of the record alone, whose second call fails.
fn signer(alloc: Global) -> Result<ListedSigner, Fail> {
    let mut list = Vec::new(alloc);
    let digest = AnyHash::from_text(alloc, SIGNED_DIGEST)?;
    list.push((digest, Signature::new(alloc, "k:CA==")?))?;
    let mut signer = ListedSigner::new(alloc, PublicKey::new(alloc, "k:AA==")?, list);
    signer.fail_at(2)?;
    Ok(signer)
}

/// What signing an info answers: the signature, or a word.
fn signed<S: Signer>(alloc: Global, signer: &mut S, info: PublishInfo) -> Result<String, Fail> {
    let now = Moment {
        seconds: 1,
        nanos: 5,
    };
    match info.finalize(alloc, signer, now) {
        Ok(envelope) => {
            holds(
                envelope.contents.as_slice() == RECORD,
                "the record of Python",
            )?;
            is_text(envelope.key_id.text(alloc)?.as_str(), KEY_ID)?;
            Ok(String::from_str(alloc, envelope.signature.as_str())?)
        }
        Err(SignError::Failed) => Ok(String::from_str(alloc, "failed")?),
        Err(SignError::Memory) => Ok(String::from_str(alloc, "no memory")?),
    }
}

#[test]
fn an_info_is_signed_as_its_record(rt: HostRuntime) -> Result<(), Fail> {
    let alloc = rt.alloc();
    let mut signer = signer(alloc)?;
    let first = info(alloc, true)?;
    let again = first.try_clone(alloc)?;
    holds(first.initializing(), "the package is made")?;
    is_text(&signed(alloc, &mut signer, first)?, "k:CA==")?;
    is_text(&signed(alloc, &mut signer, again)?, "failed")?;
    let empty = info(alloc, false)?;
    holds(!empty.initializing(), "no package is made")?;
    is_text(&signed(alloc, &mut signer, empty)?, "failed")
}
