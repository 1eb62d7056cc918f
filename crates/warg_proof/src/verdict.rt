//! The answer to a proof from the root that it gives.

ghost use Rattle.std.specs.Prelude.{◌≡◌};
ghost use Rattle.warg_proof.specs.Judging.{root_verdict, roots_verdict};

use crate::fault::ProofFault;
use warg_hash::AnyHash;

/// Whether a root was found and is the one that was asked for.
pub fn judge_root(found: Option<[u8; 32]>, root: &AnyHash) -> Result<(), ProofFault>
    ensures { result ≡ root_verdict found root.now }
{
    let Some(found) = found else {
        return Err(ProofFault::MissingHash);
    };
    if found == *root.bytes() {
        Ok(())
    } else {
        Err(ProofFault::OtherRoot {
            root: *root,
            found: AnyHash::from_digest(found),
        })
    }
}

/// Whether two roots were found and are those that were asked for, the old one first.
pub fn judge_roots(
    found: Option<([u8; 32], [u8; 32])>,
    old_root: &AnyHash,
    new_root: &AnyHash,
) -> Result<(), ProofFault>
    ensures { result ≡ roots_verdict found old_root.now new_root.now }
{
    let Some(found) = found else {
        return Err(ProofFault::MissingHash);
    };
    let old = found.0;
    let new = found.1;
    if old != *old_root.bytes() {
        return Err(ProofFault::OtherRoot {
            root: *old_root,
            found: AnyHash::from_digest(old),
        });
    }
    judge_root(Some(new), new_root)
}
