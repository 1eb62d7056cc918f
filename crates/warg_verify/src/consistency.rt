//! Verifying that a log continues an older one.

ghost use Rattle.std.specs.Prelude.{OnOk, IfErr};
ghost use Rattle.warg_verify.specs.Shown.{Continues};
ghost use Rattle.warg_verify.specs.Faults.{IsConsistencyFault};

use std::alloc::Global;
use warg_exchange::{ConsistencyRequest, ConsistencyResponse};
use warg_hash::AnyHash;
use warg_proof::{LogBundle, ProofFault};

/// Verifies that a registry's log of length `lengths.to` continues that of length `lengths.from`, by their roots.
///
/// The first of these faults is answered:
///
/// - `Form`: the bytes are no bundle.
/// - `WrongCount`: the bundle does not hold exactly one consistency proof and nothing else.
/// - `WrongLength`: the proof is for other lengths, or the older length is 0 or past the newer one.
/// - `MissingHash`: the bundle lacks a hash that the proof needs.
/// - `OtherRoot`: the proof gives another old root, or else another new one.
pub fn verify_consistency(
    alloc: Global,
    bundle: &ConsistencyResponse,
    lengths: &ConsistencyRequest,
    from_root: &AnyHash,
    to_root: &AnyHash,
) -> Result<(), ProofFault>
    ensures ok { OnOk result (Continues lengths.now.from lengths.now.to from_root.now to_root.now bundle.now.proof) }
    ensures err { IfErr result (λ fault.
        IsConsistencyFault lengths.now.from lengths.now.to from_root.now to_root.now bundle.now.proof fault) }
{
    let bundle = LogBundle::decode(alloc, bundle.proof.as_slice())?;
    bundle.consistency(lengths.from, lengths.to, from_root, to_root)
}
