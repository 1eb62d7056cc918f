//! A caller of `warg_model`.

ghost use Rattle.std.specs.Prelude.{IfOk};
ghost use Rattle.warg_ledger.specs.Registry.{IsRegistry};
ghost use Rattle.warg_model.specs.Held.{HasNoClash, registry_of};
ghost use Rattle.warg_model.specs.Signatures.{accepted_of};
ghost use Rattle.warg_model.specs.State.{IsSound, held};

use semver::Version;
use std::alloc::Global;
use warg_hash::{AnyHash, PackageName};
use warg_log::ListedVerifier;
use warg_model::{ModelError, ModelRegistry};
use warg_record::{PublicKey, Signature};

/// A registry with one release, and the verifier that accepts it.
pub fn with_release(
    alloc: Global,
    key: PublicKey,
    signature: Signature,
    name: &PackageName,
    version: &Version,
    content: &AnyHash,
) -> Result<(ModelRegistry, ListedVerifier), ModelError>
    ensures { IfOk result (λ r. IsSound r.0
        × (HasNoClash (registry_of (held r.0)) → IsRegistry (accepted_of r.1) (registry_of (held r.0)))) }
{
    let mut registry = ModelRegistry::new(alloc, key, signature)?;
    registry.publish(alloc, name, version, content)?;
    registry.grow(alloc)?;
    let verifier = registry.verifier(alloc)?;
    Ok((registry, verifier))
}
