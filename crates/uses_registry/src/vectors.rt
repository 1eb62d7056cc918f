//! A caller of `warg_vectors`.

ghost use Rattle.std.specs.Prelude.{IfOk};
ghost use Rattle.warg_vectors.specs.State.{IsSound};

use semver::Version;
use std::alloc::Global;
use warg_hash::PackageName;
use warg_log::ListedVerifier;
use warg_vectors::{ModelError, ModelRegistry};

/// The home registry with one release, grown, and the verifier that accepts it.
pub fn with_content(
    alloc: Global,
    name: &PackageName,
    version: &Version,
    content: &[u8],
) -> Result<(ModelRegistry, ListedVerifier), ModelError>
    ensures { IfOk result (λ r. IsSound r.0) }
{
    let mut registries = ModelRegistry::new(alloc);
    registries.publish_contents(alloc, None, name, version, content)?;
    registries.grow(alloc)?;
    let verifier = registries.verifier(alloc)?;
    Ok((registries, verifier))
}
