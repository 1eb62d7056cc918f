//! Components, bundled with the contents of the releases that their imports ask for.

ghost use Rattle.std.specs.Prelude.{◌≡◌, IfOk, IfErr};
ghost use Rattle.warg_assemble.specs.Known.{Known};
ghost use Rattle.warg_learn.specs.Seen.{IsKnown, tells};
ghost use Rattle.warg_learn.specs.Stored.{IsOwnStore};
ghost use Rattle.warg_client.specs.Assembled.{beginning};
ghost use Rattle.warg_client.specs.Bundler.{IsNotBundled, IsReleasesBundled, bundle_refusal};
ghost use Rattle.warg_client.specs.Shown.{assembly_of, registry_of, seen_by, settings_of, verifier_of};

use crate::client::Client;
use comp_shape::ShapeError;
use std::alloc::Global;
use warg_api::Link;
use warg_bundle::{BundleError, bundle_releases};
use warg_complete::ClientError;
use warg_hint::Decide;
use warg_learn::{KeptFirst, LearnError};
use warg_log::Verifier;
use warg_store::{ContentStorage, NamespaceMapStorage, RegistryStorage};

/// What a client tells of a component that is not bundled.
fn told(error: BundleError<LearnError<ShapeError>>) -> ClientError
    ensures { result ≡ bundle_refusal error }
{
    match error {
        BundleError::BadComponent(error) => ClientError::from(error),
        BundleError::Search(error) => ClientError::from(error),
        BundleError::TooLarge(number) => ClientError::TooLarge(number),
        BundleError::Memory => ClientError::Memory,
    }
}

impl<
    L: Link,
    R: RegistryStorage,
    C: ContentStorage,
    N: NamespaceMapStorage,
    V: Verifier,
    D: Decide,
> Client<L, R, C, N, V, D> {
    /// A component with the contents of releases in the places of the imports of components that ask for these, as a
    /// lock asks for those of its plan.
    ///
    /// Such an import asks for one version of a package by the digest of its content. The log of each package is the one
    /// that is kept, and only where none is kept the package is updated; each content is loaded from the store, or
    /// downloaded and kept. What was assembled last stays so.
    pub fn bundle(&mut self, alloc: Global, bytes: &[u8]) -> Result<Vec<u8>, ClientError>
        ensures bundled { IfOk result (λ out. IsReleasesBundled L.Steps
            (beginning (settings_of self.old)
            (seen_by (tells V.good L.told L.faults R.told R.faults C.told C.faults N.told N.faults) self.old))
            (seen_by (tells V.good L.told L.faults R.told R.faults C.told C.faults N.told N.faults) self.new)
            bytes.now out.items) }
        ensures cause { IfErr result (λ e. IsNotBundled L.Steps
            (beginning (settings_of self.old)
            (seen_by (tells V.good L.told L.faults R.told R.faults C.told C.faults N.told N.faults) self.old))
            (seen_by (tells V.good L.told L.faults R.told R.faults C.told C.faults N.told N.faults) self.new)
            D.said bytes.now e) }
        ensures own { (known : Known)
            → IsKnown (beginning (settings_of self.old)
            (seen_by (tells V.good L.told L.faults R.told R.faults C.told C.faults N.told N.faults) self.old)) known
            → IsOwnStore (V.good (verifier_of self.old)) (R.told (registry_of self.new)) }
        ensures same_settings { settings_of self.new ≡ settings_of self.old }
        ensures same_assembly { assembly_of self.new ≡ assembly_of self.old }
    {
        self.restart(alloc);
        match bundle_releases(alloc, &KeptFirst, &mut self.learner, bytes) {
            Ok(out) => Ok(out),
            Err(error) => Err(told(error)),
        }
    }
}
