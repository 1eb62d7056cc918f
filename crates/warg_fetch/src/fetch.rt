//! A package that is updated by what stores hold, and what the update proved kept.

ghost use Rattle.std.specs.Prelude.{◌≡◌, ◌≤◌, List, Err, IfOk, IfErr, OnErr, OnOk};
ghost use Rattle.warg_values.specs.Faults.{Rose};
ghost use Rattle.warg_exchange.specs.declared.exchange.Exchange.{Exchange as Said};
ghost use Rattle.warg_api.specs.Asking.{asker};
ghost use Rattle.warg_session.specs.Recording.{link_of, transcript};
ghost use Rattle.warg_session.specs.declared.error.UpdateRefusal.TheVariants.{LinkFault as IsLinkFault};
ghost use Rattle.warg_assemble.specs.Known.{Known};
ghost use Rattle.warg_assemble.specs.Parts.{Updated, known_after};
ghost use Rattle.warg_fetch.specs.Fetched.{IsFetchBegun, IsPackageFault, IsPackageFetched, IsSoundUpdate, loads, update_of};
ghost use Rattle.warg_fetch.specs.Kept.{IsStoresFault, LeavesPackage};
ghost use Rattle.warg_fetch.specs.Stored.{IsOwnStore, IsReadable, Knows};
ghost use Rattle.warg_fetch.specs.declared.error.FetchError.TheVariants.{Update as IsUpdateFault};

use crate::error::FetchError;
use crate::keep::keep_update;
use crate::package::{Fetcher, PackageUpdate};
use std::alloc::Global;
use warg_api::Link;
use warg_hash::PackageName;
use warg_hint::Decide;
use warg_log::Verifier;
use warg_session::Recording;
use warg_store::{NamespaceMapStorage, RegistryStorage};

impl<V: Verifier> Fetcher<'_, V> {
    /// Updates the log of a package as `update_package` does, and keeps what the update has proved.
    ///
    /// Just what the update teaches is known besides from then on. A refusal leaves the store of registries as it was, or
    /// with a front of what was to be kept; the entry behind it may be one that can't be read.
    pub fn fetch_package<L: Link, R: RegistryStorage, N: NamespaceMapStorage, D: Decide>(
        &self,
        alloc: Global,
        link: &mut Recording<L>,
        registries: &mut R,
        namespaces: &mut N,
        decide: &mut D,
        name: &PackageName,
    ) -> Result<PackageUpdate, FetchError>
        ensures link_never_falls { L.faults (link_of link.old) ≤ L.faults (link_of link.new) }
        ensures registries_never_fall { R.faults registries.old ≤ R.faults registries.new }
        ensures names_never_fall { N.faults namespaces.old ≤ N.faults namespaces.new }
        ensures link_fault { (result ≡ Err (IsUpdateFault IsLinkFault))
            → Rose (L.faults (link_of link.old)) (L.faults (link_of link.new)) }
        ensures names_kept { N.told namespaces.new ≡ N.told namespaces.old }
        ensures fetched { IfOk result (λ got. (known : Known)
            → Knows (V.good self.now.verifier.now) (R.told registries.old) (N.told namespaces.old) known
            → IsPackageFetched (V.good self.now.verifier.now) (asker self.now.client.now) known name.now
            self.now.settings.round_limit L.Steps (transcript L.told link.old) (transcript L.told link.new) got) }
        ensures knows { IfOk result (λ got. (known : Known)
            → Knows (V.good self.now.verifier.now) (R.told registries.old) (N.told namespaces.old) known
            → (xs : List Said)
            → Knows (V.good self.now.verifier.now) (R.told registries.new) (N.told namespaces.new)
            (known_after known (Updated (update_of got xs)))) }
        ensures held { OnErr result ((known : Known)
            → (knows : Knows (V.good self.now.verifier.now) (R.told registries.old) (N.told namespaces.old) known)
            → LeavesPackage (V.good self.now.verifier.now) (asker self.now.client.now) known name.now L.Steps
            (transcript L.told link.old) (transcript L.told link.new) (R.told registries.new) knows.registries.held) }
        ensures own { (known : Known)
            → Knows (V.good self.now.verifier.now) (R.told registries.old) (N.told namespaces.old) known
            → IsOwnStore (V.good self.now.verifier.now) (R.told registries.new) }
        ensures readable { OnOk result (IsReadable (R.told registries.old) → IsReadable (R.told registries.new)) }
        ensures sound { IfOk result IsSoundUpdate }
        ensures unasked { OnOk result ((known : Known)
            → Knows (V.good self.now.verifier.now) (R.told registries.old) (N.told namespaces.old) known
            → decide.new ≡ decide.old) }
        ensures begun { (known : Known)
            → Knows (V.good self.now.verifier.now) (R.told registries.old) (N.told namespaces.old) known
            → IsFetchBegun (asker self.now.client.now) known name.now (transcript L.told link.old)
            (transcript L.told link.new) }
        ensures cause { IfErr result (λ e. (known : Known)
            → Knows (V.good self.now.verifier.now) (R.told registries.old) (N.told namespaces.old) known
            → IsPackageFault e
            (λ e. IsStoresFault (V.good self.now.verifier.now) (asker self.now.client.now) known name.now L.Steps
            (transcript L.told link.old) (transcript L.told link.new) e
            (loads (R.faults registries.old) (R.faults registries.new) (R.told registries.old))
            (loads (N.faults namespaces.old) (N.faults namespaces.new) (N.told namespaces.old)))
            (V.good self.now.verifier.now) (D.said decide.old decide.new) self.now.settings.round_limit
            (asker self.now.client.now) known name.now L.Steps (transcript L.told link.old)
            (transcript L.told link.new)) }
    {
        let update = self.update_package(alloc, link, registries, namespaces, decide, name)?;
        keep_update(alloc, registries, &update)?;
        Ok(update)
    }
}
