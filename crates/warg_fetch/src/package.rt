//! The update of a package by what stores hold.

ghost use Rattle.std.specs.Prelude.{◌≡◌, ◌≤◌, List, Some, Err, IfOk, IfErr, IfSome, OnOk};
ghost use Rattle.warg_values.specs.Faults.{Rose};
ghost use Rattle.warg_log.specs.Rules.{Accepts};
ghost use Rattle.warg_exchange.specs.declared.exchange.Exchange.{Exchange as Said};
ghost use Rattle.warg_api.specs.Asking.{asker};
ghost use Rattle.warg_page.specs.Steps.{AreGood, IsGoodOperator};
ghost use Rattle.warg_page.specs.Views.{AreSound, logs_view};
ghost use Rattle.warg_session.specs.Recording.{link_of, transcript};
ghost use Rattle.warg_session.specs.declared.error.UpdateRefusal.TheVariants.{LinkFault as IsLinkFault};
ghost use Rattle.warg_store.specs.Held.{Tells};
ghost use Rattle.warg_assemble.specs.Known.{Known, registry_of};
ghost use Rattle.warg_assemble.specs.Parts.{logs_of};
ghost use Rattle.warg_fetch.specs.Fetched.{IsFetchBegun, IsGoodUpdate, IsOpeningFault, IsPackageFault, IsPackageFetched, IsSingle, IsSoundUpdate, loads, update_of, writes_in};
ghost use Rattle.warg_fetch.specs.Stored.{Knows};
ghost use Rattle.warg_fetch.specs.Writes.{writes_of};
ghost use Rattle.warg_fetch.specs.declared.error.FetchError.TheVariants.{Update as IsUpdateFault};

use crate::error::FetchError;
use crate::start::load_start;
use std::alloc::Global;
use warg_api::{Client, Link};
use warg_exchange::SignedCheckpoint;
use warg_hash::PackageName;
use warg_hint::Decide;
use warg_info::{OperatorInfo, PackageInfo};
use warg_log::Verifier;
use warg_session::{Recording, Settings, Updated, run_update};
use warg_store::{NamespaceMapStorage, RegistryStorage};
use warg_url::RegistryDomain;
use warg_values::Memory;

/// What the update of a package has proved.
#[derive(Drop)]
pub struct PackageUpdate {
    /// The log of the registry's operator.
    pub operator: OperatorInfo,
    /// The package's log.
    pub info: PackageInfo,
    /// The checkpoint under which they are proved.
    pub checkpoint: SignedCheckpoint,
    /// How many pages may still be asked for.
    pub pages_left: u64,
}

/// Who updates packages: as which client, by which signatures, and by which settings.
#[derive(Drop)]
pub struct Fetcher<'a, V> {
    /// The client of registries.
    pub client: &'a Client,
    /// Who says which signatures are good.
    pub verifier: &'a V,
    /// What is set for an update.
    pub settings: Settings,
}

/// An equal name of a registry of its own, where there is one. It is refused only for want of memory.
pub fn domain_copy(
    alloc: Global,
    domain: &Option<RegistryDomain>,
) -> Result<Option<RegistryDomain>, Memory>
    ensures { IfOk result (λ copy. copy ≡ domain.now) }
{
    match domain {
        Some(domain) => Ok(Some(domain.try_clone(alloc)?)),
        None => Ok(None),
    }
}

/// What was proved for one package, under the name of its registry.
fn package_update(
    alloc: Global,
    registry: Option<RegistryDomain>,
    updated: Updated,
) -> Result<PackageUpdate, Memory>
    ensures registry { IfOk result (λ got. got.info.registry ≡ registry) }
    ensures logs { IfOk result (λ got. IsSingle updated.proved.packages.items → (xs : List Said)
        → logs_of (update_of got xs) ≡ logs_view updated.proved.operator updated.proved.packages.items) }
    ensures checkpoint { IfOk result (λ got. got.checkpoint ≡ updated.proved.checkpoint) }
    ensures writes { IfOk result (λ got. (xs : List Said) → writes_in got ≡ writes_of (update_of got xs)) }
    ensures pages { IfOk result (λ got. got.pages_left ≡ updated.pages_left) }
    ensures sound { IfOk result (λ got. AreSound updated.proved.operator updated.proved.packages.items
        → IsSoundUpdate got) }
    ensures good { IfOk result (λ got. (accepts : Accepts) → IsGoodOperator accepts updated.proved.operator
        → AreGood accepts updated.proved.packages.items → IsGoodUpdate accepts got) }
{
    let pages_left = updated.pages_left;
    let checkpoint = updated.proved.checkpoint;
    let mut operator = updated.proved.operator;
    let mut packages = updated.proved.packages;
    let Some(mut info) = packages.pop() else {
        return Err(Memory);
    };
    operator.registry = domain_copy(alloc, &registry)?;
    operator.checkpoint = Some(checkpoint.contents);
    info.registry = registry;
    info.checkpoint = Some(checkpoint.contents);
    Ok(PackageUpdate {
        operator,
        info,
        checkpoint,
        pages_left,
    })
}

impl<V: Verifier> Fetcher<'_, V> {
    /// Updates the log of a package, from the beginning on, under the registry that has the package by what is kept,
    /// and behind the operator's log and the checkpoint that are kept of that registry. Nothing is kept of it yet.
    ///
    /// The stores are asked before the registry is: a store's refusal is the first that is answered.
    pub fn update_package<L: Link, R: RegistryStorage, N: NamespaceMapStorage, D: Decide>(
        &self,
        alloc: Global,
        link: &mut Recording<L>,
        registries: &mut R,
        namespaces: &mut N,
        decide: &mut D,
        name: &PackageName,
    ) -> Result<PackageUpdate, FetchError>
        ensures link_never_falls { L.faults (link_of link.old) ≤ L.faults (link_of link.new) }
        ensures registries_never_fall { R.faults registries.old ≤ R.faults registries.new }
        ensures names_never_fall { N.faults namespaces.old ≤ N.faults namespaces.new }
        ensures link_fault { (result ≡ Err (IsUpdateFault IsLinkFault))
            → Rose (L.faults (link_of link.old)) (L.faults (link_of link.new)) }
        ensures kept { IfSome (R.told registries.old) (Tells (R.told registries.new)) }
        ensures names_kept { N.told namespaces.new ≡ N.told namespaces.old }
        ensures fetched { IfOk result (λ got. (known : Known)
            → Knows (V.good self.now.verifier.now) (R.told registries.old) (N.told namespaces.old) known
            → IsPackageFetched (V.good self.now.verifier.now) (asker self.now.client.now) known name.now
            self.now.settings.round_limit L.Steps (transcript L.told link.old) (transcript L.told link.new) got) }
        ensures writes { IfOk result (λ got. (xs : List Said) → writes_in got ≡ writes_of (update_of got xs)) }
        ensures sound { IfOk result IsSoundUpdate }
        ensures good { IfOk result (λ got. (known : Known)
            → Knows (V.good self.now.verifier.now) (R.told registries.old) (N.told namespaces.old) known
            → IsGoodUpdate (V.good self.now.verifier.now) got) }
        ensures unasked { OnOk result ((known : Known)
            → Knows (V.good self.now.verifier.now) (R.told registries.old) (N.told namespaces.old) known
            → decide.new ≡ decide.old) }
        ensures begun { (known : Known)
            → Knows (V.good self.now.verifier.now) (R.told registries.old) (N.told namespaces.old) known
            → IsFetchBegun (asker self.now.client.now) known name.now (transcript L.told link.old)
            (transcript L.told link.new) }
        ensures cause { IfErr result (λ e. (known : Known)
            → Knows (V.good self.now.verifier.now) (R.told registries.old) (N.told namespaces.old) known
            → IsPackageFault e
            (λ e. IsOpeningFault e (registry_of known name.now)
            (loads (R.faults registries.old) (R.faults registries.new) (R.told registries.old))
            (loads (N.faults namespaces.old) (N.faults namespaces.new) (N.told namespaces.old)))
            (V.good self.now.verifier.now) (D.said decide.old decide.new) self.now.settings.round_limit
            (asker self.now.client.now) known name.now L.Steps (transcript L.told link.old)
            (transcript L.told link.new)) }
    {
        let start = load_start(alloc, registries, namespaces, name)?;
        let registry = domain_copy(alloc, &start.registry)?;
        let updated = run_update(
            alloc,
            self.client,
            link,
            self.verifier,
            decide,
            start,
            self.settings,
        )?;
        Ok(package_update(alloc, registry, updated)?)
    }
}
