//! What a client keeps of registries and of what is to be published, as stores give and take it.

ghost use Rattle.std.specs.Prelude.{◌≡◌, ◌≤◌, ℕ, Option, IfOk, IfErr, IfSome, OnOk, OnErr, option_copied, option_map};
ghost use Rattle.warg_publish.specs.Shown.{info_view};
ghost use Rattle.warg_info.specs.Info.{IsSoundOperator, IsSoundPackage};
ghost use Rattle.warg_store.specs.Entry.{Whole, entry_of, IsLoadFault, IsStoreFault};
ghost use Rattle.warg_store.specs.Held.{Held, IsSoundPublish, Tells, LeavesPublish, LeavesReset, LeavesStore, after_reset, entry_named, named_info, operator_info, package_key, with_checkpoint, with_operator, with_package, with_publish};
ghost use Rattle.warg_store.specs.Listed.{AreAllPackages, AreSoundLists, HaveSome, IsListingFault, listed_in};

use crate::error::{EntryKind, StoreError};
use indexmap::IndexMap;
use std::alloc::Global;
use warg_exchange::SignedCheckpoint;
use warg_hash::PackageName;
use warg_info::{OperatorInfo, PackageInfo};
use warg_publish::PublishInfo;
use warg_url::RegistryDomain;

/// Keeps checkpoints and logs of registries, and what is to be published. The home registry is the one without a name.
///
/// An implementation in memory tells which entries there are, and each has a count of faults, by which a caller knows
/// that the outside failed.
pub trait RegistryStorage: Drop {
    /// How many calls failed so far.
    ghost faults: { Self → ℕ };

    /// What is held, where the object tells it.
    ghost told: { Self → Option Held };

    /// Takes away what is kept of the home registry, or of all registries, and what is to be published. A refusal
    /// leaves each of these entries as it was, or none.
    fn reset(&mut self, alloc: Global, all_registries: bool) -> Result<(), StoreError>
        ensures never_falls { faults self.old ≤ faults self.new }
        ensures reset { OnOk result (IfSome (told self.old) (λ held.
            Tells (told self.new) (after_reset all_registries held))) }
        ensures refused { OnErr result (IfSome (told self.old) (LeavesReset (told self.new) all_registries)) }
        ensures fault { IfErr result (λ e. IsStoreFault e (faults self.old) (faults self.new)) };

    /// The checkpoint that is kept of a registry.
    fn load_checkpoint(
        &mut self,
        alloc: Global,
        registry: Option<&RegistryDomain>,
    ) -> Result<Option<SignedCheckpoint>, StoreError>
        ensures never_falls { faults self.old ≤ faults self.new }
        ensures kept { IfSome (told self.old) (Tells (told self.new)) }
        ensures found { IfOk result (λ o. IfSome (told self.old) (λ held.
            held.checkpoints (option_copied registry.entry) ≡ entry_of o)) }
        ensures fault { IfErr result (λ e. IsLoadFault e EntryKind.Checkpoint (faults self.old) (faults self.new)
            (option_map (λ held. held.checkpoints (option_copied registry.entry)) (told self.old))) };

    /// Keeps a checkpoint of a registry. A refusal leaves the old one, the new one, or what can't be read.
    fn store_checkpoint(
        &mut self,
        alloc: Global,
        registry: Option<&RegistryDomain>,
        checkpoint: &SignedCheckpoint,
    ) -> Result<(), StoreError>
        ensures never_falls { faults self.old ≤ faults self.new }
        ensures stored { OnOk result (IfSome (told self.old) (λ held.
            Tells (told self.new) (with_checkpoint held (option_copied registry.entry) (Whole checkpoint.now)))) }
        ensures refused { OnErr result (IfSome (told self.old) (λ held.
            LeavesStore (told self.new) held (with_checkpoint held (option_copied registry.entry)) checkpoint.now)) }
        ensures fault { IfErr result (λ e. IsStoreFault e (faults self.old) (faults self.new)) };

    /// What is kept of the log of a registry's operator. It is sound.
    fn load_operator(
        &mut self,
        alloc: Global,
        registry: Option<&RegistryDomain>,
    ) -> Result<Option<OperatorInfo>, StoreError>
        ensures never_falls { faults self.old ≤ faults self.new }
        ensures kept { IfSome (told self.old) (Tells (told self.new)) }
        ensures found { IfOk result (λ o. IfSome (told self.old) (λ held.
            held.operators (option_copied registry.entry) ≡ entry_of (option_map operator_info o))) }
        ensures sound { IfOk result (λ o. IfSome o IsSoundOperator) }
        ensures fault { IfErr result (λ e. IsLoadFault e EntryKind.Operator (faults self.old) (faults self.new)
            (option_map (λ held. held.operators (option_copied registry.entry)) (told self.old))) };

    /// Keeps the log of a registry's operator. A refusal leaves the old one, the new one, or what can't be read.
    fn store_operator(
        &mut self,
        alloc: Global,
        registry: Option<&RegistryDomain>,
        info: &OperatorInfo,
    ) -> Result<(), StoreError>
        requires { IsSoundOperator info.now }
        ensures never_falls { faults self.old ≤ faults self.new }
        ensures stored { OnOk result (IfSome (told self.old) (λ held. Tells (told self.new)
            (with_operator held (option_copied registry.entry) (Whole (operator_info info.now))))) }
        ensures refused { OnErr result (IfSome (told self.old) (λ held. LeavesStore (told self.new) held
            (with_operator held (option_copied registry.entry)) (operator_info info.now))) }
        ensures fault { IfErr result (λ e. IsStoreFault e (faults self.old) (faults self.new)) };

    /// What is kept of the logs of all packages: a list for each registry that has some. Each log is sound, and of what
    /// is told each is listed once. Where the entry of one package can't be read, or stands under the id of another
    /// one's log, the answer is `Damaged`.
    fn load_all_packages(
        &mut self,
        alloc: Global,
    ) -> Result<IndexMap<Option<RegistryDomain>, Vec<PackageInfo>>, StoreError>
        ensures never_falls { faults self.old ≤ faults self.new }
        ensures kept { IfSome (told self.old) (Tells (told self.new)) }
        ensures found { IfOk result (λ all. IfSome (told self.old) (λ held.
            AreAllPackages held.packages (listed_in all))) }
        ensures sound { IfOk result AreSoundLists }
        ensures have_some { IfOk result HaveSome }
        ensures fault { IfErr result (λ e. IsListingFault e (faults self.old) (faults self.new)
            (option_map (λ held. held.packages) (told self.old))) };

    /// What is kept of the log of a package in a registry. It is sound, and has the package's name: where a package
    /// of another name is kept under the id of this one's log, the entry can't be read.
    fn load_package(
        &mut self,
        alloc: Global,
        registry: Option<&RegistryDomain>,
        name: &PackageName,
    ) -> Result<Option<PackageInfo>, StoreError>
        ensures never_falls { faults self.old ≤ faults self.new }
        ensures kept { IfSome (told self.old) (Tells (told self.new)) }
        ensures found { IfOk result (λ o. IfSome (told self.old) (λ held.
            entry_named name.now (held.packages (package_key (option_copied registry.entry) name.now))
            ≡ entry_of (option_map named_info o))) }
        ensures sound { IfOk result (λ o. IfSome o IsSoundPackage) }
        ensures name { IfOk result (λ o. IfSome o (λ info. info.name ≡ name.now)) }
        ensures fault { IfErr result (λ e. IsLoadFault e EntryKind.Package (faults self.old) (faults self.new)
            (option_map (λ held. entry_named name.now (held.packages (package_key (option_copied registry.entry)
            name.now))) (told self.old))) };

    /// Keeps the log of a package in a registry, under its id. A refusal leaves the old one, the new one, or what
    /// can't be read.
    fn store_package(
        &mut self,
        alloc: Global,
        registry: Option<&RegistryDomain>,
        info: &PackageInfo,
    ) -> Result<(), StoreError>
        requires { IsSoundPackage info.now }
        ensures never_falls { faults self.old ≤ faults self.new }
        ensures stored { OnOk result (IfSome (told self.old) (λ held. Tells (told self.new) (with_package held
            (package_key (option_copied registry.entry) info.now.name) (Whole (named_info info.now))))) }
        ensures refused { OnErr result (IfSome (told self.old) (λ held. LeavesStore (told self.new) held
            (with_package held (package_key (option_copied registry.entry) info.now.name)) (named_info info.now))) }
        ensures fault { IfErr result (λ e. IsStoreFault e (faults self.old) (faults self.new)) };

    /// What is to be published. Each of its entries can be.
    fn load_publish(&mut self, alloc: Global) -> Result<Option<PublishInfo>, StoreError>
        ensures never_falls { faults self.old ≤ faults self.new }
        ensures kept { IfSome (told self.old) (Tells (told self.new)) }
        ensures found { IfOk result (λ o. IfSome (told self.old) (λ held.
            held.publish ≡ entry_of (option_map info_view o))) }
        ensures publishable { IfOk result (λ o. IfSome o IsSoundPublish) }
        ensures fault { IfErr result (λ e. IsLoadFault e EntryKind.Publish (faults self.old) (faults self.new)
            (option_map (λ held. held.publish) (told self.old))) };

    /// Keeps what is to be published, or takes it away. A refusal leaves what was kept, what was to be, or, where there
    /// is an info, what can't be read.
    fn store_publish(&mut self, alloc: Global, info: Option<&PublishInfo>) -> Result<(), StoreError>
        requires { IfSome (option_copied info) IsSoundPublish }
        ensures never_falls { faults self.old ≤ faults self.new }
        ensures stored { OnOk result (IfSome (told self.old) (λ held. Tells (told self.new)
            (with_publish held (entry_of (option_map info_view (option_copied info.entry)))))) }
        ensures refused { OnErr result (IfSome (told self.old) (λ held.
            LeavesPublish (told self.new) held (option_map info_view (option_copied info.entry)))) }
        ensures fault { IfErr result (λ e. IsStoreFault e (faults self.old) (faults self.new)) };
}
