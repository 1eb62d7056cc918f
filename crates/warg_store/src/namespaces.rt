//! The registries of namespaces, as stores give and take them.

ghost use Rattle.std.specs.Prelude.{◌≡◌, ◌≢◌, ◌≤◌, ℕ, Option, Some, Err, IfOk, IfErr, IfSome, OnOk, OnErr, option_map};
ghost use Rattle.warg_store.specs.Entry.{Entry, Absent, Whole, Unreadable, entry_of, IsLoadFault, IsStoreFault};
ghost use Rattle.warg_store.specs.Namespaces.{Names, LeavesNames, LeavesNamesReset, with_name};
ghost use Rattle.warg_store.specs.declared.error.StoreError.TheVariants.{Damaged as IsDamaged};

use crate::error::{EntryKind, StoreError};
use indexmap::IndexMap;
use std::alloc::Global;
use warg_url::RegistryDomain;
use warg_values::Text;

/// Keeps the registries of namespaces.
///
/// An implementation in memory tells which there are, and each has a count of faults, by which a caller knows that the
/// outside failed.
pub trait NamespaceMapStorage: Drop {
    /// How many calls failed so far.
    ghost faults: { Self → ℕ };

    /// What is held, where the object tells it.
    ghost told: { Self → Option (Entry Names) };

    /// The namespaces with their registries, where some were kept.
    fn load_namespace_map(
        &mut self,
        alloc: Global,
    ) -> Result<Option<IndexMap<Text, RegistryDomain>>, StoreError>
        ensures never_falls { faults self.old ≤ faults self.new }
        ensures kept { told self.new ≡ told self.old }
        ensures found { IfOk result (λ o. IfSome (told self.old) (λ held.
            held ≡ entry_of (option_map (λ names. names.entries) o))) }
        ensures fault { IfErr result (λ e. IsLoadFault e EntryKind.Namespaces (faults self.old) (faults self.new)
            (told self.old)) };

    /// Takes all namespaces away. A refusal leaves what was held, or nothing.
    fn reset_namespaces(&mut self, alloc: Global) -> Result<(), StoreError>
        ensures never_falls { faults self.old ≤ faults self.new }
        ensures reset { OnOk result (IfSome (told self.old) (λ _. told self.new ≡ Some Absent)) }
        ensures refused { OnErr result (IfSome (told self.old) (LeavesNamesReset (told self.new))) }
        ensures fault { IfErr result (λ e. IsStoreFault e (faults self.old) (faults self.new)) };

    /// Keeps the registry of a namespace. Where what is held can't be read the answer is `Damaged`, and nothing
    /// changes. Another refusal leaves what was held, the names with this one, or what can't be read.
    fn store_namespace(
        &mut self,
        alloc: Global,
        namespace: &str,
        registry: &RegistryDomain,
    ) -> Result<(), StoreError>
        ensures never_falls { faults self.old ≤ faults self.new }
        ensures stored { OnOk result (IfSome (told self.old) (λ held.
            told self.new ≡ Some (Whole (with_name held namespace.now registry.now)))) }
        ensures readable { OnOk result (IfSome (told self.old) (λ held. held ≢ Unreadable)) }
        ensures refused { OnErr result (IfSome (told self.old) (λ held.
            LeavesNames (told self.new) held (with_name held namespace.now registry.now))) }
        ensures damaged { result ≡ Err (IsDamaged EntryKind.Namespaces) → told self.new ≡ told self.old }
        ensures fault { IfErr result (λ e. IsLoadFault e EntryKind.Namespaces (faults self.old) (faults self.new)
            (told self.old)) };
}
