//! Which registry has the packages of a namespace.

ghost use Rattle.std.specs.Prelude.{◌≡◌, ◌≤◌, None, IfOk, IfErr, IfSome, option_map};
ghost use Rattle.warg_log.specs.History.{namespace_of};
ghost use Rattle.warg_log.specs.Rules.{entries_of};
ghost use Rattle.warg_info.specs.Info.{operator_log, IsSoundOperator};
ghost use Rattle.warg_info.specs.Kept.{signed_log};
ghost use Rattle.warg_store.specs.Entry.{IsLoadFault};
ghost use Rattle.warg_store.specs.Held.{Tells};
ghost use Rattle.warg_assemble.specs.Known.{Known};
ghost use Rattle.warg_fetch.specs.Fetched.{IsLookupFault};
ghost use Rattle.warg_fetch.specs.Stored.{KnowsNames, KnowsRegistries, mapped_in, registry_for as registry_by_names};

use std::alloc::Global;
use warg_info::OperatorInfo;
use warg_log::NamespaceState;
use warg_store::{EntryKind, NamespaceMapStorage, RegistryStorage, StoreError};
use warg_url::RegistryDomain;
use warg_values::{Memory, Text};

/// What a registry's operator says of a namespace, where it says something: that its registry has the packages, or
/// which one has them.
fn said_of(
    alloc: Global,
    operator: &OperatorInfo,
    namespace: &str,
) -> Result<Option<Option<RegistryDomain>>, Memory>
    ensures { IsSoundOperator operator.now → IfOk result (λ said.
        said ≡ namespace_of namespace.now (entries_of (signed_log (operator_log operator.now)))) }
{
    match operator.log.state().namespace_state(namespace) {
        Some(NamespaceState::Imported { registry }) => {
            Ok(Some(Some(RegistryDomain::new(registry.try_clone(alloc)?))))
        }
        Some(NamespaceState::Defined) => Ok(Some(None)),
        None => Ok(None),
    }
}

/// What the home registry's operator says of a namespace, by the log that is kept.
fn said_at_home<R: RegistryStorage>(
    alloc: Global,
    registries: &mut R,
    namespace: &str,
) -> Result<Option<Option<RegistryDomain>>, StoreError>
    ensures never_falls { R.faults registries.old ≤ R.faults registries.new }
    ensures kept { IfSome (R.told registries.old) (Tells (R.told registries.new)) }
    ensures found { IfOk result (λ said. (known : Known) → KnowsRegistries (R.told registries.old) known
        → said ≡ namespace_of namespace.now (entries_of (signed_log (known.operator None)))) }
    ensures fault { IfErr result (λ e. IsLoadFault e EntryKind.Operator (R.faults registries.old)
        (R.faults registries.new) (option_map (λ held. held.operators None) (R.told registries.old))) }
{
    match registries.load_operator(alloc, None)? {
        Some(operator) => Ok(said_of(alloc, &operator, namespace)?),
        None => Ok(None),
    }
}

/// The registry of a namespace by the map that is kept.
fn mapped<N: NamespaceMapStorage>(
    alloc: Global,
    namespaces: &mut N,
    namespace: &str,
) -> Result<Option<RegistryDomain>, StoreError>
    ensures never_falls { N.faults namespaces.old ≤ N.faults namespaces.new }
    ensures kept { N.told namespaces.new ≡ N.told namespaces.old }
    ensures found { IfOk result (λ registry. IfSome (N.told namespaces.old) (λ held.
        registry ≡ mapped_in held namespace.now)) }
    ensures fault { IfErr result (λ e. IsLoadFault e EntryKind.Namespaces (N.faults namespaces.old)
        (N.faults namespaces.new) (N.told namespaces.old)) }
{
    let Some(names) = namespaces.load_namespace_map(alloc)? else {
        return Ok(None);
    };
    match names.get(&Text::copy_of(alloc, namespace)?) {
        Some(registry) => Ok(Some(registry.try_clone(alloc)?)),
        None => Ok(None),
    }
}

/// The name of the registry that has the packages of a namespace, which the home registry has not.
///
/// It is the one of which the home registry's operator says so, by the log that is kept. Where that says nothing of the
/// namespace, it is the one of the map of namespaces that is kept, and else the home registry.
pub fn registry_for<R: RegistryStorage, N: NamespaceMapStorage>(
    alloc: Global,
    registries: &mut R,
    namespaces: &mut N,
    namespace: &str,
) -> Result<Option<RegistryDomain>, StoreError>
    ensures registries_never_fall { R.faults registries.old ≤ R.faults registries.new }
    ensures names_never_fall { N.faults namespaces.old ≤ N.faults namespaces.new }
    ensures kept { IfSome (R.told registries.old) (Tells (R.told registries.new)) }
    ensures names_kept { N.told namespaces.new ≡ N.told namespaces.old }
    ensures found { IfOk result (λ registry. (known : Known) → KnowsRegistries (R.told registries.old) known
        → KnowsNames (N.told namespaces.old) known → registry ≡ registry_by_names known namespace.now) }
    ensures fault { IfErr result (λ e. IsLookupFault e
        (record { before = R.faults registries.old; after = R.faults registries.new; told = R.told registries.old })
        (record {
          before = N.faults namespaces.old;
          after = N.faults namespaces.new;
          told = N.told namespaces.old;
        })) }
{
    match said_at_home(alloc, registries, namespace)? {
        Some(registry) => Ok(registry),
        None => mapped(alloc, namespaces, namespace),
    }
}
