//! What the update of a package begins with.

ghost use Rattle.std.specs.Prelude.{◌≡◌, ◌≤◌, ◌∷◌, [], IfOk, IfErr, IfSome, map, option_copied, option_map};
ghost use Rattle.std.specs.List.{All};
ghost use Rattle.warg_hash.specs.Hash.{package_log_id};
ghost use Rattle.warg_log.specs.Rules.{Accepts};
ghost use Rattle.warg_info.specs.Info.{operator_log, IsSoundOperator, IsSoundPackage};
ghost use Rattle.warg_page.specs.Steps.{AreGood, id_of};
ghost use Rattle.warg_page.specs.Views.{AreSound, package_view};
ghost use Rattle.warg_session.specs.Updating.{IsGoodStart, start_view};
ghost use Rattle.warg_store.specs.Entry.{IsLoadFault};
ghost use Rattle.warg_store.specs.Held.{Tells};
ghost use Rattle.warg_assemble.specs.Known.{Known, registry_of};
ghost use Rattle.warg_assemble.specs.Parts.{start_of as start_by};
ghost use Rattle.warg_fetch.specs.Fetched.{IsOpeningFault, IsStartFault};
ghost use Rattle.warg_fetch.specs.Groups.{group_start};
ghost use Rattle.warg_fetch.specs.Stored.{IsOwnStore, KnowsNames, KnowsRegistries, log_in};

use crate::registry::registry_for;
use std::alloc::Global;
use warg_hash::PackageName;
use warg_info::{OperatorInfo, PackageInfo};
use warg_session::UpdateStart;
use warg_store::{EntryKind, NamespaceMapStorage, RegistryStorage, StoreError};
use warg_url::RegistryDomain;

/// What is kept of the log of a registry's operator: nothing is known before something is kept.
fn operator_of<R: RegistryStorage>(
    alloc: Global,
    registries: &mut R,
    registry: Option<&RegistryDomain>,
) -> Result<OperatorInfo, StoreError>
    ensures never_falls { R.faults registries.old ≤ R.faults registries.new }
    ensures kept { IfSome (R.told registries.old) (Tells (R.told registries.new)) }
    ensures found { IfOk result (λ operator. IfSome (R.told registries.old) (λ held.
        operator_log operator ≡ log_in (held.operators (option_copied registry.entry)))) }
    ensures sound { IfOk result IsSoundOperator }
    ensures fault { IfErr result (λ e. IsLoadFault e EntryKind.Operator (R.faults registries.old)
        (R.faults registries.new)
        (option_map (λ held. held.operators (option_copied registry.entry)) (R.told registries.old))) }
{
    match registries.load_operator(alloc, registry)? {
        Some(operator) => Ok(operator),
        None => Ok(OperatorInfo::new(alloc, None)),
    }
}

/// What the update of packages under a registry begins with: the operator's log and the checkpoint that are kept of the
/// registry, and the logs of the packages as they are given.
pub fn start_of<R: RegistryStorage>(
    alloc: Global,
    registries: &mut R,
    registry: Option<RegistryDomain>,
    packages: Vec<PackageInfo>,
) -> Result<UpdateStart, StoreError>
    ensures never_falls { R.faults registries.old ≤ R.faults registries.new }
    ensures kept { IfSome (R.told registries.old) (Tells (R.told registries.new)) }
    ensures registry { IfOk result (λ start. start.registry ≡ registry) }
    ensures begins { IfOk result (λ start. (known : Known) → KnowsRegistries (R.told registries.old) known
        → start_view start ≡ group_start known registry (map package_view packages.items)) }
    ensures good { IfOk result (λ start. (accepts : Accepts) → IsOwnStore accepts (R.told registries.old)
        → AreGood accepts packages.items → IsGoodStart accepts start) }
    ensures sound { IfOk result (λ start. All IsSoundPackage packages.items
        → AreSound start.operator start.packages.items) }
    ensures packages { IfOk result (λ start. start.packages ≡ packages) }
    ensures fault { IfErr result (λ e. IsStartFault e registry
        (record {
          before = R.faults registries.old;
          after = R.faults registries.new;
          told = R.told registries.old;
        })) }
{
    let operator = operator_of(alloc, registries, registry.as_ref())?;
    let stored = registries.load_checkpoint(alloc, registry.as_ref())?;
    Ok(UpdateStart {
        registry,
        operator,
        packages,
        stored,
    })
}

/// What the update of a package begins with: its registry's name, by what is kept of the home registry and of
/// namespaces; the operator's log and the checkpoint that are kept of that registry; and an empty log of the package.
pub fn load_start<R: RegistryStorage, N: NamespaceMapStorage>(
    alloc: Global,
    registries: &mut R,
    namespaces: &mut N,
    name: &PackageName,
) -> Result<UpdateStart, StoreError>
    ensures registries_never_fall { R.faults registries.old ≤ R.faults registries.new }
    ensures names_never_fall { N.faults namespaces.old ≤ N.faults namespaces.new }
    ensures kept { IfSome (R.told registries.old) (Tells (R.told registries.new)) }
    ensures names_kept { N.told namespaces.new ≡ N.told namespaces.old }
    ensures registry { IfOk result (λ start. (known : Known) → KnowsRegistries (R.told registries.old) known
        → KnowsNames (N.told namespaces.old) known → start.registry ≡ registry_of known name.now) }
    ensures begins { IfOk result (λ start. (known : Known) → KnowsRegistries (R.told registries.old) known
        → start_view start ≡ start_by known start.registry name.now) }
    ensures good { IfOk result (λ start. (accepts : Accepts) → IsOwnStore accepts (R.told registries.old)
        → IsGoodStart accepts start) }
    ensures sound { IfOk result (λ start. AreSound start.operator start.packages.items) }
    ensures ids { IfOk result (λ start. map id_of start.packages.items ≡ package_log_id name.now ∷ []) }
    ensures fault { IfErr result (λ e. (known : Known) → KnowsRegistries (R.told registries.old) known
        → KnowsNames (N.told namespaces.old) known → IsOpeningFault e (registry_of known name.now)
        (record { before = R.faults registries.old; after = R.faults registries.new; told = R.told registries.old })
        (record {
          before = N.faults namespaces.old;
          after = N.faults namespaces.new;
          told = N.told namespaces.old;
        })) }
{
    let registry = registry_for(alloc, registries, namespaces, name.namespace())?;
    let mut packages = Vec::new(alloc);
    packages.push(PackageInfo::new(alloc, name.try_clone(alloc)?))?;
    start_of(alloc, registries, registry, packages)
}
