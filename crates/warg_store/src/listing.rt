//! Lists of the logs of packages, by their registries.

ghost use Rattle.std.specs.Prelude.{◌≡◌, ◌++◌, ◌∷◌, [], if◌then◌else◌, OnOk};
ghost use Rattle.warg_store.specs.Held.{Registry, is_registry};
ghost use Rattle.warg_store.specs.Listed.{HaveSome, infos_of};

use indexmap::IndexMap;
use std::alloc::Global;
use warg_info::PackageInfo;
use warg_url::RegistryDomain;
use warg_values::Memory;

/// Lists the log of a package behind those of its registry. It is refused for want of memory alone, and no clause says
/// what the lists have then.
pub fn list_package(
    alloc: Global,
    all: &mut IndexMap<Option<RegistryDomain>, Vec<PackageInfo>>,
    registry: Option<RegistryDomain>,
    info: PackageInfo,
) -> Result<(), Memory>
    ensures listed { OnOk result ((r : Registry) → infos_of all.new r
        ≡ infos_of all.old r ++ (if is_registry registry r then info ∷ [] else [])) }
    ensures have_some { OnOk result (HaveSome all.old → HaveSome all.new) }
{
    if let Some(list) = all.get_mut(&registry) {
        list.push(info)?;
        return Ok(());
    }
    let mut list = Vec::new(alloc);
    list.push(info)?;
    all.insert(registry, list)?;
    Ok(())
}
