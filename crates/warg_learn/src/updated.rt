//! Under which registry each package was updated.

ghost use Rattle.std.specs.Prelude.{◌≡◌, Some, OnOk, OnErr, bytes_eq};
ghost use Rattle.indexmap.specs.IndexMap.{Updates};

use indexmap::IndexMap;
use warg_hash::PackageName;
use warg_url::RegistryDomain;
use warg_values::Memory;

/// Notes the name of the registry under which a package was updated.
pub fn note_registry(
    updated: &mut IndexMap<PackageName, Option<RegistryDomain>>,
    name: PackageName,
    registry: Option<RegistryDomain>,
) -> Result<(), Memory>
    ensures noted { OnOk result (Updates bytes_eq updated.old updated.new name (Some registry)) }
    ensures unchanged { OnErr result (updated.new.entries ≡ updated.old.entries) }
{
    updated.insert(name, registry)?;
    Ok(())
}
