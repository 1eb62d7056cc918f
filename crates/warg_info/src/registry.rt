//! Names of registries that may be missing.

ghost use Rattle.std.specs.Prelude.{◌≡◌, IfOk, option_copied};

use std::alloc::Global;
use warg_url::RegistryDomain;
use warg_values::Memory;

/// An equal name of its own, where there is one.
pub fn domain_clone(
    alloc: Global,
    domain: Option<&RegistryDomain>,
) -> Result<Option<RegistryDomain>, Memory>
    ensures { IfOk result (λ copy. copy ≡ option_copied domain.entry) }
{
    match domain {
        Some(domain) => Ok(Some(domain.try_clone(alloc)?)),
        None => Ok(None),
    }
}
