//! What is kept of the log of a package.

ghost use Rattle.std.specs.Prelude.{◌≡◌, None, [], IfOk};
ghost use Rattle.warg_info.specs.Info.{package_log, IsSoundPackage};

use crate::log::LogInfo;
use crate::registry::domain_clone;
use std::alloc::Global;
use warg_exchange::Checkpoint;
use warg_hash::PackageName;
use warg_record::PackageEntry;
use warg_url::RegistryDomain;
use warg_values::Memory;

/// What is kept of the log of a package.
#[derive(Debug, Drop)]
pub struct PackageInfo {
    /// The package's name.
    pub name: PackageName,
    /// The name of the registry that has the log, which the home registry has not.
    pub registry: Option<RegistryDomain>,
    /// The checkpoint under which the log was proved last.
    pub checkpoint: Option<Checkpoint>,
    /// The log.
    pub log: LogInfo<PackageEntry>,
}

impl PackageInfo {
    /// What is kept of a package before anything is known: an empty log, of the home registry.
    pub fn new(alloc: Global, name: PackageName) -> Self
        ensures name { result.name ≡ name }
        ensures registry { result.registry ≡ None }
        ensures checkpoint { result.checkpoint ≡ None }
        ensures empty { package_log result ≡ [] }
        ensures sound { IsSoundPackage result }
    {
        PackageInfo {
            name,
            registry: None,
            checkpoint: None,
            log: LogInfo::new(alloc),
        }
    }

    /// An equal info of its own.
    pub fn try_clone(&self, alloc: Global) -> Result<Self, Memory>
        ensures name { IfOk result (λ copy. copy.name ≡ self.now.name) }
        ensures registry { IfOk result (λ copy. copy.registry ≡ self.now.registry) }
        ensures checkpoint { IfOk result (λ copy. copy.checkpoint ≡ self.now.checkpoint) }
        ensures log { IfOk result (λ copy. package_log copy ≡ package_log self.now) }
        ensures sound { IfOk result (λ copy. IsSoundPackage self.now → IsSoundPackage copy) }
    {
        Ok(PackageInfo {
            name: self.name.try_clone(alloc)?,
            registry: domain_clone(alloc, self.registry.as_ref())?,
            checkpoint: self.checkpoint,
            log: self.log.try_clone(alloc)?,
        })
    }
}
