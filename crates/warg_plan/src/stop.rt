//! Why the walk goes no further.

ghost use Rattle.std.specs.Prelude.{◌≡◌};
ghost use Rattle.warg_plan.specs.declared.stop.Stop.TheVariants.{Memory as no_memory};

use crate::key::PlanKey;
use std::alloc::{AllocError, AllocFailed};
use thiserror::Error;
use warg_hash::{AnyHash, PackageName};
use warg_values::{Memory, Text};

/// Why the walk goes no further: something has to be asked for first, or there is no plan.
#[derive(Debug, Drop, Error)]
pub enum Stop {
    /// The log of this package is not known.
    #[error("the log of a package is not known yet: update the package, add its releases, and walk again")]
    NeedsLog(PackageName),
    /// The content of this digest, a release of the package, is not known.
    #[error("the content of a release is not known yet: load it, add it, and walk again")]
    NeedsContent(PackageName, AnyHash),
    /// The key asks for no package.
    #[error("an instance has a dependency that is no package: name one as `namespace:name`")]
    NoPackage(PlanKey),
    /// No release of the package is what is asked for.
    #[error("no release of a package is what is asked for: ask for another version, or release it")]
    NoRelease(PackageName),
    /// The name of an import is none.
    #[error("the name of an import can't be read: correct it in the component")]
    BadImportName(Text),
    /// An argument in the text, of this instance, names no import of it.
    #[error("an argument names no import of its instance: correct its name")]
    NoSuchImport(PlanKey, Text),
    /// The entry of the key needs itself.
    #[error("an instance needs itself: take out an argument or an import on the way back to it")]
    Cycle(PlanKey),
    /// As many keys as the walk follows are open at one place.
    #[error("more than 1,000 instances need each other in a row: nest less")]
    TooDeep,
    /// No memory was left.
    #[error("out of memory: free some, or give the program more, and try again")]
    Memory,
}

impl From<AllocError> for Stop {
    ghost from_gives = { λ _ e. e ≡ no_memory };

    fn from(_error: AllocError) -> Stop {
        Stop::Memory
    }
}

impl<T: Drop> From<AllocFailed<T>> for Stop {
    ghost from_gives = { λ _ e. e ≡ no_memory };

    fn from(_error: AllocFailed<T>) -> Stop {
        Stop::Memory
    }
}

impl From<Memory> for Stop {
    ghost from_gives = { λ _ e. e ≡ no_memory };

    fn from(_error: Memory) -> Stop {
        Stop::Memory
    }
}
