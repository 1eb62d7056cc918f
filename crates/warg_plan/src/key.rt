//! The keys of a plan's entries.

ghost use Rattle.std.specs.Prelude.{◌≡◌, IfOk, codes};
ghost use Rattle.warg_plan.specs.Keys.{Named as NamedKey};
ghost use Rattle.warg_plan.specs.View.{key_view};

use std::alloc::Global;
use warg_names::Import;
use warg_values::{Memory, Text};

/// The key of an entry: no two entries of a plan have the same.
///
/// `a:b` and `a:b@*` ask for the same import, and are one key.
#[derive(Debug, Drop, PartialEq, Eq, Hash)]
pub enum PlanKey {
    /// An instance that the text names.
    Named(Text),
    /// What the name of an import asks for.
    Parsed(Import),
}

impl PlanKey {
    /// The key of the instance `root`, at which a text's plan begins.
    pub fn root(alloc: Global) -> Result<Self, Memory>
        ensures { IfOk result (λ key. key_view key ≡ NamedKey (codes "root")) }
    {
        Ok(PlanKey::Named(Text::copy_of(alloc, "root")?))
    }

    /// A key of its own, the same as this one.
    pub fn try_clone(&self, alloc: Global) -> Result<Self, Memory>
        ensures { IfOk result (λ copy. key_view copy ≡ key_view self.now) }
    {
        Ok(match self {
            PlanKey::Named(name) => PlanKey::Named(name.try_clone(alloc)?),
            PlanKey::Parsed(import) => PlanKey::Parsed(import.try_clone(alloc)?),
        })
    }
}
