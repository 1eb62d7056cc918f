//! Decisions that are not the client's own.

ghost use Rattle.std.specs.Prelude.{◌≡◌, Bool, true};
ghost use Rattle.warg_hint.specs.Hint.{is_same};

use warg_hash::PackageName;

/// Who decides, as a user who is asked.
///
/// `said` tells which answers a change of its state may have been: each answer is one that it says.
pub trait Decide: Drop {
    /// Whether between these states it may have given this answer.
    ghost said: { Self → Self → Bool → Bool };

    /// Whether a package is looked for in another registry, of which the registry tells for a namespace.
    fn follow_hint(&mut self, name: &PackageName, namespace: &str, registry: &str) -> bool
        ensures { said self.old self.new result ≡ true };

    /// Whether a package that no registry has is begun.
    fn init_package(&mut self, name: &PackageName) -> bool
        ensures { said self.old self.new result ≡ true };
}

/// The same answer always.
#[derive(Clone, Copy, Debug, PartialEq, Eq, Drop)]
pub struct AlwaysDecide {
    /// The answer.
    pub answer: bool,
}

impl Decide for AlwaysDecide {
    ghost said = { λ old _ answer. is_same old.answer answer };

    fn follow_hint(&mut self, _name: &PackageName, _namespace: &str, _registry: &str) -> bool {
        self.answer
    }

    fn init_package(&mut self, _name: &PackageName) -> bool {
        self.answer
    }
}
