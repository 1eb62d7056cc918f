//! Values that are kept, and are sound.

ghost use Rattle.std.specs.Prelude.{◌≡◌, IfOk};

use std::alloc::Global;
use std::marker::Model;
use warg_values::Memory;

/// A value that a store in memory keeps, and gives copies of.
pub trait Stored: Drop {
    /// What clauses see of it.
    ghost Seen: { Type 0 };

    /// The value as clauses see it.
    ghost seen: { Self → Seen };

    /// Whether a store takes it.
    ghost IsSound: { Self → Type 0 };

    /// An equal value of its own, sound where this one is.
    fn copy(&self, alloc: Global) -> Result<Self, Memory>
        ensures same { IfOk result (λ copy. seen copy ≡ seen self.now) }
        ensures sound { IfOk result (λ copy. IsSound self.now → IsSound copy) };
}

/// A value that is sound. A clause sees the value.
#[derive(Debug, Drop)]
pub struct Sound<T: Stored> {
    value: T,
}

impl<T: Stored> Model for Sound<T> {
    ghost Value = { T };

    ghost coded = { T.code };

    ghost view = { λ s. s.value };

    ghost invariant = { λ s. T.IsSound s.value };
}

impl<T: Stored> Sound<T> {
    /// A copy of a sound value.
    pub fn copy_of(alloc: Global, value: &T) -> Result<Self, Memory>
        requires { T.IsSound value.now }
        ensures { IfOk result (λ copy. T.seen copy ≡ T.seen value.now) }
    {
        let value = value.copy(alloc)?;
        Ok(Sound { value })
    }

    /// A copy of the value.
    pub fn copy(&self, alloc: Global) -> Result<T, Memory>
        ensures same { IfOk result (λ copy. T.seen copy ≡ T.seen self.now) }
        ensures sound { IfOk result T.IsSound }
    {
        self.value.copy(alloc)
    }
}
