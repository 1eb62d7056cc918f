//! Which item of a component has no place in its scope, and why a component has no shape.

ghost use Rattle.std.specs.Prelude.{◌≡◌};
ghost use Rattle.comp_parts.specs.declared.error.ShapeError.TheVariants.{Item as of_item, Memory as no_memory};

use comp_space::ScopeError;
use thiserror::Error;
use warg_values::Memory;

/// Which item of a component has no place in its scope, and why.
#[derive(Clone, Copy, Debug, PartialEq, Eq)]
pub struct PartError {
    /// The number of the item that is at fault, from 0 on.
    pub item: usize,
    /// What is wrong with it.
    pub error: ScopeError,
}

/// Why a component of items has no shape.
#[derive(Clone, Copy, Debug, PartialEq, Eq, Error)]
pub enum ShapeError {
    /// An item has no place in its scope.
    #[error("an item names nothing that is there, does not fit, or passes a bound: build the component anew")]
    Item(PartError),
    /// The imports and exports have more than a million nodes.
    #[error("the imports and exports of a component have more than a million parts: divide it")]
    TooBig,
    /// No memory was left, or more than a thousand types and entities lie within each other, or more than 200 scopes.
    #[error("out of memory, or more than a thousand types lie in each other: free some memory, or nest less")]
    Memory,
}

impl From<PartError> for ShapeError {
    ghost from_gives = { λ part e. e ≡ of_item part };

    fn from(error: PartError) -> ShapeError {
        ShapeError::Item(error)
    }
}

impl From<Memory> for ShapeError {
    ghost from_gives = { λ _ e. e ≡ no_memory };

    fn from(_error: Memory) -> ShapeError {
        ShapeError::Memory
    }
}
