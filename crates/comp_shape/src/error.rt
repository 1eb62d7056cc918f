//! Why a component could not be read.

ghost use Rattle.std.specs.Prelude.{◌≡◌};
ghost use Rattle.comp_shape.specs.Refusal.{as_shape};
ghost use Rattle.comp_shape.specs.declared.error.ShapeError.TheVariants.{Memory as no_memory};

use comp_reader::ReadError;
use thiserror::Error;
use warg_values::Memory;

/// Why a component could not be read. The number is the place of the fault, in bytes from the start.
#[derive(Clone, Copy, Debug, PartialEq, Eq, Error)]
pub enum ShapeError {
    /// No form of the format stands there.
    #[error("the bytes at {0} are no part of a component: check that the file is whole, and a component")]
    Form(usize),
    /// A form stands there that is not carried, as values, start sections and asynchronous functions, or that has no part
    /// in a link image where one is read.
    #[error("the bytes at {0} are of a form that is not supported: leave out what uses it")]
    NotCarried(usize),
    /// The item there names nothing that is there, or what may not be named there, or has the name of another one, letter
    /// case set aside.
    #[error("the item at {0} names nothing that is there, or has the name of another one: build the component anew")]
    Index(usize),
    /// The item there is given, or exports, what does not fit.
    #[error("the item at {0} does not fit where it is put: check which components are put together")]
    DoesNotFit(usize),
    /// More scopes are open at one place, or a value type is deeper, than is carried.
    #[error("more than 32 scopes lie in each other, or a value type is more than 100 deep: nest less")]
    TooDeep,
    /// A type, an item, or the imports and exports have more nodes than are carried.
    #[error("a type, or what is imported and exported, has more than a million parts: divide it")]
    TooBig,
    /// No memory was left, or more than 200 scopes, or a thousand types, lie in each other.
    #[error("out of memory, or more than 200 scopes or 1000 types lie in each other: free some memory, or nest less")]
    Memory,
}

impl From<Memory> for ShapeError {
    ghost from_gives = { λ _ e. e ≡ no_memory };

    fn from(_error: Memory) -> ShapeError {
        ShapeError::Memory
    }
}

impl From<ReadError> for ShapeError {
    ghost from_gives = { λ refusal e. e ≡ as_shape refusal };

    fn from(error: ReadError) -> ShapeError {
        match error {
            ReadError::Form(at) => ShapeError::Form(at),
            ReadError::NotCarried(at) => ShapeError::NotCarried(at),
            ReadError::Memory => ShapeError::Memory,
        }
    }
}
