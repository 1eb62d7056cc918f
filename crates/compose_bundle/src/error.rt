//! Why components are not bundled.

ghost use Rattle.std.specs.Prelude.{◌≡◌};
ghost use Rattle.compose_bundle.specs.Errors.{of_encode, of_shape};
ghost use Rattle.compose_bundle.specs.declared.error.BundleError.TheVariants.{Memory as no_memory};

use comp_format::EncodeError;
use comp_shape::ShapeError;
use thiserror::Error;
use warg_values::Memory;

/// Why a component is not bundled.
#[derive(Clone, Copy, Debug, PartialEq, Eq, Error)]
pub enum BundleError {
    /// The bytes are no component.
    #[error("{0}")]
    BadComponent(ShapeError),
    /// This length or count to be written, or number of items of one index space, is above 2^32 - 1.
    #[error("{0} is more than a component can count: bundle fewer or smaller components")]
    TooLarge(u64),
    /// No memory was left, or more than 200 scopes are open at one place of the bytes.
    #[error("out of memory, or more than 200 scopes are open at one place: free some memory, or nest less")]
    Memory,
}

impl From<Memory> for BundleError {
    ghost from_gives = { λ _ e. e ≡ no_memory };

    fn from(_error: Memory) -> BundleError {
        BundleError::Memory
    }
}

impl From<EncodeError> for BundleError {
    ghost from_gives = { λ error e. e ≡ of_encode error };

    fn from(error: EncodeError) -> BundleError {
        match error {
            EncodeError::TooLarge(number) => BundleError::TooLarge(number),
            EncodeError::Memory => BundleError::Memory,
        }
    }
}

impl From<ShapeError> for BundleError {
    ghost from_gives = { λ error e. e ≡ of_shape error };

    fn from(error: ShapeError) -> BundleError {
        match error {
            ShapeError::Memory => BundleError::Memory,
            _ => BundleError::BadComponent(error),
        }
    }
}
