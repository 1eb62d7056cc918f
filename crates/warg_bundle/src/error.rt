//! Why a component is not bundled with the contents of releases.

ghost use Rattle.std.specs.Prelude.{◌≡◌};
ghost use Rattle.warg_bundle.specs.Errors.{of_shape};
ghost use Rattle.warg_bundle.specs.declared.error.BundleError.TheVariants.{Memory as no_memory, Search as of_search};

use comp_shape::ShapeError;
use std::fmt;
use thiserror::Error;
use warg_search::SearchError;
use warg_values::Memory;

/// Why a component is not bundled with the contents of releases.
#[derive(Debug, Drop, Error)]
pub enum BundleError<E: fmt::Debug + fmt::Display + Drop> {
    /// The bytes are no component.
    #[error("{0}")]
    BadComponent(ShapeError),
    /// The content of a release that an import asks for is not learnt.
    #[error("{0}")]
    Search(SearchError<E>),
    /// This length or count to be written, or number of items of one index space, is above 2^32 - 1.
    #[error("{0} is more than a component can count: bundle fewer or smaller components")]
    TooLarge(u64),
    /// No memory was left, or more than 200 scopes are open at one place of the bytes.
    #[error("out of memory, or more than 200 scopes are open at one place: free some memory, or nest less")]
    Memory,
}

impl<E: fmt::Debug + fmt::Display + Drop> From<Memory> for BundleError<E> {
    ghost from_gives = { λ _ e. e ≡ no_memory };

    fn from(_error: Memory) -> BundleError<E> {
        BundleError::Memory
    }
}

impl<E: fmt::Debug + fmt::Display + Drop> From<ShapeError> for BundleError<E> {
    ghost from_gives = { λ error e. e ≡ of_shape error };

    fn from(error: ShapeError) -> BundleError<E> {
        match error {
            ShapeError::Memory => BundleError::Memory,
            error => BundleError::BadComponent(error),
        }
    }
}

impl<E: fmt::Debug + fmt::Display + Drop> From<SearchError<E>> for BundleError<E> {
    ghost from_gives = { λ error e. e ≡ of_search error };

    fn from(error: SearchError<E>) -> BundleError<E> {
        BundleError::Search(error)
    }
}
