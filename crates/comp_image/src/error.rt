//! Why items have no image.

ghost use Rattle.std.specs.Prelude.{◌≡◌};
ghost use Rattle.comp_image.specs.declared.error.ImageError.TheVariants.{Memory as no_memory};
ghost use Rattle.comp_image.specs.declared.error.ItemError.TheVariants.{Memory as no_item_memory};

use std::alloc::{AllocError, AllocFailed};
use thiserror::Error;
use warg_values::Memory;

/// Why items have no image.
#[derive(Clone, Copy, Debug, PartialEq, Eq, Error)]
pub enum ImageError {
    /// The item of this number, from 0 on, is of a kind that has no image, or is made of one that has none.
    #[error("item {0} has no part in a link image: link components of nested and imported components alone")]
    NotCarried(usize),
    /// No memory was left.
    #[error("out of memory: free some, or give the program more, and try again")]
    Memory,
}

/// Why one item has no image.
#[derive(Clone, Copy, Debug, PartialEq, Eq)]
pub enum ItemError {
    /// It is of a kind that has no image, or is made of one that has none.
    NotCarried,
    /// No memory was left.
    Memory,
}

impl From<AllocError> for ImageError {
    ghost from_gives = { λ _ e. e ≡ no_memory };

    fn from(_error: AllocError) -> ImageError {
        ImageError::Memory
    }
}

impl From<Memory> for ImageError {
    ghost from_gives = { λ _ e. e ≡ no_memory };

    fn from(_error: Memory) -> ImageError {
        ImageError::Memory
    }
}

impl From<Memory> for ItemError {
    ghost from_gives = { λ _ e. e ≡ no_item_memory };

    fn from(_error: Memory) -> ItemError {
        ItemError::Memory
    }
}

impl<T: Drop> From<AllocFailed<T>> for ItemError {
    ghost from_gives = { λ _ e. e ≡ no_item_memory };

    fn from(_error: AllocFailed<T>) -> ItemError {
        ItemError::Memory
    }
}
