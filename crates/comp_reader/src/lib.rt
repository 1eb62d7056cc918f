//! Readers of WebAssembly components: the items of a component, as its bytes have them.
//!
//! The binary format is that of the Component Model's `Binary.md`. What its items and types are, and what their bytes
//! are, stands in the crate `comp_format`.
#![tactic(auto)]

mod canons;
mod core_types;
mod definitions;
mod error;
mod items;
mod parts;
mod places;
mod read;
mod refusal;
mod values;

pub use comp_format::Item;
pub use error::ReadError;
pub use items::read_items;
pub use places::{ItemPlace, RawSection, item_place, read_section};
