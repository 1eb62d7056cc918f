//! The link image of a WebAssembly component: which components it nests or imports, which instances it makes of them with
//! what arguments, what it imports, and which export of which instance each of its exports is.
//!
//! The terms are those of the Component Model's `Explainer.md`.
#![tactic(auto)]

mod arguments;
mod error;
mod image;
mod items;
mod numbered;
mod progress;
mod read;

pub use error::ImageError;
pub use image::{ArgOf, ComponentOf, ExportOf, Image, MadeInstance};
pub use read::image_of;
