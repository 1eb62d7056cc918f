//! Bundles of components: nested components in the place of imports.
//!
//! The binary format is that of the Component Model's `Binary.md`, and what items mean is that of its `Explainer.md`.
#![tactic(auto)]

mod bundling;
mod error;
pub mod laws;

pub use bundling::bundle;
pub use comp_shape::ShapeError;
pub use error::BundleError;
