//! Types that a WebAssembly component defines, read into a scope: resources, and types that are scopes of declarations,
//! with numbers of a table of types in place of trees. Beside them what such a scope imports and exports, closed: with
//! what it makes numbered by first mention.
//!
//! The terms are those of the Component Model's `Explainer.md`.
#![tactic(auto)]

mod closing;
mod core_types;
mod declarations;
pub mod laws;
mod orders;
mod resources;
mod scope_types;

pub use closing::{Sides, closed};
pub use core_types::add_core_type;
pub use declarations::add_type;
pub use scope_types::{component, component_type, instance_type};
